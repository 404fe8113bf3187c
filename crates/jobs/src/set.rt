ghost use Rattle.std.specs.Prelude.{◌≡◌, ℕ, true, false, not, ◌&&◌, ◌||◌, ◌==◌, nat_eq, nat_lt};
ghost use Rattle.jobs.specs.Sets.{lowest, how_many, any_below};
ghost use Rattle.jobs.specs.Jobs.{member, no_jobs, jobs_where, number_in};

use crate::job::Job;
use crate::members::Members;

// A set of jobs: bit k of the number stands for the job k.
#[derive(Clone, Copy, PartialEq, Eq, Debug)]
pub struct JobSet {
    bits: u16,
}

#[tactic(auto, using(crate::proofs::Jobs::operations))]
impl JobSet {
    // The set of nobody.
    pub fn empty() -> JobSet
        ensures value { result ≡ no_jobs }
        ensures members { (k : ℕ) → member result k ≡ false }
    {
        JobSet { bits: 0 }
    }

    // The set of all jobs.
    pub fn all() -> JobSet
        ensures value { result ≡ jobs_where (λ k. true) }
        ensures members { (k : ℕ) → member result k ≡ nat_lt k 16 }
    {
        JobSet { bits: u16::MAX }
    }

    // The set of one job.
    pub fn of(job: Job) -> JobSet
        ensures value { result ≡ jobs_where (λ k. nat_eq k job.number) }
        ensures members { (k : ℕ) → member result k ≡ (k == job.number) }
    {
        JobSet {
            bits: 1 << job.number(),
        }
    }

    // The set with that job.
    pub fn insert(self, job: Job) -> JobSet
        ensures value { result ≡ jobs_where (λ k. member self k || k == job.number) }
        ensures members { (k : ℕ) → member result k ≡ (member self k || k == job.number) }
    {
        self.union(JobSet::of(job))
    }

    // The set without that job.
    pub fn remove(self, job: Job) -> JobSet
        ensures value { result ≡ jobs_where (λ k. member self k && not (k == job.number)) }
        ensures members { (k : ℕ) → member result k ≡ (member self k && not (k == job.number)) }
    {
        self.difference(JobSet::of(job))
    }

    // Whether the job is a member.
    pub fn contains(self, job: Job) -> bool
        ensures { result ≡ member self job.number }
    {
        self.bits >> job.number() & 1 == 1
    }

    // The members of either set.
    pub fn union(self, other: JobSet) -> JobSet
        ensures value { result ≡ jobs_where (λ k. member self k || member other k) }
        ensures members { (k : ℕ) → member result k ≡ (member self k || member other k) }
    {
        JobSet {
            bits: self.bits | other.bits,
        }
    }

    // The members of both sets.
    pub fn intersection(self, other: JobSet) -> JobSet
        ensures value { result ≡ jobs_where (λ k. member self k && member other k) }
        ensures members { (k : ℕ) → member result k ≡ (member self k && member other k) }
    {
        JobSet {
            bits: self.bits & other.bits,
        }
    }

    // The members of this set that the other one lacks.
    pub fn difference(self, other: JobSet) -> JobSet
        ensures value { result ≡ jobs_where (λ k. member self k && not (member other k)) }
        ensures members { (k : ℕ) → member result k ≡ (member self k && not (member other k)) }
    {
        JobSet {
            bits: self.bits & !other.bits,
        }
    }

    // Whether nobody is a member.
    pub fn is_empty(self) -> bool
        ensures value { result ≡ (self.bits == 0) }
        ensures members { result ≡ not (any_below (member self) 16) }
    {
        self.bits == 0
    }

    // The member of the lowest number.
    pub fn lowest(self) -> Option<Job>
        ensures { number_in result ≡ lowest (member self) 16 }
    {
        // the cast is shown to lose nothing, where `try_from` would have a branch that never comes
        Job::new(self.bits.trailing_zeros() as u8)
    }

    // How many members there are.
    pub fn count(self) -> u8
        ensures { result ≡ how_many (member self) 16 }
    {
        // as for the lowest
        self.bits.count_ones() as u8
    }

    // The members in rising order.
    pub fn members(self) -> Members
        ensures { result.left ≡ self }
    {
        Members::new(self)
    }
}
