// The operations on a relation. Each takes it by value, and gives the new one back or answers a question.

ghost use Rattle.std.specs.Prelude.{◌≡◌, ℕ, false, not, ◌&&◌, ◌||◌, if◌then◌else◌, ◌==◌, nat_eq};
ghost use Rattle.jobs.specs.Jobs.{member, no_jobs, jobs_where};
ghost use Rattle.jobs.specs.Relations.{row, related};

use crate::job::Job;
use crate::relation::Relation;
use crate::set::JobSet;

impl Relation {
    // The relation of nobody to anybody.
    pub fn empty() -> Relation
        ensures rows { (i : ℕ) → row result i ≡ no_jobs }
        ensures pairs { (i k : ℕ) → related result i k ≡ false }
    {
        Relation {
            rows: [JobSet::empty(); 16],
        }
    }

    // The relation with an edge from each of those jobs to the one.
    pub fn with_edges(self, from: JobSet, to: Job) -> Relation
        ensures rows { (i : ℕ) → row result i ≡ (if member from i then jobs_where (λ k. related self i k || k == to.number) else row self i) }
        ensures pairs { (i k : ℕ) → related result i k ≡ (related self i k || (member from i && k == to.number)) }
    {
        let mut rows = self.rows;
        for job in from {
            let row = &mut rows[usize::from(job)];
            *row = row.insert(to);
        }
        Relation { rows }
    }

    // The relation without the edges to and from that job.
    pub fn without(self, job: Job) -> Relation
        ensures rows { (i : ℕ) → row result i ≡ (if nat_eq i job.number then no_jobs else jobs_where (λ k. related self i k && not (k == job.number))) }
        ensures pairs { (i k : ℕ) → related result i k ≡ (related self i k && (not (i == job.number) && not (k == job.number))) }
    {
        let mut rows = self.rows;
        for row in &mut rows {
            *row = row.remove(job);
        }
        rows[usize::from(job)] = JobSet::empty();
        Relation { rows }
    }

    // The jobs to which that job is related.
    pub fn successors(self, job: Job) -> JobSet
        ensures value { result ≡ row self job.number }
        ensures members { (k : ℕ) → member result k ≡ related self job.number k }
    {
        self.rows[usize::from(job)]
    }

    // The jobs that are related to that job.
    pub fn predecessors(self, job: Job) -> JobSet
        ensures value { result ≡ jobs_where (λ i. related self i job.number) }
        ensures members { (i : ℕ) → member result i ≡ related self i job.number }
    {
        // inserted one by one: what is collected wants an allocator, and a fold is no plainer
        let mut found = JobSet::empty();
        for other in JobSet::all() {
            if self.rows[usize::from(other)].contains(job) {
                found = found.insert(other);
            }
        }
        found
    }
}
