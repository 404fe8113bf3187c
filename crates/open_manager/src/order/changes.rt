// The changes of the order between jobs. An access and a vote change it in place, since as the value of a `Result` it would be
// copied twice. A leave takes it by value and gives the new one back.

ghost use Rattle.std.specs.Prelude.{◌≡◌, ℕ, true, false, not, ◌&&◌, ◌||◌, None, Some, ◌==◌, MatchResult};
ghost use Rattle.jobs.specs.Sets.{names};
ghost use Rattle.jobs.specs.Jobs.{member, number_in};
ghost use Rattle.jobs.specs.Relations.{related};
ghost use Rattle.open_manager.specs.Order.{precedes, reads_from, is_pending, has_voted, source_in, rival_in, obstacle, Idle, WithAccess, WithVote, WithoutJob};

use crate::order::Order;
use jobs::job::Job;
use jobs::relation::Relation;
use jobs::set::JobSet;
use rules::fault::ManagerFault;

impl Order {
    // Nobody is pending.
    pub(crate) fn new() -> Order
        ensures { Idle result }
    {
        Order {
            precedes: Relation::empty(),
            reads_from: Relation::empty(),
            pending: JobSet::empty(),
            voted: JobSet::empty(),
        }
    }

    pub(crate) fn is_pending(self, job: Job) -> bool
        ensures { result ≡ is_pending self job.number }
    {
        self.pending.contains(job)
    }

    pub(crate) fn has_voted(self, job: Job) -> bool
        ensures { result ≡ has_voted self job.number }
    {
        self.voted.contains(job)
    }

    // The lowest job that the job read from.
    fn source(self, job: Job) -> Option<Job>
        ensures { number_in result ≡ source_in self job.number }
    {
        self.reads_from.successors(job).lowest()
    }

    // Those that precede the job or are preceded by it.
    fn in_order_with(self, job: Job) -> JobSet
        ensures { (k : ℕ) → member result k ≡ (precedes self k job.number || precedes self job.number k) }
    {
        self.precedes
            .predecessors(job)
            .union(self.precedes.successors(job))
    }

    // The lowest voted job that precedes the job or is preceded by it.
    fn rival(self, job: Job) -> Option<Job>
        ensures { number_in result ≡ rival_in self job.number }
    {
        self.voted.intersection(self.in_order_with(job)).lowest()
    }

    // Those that precede the job.
    pub(crate) fn ahead_of(self, job: Job) -> JobSet
        ensures { (k : ℕ) → member result k ≡ precedes self k job.number }
    {
        self.precedes.predecessors(job)
    }

    // Those that read from the job.
    pub(crate) fn readers_of(self, job: Job) -> JobSet
        ensures { (k : ℕ) → member result k ≡ reads_from self k job.number }
    {
        self.reads_from.predecessors(job)
    }

    // An access of the job, which those of `earlier` precede from now on, and which reads from `source` if that is another job.
    // Refused where the job has voted.
    pub(crate) fn add_access(
        &mut self,
        job: Job,
        earlier: JobSet,
        source: Option<Job>,
    ) -> Result<(), ManagerFault>
        requires others { member earlier job.number ≡ false }
        requires pending { (k : ℕ) → member earlier k ≡ true → is_pending self.old k ≡ true }
        ensures { MatchResult result (λ _. (has_voted self.old job.number ≡ false) × WithAccess self.old job.number earlier (number_in source) self.new) (λ f. (has_voted self.old job.number ≡ true) × (f ≡ ManagerFault.Voted) × (self.new ≡ self.old)) }
    {
        if self.has_voted(job) {
            return Err(ManagerFault::Voted);
        }
        *self = Order {
            precedes: self.precedes.with_edges(earlier, job),
            reads_from: self.reading_from(job, source),
            pending: self.pending.insert(job),
            voted: self.voted,
        };
        Ok(())
    }

    // The relation with a read by the job from the source, unless that is the job itself or nobody.
    fn reading_from(self, job: Job, source: Option<Job>) -> Relation
        ensures { (k i : ℕ) → related result k i ≡ (reads_from self k i || (k == job.number && not (i == job.number) && names (number_in source) i)) }
    {
        source
            .filter(|other| *other != job)
            .map_or(self.reads_from, |other| {
                self.reads_from.with_edges(JobSet::of(job), other)
            })
    }

    // The vote for the job. Refused where it read from a pending job, or stands in an order with a voted one.
    pub(crate) fn add_vote(&mut self, job: Job) -> Result<(), ManagerFault>
        ensures { MatchResult result (λ _. (obstacle self.old job.number ≡ None) × WithVote self.old job.number self.new) (λ f. (obstacle self.old job.number ≡ Some f) × (self.new ≡ self.old)) }
    {
        // each is taken apart plainly: somebody in the way is a refusal, and nobody none
        if let Some(source) = self.source(job) {
            return Err(ManagerFault::ReadFrom(source.number()));
        }
        if let Some(rival) = self.rival(job) {
            return Err(ManagerFault::Ordered(rival.number()));
        }
        self.voted = self.voted.insert(job);
        Ok(())
    }

    // Without the job.
    pub(crate) fn without(self, job: Job) -> Order
        ensures { WithoutJob self job.number result }
    {
        Order {
            precedes: self.precedes.without(job),
            reads_from: self.reads_from.without(job),
            pending: self.pending.remove(job),
            voted: self.voted.remove(job),
        }
    }
}
