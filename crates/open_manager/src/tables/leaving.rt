// How jobs leave the tables of an open manager.

ghost use Rattle.std.specs.Prelude.{◌≡◌, ◌^◌, ◌<◌, nat_eq};
ghost use Rattle.jobs.specs.Jobs.{member};
ghost use Rattle.open_manager.specs.Order.{reads_from, is_pending};
ghost use Rattle.open_manager.specs.RollBack.{RolledBack};
ghost use Rattle.open_manager.specs.Open.{Left};

use crate::OpenTables;
use jobs::job::Job;
use jobs::set::JobSet;

impl OpenTables {
    // The job leaves every record, both relations and both sets.
    #[tactic(auto, using(crate::proofs::Holding::holds_left))]
    pub(super) fn leave(&mut self, job: Job)
        ensures { Left self.old (λ k. nat_eq k job.number) self.new }
    {
        self.order = self.order.without(job);
        self.records.leave(job);
    }

    // Rolls the job back if it is still pending, and then each that read from it. Tells who was rolled back.
    #[cycle(roll_back_each_roll_back_one)]
    pub(super) fn roll_back_one(&mut self, job: Job) -> JobSet
        ensures left { Left self.old (member result) self.new }
        ensures gone { RolledBack (λ k. nat_eq k job.number) (reads_from self.old.order) (is_pending self.old.order) (member result) }
    {
        if !self.order.is_pending(job) {
            return JobSet::empty();
        }
        let readers = self.order.readers_of(job);
        self.leave(job);
        self.roll_back_each(readers).insert(job)
    }

    // Rolls each of the jobs back that is still pending, such as the readers of one that was. Tells who was rolled back.
    #[cycle(roll_back_each_roll_back_one)]
    pub(super) fn roll_back_each(&mut self, jobs: JobSet) -> JobSet
        ensures left { Left self.old (member result) self.new }
        ensures gone { RolledBack (member jobs) (reads_from self.old.order) (is_pending self.old.order) (member result) }
        ensures fits { result.bits < 2 ^ 16 }
    {
        let mut gone = JobSet::empty();
        for job in jobs {
            gone = gone.union(self.roll_back_one(job));
        }
        gone
    }
}
