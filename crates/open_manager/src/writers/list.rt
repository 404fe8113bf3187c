ghost use Rattle.std.specs.Prelude.{◌≡◌, ℕ, [], ◌∷◌, nat_eq};
ghost use Rattle.jobs.specs.Jobs.{member, number_in};
ghost use Rattle.open_manager.specs.Lists.{among, leaving, last_listed};
ghost use Rattle.open_manager.specs.Writers.{listed};

use crate::writers::Writers;
use arrayvec::ArrayVec;
use jobs::job::Job;
use jobs::set::JobSet;

impl Writers {
    // Nobody writes.
    pub(crate) fn new() -> Writers
        ensures { listed result ≡ [] }
    {
        Writers {
            jobs: ArrayVec::new(),
        }
    }

    // The job of the last write, if there is one.
    pub(crate) fn last(&self) -> Option<Job>
        ensures { number_in result ≡ last_listed (listed self.now) }
    {
        self.jobs.last().copied()
    }

    // Whether the job is among them.
    pub(crate) fn contains(&self, job: Job) -> bool
        ensures { result ≡ among (listed self.now) job.number }
    {
        self.jobs.contains(&job)
    }

    // All of them.
    pub(crate) fn jobs(&self) -> JobSet
        ensures { (k : ℕ) → member result k ≡ among (listed self.now) k }
    {
        // inserted one by one: what is collected wants an allocator, and a fold is no plainer
        let mut found = JobSet::empty();
        for job in self.jobs.iter() {
            found = found.insert(*job);
        }
        found
    }

    // The write of the job goes.
    pub(crate) fn remove(&mut self, job: Job)
        ensures { listed self.new ≡ leaving (λ k. nat_eq k job.number) (listed self.old) }
    {
        self.jobs.retain(|writer| *writer != job);
    }

    // The last write is the job's; its earlier one goes.
    pub(crate) fn push(&mut self, job: Job)
        ensures { listed self.new ≡ job.number ∷ leaving (λ k. nat_eq k job.number) (listed self.old) }
    {
        self.remove(job);
        self.jobs.push(job);
    }
}
