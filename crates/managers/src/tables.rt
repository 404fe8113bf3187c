ghost use Rattle.std.specs.Prelude.{◌≡◌, ℕ, ◌<◌, true, length, OnErr};
ghost use Rattle.jobs.specs.Jobs.{number_in};
ghost use Rattle.rules.specs.Manager.{last_writer, wrote, pending};
ghost use Rattle.rules.specs.Changes.{lost_to_commit, lost_to_roll_back};
ghost use Rattle.rules.specs.Calls.{Admits, Obeys, read_of, write_of};
ghost use Rattle.managers.specs.Tables.{Held, count_of, unused, vote_if_free, Leaves};

use crate::memory::Count;
use jobs::job::Job;
use jobs::set::JobSet;
use rules::fault::ManagerFault;

// The tables of a kind of manager: who reads and who writes which parameter, and how jobs are related. They keep no values,
// and so are the same for every kind of value. The job of a call has been found before; its parameter may be any number. Each
// access says by itself that a refusal leaves the tables, since what they mean does not tell it.
pub trait Tables {
    // What the tables hold.
    ghost meaning: { Self → Held };

    // Which conflicting accesses they admit, by their contents.
    ghost admits: { Self → Admits };

    // Tables that nobody has used.
    fn new(count: Count) -> Self
        ensures { meaning result ≡ unused count.number };

    // For how many parameters the tables are.
    fn parameters(&self) -> u8
        ensures { result ≡ count_of (meaning self.now) };

    // Whether the job has a pending access to any parameter.
    fn is_pending(&self, job: Job) -> bool
        ensures { result ≡ pending (meaning self.now) job.number };

    // Whether the job has voted.
    fn has_voted(&self, job: Job) -> bool
        ensures { result ≡ (meaning self.now).voted job.number };

    // The job of the last pending write of the parameter, if there is one.
    fn last_writer(&self, parameter: u8) -> Option<Job>
        ensures { number_in result ≡ last_writer ((meaning self.now).writes parameter) };

    // Whether the job has a pending write of the parameter.
    fn is_writer(&self, parameter: u8, job: Job) -> bool
        ensures { result ≡ wrote job.number ((meaning self.now).writes parameter) };

    // A read of the parameter by the job.
    fn read(&mut self, job: Job, parameter: u8) -> Result<(), ManagerFault>
        ensures follows_the_rules { Obeys (read_of (admits self.old) (meaning self.old) job.number parameter) result (meaning self.new) }
        ensures refusal_changes_nothing { OnErr result (self.new ≡ self.old) };

    // A write of the parameter by the job.
    fn write(&mut self, job: Job, parameter: u8) -> Result<(), ManagerFault>
        ensures follows_the_rules { Obeys (write_of (admits self.old) (meaning self.old) job.number parameter tt) result (meaning self.new) }
        ensures refusal_changes_nothing { OnErr result (self.new ≡ self.old) };

    // The vote for a job, unless another is in the way of it.
    fn vote(&mut self, job: Job) -> Result<(), ManagerFault>
        ensures follows_the_rules { Obeys (vote_if_free (meaning self.old) job.number) result (meaning self.new) }
        ensures refusal_changes_nothing { OnErr result (self.new ≡ self.old) };

    // The job leaves, and those that precede it are rolled back. Tells who was.
    fn commit(&mut self, job: Job) -> JobSet
        ensures follows_the_rules { Leaves (meaning self.old) (lost_to_commit (meaning self.old) job.number) job.number result (meaning self.new) };

    // The job leaves, and those that read from it are rolled back. Tells who was.
    fn roll_back(&mut self, job: Job) -> JobSet
        ensures follows_the_rules { Leaves (meaning self.old) (lost_to_roll_back (meaning self.old) job.number) job.number result (meaning self.new) };

    // Only jobs write.
    ghost jobs_write: { (t : Self) (p k : ℕ) → wrote k ((meaning t).writes p) ≡ true → k < 16 };
}
