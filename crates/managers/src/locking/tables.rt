ghost use Rattle.std.specs.Prelude.{◌≡◌, ℕ, ◌<◌, true, ◌++◌, length, drop, is_ok, IfOk, IfErr, None, MatchResult, OnErr, OnOk};
ghost use Rattle.jobs.specs.Sets.{lowest};
ghost use Rattle.jobs.specs.Jobs.{member, number_in};
ghost use Rattle.rules.specs.declared.access.Access.TheVariants.{Read, Write};
ghost use Rattle.rules.specs.Manager.{fresh, conflict_of};
ghost use Rattle.rules.specs.Calls.{Obeys, read_of, write_of};
ghost use Rattle.managers.specs.Memory.{can_set_up};
ghost use Rattle.managers.specs.Tables.{count_of};
ghost use Rattle.managers.specs.Locking.{no_lock, is_writer, holds, rivals, access_fault, ReaderNoted, WriterNoted, LeftOf, JobLeft, held_by, meaning_of, admits_none, AdmitsNoConflict};
ghost use Rattle.managers.specs.LockLaws.{jobs_write};

use crate::calls;
use crate::locking::{Lock, Locks};
use crate::memory::Count;
use crate::tables::Tables;
use jobs::job::Job;
use jobs::set::JobSet;
use rules::access::Access;
use rules::fault::ManagerFault;

// A locking manager accepts no access that conflicts with another job's pending access, since none of these is admitted.
// Computes nothing: its contract is the theorem.
pub fn admits_no_conflict<V>()
    ensures { AdmitsNoConflict V }
{}

// Sets a locking manager up, as `managers::calls::set_up_in` does a manager of any kind: here the kind need not be named.
pub fn set_up_in<V: Copy>(values: &mut [V], starting: &[V]) -> Result<Locks, ManagerFault>
    ensures accepted { is_ok result ≡ can_set_up (length starting.now) (length values.old) }
    ensures fresh { IfOk result (λ t. meaning_of t values.new ≡ fresh starting.now) }
    ensures count { IfOk result (λ t. (t.count.number ≡ length starting.now) × (count_of (held_by t) ≡ length starting.now)) }
    ensures memory { OnOk result (values.new ≡ starting.now ++ drop (length starting.now) values.old) }
    ensures refusal_changes_nothing { IfErr result (λ f. (f ≡ ManagerFault.NoRoom) × (values.new ≡ values.old)) }
{
    calls::set_up_in(values, starting)
}

impl Lock {
    fn new() -> Lock
        ensures { result ≡ no_lock }
    {
        Lock {
            readers: JobSet::empty(),
            writer: None,
        }
    }

    // Whether the pending write is the job's.
    fn is_writer(self, job: Job) -> bool
        ensures { result ≡ is_writer self job.number }
    {
        self.writer == Some(job)
    }

    // The jobs with a pending write: one or none.
    fn writers(self) -> JobSet
        ensures { (k : ℕ) → member result k ≡ is_writer self k }
    {
        self.writer.map_or_else(JobSet::empty, JobSet::of)
    }

    // Whether the job has a pending access.
    fn holds(self, job: Job) -> bool
        ensures { result ≡ holds self job.number }
    {
        self.readers.contains(job) || self.is_writer(job)
    }

    // The lowest job whose pending access conflicts with such an access of the job.
    fn conflict(self, job: Job, access: Access) -> Option<Job>
        ensures { number_in result ≡ lowest (rivals self job.number access) 16 }
    {
        // as for a record of an open manager, but here one job writes at most, and the lowest is asked for
        let holders = match access {
            Access::Read => self.writers(),
            Access::Write => self.readers.union(self.writers()),
        };
        holders.remove(job).lowest()
    }

    // The lock without the accesses of the job.
    fn without(self, job: Job) -> Lock
        ensures { LeftOf self job.number result }
    {
        Lock {
            readers: self.readers.remove(job),
            writer: self.writer.filter(|writer| *writer != job),
        }
    }
}

impl Locks {
    // Refuses the job if it may not access the parameter so.
    fn admit(&self, job: Job, parameter: u8, access: Access) -> Result<(), ManagerFault>
        ensures { MatchResult result (λ _. access_fault self.now job.number parameter access ≡ None) (λ f. access_fault self.now job.number parameter access ≡ Some f) }
    {
        if parameter >= self.count.number() {
            return Err(ManagerFault::NoParameter);
        }
        if self.voted.contains(job) {
            return Err(ManagerFault::Voted);
        }
        // a match says plainly that somebody is a refusal, and nobody none
        match self.locks[usize::from(parameter)].conflict(job, access) {
            Some(rival) => Err(ManagerFault::Conflict(rival.number())),
            None => Ok(()),
        }
    }

    // The job becomes a pending reader of the parameter.
    fn note_reader(&mut self, parameter: u8, job: Job)
        requires { parameter < self.old.count.number }
        ensures { ReaderNoted self.old parameter job.number self.new }
    {
        // indexed twice: a lock that is borrowed as `&mut self.locks[i]` gets no proof here
        let i = usize::from(parameter);
        self.locks[i].readers = self.locks[i].readers.insert(job);
    }

    // The job gets the pending write of the parameter.
    fn note_writer(&mut self, parameter: u8, job: Job)
        requires { parameter < self.old.count.number }
        ensures { WriterNoted self.old parameter job self.new }
    {
        self.locks[usize::from(parameter)].writer = Some(job);
    }

    // The job leaves every lock and the votes.
    fn leave(&mut self, job: Job)
        ensures { JobLeft self.old job.number self.new }
    {
        for lock in &mut self.locks {
            *lock = lock.without(job);
        }
        self.voted = self.voted.remove(job);
    }
}

impl Tables for Locks {
    ghost meaning = { held_by };

    ghost admits = { λ t. admits_none };

    ghost jobs_write = { jobs_write };

    fn new(count: Count) -> Locks {
        Locks {
            count,
            locks: [Lock::new(); 64],
            voted: JobSet::empty(),
        }
    }

    fn parameters(&self) -> u8 {
        self.count.number()
    }

    fn is_pending(&self, job: Job) -> bool {
        self.locks[..usize::from(self.count.number())]
            .iter()
            .any(|lock| lock.holds(job))
    }

    fn has_voted(&self, job: Job) -> bool {
        self.voted.contains(job)
    }

    fn last_writer(&self, parameter: u8) -> Option<Job> {
        self.locks.get(usize::from(parameter))?.writer
    }

    fn is_writer(&self, parameter: u8, job: Job) -> bool {
        self.locks
            .get(usize::from(parameter))
            .is_some_and(|lock| lock.is_writer(job))
    }

    fn read(&mut self, job: Job, parameter: u8) -> Result<(), ManagerFault>
        ensures follows_the_rules { Obeys (read_of admits_none (held_by self.old) job.number parameter) result (held_by self.new) }
        ensures refusal_changes_nothing { OnErr result (self.new ≡ self.old) }
        ensures admits_no_conflict { is_ok result ≡ true → conflict_of (held_by self.old) job.number parameter Read ≡ None }
    {
        self.admit(job, parameter, Access::Read)?;
        self.note_reader(parameter, job);
        Ok(())
    }

    fn write(&mut self, job: Job, parameter: u8) -> Result<(), ManagerFault>
        ensures follows_the_rules { Obeys (write_of admits_none (held_by self.old) job.number parameter tt) result (held_by self.new) }
        ensures refusal_changes_nothing { OnErr result (self.new ≡ self.old) }
        ensures admits_no_conflict { is_ok result ≡ true → conflict_of (held_by self.old) job.number parameter Write ≡ None }
    {
        self.admit(job, parameter, Access::Write)?;
        self.note_writer(parameter, job);
        Ok(())
    }

    // Nobody precedes the job, and it read from nobody, so nobody is in the way.
    fn vote(&mut self, job: Job) -> Result<(), ManagerFault> {
        self.voted = self.voted.insert(job);
        Ok(())
    }

    // Nobody precedes the committed job, so nobody is lost.
    fn commit(&mut self, job: Job) -> JobSet {
        self.leave(job);
        JobSet::empty()
    }

    // Nobody read from the job rolled back, so nobody else is lost.
    fn roll_back(&mut self, job: Job) -> JobSet {
        self.leave(job);
        JobSet::empty()
    }
}
