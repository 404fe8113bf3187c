ghost use Rattle.std.specs.Prelude.{◌≡◌, ℕ, ◌<◌, ◌≤◌, ◌++◌, length, drop, Err, is_ok, IfOk, IfErr, MatchResult, OnErr, OnOk, ◌≢◌};
ghost use Rattle.rules.specs.declared.fault.ManagerFault.TheVariants.{Conflict};
ghost use Rattle.rules.specs.Manager.{fresh};
ghost use Rattle.rules.specs.Calls.{Obeys, read_of, write_of};
ghost use Rattle.managers.specs.Memory.{can_set_up};
ghost use Rattle.managers.specs.Tables.{count_of};
ghost use Rattle.open_manager.specs.Open.{record_in, admits_all, AdmitsEveryConflict, held_by, meaning_of};
ghost use Rattle.open_manager.specs.Laws.{jobs_write};

mod leaving;

use crate::OpenTables;
use crate::order::Order;
use crate::records::{Record, Records};
use jobs::job::Job;
use jobs::set::JobSet;
use managers::calls;
use managers::memory::Count;
use managers::tables::Tables;
use rules::access::Access;
use rules::fault::ManagerFault;

// No access is stopped at an open manager, whichever others it conflicts with, since all of these are admitted. Computes
// nothing: its contract is the theorem.
pub fn admits_every_conflict<V>()
    ensures { AdmitsEveryConflict V }
{}

// Sets an open manager up, as `managers::calls::set_up_in` does a manager of any kind: here the kind need not be named.
pub fn set_up_in<V: Copy>(values: &mut [V], starting: &[V]) -> Result<OpenTables, ManagerFault>
    ensures accepted { is_ok result ≡ can_set_up (length starting.now) (length values.old) }
    ensures fresh { IfOk result (λ t. meaning_of t values.new ≡ fresh starting.now) }
    ensures count { IfOk result (λ t. (t.count.number ≡ length starting.now) × (count_of (held_by t) ≡ length starting.now)) }
    ensures memory { OnOk result (values.new ≡ starting.now ++ drop (length starting.now) values.old) }
    ensures refusal_changes_nothing { IfErr result (λ f. (f ≡ ManagerFault.NoRoom) × (values.new ≡ values.old)) }
{
    calls::set_up_in(values, starting)
}

impl OpenTables {
    // The record of the parameter, which is refused where it is not there.
    fn found(&self, parameter: u8) -> Result<&Record, ManagerFault>
        ensures { MatchResult result (λ r. (parameter < self.now.count.number) × (r.now ≡ record_in self.now parameter)) (λ f. (self.now.count.number ≤ parameter) × (f ≡ ManagerFault.NoParameter)) }
    {
        self.records
            .get(parameter)
            .filter(|_| parameter < self.count.number())
            .ok_or(ManagerFault::NoParameter)
    }
}

impl Tables for OpenTables {
    ghost meaning = { held_by };

    ghost admits = { λ t. admits_all };

    ghost jobs_write = { jobs_write };

    #[tactic(auto, using(crate::proofs::Holding::holds_none, jobs::proofs::Jobs::member_none))]
    fn new(count: Count) -> OpenTables {
        OpenTables {
            count,
            records: Records::new(),
            order: Order::new(),
        }
    }

    fn parameters(&self) -> u8 {
        self.count.number()
    }

    #[tactic(auto, using(crate::proofs::Meanings::pending_is))]
    fn is_pending(&self, job: Job) -> bool {
        self.order.is_pending(job)
    }

    fn has_voted(&self, job: Job) -> bool {
        self.order.has_voted(job)
    }

    fn last_writer(&self, parameter: u8) -> Option<Job> {
        self.records.get(parameter)?.last_writer()
    }

    fn is_writer(&self, parameter: u8, job: Job) -> bool {
        self.records
            .get(parameter)
            .is_some_and(|record| record.is_writer(job))
    }

    // Those that write the parameter precede the job from now on, and it reads from the last of them.
    #[tactic(auto, using(crate::proofs::Holding::holds_read))]
    fn read(&mut self, job: Job, parameter: u8) -> Result<(), ManagerFault>
        ensures follows_the_rules { Obeys (read_of admits_all (held_by self.old) job.number parameter) result (held_by self.new) }
        ensures refusal_changes_nothing { OnErr result (self.new ≡ self.old) }
        ensures admits_every_conflict { (k : ℕ) → result ≢ Err (Conflict k) }
    {
        let record = self.found(parameter)?;
        let writing = record.conflicts(job, Access::Read);
        let source = record.last_writer();
        self.order.add_access(job, writing, source)?;
        self.records.note_reader(parameter, job);
        Ok(())
    }

    // Those that read or write the parameter precede the job from now on.
    #[tactic(auto, using(crate::proofs::Holding::holds_write))]
    fn write(&mut self, job: Job, parameter: u8) -> Result<(), ManagerFault>
        ensures follows_the_rules { Obeys (write_of admits_all (held_by self.old) job.number parameter tt) result (held_by self.new) }
        ensures refusal_changes_nothing { OnErr result (self.new ≡ self.old) }
        ensures admits_every_conflict { (k : ℕ) → result ≢ Err (Conflict k) }
    {
        let accessing = self.found(parameter)?.conflicts(job, Access::Write);
        self.order.add_access(job, accessing, None)?;
        self.records.note_writer(parameter, job);
        Ok(())
    }

    fn vote(&mut self, job: Job) -> Result<(), ManagerFault> {
        self.order.add_vote(job)
    }

    // Those that precede the job are rolled back, each with whoever read from it, and then the job leaves.
    fn commit(&mut self, job: Job) -> JobSet {
        let lost = self.roll_back_each(self.order.ahead_of(job));
        self.leave(job);
        lost.remove(job)
    }

    // The job leaves, and then those that read from it are rolled back, each with whoever read from it.
    fn roll_back(&mut self, job: Job) -> JobSet {
        let readers = self.order.readers_of(job);
        self.leave(job);
        self.roll_back_each(readers).remove(job)
    }
}
