ghost use Rattle.std.specs.Prelude.{◌≡◌, length};
ghost use Rattle.rules.specs.Manager.{Manager};
ghost use Rattle.rules.specs.Calls.{Admits, Obeys, read_of, write_of, vote_of, commit_of, roll_back_of, settled_of};

use jobs::set::JobSet;
use rules::fault::ManagerFault;

// A resource manager of any kind: it guards some parameters, and says what becomes of the accesses of jobs to them.
// Each call is answered, and leaves what the manager means, just as the rule for it says, refused calls too. Calls are made by
// plain numbers of jobs and parameters, any of which may be passed.
pub trait ResourceManager {
    type Value: Copy;

    // What the manager holds.
    ghost meaning: { Self → Manager Self.Value };

    // Which conflicting accesses it admits, by its contents: the one thing in which kinds of managers are free. An
    // access that conflicts with nobody is admitted without asking this.
    ghost admits: { Self → Admits };

    // The last pending write of the parameter, or its settled value where there is none.
    fn read(&mut self, job: u8, parameter: u8) -> Result<Self::Value, ManagerFault>
        ensures follows_the_rules { Obeys (read_of (admits self.old) (meaning self.old) job parameter) result (meaning self.new) };

    // A pending write of the parameter, in place of the job's earlier one.
    fn write(&mut self, job: u8, parameter: u8, value: Self::Value) -> Result<(), ManagerFault>
        ensures follows_the_rules { Obeys (write_of (admits self.old) (meaning self.old) job parameter value) result (meaning self.new) };

    // The manager's promise that the job can be committed here.
    fn vote(&mut self, job: u8) -> Result<(), ManagerFault>
        ensures follows_the_rules { Obeys (vote_of (meaning self.old) job) result (meaning self.new) };

    // Settles the pending writes of a voted job, and tells which jobs are rolled back for it.
    fn commit(&mut self, job: u8) -> Result<JobSet, ManagerFault>
        ensures follows_the_rules { Obeys (commit_of (meaning self.old) job) result (meaning self.new) };

    // Drops the pending accesses of a job, and tells which other jobs are rolled back with it.
    fn roll_back(&mut self, job: u8) -> Result<JobSet, ManagerFault>
        ensures follows_the_rules { Obeys (roll_back_of (meaning self.old) job) result (meaning self.new) };

    // The settled value of the parameter.
    fn settled(&self, parameter: u8) -> Result<Self::Value, ManagerFault>
        ensures follows_the_rules { result ≡ settled_of (meaning self.now) parameter };

    // How many parameters there are.
    fn parameters(&self) -> u8
        ensures follows_the_rules { result ≡ length (meaning self.now).settled };
}
