ghost use Rattle.std.specs.Prelude.{◌≡◌, Some};
ghost use Rattle.rules.specs.Faults.{number_of, words_of};

use std::error::Error;
use std::fmt;

// Why a resource manager refuses a call. Where another job is in the way, its number stands in the case: a plain one, as the
// calls take them.
#[derive(Clone, Copy, PartialEq, Eq, Debug)]
pub enum ManagerFault {
    // there is no job of that number
    NoJob,
    // the manager has no such parameter
    NoParameter,
    // no manager can be set up so: not 1 to 64 parameters, or too little memory for their values
    NoRoom,
    // the job has voted here, so it may not access a parameter any more
    Voted,
    // the job has not voted here, so it cannot be committed
    NotVoted,
    // the job has no pending access here
    NotPending,
    // the job has voted here before
    VotedAlready,
    // the access conflicts with a pending access of that job
    Conflict(u8),
    // the job read a value that this job, still pending, wrote
    ReadFrom(u8),
    // this job has voted, and it precedes the job or the job precedes it
    Ordered(u8),
}

impl ManagerFault {
    // The number by which a refusal is known.
    pub fn number(self) -> u8
        ensures { result ≡ (number_of self).number }
    {
        match self {
            ManagerFault::NoJob => 2,
            ManagerFault::NoParameter => 4,
            ManagerFault::NoRoom => 4,
            ManagerFault::Voted => 5,
            ManagerFault::NotVoted => 5,
            ManagerFault::NotPending => 6,
            ManagerFault::VotedAlready => 7,
            ManagerFault::Conflict(_) => 10,
            ManagerFault::ReadFrom(_) => 11,
            ManagerFault::Ordered(_) => 12,
        }
    }

    // The job that is in the way, where one is.
    pub fn blocker(self) -> Option<u8>
        ensures { result ≡ (number_of self).blocker }
    {
        match self {
            ManagerFault::Conflict(job) => Some(job),
            ManagerFault::ReadFrom(job) => Some(job),
            ManagerFault::Ordered(job) => Some(job),
            _ => None,
        }
    }
}

// A refusal is told by its number, and by the job that is in the way.
impl fmt::Display for ManagerFault {
    ghost output = { λ f. Some (words_of f) };

    fn fmt<W: fmt::Write>(&self, f: &mut fmt::Formatter<W>) -> fmt::Result {
        let number = self.number();
        match self.blocker() {
            Some(job) => write!(f, "refused by {number}, because of job {job}"),
            None => write!(f, "refused by {number}"),
        }
    }
}

impl Error for ManagerFault {}
