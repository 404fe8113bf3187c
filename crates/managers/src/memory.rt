ghost use Rattle.std.specs.Prelude.{◌≡◌, ◌≤◌, true, false, MatchOption};
ghost use Rattle.managers.specs.Memory.{place, room_for, can_set_up};

use jobs::job::Job;
use rules::fault::ManagerFault;

// A manager keeps its values in memory that is handed over: 32 for each parameter.
const VALUES_FOR_ONE: usize = 32;

// A manager has at most as many parameters.
pub const MOST_PARAMETERS: usize = 64;

// Whether memory for `len` values suffices for `count` parameters.
pub fn room_for(count: u8, len: usize) -> bool
    ensures { result ≡ room_for count len }
{
    VALUES_FOR_ONE * usize::from(count) <= len
}

// Whether a manager of `count` parameters can be set up in memory for `len` values: two numbers, of which either may be wrong.
pub fn can_set_up(count: usize, len: usize) -> bool
    ensures { result ≡ can_set_up count len }
{
    1 <= count && count <= MOST_PARAMETERS && VALUES_FOR_ONE * count <= len
}

// The place in memory of the job's pending write of a parameter, of so many.
pub fn place_of(count: u8, parameter: u8, job: Job) -> usize
    ensures { result ≡ place count parameter job.number }
{
    usize::from(count) + (16 * usize::from(parameter) + usize::from(job))
}

// How many parameters a manager has: 1 to 64.
#[derive(Clone, Copy, PartialEq, Eq, Debug)]
pub struct Count {
    number: u8,
    ghost some: { 1 ≤ number },
    ghost few: { number ≤ 64 },
}

impl Count {
    // That many, if a manager of so many parameters can be set up in memory for `len` values. No `then`, since what makes a count
    // has to know that the test held.
    pub fn new(count: usize, len: usize) -> Option<Count>
        ensures { MatchOption result (can_set_up count len ≡ false) (λ c. (can_set_up count len ≡ true) × (c.number ≡ count)) }
    {
        if can_set_up(count, len) {
            Some(Count {
                // the cast is shown to lose nothing, since there are at most 64
                number: count as u8,
            })
        } else {
            None
        }
    }

    pub fn number(self) -> u8
        ensures { result ≡ self.number }
    {
        self.number
    }
}

// The refusal of a manager that cannot be set up: not 1 to 64 parameters, or too little memory. The memory comes back.
#[derive(Drop)]
pub struct NoRoom<V> {
    pub fault: ManagerFault,
    pub memory: Vec<V>,
}
