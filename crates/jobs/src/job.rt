ghost use Rattle.std.specs.Prelude.{◌≡◌, ◌<◌, ◌≤◌, MatchOption};

// The number of a job: 0 to 15.
#[derive(Clone, Copy, PartialEq, Eq, Debug)]
pub struct Job {
    number: u8,
    ghost low: { number < 16 },
}

impl Job {
    // How many job numbers there are.
    pub const COUNT: u8 = 16;

    // The job of the lowest number.
    pub const FIRST: Job = Job { number: 0 };

    // The job of that number, or nothing where there is no such job. No `TryFrom`, which would want an error that tells no more,
    // and no `then`, since what makes a job has to know that the test held.
    pub fn new(number: u8) -> Option<Job>
        ensures { MatchOption result (16 ≤ number) (λ j. j.number ≡ number) }
    {
        if number < Job::COUNT {
            Some(Job { number })
        } else {
            None
        }
    }

    pub fn number(self) -> u8
        ensures { result ≡ self.number }
    {
        self.number
    }
}

// Written out, since no derive makes a value with a ghost field.
impl Default for Job {
    ghost is_default = { λ job. job.number ≡ 0 };

    fn default() -> Job {
        Job::FIRST
    }
}

impl From<Job> for usize {
    ghost from_gives = { λ job n. n ≡ job.number };

    fn from(job: Job) -> usize {
        usize::from(job.number)
    }
}
