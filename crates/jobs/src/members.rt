ghost use Rattle.std.specs.Prelude.{◌≡◌};
ghost use Rattle.jobs.specs.Sets.{lowest, how_many};
ghost use Rattle.jobs.specs.Jobs.{member, number_in, after_next};
ghost use Rattle.std.specs.Iterator.{at_most};

use crate::job::Job;
use crate::set::JobSet;

// The members of a set, in rising order of their numbers.
#[derive(Drop)]
pub struct Members {
    left: JobSet,
}

impl Members {
    // All members of that set are still to come.
    pub fn new(left: JobSet) -> Members
        ensures { result.left ≡ left }
    {
        Members { left }
    }
}

impl Iterator for Members {
    type Item = Job;

    // the lowest comes next, and then it is gone
    ghost next_gives = { λ s r t. (number_in r ≡ lowest (member s.left) 16) × (t.left ≡ after_next s.left (number_in r)) };

    ghost remaining = { λ s. at_most (how_many (member s.left) 16) };

    fn next(&mut self) -> Option<Job> {
        let job = self.left.lowest()?;
        self.left = self.left.remove(job);
        Some(job)
    }
}

impl IntoIterator for JobSet {
    type Item = Job;

    type IntoIter = Members;

    ghost into_iter_gives = { λ set members. members.left ≡ set };

    fn into_iter(self) -> Members {
        self.members()
    }
}
