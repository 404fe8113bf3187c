ghost use Rattle.std.specs.Prelude.{◌≡◌, true};
ghost use Rattle.open_manager.specs.Lists.{last_first, distinct};

mod list;

use arrayvec::ArrayVec;
use jobs::job::Job;

// The jobs with a pending write of a parameter, in the order of their writes, each once.
#[derive(Drop)]
pub(crate) struct Writers {
    jobs: ArrayVec<Job, 16>,
    ghost once: { distinct (last_first jobs.items) ≡ true },
}
