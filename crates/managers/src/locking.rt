ghost use Rattle.std.specs.Prelude.{◌≡◌, length};

mod tables;

pub use crate::calls::{
    commit_in, parameters_in, read_in, roll_back_in, settled_in, vote_in, write_in,
};
use crate::manager::TableManager;
use crate::memory::Count;
use jobs::job::Job;
use jobs::set::JobSet;
pub use tables::{admits_no_conflict, set_up_in};

// Who has a pending access to a parameter. A job that conflicts with one of them is refused, so there is at most one
// pending write, and nobody else reads what is written.
#[derive(Clone, Copy)]
struct Lock {
    readers: JobSet,
    writer: Option<Job>,
}

// The tables of a locking manager, which refuses every conflicting access. They are free of the kind of value. The first
// `count` locks are used. The length of a vector would have to be cast to a count, and said to be at least one in each kind.
#[derive(Drop)]
pub struct Locks {
    count: Count,
    locks: [Lock; 64],
    voted: JobSet,
    ghost whole: { length locks ≡ 64 },
}

// A manager that refuses every conflicting access.
pub type LockingManager<V> = TableManager<Locks, V>;
