ghost use Rattle.std.specs.Prelude.{◌≡◌, length};

// The methods stand in a file of their own, since what their clauses import speaks of `Relation`, which has a ghost field.
pub mod edges;

use crate::set::JobSet;

// A relation between jobs: row i has the jobs to which the job i is related. An array, since there are sixteen jobs.
#[derive(Clone, Copy)]
pub struct Relation {
    rows: [JobSet; 16],
    ghost whole: { length rows ≡ 16 },
}
