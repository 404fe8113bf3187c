ghost use Rattle.std.specs.Prelude.{◌≡◌, length};

mod changes;

use crate::writers::Writers;
use jobs::set::JobSet;

// What is pending at one parameter: who reads it, and who writes it in which order.
#[derive(Drop)]
pub(crate) struct Record {
    readers: JobSet,
    writers: Writers,
}

// The records of the parameters, by their numbers: as many as there can be. How many are used, the tables know by a `Count`; the
// length of a vector would have to be cast to one.
#[derive(Drop)]
pub(crate) struct Records {
    entries: [Record; 64],
    ghost whole: { length entries ≡ 64 },
}
