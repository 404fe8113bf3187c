#![tactic(auto)]

ghost use Rattle.std.specs.Prelude.{◌≡◌, ℕ};
ghost use Rattle.jobs.specs.Jobs.{member};
ghost use Rattle.open_manager.specs.Records.{holds_any};

mod order;
mod records;
mod tables;
mod writers;

pub use managers::calls::{
    commit_in, parameters_in, read_in, roll_back_in, settled_in, vote_in, write_in,
};
use managers::manager::TableManager;
use managers::memory::Count;
use order::Order;
use records::Records;
pub use tables::{admits_every_conflict, set_up_in};

// The tables of an open manager, which admits every conflicting access, and sorts matters out at the vote and at the commit.
// A job is pending exactly if it has a pending access to some parameter.
#[derive(Drop)]
pub struct OpenTables {
    count: Count,
    records: Records,
    order: Order,
    ghost exact: { (k : ℕ) → member order.pending k ≡ holds_any records.entries count.number k },
}

// A manager that admits every conflicting access.
pub type OpenManager<V> = TableManager<OpenTables, V>;
