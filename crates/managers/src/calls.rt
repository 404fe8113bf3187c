// The calls of a manager on plain tables of any kind and the caller's memory, for firmware that keeps its own. Memory that
// is too small for the tables is refused before all else, so nothing is asked of the caller. Tables and memory are two things,
// since they are the caller's, and job and parameter two numbers, any of which may be passed. Each call says that the count of
// parameters stays, and that a refusal leaves tables and memory, since whoever calls again has to know both.

ghost use Rattle.std.specs.Prelude.{◌≡◌, true, false, ◌++◌, length, drop, is_ok, IfOk, IfErr, MatchResult, OnErr, OnOk, slice_set};
ghost use Rattle.rules.specs.Manager.{fresh, wrote};
ghost use Rattle.rules.specs.Calls.{Obeys, read_of, write_of, vote_of, commit_of, roll_back_of};
ghost use Rattle.managers.specs.Memory.{place, can_set_up, room_for, with_room_for, settled_for, Settles};
ghost use Rattle.managers.specs.Tables.{count_of, with_values};

use crate::lent;
use crate::memory::{Count, room_for};
use crate::tables::Tables;
use jobs::set::JobSet;
use rules::fault::ManagerFault;

// Sets a manager up: its tables, and in memory its starting values as settled ones. Another count than 1 to 64 parameters,
// or memory for less than 32 values for each, is refused, and the memory is left as it was.
pub fn set_up_in<T: Tables, V: Copy>(values: &mut [V], starting: &[V]) -> Result<T, ManagerFault>
    ensures accepted { is_ok result ≡ can_set_up (length starting.now) (length values.old) }
    ensures fresh { IfOk result (λ t. with_values (T.meaning t) values.new ≡ fresh starting.now) }
    ensures count { IfOk result (λ t. count_of (T.meaning t) ≡ length starting.now) }
    ensures memory { OnOk result (values.new ≡ starting.now ++ drop (length starting.now) values.old) }
    ensures refusal_changes_nothing { IfErr result (λ f. (f ≡ ManagerFault.NoRoom) × (values.new ≡ values.old)) }
{
    let count = Count::new(starting.len(), values.len()).ok_or(ManagerFault::NoRoom)?;
    Ok(lent::set_up(count, values, starting))
}

// Refuses memory that is too small for the tables.
fn find_room<T: Tables, V: Copy>(tables: &T, values: &[V]) -> Result<(), ManagerFault>
    ensures { MatchResult result (λ _. room_for (count_of (T.meaning tables.now)) (length values.now) ≡ true) (λ f. (room_for (count_of (T.meaning tables.now)) (length values.now) ≡ false) × (f ≡ ManagerFault.NoRoom)) }
{
    room_for(tables.parameters(), values.len())
        .then_some(())
        .ok_or(ManagerFault::NoRoom)
}

// How many parameters the tables are for.
pub fn parameters_in<T: Tables>(tables: &T) -> u8
    ensures { result ≡ count_of (T.meaning tables.now) }
{
    tables.parameters()
}

// The settled value of the parameter.
pub fn settled_in<T: Tables, V: Copy>(
    tables: &T,
    values: &[V],
    parameter: u8,
) -> Result<V, ManagerFault>
    ensures follows_the_rules { result ≡ settled_for (count_of (T.meaning tables.now)) values.now (with_values (T.meaning tables.now) values.now) parameter }
{
    find_room(tables, values)?;
    lent::settled(tables, values, parameter)
}

// A read of the parameter by the job.
pub fn read_in<T: Tables, V: Copy>(
    tables: &mut T,
    values: &[V],
    job: u8,
    parameter: u8,
) -> Result<V, ManagerFault>
    ensures follows_the_rules { Obeys (with_room_for (count_of (T.meaning tables.old)) values.now (with_values (T.meaning tables.old) values.now) (read_of (T.admits tables.old) (with_values (T.meaning tables.old) values.now) job parameter)) result (with_values (T.meaning tables.new) values.now) }
    ensures refusal_changes_nothing { OnErr result (tables.new ≡ tables.old) }
    ensures count_stays { count_of (T.meaning tables.new) ≡ count_of (T.meaning tables.old) }
{
    find_room(tables, values)?;
    lent::read(tables, values, job, parameter)
}

// A write of the parameter by the job.
pub fn write_in<T: Tables, V: Copy>(
    tables: &mut T,
    values: &mut [V],
    job: u8,
    parameter: u8,
    value: V,
) -> Result<(), ManagerFault>
    ensures follows_the_rules { Obeys (with_room_for (count_of (T.meaning tables.old)) values.old (with_values (T.meaning tables.old) values.old) (write_of (T.admits tables.old) (with_values (T.meaning tables.old) values.old) job parameter value)) result (with_values (T.meaning tables.new) values.new) }
    ensures refusal_changes_nothing { OnErr result ((tables.new ≡ tables.old) × (values.new ≡ values.old)) }
    ensures memory { MatchResult result (λ _. values.new ≡ slice_set values.old (place (count_of (T.meaning tables.old)) parameter job) value) (λ _. values.new ≡ values.old) }
    ensures count_stays { count_of (T.meaning tables.new) ≡ count_of (T.meaning tables.old) }
{
    find_room(tables, values)?;
    lent::write(tables, values, job, parameter, value)
}

// The vote of the manager for the job.
pub fn vote_in<T: Tables, V: Copy>(
    tables: &mut T,
    values: &[V],
    job: u8,
) -> Result<(), ManagerFault>
    ensures follows_the_rules { Obeys (with_room_for (count_of (T.meaning tables.old)) values.now (with_values (T.meaning tables.old) values.now) (vote_of (with_values (T.meaning tables.old) values.now) job)) result (with_values (T.meaning tables.new) values.now) }
    ensures refusal_changes_nothing { OnErr result (tables.new ≡ tables.old) }
    ensures count_stays { count_of (T.meaning tables.new) ≡ count_of (T.meaning tables.old) }
{
    find_room(tables, values)?;
    lent::vote(tables, values, job)
}

// Commits a voted job: its pending writes become settled values, and it leaves.
pub fn commit_in<T: Tables, V: Copy>(
    tables: &mut T,
    values: &mut [V],
    job: u8,
) -> Result<JobSet, ManagerFault>
    ensures follows_the_rules { Obeys (with_room_for (count_of (T.meaning tables.old)) values.old (with_values (T.meaning tables.old) values.old) (commit_of (with_values (T.meaning tables.old) values.old) job)) result (with_values (T.meaning tables.new) values.new) }
    ensures refusal_changes_nothing { OnErr result ((tables.new ≡ tables.old) × (values.new ≡ values.old)) }
    ensures memory { MatchResult result (λ _. Settles (λ p. wrote job ((T.meaning tables.old).writes p)) (count_of (T.meaning tables.old)) job values.old values.new) (λ _. values.new ≡ values.old) }
    ensures count_stays { count_of (T.meaning tables.new) ≡ count_of (T.meaning tables.old) }
{
    find_room(tables, values)?;
    lent::commit(tables, values, job)
}

// Rolls a job back: it leaves with its pending accesses.
pub fn roll_back_in<T: Tables, V: Copy>(
    tables: &mut T,
    values: &[V],
    job: u8,
) -> Result<JobSet, ManagerFault>
    ensures follows_the_rules { Obeys (with_room_for (count_of (T.meaning tables.old)) values.now (with_values (T.meaning tables.old) values.now) (roll_back_of (with_values (T.meaning tables.old) values.now) job)) result (with_values (T.meaning tables.new) values.now) }
    ensures refusal_changes_nothing { OnErr result (tables.new ≡ tables.old) }
    ensures count_stays { count_of (T.meaning tables.new) ≡ count_of (T.meaning tables.old) }
{
    find_room(tables, values)?;
    lent::roll_back(tables, values, job)
}
