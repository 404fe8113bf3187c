// The calls of a manager, by its tables and memory that is large enough for them. A vote and a roll back leave the memory
// alone; it is passed for what the tables mean with it. Tables and memory stand side by side, and not in a struct, since some
// calls only read the one or the other: that would be three structs. Job and parameter are the numbers of the call, as they came,
// and what is said of the count and of a refusal is what the public calls say.

ghost use Rattle.std.specs.Prelude.{◌≡◌, ℕ, ◌*◌, ◌<◌, ◌≤◌, true, ◌++◌, length, drop, Some, None, MatchResult, OnErr, IfOk, slice_set};
ghost use Rattle.rules.specs.Manager.{fresh, pending, wrote};
ghost use Rattle.rules.specs.Calls.{Obeys, read_of, write_of, vote_of, commit_of, roll_back_of, settled_of};
ghost use Rattle.managers.specs.Memory.{place, Settles};
ghost use Rattle.managers.specs.Faults.{pending_fault};
ghost use Rattle.managers.specs.Tables.{count_of, HasRoom, with_values, last_place};

use crate::memory::{Count, place_of};
use crate::tables::Tables;
use jobs::job::Job;
use jobs::set::JobSet;
use rules::fault::ManagerFault;

// Unused tables for the starting values, which become the settled ones in memory.
pub(crate) fn set_up<T: Tables, V: Copy>(count: Count, values: &mut [V], starting: &[V]) -> T
    requires exact { count.number ≡ length starting.now }
    requires room { length starting.now ≤ length values.old }
    ensures fresh { with_values (T.meaning result) values.new ≡ fresh starting.now }
    ensures count { count_of (T.meaning result) ≡ length starting.now }
    ensures memory { values.new ≡ starting.now ++ drop (length starting.now) values.old }
{
    values[0..starting.len()].copy_from_slice(starting);
    T::new(count)
}

pub(crate) fn settled<T: Tables, V: Copy>(
    tables: &T,
    values: &[V],
    parameter: u8,
) -> Result<V, ManagerFault>
    requires { HasRoom (T.meaning tables.now) values.now }
    ensures { result ≡ settled_of (with_values (T.meaning tables.now) values.now) parameter }
{
    if parameter >= tables.parameters() {
        return Err(ManagerFault::NoParameter);
    }
    Ok(values[usize::from(parameter)])
}

// The place of what a read of the parameter answers: that of the last pending write, or of the settled value where there
// is none.
fn last_place<T: Tables>(tables: &T, parameter: u8) -> usize
    ensures { result ≡ last_place (T.meaning tables.now) parameter }
{
    tables
        .last_writer(parameter)
        .map_or(usize::from(parameter), |writer| {
            place_of(tables.parameters(), parameter, writer)
        })
}

// The job of that number, if there is one.
fn known_job(job: u8) -> Result<Job, ManagerFault>
    ensures { MatchResult result (λ j. j.number ≡ job) (λ f. (16 ≤ job) × (f ≡ ManagerFault.NoJob)) }
{
    Job::new(job).ok_or(ManagerFault::NoJob)
}

pub(crate) fn read<T: Tables, V: Copy>(
    tables: &mut T,
    values: &[V],
    job: u8,
    parameter: u8,
) -> Result<V, ManagerFault>
    requires { HasRoom (T.meaning tables.old) values.now }
    ensures follows_the_rules { Obeys (read_of (T.admits tables.old) (with_values (T.meaning tables.old) values.now) job parameter) result (with_values (T.meaning tables.new) values.now) }
    ensures refusal_changes_nothing { OnErr result (tables.new ≡ tables.old) }
    ensures count_stays { count_of (T.meaning tables.new) ≡ count_of (T.meaning tables.old) }
{
    let job = known_job(job)?;
    tables.read(job, parameter)?;
    Ok(values[last_place(tables, parameter)])
}

// The value goes to the place of the last pending write, which is then the job's.
pub(crate) fn write<T: Tables, V: Copy>(
    tables: &mut T,
    values: &mut [V],
    job: u8,
    parameter: u8,
    value: V,
) -> Result<(), ManagerFault>
    requires { HasRoom (T.meaning tables.old) values.old }
    ensures follows_the_rules { Obeys (write_of (T.admits tables.old) (with_values (T.meaning tables.old) values.old) job parameter value) result (with_values (T.meaning tables.new) values.new) }
    ensures refusal_changes_nothing { OnErr result ((tables.new ≡ tables.old) × (values.new ≡ values.old)) }
    ensures memory { MatchResult result (λ _. values.new ≡ slice_set values.old (place (count_of (T.meaning tables.old)) parameter job) value) (λ _. values.new ≡ values.old) }
    ensures count_stays { count_of (T.meaning tables.new) ≡ count_of (T.meaning tables.old) }
{
    let job = known_job(job)?;
    tables.write(job, parameter)?;
    values[place_of(tables.parameters(), parameter, job)] = value;
    Ok(())
}

// The job of that number, if it is pending.
fn pending_job<T: Tables>(tables: &T, job: u8) -> Result<Job, ManagerFault>
    ensures { MatchResult result (λ j. (j.number ≡ job) × (pending_fault (T.meaning tables.now) job ≡ None)) (λ f. pending_fault (T.meaning tables.now) job ≡ Some f) }
{
    let job = known_job(job)?;
    if !tables.is_pending(job) {
        return Err(ManagerFault::NotPending);
    }
    Ok(job)
}

pub(crate) fn vote<T: Tables, V: Copy>(
    tables: &mut T,
    _values: &[V],
    job: u8,
) -> Result<(), ManagerFault>
    requires { HasRoom (T.meaning tables.old) _values.now }
    ensures follows_the_rules { Obeys (vote_of (with_values (T.meaning tables.old) _values.now) job) result (with_values (T.meaning tables.new) _values.now) }
    ensures refusal_changes_nothing { OnErr result (tables.new ≡ tables.old) }
    ensures count_stays { count_of (T.meaning tables.new) ≡ count_of (T.meaning tables.old) }
{
    let job = pending_job(tables, job)?;
    if tables.has_voted(job) {
        return Err(ManagerFault::VotedAlready);
    }
    tables.vote(job)
}

// The pending writes of the job become settled values.
fn settle<T: Tables, V: Copy>(tables: &T, values: &mut [V], job: Job)
    requires { HasRoom (T.meaning tables.now) values.old }
    ensures { Settles (λ p. wrote job.number ((T.meaning tables.now).writes p)) (count_of (T.meaning tables.now)) job.number values.old values.new }
{
    // parameters are numbers, and the memory has two places for each: there is no one slice to walk over
    for p in 0..tables.parameters() {
        if tables.is_writer(p, job) {
            values[usize::from(p)] = values[place_of(tables.parameters(), p, job)];
        }
    }
}

pub(crate) fn commit<T: Tables, V: Copy>(
    tables: &mut T,
    values: &mut [V],
    job: u8,
) -> Result<JobSet, ManagerFault>
    requires { HasRoom (T.meaning tables.old) values.old }
    ensures follows_the_rules { Obeys (commit_of (with_values (T.meaning tables.old) values.old) job) result (with_values (T.meaning tables.new) values.new) }
    ensures refusal_changes_nothing { OnErr result ((tables.new ≡ tables.old) × (values.new ≡ values.old)) }
    ensures memory { MatchResult result (λ _. Settles (λ p. wrote job ((T.meaning tables.old).writes p)) (count_of (T.meaning tables.old)) job values.old values.new) (λ _. values.new ≡ values.old) }
    ensures count_stays { count_of (T.meaning tables.new) ≡ count_of (T.meaning tables.old) }
{
    let job = pending_job(tables, job)?;
    if !tables.has_voted(job) {
        return Err(ManagerFault::NotVoted);
    }
    settle(tables, values, job);
    Ok(tables.commit(job))
}

pub(crate) fn roll_back<T: Tables, V: Copy>(
    tables: &mut T,
    _values: &[V],
    job: u8,
) -> Result<JobSet, ManagerFault>
    requires { HasRoom (T.meaning tables.old) _values.now }
    ensures follows_the_rules { Obeys (roll_back_of (with_values (T.meaning tables.old) _values.now) job) result (with_values (T.meaning tables.new) _values.now) }
    ensures refusal_changes_nothing { OnErr result (tables.new ≡ tables.old) }
    ensures count_stays { count_of (T.meaning tables.new) ≡ count_of (T.meaning tables.old) }
{
    let job = pending_job(tables, job)?;
    Ok(tables.roll_back(job))
}
