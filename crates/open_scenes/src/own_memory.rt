// The calls of an open manager on tables and memory of one's own, as firmware makes them that keeps its values in an array.

use open_manager::{
    OpenTables, commit_in, read_in, roll_back_in, set_up_in, settled_in, vote_in, write_in,
};
use std::fmt::Display;
use std::io;
use std::io::Write;
use telling::answers::{Done, Lost, Value};
use telling::lines::{Call, tell};

// Job 0 writes parameter 1, and job 1 reads it and is rolled back before job 0 is committed. Each call is paired with its answer
// here, since a teller wants a manager, and there is none over borrowed memory.
fn share<V: Copy + Display, W: Write>(
    out: &mut W,
    tables: &mut OpenTables,
    values: &mut [V],
    wanted: V,
) -> io::Result<()> {
    let answer = write_in(tables, values, 0, 1, wanted).map(|()| Done);
    let call = Call::Write {
        job: 0,
        parameter: 1,
        value: wanted,
    };
    tell(out, call, answer)?;
    let answer = read_in(tables, values, 1, 1).map(Value);
    let call = Call::<V>::Read {
        job: 1,
        parameter: 1,
    };
    tell(out, call, answer)?;
    let answer = roll_back_in(tables, values, 1).map(Lost);
    tell(out, Call::<V>::RollBack { job: 1 }, answer)?;
    let answer = vote_in(tables, values, 0).map(|()| Done);
    tell(out, Call::<V>::Vote { job: 0 }, answer)?;
    let answer = commit_in(tables, values, 0).map(Lost);
    tell(out, Call::<V>::Commit { job: 0 }, answer)?;
    let answer = settled_in(tables, values, 1).map(Value);
    tell(out, Call::<V>::Settled { parameter: 1 }, answer)
}

// Sets tables up in that memory, and plays the scene there; too little memory is refused.
pub fn play_on<V: Copy + Display>(
    rt: &HostRuntime,
    values: &mut [V],
    starting: &[V],
    wanted: V,
) -> io::Result<()> {
    match set_up_in(values, starting) {
        Ok(mut tables) => share(&mut io::writer(rt), &mut tables, values, wanted),
        Err(fault) => println!(rt; "{fault}"),
    }
}
