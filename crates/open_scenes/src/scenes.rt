// Scenes at a drive's parameters, told call by call.

use managers::interface::ResourceManager;
use open_manager::OpenManager;
use std::fmt::Display;
use std::io;
use std::io::Write;
use telling::scenes::{fresh_teller, refusals};
use telling::teller::Teller;

// Job 1 reads what job 0 has not committed yet, and so has to wait for it.
fn reading_early<V: Copy + Display>(
    teller: &mut Teller<impl Write, impl ResourceManager<Value = V>>,
    wanted: V,
) -> io::Result<()> {
    teller.write(0, 5, wanted)?;
    teller.read(1, 5)?;
    teller.vote(1)?;
    teller.vote(0)?;
    teller.commit(0)?;
    teller.vote(1)?;
    teller.commit(1)
}

// Job 2 reads what job 3 then writes. Job 3 has the vote first, so job 2 cannot have it, and is lost to the commit.
fn overtaken<V: Copy + Display>(
    teller: &mut Teller<impl Write, impl ResourceManager<Value = V>>,
    wanted: V,
) -> io::Result<()> {
    teller.read(2, 5)?;
    teller.write(3, 5, wanted)?;
    teller.vote(3)?;
    teller.vote(2)?;
    teller.commit(3)?;
    teller.vote(2)
}

// Job 5 reads from job 4, and job 6 from job 5. Rolling job 4 back takes both along.
fn cascade<V: Copy + Display>(
    teller: &mut Teller<impl Write, impl ResourceManager<Value = V>>,
    first: V,
    second: V,
) -> io::Result<()> {
    teller.write(4, 6, first)?;
    teller.read(5, 6)?;
    teller.write(5, 7, second)?;
    teller.read(6, 7)?;
    teller.roll_back(4)?;
    teller.roll_back(6)
}

// Jobs that get into each other's way at an open manager, which lets everyone in; for any kind of value, of which it is played
// with three.
pub fn play_open<V: Copy + Display>(
    rt: &HostRuntime,
    starting: V,
    first: V,
    second: V,
) -> anyhow::Result<()> {
    let mut teller: Teller<_, OpenManager<V>> = fresh_teller(rt.alloc(), io::writer(rt), starting)?;
    reading_early(&mut teller, first)?;
    overtaken(&mut teller, second)?;
    cascade(&mut teller, first, second)?;
    refusals(&mut teller, first)?;
    teller.settled()?;
    Ok(())
}
