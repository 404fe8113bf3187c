#![tactic(auto)]

use managers::interface::ResourceManager;
use managers::locking::LockingManager;
use std::fmt::Display;
use std::io;
use std::io::Write;
use telling::scenes::{ROOM, fresh_teller, refusals};
use telling::teller::Teller;
use values::mode::Mode;

// Job 0 changes parameters 5 and 2 while job 1 wants parameter 5 too.
fn rivals<V: Copy + Display>(
    teller: &mut Teller<impl Write, impl ResourceManager<Value = V>>,
    first: V,
    second: V,
) -> io::Result<()> {
    teller.read(0, 5)?;
    teller.write(0, 5, first)?;
    teller.write(0, 2, second)?;
    teller.read(1, 5)?;
    teller.write(1, 5, second)?;
    teller.commit(0)?;
    teller.vote(0)?;
    teller.vote(0)?;
    teller.write(0, 5, second)?;
    teller.commit(0)
}

// Job 1 comes again, changes its mind, and then settles what it wants.
fn rival_again<V: Copy + Display>(
    teller: &mut Teller<impl Write, impl ResourceManager<Value = V>>,
    wanted: V,
) -> io::Result<()> {
    teller.read(1, 5)?;
    teller.write(1, 7, wanted)?;
    teller.roll_back(1)?;
    teller.roll_back(1)?;
    teller.write(1, 6, wanted)?;
    teller.vote(1)?;
    teller.commit(1)
}

// The scene at a locking manager, for any kind of value, of which it is played with three.
fn play<V: Copy + Display>(
    rt: &HostRuntime,
    starting: V,
    first: V,
    second: V,
) -> anyhow::Result<()> {
    let mut teller: Teller<_, LockingManager<V>> = fresh_teller(
        rt.alloc(),
        io::writer(rt),
        starting,
    )?;
    rivals(&mut teller, first, second)?;
    rival_again(&mut teller, second)?;
    refusals(&mut teller, first)?;
    teller.settled()?;
    Ok(())
}

// Tries to set a drive up, and tells the answer.
fn set_up(rt: &HostRuntime, memory: Vec<i32>, starting: &[i32]) -> anyhow::Result<()> {
    let parameters = starting.len();
    let room = memory.len();
    print!(rt; "{parameters} parameters in memory for {room} values: ")?;
    match LockingManager::new(memory, starting) {
        Ok(_) => println!(rt; "done")?,
        Err(refusal) => {
            let fault = refusal.fault;
            let back = refusal.memory.len();
            println!(rt; "{fault}, and memory for {back} values comes back")?;
        }
    }
    Ok(())
}

// Drives that can be set up, and some that cannot.
fn set_ups(rt: &HostRuntime) -> anyhow::Result<()> {
    println!(rt; "setting up")?;
    set_up(rt, vec![in rt.alloc(); 0i32; ROOM]?, &[])?;
    set_up(rt, vec![in rt.alloc(); 0i32; 32]?, &[0i32; 1])?;
    set_up(rt, vec![in rt.alloc(); 0i32; 31]?, &[0i32; 1])?;
    set_up(rt, vec![in rt.alloc(); 0i32; 2048]?, &[0i32; 64])?;
    set_up(rt, vec![in rt.alloc(); 0i32; 2080]?, &[0i32; 65])
}

fn main(rt: HostRuntime) -> anyhow::Result<()> {
    set_ups(&rt)?;
    println!(rt; "whole numbers")?;
    play(&rt, 0i32, 7, -4)?;
    println!(rt; "duty modes")?;
    play(&rt, Mode::Off, Mode::Auto, Mode::Hand)
}
