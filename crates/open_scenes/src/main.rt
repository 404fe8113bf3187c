#![tactic(auto)]

mod own_memory;
mod scenes;

use own_memory::play_on;
use scenes::play_open;
use values::mode::Mode;

fn main(rt: HostRuntime) -> anyhow::Result<()> {
    println!(rt; "whole numbers at an open manager")?;
    play_open(&rt, 0i32, 7, -4)?;
    println!(rt; "whole numbers in an array of one's own")?;
    play_on(&rt, &mut [0i32; 64], &[0i32; 2], 7)?;
    print!(rt; "an array too small for two parameters: ")?;
    play_on(&rt, &mut [0i32; 63], &[0i32; 2], 7)?;
    println!(rt; "duty modes at an open manager")?;
    play_open(&rt, Mode::Off, Mode::Auto, Mode::Hand)?;
    println!(rt; "duty modes in an array of one's own")?;
    Ok(play_on(&rt, &mut [Mode::Off; 64], &[Mode::Off; 2], Mode::Auto)?)
}
