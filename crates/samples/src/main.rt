// samples: plays the rehearsals in its data folder, and prints the name of each and a line for each of its steps.
#![tactic(auto)]

use rehearsal_next::transcript;
use std::fs;

// A file of steps each. rehearsals/ has them in text, with what happens and why.
const NAMES: [&str; 6] = ["decide", "lost", "two_faced", "split", "toss", "end"];

fn main(rt: HostRuntime) -> anyhow::Result<()> {
    play_all(&rt)
}

fn play_all(rt: &HostRuntime) -> anyhow::Result<()> {
    for name in NAMES {
        play(rt, name)?;
    }
    Ok(())
}

// Plays one rehearsal.
fn play(rt: &HostRuntime, name: &str) -> anyhow::Result<()> {
    let steps = fs::read(rt, name)?;
    let text = transcript(rt.alloc(), steps.as_slice())?;
    println!(rt; "{name}")?;
    rt.print(text)?;
    Ok(())
}
