// Plays the tape on standard input, and prints its listing.
#![tactic(auto)]

use player::play::play;
use std::io::{Read, Write};

/// The longest tape, and the room in the listing.
const MOST: usize = 65_536;

/// The whole job, from standard input to standard output.
fn run(rt: &HostRuntime) -> anyhow::Result<()> {
    let mut tape = Vec::new(rt.alloc());
    rt.stdin().take(MOST as u64 + 1).read_to_end(&mut tape)?;
    if tape.len() > MOST {
        rt.println("tape too long")?;
        return Ok(());
    }
    let mut listing = [0u8; MOST];
    let played = play(&tape, &mut listing);
    rt.stdout().write_all(&listing[..played.len])?;
    if let Some(fault) = played.fault {
        rt.println(fault)?;
    }
    Ok(())
}

fn main(rt: HostRuntime) -> anyhow::Result<()> {
    run(&rt)
}
