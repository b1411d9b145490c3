ghost use Rattle.std.specs.Prelude.{◌≡◌, IfOk, string_bytes};
ghost use Rattle.hex.specs.Hex.{encode_lower};
ghost use Rattle.tape.specs.Tape.{tape_of};
ghost use Rattle.track.specs.Calls.{map_of};

use anyhow::anyhow;
use std::alloc::Global;
use tape::write::{LONGEST, write};
use track::rig::{GetIn, Rig};

/// The tape of the rig's map, as hexadecimal text.
pub fn tape_text(heap: Global, rig: &Rig<GetIn>) -> anyhow::Result<String>
    ensures { IfOk result (λ s. string_bytes s ≡ encode_lower (tape_of (map_of rig.now))) }
{
    // A tape is written into a buffer that is lent, and is the front of it.
    let mut tape = [0u8; LONGEST];
    let len = write(rig, &mut tape).map_err(|_| anyhow!("the tape is too long"))?;
    Ok(hex::encode(heap, &tape[..len])?)
}
