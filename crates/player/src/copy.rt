ghost use Rattle.track.specs.Calls.{map_of};
ghost use Rattle.player.specs.Copies.{told_copy, CopyDone};

use crate::play::play;
use tape::refusal::WriteRefusal;
use tape::write::write;
use track::rig::{GetIn, Rig};

/// A rig equal to this one: its tape, written at the beginning of `tape` and played into a new rig.
///
/// Refuses with 17 a buffer that is shorter than the tape, and leaves it untouched.
pub fn copy(rig: &Rig<GetIn>, tape: &mut [u8]) -> Result<Rig<GetIn>, WriteRefusal>
    ensures { CopyDone (map_of rig.now) tape.old (told_copy result) tape.new }
{
    let len = write(rig, tape)?;
    let mut listing = [0u8; 0];
    let played = play(&tape[..len], &mut listing);
    Ok(played.rig)
}
