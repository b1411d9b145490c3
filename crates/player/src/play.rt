ghost use Rattle.std.specs.Prelude.{◌<◌, ◌≤◌, length, IfOk};
ghost use Rattle.track.specs.Calls.{map_of};
ghost use Rattle.tape.specs.Reading.{decode};
ghost use Rattle.player.specs.Faults.{told_faults};
ghost use Rattle.player.specs.Play.{PlayDone};
ghost use Rattle.player.specs.Obeying.{desk_in, Turned};

use crate::fault::{Fault, Layer};
use crate::keeping::Desk;
use tape::read::read_command;
use track::rig::{GetIn, Rig};

/// What a tape came to.
#[derive(Drop)]
pub struct Played {
    /// The rig, in get-in, as the commands before any fault made it.
    pub rig: Rig<GetIn>,
    /// How many bytes of the listing were written.
    pub len: usize,
    /// The fault that ended the play, if one did.
    pub fault: Option<Fault>,
}

/// Plays a tape on a new rig with new rules, to its end or to its first fault, and writes a line into the listing for each question.
///
/// A fault is told with the place of its command's first byte. Lines written before it remain, and later bytes of the listing are untouched.
pub fn play(tape: &[u8], listing: &mut [u8]) -> Played
    ensures { PlayDone tape.now listing.old (map_of result.rig) result.len (told_faults result.fault) listing.new }
{
    let mut desk = Desk::new();
    // By place, since only a command that was read says where the next begins, and a fault tells its place.
    let mut at = 0;
    let mut len = 0;
    while at < tape.len() {
        match obey_next(&mut desk, &tape[at..], &mut listing[len..]) {
            Ok(turn) => {
                at += turn.read;
                len += turn.written;
            }
            Err(layer) => {
                return Played {
                    rig: desk.into_rig(),
                    len,
                    fault: Some(Fault { place: at, layer }),
                };
            }
        }
    }
    Played {
        rig: desk.into_rig(),
        len,
        fault: None,
    }
}

/// How many bytes of the tape a command took, and how many of the listing its line.
#[derive(Clone, Copy, Drop)]
struct Turn {
    read: usize,
    written: usize,
}

/// Reads the command at the front of `tape` and obeys it; its line goes to the front of `rest`.
fn obey_next(desk: &mut Desk, tape: &[u8], rest: &mut [u8]) -> Result<Turn, Layer>
    ensures turned { Turned (decode tape.now) (desk_in desk.old) rest.old result (desk_in desk.new) rest.new }
    ensures within { IfOk result (λ t. (0 < t.read) × (t.read ≤ length tape.now) × (t.written ≤ length rest.old)) }
{
    let (command, read) = read_command(tape)?;
    let written = desk.obey(command, rest)?;
    Ok(Turn { read, written })
}
