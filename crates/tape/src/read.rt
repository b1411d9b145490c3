ghost use Rattle.std.specs.Prelude.{◌≡◌, ◌<◌, ◌≤◌, length, IfOk};
ghost use Rattle.tape.specs.Reading.{decode, told_read};

use crate::command::{Command, KindName, RuleName};
use crate::refusal::TapeCause;

/// Reads the command at the front of `rest` and says how many bytes it has.
///
/// Gives 14 for an unknown command byte (and where there is no byte at all), 15 where the bytes end inside the command, 16 for an unknown letter.
pub fn read_command<'a>(rest: &'a [u8]) -> Result<(Command<'a>, usize), TapeCause>
    ensures value { told_read result ≡ decode rest.now }
    ensures within { IfOk result (λ p. (0 < p.1) × (p.1 ≤ length rest.now)) }
{
    match rest {
        [b'R', tail, head, winch, t1, t0, strain, ..] => Ok((
            Command::Lay {
                tail: *tail,
                head: *head,
                winch: *winch,
                time: u16::from_be_bytes([*t1, *t0]),
                strain: *strain,
            },
            7,
        )),
        [b'X', run, ..] => Ok((Command::Strike { run: *run }, 2)),
        [b'T', run, t1, t0, ..] => Ok((
            Command::Retime {
                run: *run,
                time: u16::from_be_bytes([*t1, *t0]),
            },
            4,
        )),
        [b'N', point, text @ ..] if text.len() >= 8 => Ok((
            Command::Name {
                point: *point,
                text: &text[..8],
            },
            10,
        )),
        [b'F', s1, s0, ..] => Ok((
            Command::SetFlat {
                setting: u16::from_be_bytes([*s1, *s0]),
            },
            3,
        )),
        [b'P', point, s1, s0, ..] => Ok((
            Command::SetPoint {
                point: *point,
                setting: u16::from_be_bytes([*s1, *s0]),
            },
            4,
        )),
        [b'M', arriving, leaving, s1, s0, ..] => Ok((
            Command::SetPair {
                arriving: *arriving,
                leaving: *leaving,
                setting: u16::from_be_bytes([*s1, *s0]),
            },
            5,
        )),
        [b'W', letter, ..] => {
            let rule = RuleName::try_from(char::from(*letter))?;
            Ok((Command::UseRule { rule }, 2))
        }
        [b'Q', letter, home, mark, ..] => {
            let kind = KindName::try_from(char::from(*letter))?;
            Ok((
                Command::Ask {
                    kind,
                    home: *home,
                    mark: *mark,
                },
                4,
            ))
        }
        [
            b'R' | b'X' | b'T' | b'N' | b'F' | b'P' | b'M' | b'W' | b'Q',
            ..
        ] => { Err(TapeCause::TapeEnds) }
        _ => Err(TapeCause::UnknownCommand),
    }
}
