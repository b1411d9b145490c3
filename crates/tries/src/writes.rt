// The tape that write leaves, with a buffer that is short, exact or long, and played again.
use crate::report::Report;
use crate::tapes::{UNWRITTEN, begins_with, rig_of};
use player::play::play;
use tape::write::write;
use track::rig::{GetIn, Rig};

/// The most bytes that a tape has: 256 runs, all struck, and 128 names.
// Written out, as all that is expected here is, and not taken from what is tried.
const LONGEST: usize = 256 * 9 + 128 * 10;

/// Room for each tape here but the longest.
const ROOM: usize = 64;

/// A tape that makes a rig, and the tape of that rig.
type Written = (&'static [u8], &'static [u8]);

const WRITTEN: [Written; 6] = [
    (b"", b""),
    (
        b"R\x00\x01\x00\x00\x1E\x28R\x00\x02\x01\x00\x14\x46X\x01N\x03UPSTAGE ",
        b"R\x00\x01\x00\x00\x1E\x28R\x00\x02\x01\x00\x14\x46X\x01N\x03UPSTAGE ",
    ),
    (
        b"R\x00\x01\x00\x00\x1E\x28T\x00\x01\x1F",
        b"R\x00\x01\x00\x01\x1F\x28",
    ),
    (
        b"N\x7FLAST    N\x00FIRST   R\x00\x01\x00\x00\x1E\x28R\x01\x02\x0F\xFF\xFF\x64X\x00",
        b"R\x00\x01\x00\x00\x1E\x28X\x00R\x01\x02\x0F\xFF\xFF\x64N\x00FIRST   N\x7FLAST    ",
    ),
    (b"N\x05DOCK    N\x05        ", b""),
    (b"F\x00\x01P\x01\x00\x01M\x00\x01\x00\x01WpQt\x00\x00", b""),
];

/// Writes into a buffer, and answers the tape's length or the number of the refusal.
fn told(rig: &Rig<GetIn>, buffer: &mut [u8]) -> Result<usize, u8> {
    write(rig, buffer).map_err(u8::from)
}

/// Writes into a buffer of this size: it begins with the tape, or has no room for it and is as it was.
fn try_write(rig: &Rig<GetIn>, size: usize, tape: &[u8], report: &mut Report) {
    let mut buffer = [UNWRITTEN; ROOM];
    let answer = told(rig, &mut buffer[..size.min(ROOM)]);
    if size < tape.len() {
        report.hold(answer, Err(17), begins_with(&buffer, b""));
    } else {
        report.hold(answer, Ok(tape.len()), begins_with(&buffer, tape));
    }
}

/// Each size of the buffer up to two more than the tape needs.
pub fn buffers(report: &mut Report) {
    for (made_by, tape) in WRITTEN {
        let rig = rig_of(made_by);
        for size in 0..tape.len().saturating_add(3) {
            try_write(&rig, size, tape, report);
        }
    }
}

/// A rig whose tape is the longest.
fn fullest() -> Rig<GetIn> {
    let mut rig = Rig::new();
    for run in 0..256 {
        let _ = rig.lay(0, 127, 15, 65_535, 100);
        let _ = rig.strike(run);
    }
    for point in 0..128 {
        let _ = rig.name(point, b"POINT   ");
    }
    rig
}

/// Whether the tape played gives the rig, without a fault and without a line.
fn gives(tape: &[u8], rig: &Rig<GetIn>) -> bool {
    let mut listing = [UNWRITTEN; 1];
    let played = play(tape, &mut listing);
    played.fault.is_none() && played.len == 0 && played.rig == *rig
}

/// The longest tape, and a buffer that is one short of it.
fn try_longest(report: &mut Report) {
    let rig = fullest();
    let mut buffer = [UNWRITTEN; LONGEST];
    report.hold(told(&rig, &mut buffer[1..]), Err(17), true);
    report.hold(told(&rig, &mut buffer), Ok(LONGEST), true);
    report.hold_true(gives(&buffer, &rig));
}

pub fn round_trips(report: &mut Report) {
    for (made_by, tape) in WRITTEN {
        report.hold_true(gives(tape, &rig_of(made_by)));
    }
    try_longest(report);
}
