// Whole tapes, cut tapes, faults, and what their listings hold.
use crate::house::{Call, make};
use crate::report::Report;
use arrayvec::ArrayVec;
use player::fault::Fault;
use player::play::play;
use rehearsal::worked::{flat_at, map_w};
use track::rig::{GetIn, Rig};
use walks::hand_overs::HandOvers;
use walks::walk::walk_cost;

/// Room for every tape and listing here.
const ROOM: usize = 128;

/// What a listing is filled with.
pub const UNWRITTEN: u8 = 0xEE;

/// A command, and the line that it writes.
type Said = (&'static [u8], &'static [u8]);

/// A tape with each command and each letter.
const TAPE: [Said; 16] = [
    (b"R\x00\x01\x00\x00\x1E\x28", b""),
    (b"R\x01\x02\x01\x00\x14\x46", b""),
    (b"T\x01\x00\x32", b""),
    (b"N\x03UPSTAGE ", b""),
    (b"F\x00\x19", b""),
    (b"P\x01\x00\x05", b""),
    (b"M\x00\x01\x00\x07", b""),
    (b"Qt\x00\x02", b"t 0 2 105 2 0 1\n"),
    (b"Wp", b""),
    (b"Qt\x00\x02", b"t 0 2 85 2 0 1\n"),
    (b"Wm", b""),
    (b"Qh\x00\x02", b"h 0 2 4294967383 2 0 1\n"),
    (b"Wf", b""),
    (b"X\x01", b""),
    (b"Qs\x00\x02", b"s 0 2 no way\n"),
    (b"Qs\x00\x01", b"s 0 1 40 1 0\n"),
];

/// The map that it makes, by calls.
const TAPE_CALLS: [Call; 5] = [
    Call::Lay(0, 1, 0, 30, 40),
    Call::Lay(1, 2, 1, 20, 70),
    Call::Retime(1, 50),
    Call::Name(3, b"UPSTAGE "),
    Call::Strike(1),
];

/// A fault as it is told: the place of its command, its number, and the word for its layer.
#[derive(Clone, Copy, Drop, PartialEq, Eq, Debug)]
struct Told {
    place: usize,
    number: u8,
    layer: &'static str,
}

impl From<Fault> for Told {
    fn from(fault: Fault) -> Told {
        Told {
            place: fault.place,
            number: u8::from(fault.layer),
            layer: fault.layer.word(),
        }
    }
}

/// A tape or a listing, as far as it has been put together.
type Bytes = ArrayVec<u8, ROOM>;

/// The bytes of both, one after the other; there is room for them in each try here.
fn joined(front: &[u8], back: &[u8]) -> Bytes {
    let mut bytes = Bytes::new();
    let _ = bytes.try_extend_from_slice(front);
    let _ = bytes.try_extend_from_slice(back);
    bytes
}

/// Whether a buffer begins with these bytes, and is as it was past them.
pub fn begins_with(buffer: &[u8], bytes: &[u8]) -> bool {
    match buffer.strip_prefix(bytes) {
        Some(rest) => rest.iter().all(|byte| *byte == UNWRITTEN),
        None => false,
    }
}

/// Plays a tape with so much room for the listing.
///
/// The fault, every byte of the listing, and the rig, which the commands before the fault made, are held to what they should be.
fn hold_play(tape: &[u8], room: usize, lines: &[u8], wanted: Option<Told>, report: &mut Report) {
    let mut listing = [UNWRITTEN; ROOM];
    let played = play(tape, &mut listing[..room.min(ROOM)]);
    let obeyed = match &wanted {
        Some(fault) => &tape[..fault.place.min(tape.len())],
        None => tape,
    };
    let left = played.len == lines.len()
        && begins_with(&listing, lines)
        && played.rig == rig_of(obeyed);
    report.hold(played.fault.map(Told::from), wanted, left);
}

/// The tape cut at each byte: between two commands there is no fault, inside one it is 15 at the command.
pub fn cuts(report: &mut Report) {
    let mut tape = Bytes::new();
    let mut lines = Bytes::new();
    for (command, line) in TAPE {
        hold_play(&tape, ROOM, &lines, None, report);
        let place = tape.len();
        for end in 1..command.len() {
            hold_play(
                &joined(&tape, &command[..end]),
                ROOM,
                &lines,
                Some(Told {
                    place,
                    number: 15,
                    layer: "tape",
                }),
                report,
            );
        }
        tape = joined(&tape, command);
        lines = joined(&lines, line);
    }
    hold_play(&tape, ROOM, &lines, None, report);
}

/// Each question with each room for its line, up to where the line just fits.
pub fn rooms(report: &mut Report) {
    let mut tape = Bytes::new();
    let mut lines = Bytes::new();
    for (command, line) in TAPE {
        let place = tape.len();
        let full = joined(&lines, line);
        tape = joined(&tape, command);
        for room in lines.len()..full.len() {
            hold_play(
                &tape,
                room,
                &lines,
                Some(Told {
                    place,
                    number: 18,
                    layer: "listing",
                }),
                report,
            );
        }
        if !line.is_empty() {
            hold_play(&tape, full.len(), &full, None, report);
        }
        lines = full;
    }
}

/// What stands before each command that faults: a run, a struck one, and a question with its line.
const FRONT: &[u8] = b"R\x00\x01\x00\x00\x1E\x28R\x01\x02\x01\x00\x14\x46X\x01Qt\x00\x01";

const FRONT_LINE: &[u8] = b"t 0 1 30 1 0\n";

/// A command that faults, with what stands after it, and the number of the fault.
type Faulty = (&'static [u8], u8);

const TAPE_FAULTS: [Faulty; 18] = [
    (b"A", 14),
    (b"\x00", 14),
    (b"\xFF", 14),
    (b" Qt\x00\x01", 14),
    (b"r\x00\x01\x00\x00\x1E\x28", 14),
    (b"q", 14),
    (b"Wz", 16),
    (b"WF", 16),
    (b"Wt", 16),
    (b"W\x00Qt\x00\x01", 16),
    (b"Qf\x00\x01", 16),
    (b"QT\x00\x01", 16),
    (b"Qz\x80\x80", 16),
    (b"W", 15),
    (b"Qz", 15),
    (b"Qz\x00", 15),
    (b"R\x80\x80\x10\x00\x00", 15),
    (b"N\x80\x00\x00\x00\x00\x00\x00\x00", 15),
];

const MAP_FAULTS: [Faulty; 16] = [
    (b"R\x80\x00\x00\x00\x00\x00Qt\x00\x01", 1),
    (b"R\x00\x80\x00\x00\x00\x00", 1),
    (b"N\x80UPSTAGE ", 1),
    (b"N\x80\x00\x00\x00\x00\x00\x00\x00\x00", 1),
    (b"R\x05\x05\x10\x00\x00\x65", 2),
    (b"R\x00\x01\x10\x00\x00\x65", 3),
    (b"R\x00\x01\x0F\x00\x00\x65", 4),
    (b"X\x02Qt\x00\x01", 6),
    (b"X\xFF", 6),
    (b"T\x02\x00\x01", 6),
    (b"X\x01", 7),
    (b"T\x01\x00\x01", 7),
    (b"N\x00UPSTAGE\x7F", 13),
    (b"N\x00UPSTAGE\x1F", 13),
    (b"N\x00\x1FPSTAGE ", 13),
    (b"N\x00\x7FPSTAGE ", 13),
];

const RULE_FAULTS: [Faulty; 8] = [
    (b"P\x80\x00\x01Qt\x00\x01", 1),
    (b"P\xFF\xFF\xFF", 1),
    (b"M\x10\x00\x00\x01", 3),
    (b"M\x00\x10\x00\x01", 3),
    (b"M\x10\x10\x00\x01", 3),
    (b"M\xFF\xFF\x00\x01", 3),
    (b"M\x00\x00\x00\x01", 12),
    (b"M\x0F\x0F\x00\x01", 12),
];

const SEARCH_FAULTS: [Faulty; 4] = [
    (b"Qt\x80\x00Qt\x00\x01", 1),
    (b"Qs\x00\x80", 1),
    (b"Qh\x80\x80", 1),
    (b"Qt\xFF\xFF", 1),
];

/// Plays each command that faults, behind the others.
fn fault_all(table: &[Faulty], layer: &'static str, report: &mut Report) {
    for (faulty, number) in table {
        let wanted = Told {
            place: FRONT.len(),
            number: *number,
            layer,
        };
        hold_play(
            &joined(FRONT, faulty),
            ROOM,
            FRONT_LINE,
            Some(wanted),
            report,
        );
    }
}

/// Where the 257th run stands on a tape of runs, and where that tape ends.
const FULL: usize = 256 * 7;

const TOO_LONG: usize = 257 * 7;

/// A tape that lays 257 runs.
fn runs_tape() -> [u8; TOO_LONG] {
    let mut tape = [0u8; TOO_LONG];
    for run in tape.chunks_exact_mut(7) {
        run.copy_from_slice(b"R\x00\x01\x00\x00\x1E\x28");
    }
    tape
}

/// A tape that lays 256 runs has no fault, and one that lays a run more has 5 there.
fn fault_when_full(report: &mut Report) {
    let tape = runs_tape();
    let mut listing = [UNWRITTEN; 4];
    let full = play(&tape[0..FULL], &mut listing);
    report.hold(full.rig.runs().len(), 256, full.fault.is_none());
    let played = play(&tape, &mut listing);
    let wanted = Told {
        place: FULL,
        number: 5,
        layer: "map",
    };
    report.hold(
        played.fault.map(Told::from),
        Some(wanted),
        played.rig == full.rig,
    );
}

pub fn faults(report: &mut Report) {
    fault_all(&TAPE_FAULTS, "tape", report);
    fault_all(&MAP_FAULTS, "map", report);
    fault_all(&RULE_FAULTS, "rule", report);
    fault_all(&SEARCH_FAULTS, "search", report);
    fault_when_full(report);
}

/// The map W, and the one with a detour from point 1 by point 4.
const W: &[u8] =
    b"R\x00\x01\x00\x00\x1E\x28R\x00\x02\x01\x00\x14\x46R\x02\x01\x01\x00\x14\x14R\x01\x03\x01\x00\x32\x3C";

const DETOUR: &[u8] =
    b"R\x00\x01\x00\x00\x0A\x0AR\x01\x03\x01\x00\x0A\x0AR\x01\x04\x00\x00\x05\x0AR\x04\x01\x01\x00\x05\x0A";

/// A worked case: a map, what is asked on it, and the lines.
type Case = (&'static [u8], &'static [u8], &'static [u8]);

const CASES: [Case; 11] = [
    (W, b"F\x00\x19Qt\x00\x03", b"t 0 3 90 3 1 2 3\n"),
    (W, b"F\x00\x19Qt\x00\x01", b"t 0 1 30 1 0\n"),
    (W, b"F\x00\x09Qt\x00\x03", b"t 0 3 89 2 0 3\n"),
    (W, b"F\x00\x19Qs\x00\x03", b"s 0 3 60 2 0 3\n"),
    (W, b"F\x00\x19Qh\x00\x03", b"h 0 3 90 3 1 2 3\n"),
    (W, b"F\x00\x19Qt\x03\x00", b"t 3 0 no way\n"),
    (W, b"F\x00\x19Qt\x02\x02", b"t 2 2 0 0\n"),
    (
        W,
        b"F\xFF\xFFX\x01Qt\x00\x03Qt\x00\x01",
        b"t 0 3 no way\nt 0 1 30 1 0\n",
    ),
    (
        DETOUR,
        b"P\x01\xFF\xFFP\x04\x00\x03WpQt\x00\x03",
        b"t 0 3 33 4 0 2 3 1\n",
    ),
    (b"", b"Qt\x00\x00Qt\x00\x01", b"t 0 0 0 0\nt 0 1 no way\n"),
    (
        W,
        b"F\x00\x19Qt\x00\x03Qs\x00\x03Qh\x00\x03Qt\x03\x00",
        b"t 0 3 90 3 1 2 3\ns 0 3 60 2 0 3\nh 0 3 90 3 1 2 3\nt 3 0 no way\n",
    ),
];

/// Whether the tape of a map and of what is asked on it plays without a fault and writes just these lines.
fn answers(map: &[u8], asks: &[u8], lines: &[u8]) -> bool {
    let mut listing = [UNWRITTEN; ROOM];
    let played = play(&joined(map, asks), &mut listing);
    played.fault.is_none() && played.len == lines.len() && begins_with(&listing, lines)
}

/// The cases, one with two cheapest routes of which either may be written, and what a dearer walk costs.
pub fn worked_cases(report: &mut Report) {
    for (map, asks, lines) in CASES {
        report.hold_true(answers(map, asks, lines));
    }
    let tie = b"F\x00\x0AQt\x00\x03";
    report.hold_true(
        answers(W, tie, b"t 0 3 90 3 1 2 3\n") || answers(W, tie, b"t 0 3 90 2 0 3\n"),
    );
    let dearer = walk_cost(&HandOvers, &flat_at(25), map_w().runs(), 0, 3, &[0, 3]);
    report.hold(dearer, Some(4_294_967_401), true);
}

/// Two tapes, and whether they make equal rigs.
type Pair = (&'static [u8], &'static [u8], bool);

const RUN: &[u8] = b"R\x00\x01\x02\x00\x1E\x28";

const PAIRS: [Pair; 18] = [
    (b"", b"", true),
    (RUN, b"", false),
    (RUN, RUN, true),
    (RUN, b"R\x03\x01\x02\x00\x1E\x28", false),
    (RUN, b"R\x00\x03\x02\x00\x1E\x28", false),
    (RUN, b"R\x00\x01\x03\x00\x1E\x28", false),
    (RUN, b"R\x00\x01\x02\x00\x1F\x28", false),
    (RUN, b"R\x00\x01\x02\x01\x1E\x28", false),
    (RUN, b"R\x00\x01\x02\x00\x1E\x29", false),
    (RUN, b"R\x00\x01\x02\x00\x1E\x28X\x00", false),
    (
        RUN,
        b"R\x00\x01\x02\x00\x1E\x28R\x00\x01\x02\x00\x1E\x28",
        false,
    ),
    (RUN, b"R\x00\x01\x02\x00\x1F\x28T\x00\x00\x1E", true),
    (RUN, b"R\x00\x01\x02\x00\x1E\x28N\x05DOCK    ", false),
    (
        RUN,
        b"R\x00\x01\x02\x00\x1E\x28N\x05DOCK    N\x05        ",
        true,
    ),
    (
        RUN,
        b"R\x00\x01\x02\x00\x1E\x28F\x00\x01P\x01\x00\x01M\x00\x01\x00\x01WmQt\x00\x01",
        true,
    ),
    (b"N\x05DOCK    ", b"N\x06DOCK    ", false),
    (b"N\x05DOCK    ", b"N\x05DOCK 2  ", false),
    (
        b"N\x05DOCK    N\x06DOCK    ",
        b"N\x06DOCK    N\x05DOCK    ",
        true,
    ),
];

/// The rig that a tape makes.
pub fn rig_of(tape: &[u8]) -> Rig<GetIn> {
    let mut listing = [UNWRITTEN; ROOM];
    play(tape, &mut listing).rig
}

/// The rig that the calls make.
fn rig_by_calls() -> Rig<GetIn> {
    let mut rig = Rig::new();
    for call in TAPE_CALLS {
        let _ = make(&mut rig, call);
    }
    rig
}

/// The rig that the whole tape makes.
fn rig_by_tape() -> Rig<GetIn> {
    let mut tape = Bytes::new();
    for (command, _) in TAPE {
        tape = joined(&tape, command);
    }
    rig_of(&tape)
}

pub fn equal_rigs(report: &mut Report) {
    for (one, other, wanted) in PAIRS {
        let one = rig_of(one);
        let other = rig_of(other);
        let equal = one == other && other == one;
        let differ = one != other && other != one;
        report.hold(equal, wanted, differ != wanted);
    }
    report.hold_true(rig_by_calls() == rig_by_tape());
}
