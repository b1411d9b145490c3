// The calls on the map, at their accepted and refused neighbours.
use crate::report::Report;
use track::refusal::MapRefusal;
use track::rig::{GetIn, Rig};
use track::run::{MOST_RUNS, Run};

/// A call on the map. A tape's command has a byte for a run, and these go further.
#[derive(Clone, Copy, Drop)]
pub enum Call {
    Lay(u8, u8, u8, u16, u8),
    Strike(u16),
    Retime(u16, u16),
    Name(u8, &'static [u8]),
}

/// A call, and the number with which it is refused, if it is.
type Step = (Call, Option<u8>);

/// Accepted, refused for one reason, and refused for the first of several.
const LAYS: [Step; 15] = [
    (Call::Lay(0, 127, 15, 65_535, 100), None),
    (Call::Lay(127, 0, 0, 0, 0), None),
    (Call::Lay(127, 126, 15, 1, 0), None),
    (Call::Lay(128, 0, 0, 0, 0), Some(1)),
    (Call::Lay(0, 128, 0, 0, 0), Some(1)),
    (Call::Lay(255, 255, 255, 0, 255), Some(1)),
    (Call::Lay(128, 128, 16, 0, 101), Some(1)),
    (Call::Lay(5, 5, 0, 0, 0), Some(2)),
    (Call::Lay(127, 127, 16, 0, 101), Some(2)),
    (Call::Lay(0, 1, 16, 0, 0), Some(3)),
    (Call::Lay(0, 1, 16, 0, 101), Some(3)),
    (Call::Lay(0, 1, 255, 0, 0), Some(3)),
    (Call::Lay(0, 1, 15, 0, 101), Some(4)),
    (Call::Lay(0, 1, 0, 0, 255), Some(4)),
    (Call::Lay(0, 127, 15, 65_535, 100), None),
];

/// Runs not laid, laid, retimed and struck.
const CHANGES: [Step; 19] = [
    (Call::Strike(0), Some(6)),
    (Call::Retime(0, 5), Some(6)),
    (Call::Lay(0, 1, 2, 30, 40), None),
    (Call::Lay(1, 2, 3, 50, 60), None),
    (Call::Lay(2, 3, 4, 70, 80), None),
    (Call::Retime(1, 65_535), None),
    (Call::Retime(2, 0), None),
    (Call::Retime(3, 1), Some(6)),
    (Call::Strike(3), Some(6)),
    (Call::Strike(256), Some(6)),
    (Call::Strike(65_535), Some(6)),
    (Call::Retime(65_535, 1), Some(6)),
    (Call::Strike(0), None),
    (Call::Strike(0), Some(7)),
    (Call::Retime(0, 5), Some(7)),
    (Call::Lay(0, 1, 2, 30, 40), None),
    (Call::Strike(3), None),
    (Call::Retime(3, 9), Some(7)),
    (Call::Retime(1, 8), None),
];

/// Names of 8, 7, 9 and no bytes, and with the bytes 31, 32, 126 and 127 first and last.
const NAMES: [Step; 16] = [
    (Call::Name(127, b" PSTAGE~"), None),
    (Call::Name(0, b"~PSTAGE "), None),
    (Call::Name(0, b"\x1FPSTAGE "), Some(13)),
    (Call::Name(0, b"UPSTAGE\x1F"), Some(13)),
    (Call::Name(0, b"\x7FPSTAGE "), Some(13)),
    (Call::Name(0, b"UPSTAGE\x7F"), Some(13)),
    (Call::Name(0, b"UPS\x00AGE "), Some(13)),
    (Call::Name(0, b"UPS\xFFAGE "), Some(13)),
    (Call::Name(0, b"UPSTAGE"), Some(13)),
    (Call::Name(0, b"UPSTAGE  "), Some(13)),
    (Call::Name(0, b""), Some(13)),
    (Call::Name(128, b"UPSTAGE "), Some(1)),
    (Call::Name(128, b"UPSTAGE"), Some(1)),
    (Call::Name(255, b"UPSTAGE\x7F"), Some(1)),
    (Call::Name(1, b"DOCK    "), None),
    (Call::Name(1, b"DOCK 2  "), None),
];

/// On a map of 255 runs: the last that may be laid, and what is refused after it.
const FULL: [Step; 14] = [
    (Call::Strike(255), Some(6)),
    (Call::Lay(0, 1, 15, 9, 100), None),
    (Call::Lay(0, 1, 15, 9, 100), Some(5)),
    (Call::Lay(0, 1, 15, 9, 101), Some(4)),
    (Call::Lay(0, 1, 16, 9, 101), Some(3)),
    (Call::Lay(1, 1, 16, 9, 101), Some(2)),
    (Call::Lay(1, 128, 16, 9, 101), Some(1)),
    (Call::Strike(256), Some(6)),
    (Call::Retime(256, 1), Some(6)),
    (Call::Retime(255, 7), None),
    (Call::Strike(255), None),
    (Call::Lay(0, 1, 15, 9, 100), Some(5)),
    (Call::Strike(255), Some(7)),
    (Call::Retime(255, 1), Some(7)),
];

/// A run, for the lists of what is laid.
fn run(tail: u8, head: u8, winch: u8, time: u16, strain: u8, struck: bool) -> Run {
    Run {
        tail,
        head,
        winch,
        time,
        strain,
        struck,
    }
}

/// Makes a call.
pub fn make(rig: &mut Rig<GetIn>, call: Call) -> Result<(), MapRefusal> {
    match call {
        Call::Lay(tail, head, winch, time, strain) => {
            rig.lay(tail, head, winch, time, strain).map(|_| ())
        }
        Call::Strike(run) => rig.strike(run),
        Call::Retime(run, time) => rig.retime(run, time),
        Call::Name(point, text) => rig.name(point, text),
    }
}

/// A rig, and its twin, on which only what should be accepted is called: the two are always equal.
#[derive(Drop)]
struct Twins {
    rig: Rig<GetIn>,
    twin: Rig<GetIn>,
}

impl Twins {
    fn new() -> Twins {
        Twins {
            rig: Rig::new(),
            twin: Rig::new(),
        }
    }

    /// Takes the steps.
    fn take(&mut self, steps: &[Step], report: &mut Report) {
        for (call, wanted) in steps {
            let answer = make(&mut self.rig, *call);
            if wanted.is_none() {
                let _ = make(&mut self.twin, *call);
            }
            let number = answer.err().map(u8::from);
            report.hold(number, *wanted, self.rig == self.twin);
        }
    }
}

/// Takes the steps on a new rig, and holds its runs to what they should be then.
fn take_all(steps: &[Step], runs: &[Run], report: &mut Report) {
    let mut twins = Twins::new();
    twins.take(steps, report);
    report.hold_true(twins.rig.runs() == runs);
}

pub fn lays(report: &mut Report) {
    let laid = [
        run(0, 127, 15, 65_535, 100, false),
        run(127, 0, 0, 0, 0, false),
        run(127, 126, 15, 1, 0, false),
        run(0, 127, 15, 65_535, 100, false),
    ];
    take_all(&LAYS, &laid, report);
}

pub fn changes(report: &mut Report) {
    let changed = [
        run(0, 1, 2, 30, 40, true),
        run(1, 2, 3, 8, 60, false),
        run(2, 3, 4, 0, 80, false),
        run(0, 1, 2, 30, 40, true),
    ];
    take_all(&CHANGES, &changed, report);
}

/// The name that the steps leave a point: three points are named.
fn name_after(point: usize) -> [u8; 8] {
    match point {
        0 => *b"~PSTAGE ",
        1 => *b"DOCK 2  ",
        127 => *b" PSTAGE~",
        _ => [b' '; 8],
    }
}

pub fn names(report: &mut Report) {
    let mut twins = Twins::new();
    twins.take(&NAMES, report);
    let mut names = twins.rig.names().iter().enumerate();
    report.hold_true(names.all(|(point, name)| *name == name_after(point)));
}

/// Lays so many runs, and says whether each got the next number.
fn fill(rig: &mut Rig<GetIn>, runs: u16) -> bool {
    (0..runs).all(|i| rig.lay(0, 1, 0, i, 0).ok() == Some(i))
}

pub fn full_map(report: &mut Report) {
    let mut twins = Twins::new();
    report.hold_true(fill(&mut twins.rig, 255) && fill(&mut twins.twin, 255));
    twins.take(&FULL, report);
    report.hold(twins.rig.runs().len(), MOST_RUNS, true);
}
