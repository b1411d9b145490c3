ghost use Rattle.std.specs.Prelude.{◌≡◌, Some};
ghost use Rattle.sheet.specs.Wording.{hop_line, hand_over_line, hand_over};

use std::fmt;
use track::run::Run;

/// A run of a route, with its number.
#[derive(Clone, Copy)]
pub struct Hop {
    pub number: u16,
    pub run: Run,
}

impl fmt::Display for Hop {
    ghost output = { λ h. Some (hop_line h.number h.run) };

    fn fmt<W: fmt::Write>(&self, f: &mut fmt::Formatter<W>) -> fmt::Result {
        let number = self.number;
        let tail = self.run.tail;
        let head = self.run.head;
        let winch = self.run.winch;
        write!(
            f,
            "  from {tail} by run {number} on winch {winch} to {head}"
        )
    }
}

/// The load handed over from one winch to another.
#[derive(Clone, Copy, Drop)]
pub struct HandOver {
    pub point: u8,
    pub arriving: u8,
    pub leaving: u8,
}

impl fmt::Display for HandOver {
    ghost output = { λ h. Some (hand_over_line h) };

    fn fmt<W: fmt::Write>(&self, f: &mut fmt::Formatter<W>) -> fmt::Result {
        let point = self.point;
        let arriving = self.arriving;
        let leaving = self.leaving;
        write!(
            f,
            "  hand over from winch {arriving} to winch {leaving} at point {point}"
        )
    }
}

/// The hand-over between a run and the one that follows it, where their winches differ.
pub fn hand_over(before: Run, next: Run) -> Option<HandOver>
    ensures { result ≡ hand_over before next }
{
    if before.winch != next.winch {
        Some(HandOver {
            point: before.head,
            arriving: before.winch,
            leaving: next.winch,
        })
    } else {
        None
    }
}
