ghost use Rattle.std.specs.Prelude.{◌≡◌, Some};
ghost use Rattle.walks.specs.Refusals.{number as number_of, reason};

use std::fmt;

/// Why a setting of a hand-over rule was refused, with the number by which it is told.
#[derive(Clone, Copy, PartialEq, Eq, Debug)]
pub enum RuleRefusal {
    /// A point above 127.
    NoPoint = 1,
    /// A winch above 15.
    NoWinch = 3,
    /// The same winch twice.
    SameWinch = 12,
}

impl From<RuleRefusal> for u8 {
    ghost from_gives = { λ refusal n. n ≡ number_of refusal };

    fn from(refusal: RuleRefusal) -> u8 {
        refusal as u8
    }
}

impl fmt::Display for RuleRefusal {
    ghost output = { λ refusal. Some (reason refusal) };

    fn fmt<W: fmt::Write>(&self, f: &mut fmt::Formatter<W>) -> fmt::Result {
        f.write_str(match self {
            RuleRefusal::NoPoint => "point above 127",
            RuleRefusal::NoWinch => "winch above 15",
            RuleRefusal::SameWinch => "the same winch twice",
        })
    }
}
