ghost use Rattle.std.specs.Prelude.{◌≡◌, Some, ok_or};
ghost use Rattle.tape.specs.Letters.{kind_letter, kind_named, rule_named, rule_word};
ghost use Rattle.tape.specs.declared.refusal.TapeCause.TheVariants.{UnknownLetter};

use crate::refusal::TapeCause;
use std::fmt;

/// A kind of cost that comes with the router, as a tape names it.
#[derive(Clone, Copy, Drop, PartialEq, Eq, Debug)]
pub enum KindName {
    Time,
    Strain,
    HandOvers,
}

/// A hand-over rule that comes with the router, as a tape names it.
#[derive(Clone, Copy, Drop, PartialEq, Eq, Debug)]
pub enum RuleName {
    Flat,
    Point,
    Pair,
}

/// One command of a tape.
#[derive(Clone, Copy)]
pub enum Command<'a> {
    /// `R`: lays a run.
    Lay {
        tail: u8,
        head: u8,
        winch: u8,
        time: u16,
        strain: u8,
    },
    /// `X`: strikes a run.
    Strike {
        run: u8,
    },
    /// `T`: alters a run's time.
    Retime {
        run: u8,
        time: u16,
    },
    /// `N`: names a point. The eight bytes of the name are a part of the tape.
    Name {
        point: u8,
        text: &'a [u8],
    },
    /// `F`: sets the flat rule.
    SetFlat {
        setting: u16,
    },
    /// `P`: sets the point rule at one point.
    SetPoint {
        point: u8,
        setting: u16,
    },
    /// `M`: sets the pair rule at one pair of winches.
    SetPair {
        arriving: u8,
        leaving: u8,
        setting: u16,
    },
    /// `W`: the rule for later questions.
    UseRule {
        rule: RuleName,
    },
    /// `Q`: asks a route.
    Ask {
        kind: KindName,
        home: u8,
        mark: u8,
    },
}

/// A question, as a tape and a sheet ask it: the kind of cost, where the way begins and where it ends.
#[derive(Clone, Copy, Drop)]
pub struct Question {
    pub kind: KindName,
    pub home: u8,
    pub mark: u8,
}

impl TryFrom<char> for KindName {
    type Error = TapeCause;

    ghost try_from_gives = { λ letter result. result ≡ ok_or (kind_named letter) UnknownLetter };

    /// The kind that a letter names: `t`, `s` or `h`.
    fn try_from(letter: char) -> Result<Self, TapeCause> {
        match letter {
            't' => Ok(KindName::Time),
            's' => Ok(KindName::Strain),
            'h' => Ok(KindName::HandOvers),
            _ => Err(TapeCause::UnknownLetter),
        }
    }
}

impl From<KindName> for u8 {
    ghost from_gives = { λ kind letter. letter ≡ kind_letter kind };

    /// The letter of a kind.
    fn from(kind: KindName) -> u8 {
        match kind {
            KindName::Time => b't',
            KindName::Strain => b's',
            KindName::HandOvers => b'h',
        }
    }
}

impl TryFrom<char> for RuleName {
    type Error = TapeCause;

    ghost try_from_gives = { λ letter result. result ≡ ok_or (rule_named letter) UnknownLetter };

    /// The rule that a letter names: `f`, `p` or `m`.
    fn try_from(letter: char) -> Result<Self, TapeCause> {
        match letter {
            'f' => Ok(RuleName::Flat),
            'p' => Ok(RuleName::Point),
            'm' => Ok(RuleName::Pair),
            _ => Err(TapeCause::UnknownLetter),
        }
    }
}

impl fmt::Display for RuleName {
    ghost output = { λ rule. Some (rule_word rule) };

    fn fmt<W: fmt::Write>(&self, f: &mut fmt::Formatter<W>) -> fmt::Result {
        f.write_str(match self {
            RuleName::Flat => "flat",
            RuleName::Point => "point",
            RuleName::Pair => "pair",
        })
    }
}
