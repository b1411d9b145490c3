ghost use Rattle.std.specs.Prelude.{◌≡◌, Some};
ghost use Rattle.sheet.specs.Wording.{done_words, refused_words};

use crate::costs::{Cost, plural_end};
use desk::ask::Route;
use routing::refusal::SearchRefusal;
use std::fmt;
use tape::command::{KindName, RuleName};
use track::refusal::MapRefusal;
use walks::refusal::RuleRefusal;

/// What came of a line.
pub type Outcome = Result<Done, Refused>;

/// What was done as a line said.
#[derive(Drop)]
pub enum Done {
    /// A blank line or a comment asks for nothing.
    Silence,
    /// The run of that number was laid.
    Laid(u16),
    Struck,
    Retimed,
    Named,
    /// The rule for later questions.
    InForce(RuleName),
    Routed { kind: KindName, route: Route },
}

/// Why a line was not done.
#[derive(Clone, Copy, Drop)]
pub enum Refused {
    Unreadable,
    Call(MapRefusal),
    Rule(RuleRefusal),
    Search(SearchRefusal),
}

impl From<MapRefusal> for Refused {
    ghost use Rattle.sheet.specs.declared.outcomes.Refused.{Refused};

    ghost from_gives = { λ refusal refused. refused ≡ Refused.Call refusal };

    fn from(refusal: MapRefusal) -> Refused {
        Refused::Call(refusal)
    }
}

impl From<RuleRefusal> for Refused {
    ghost use Rattle.sheet.specs.declared.outcomes.Refused.{Refused};

    ghost from_gives = { λ refusal refused. refused ≡ Refused.Rule refusal };

    fn from(refusal: RuleRefusal) -> Refused {
        Refused::Rule(refusal)
    }
}

impl From<SearchRefusal> for Refused {
    ghost use Rattle.sheet.specs.declared.outcomes.Refused.{Refused};

    ghost from_gives = { λ refusal refused. refused ≡ Refused.Search refusal };

    fn from(refusal: SearchRefusal) -> Refused {
        Refused::Search(refusal)
    }
}

impl fmt::Display for Done {
    ghost output = { λ done. Some (done_words done) };

    fn fmt<W: fmt::Write>(&self, f: &mut fmt::Formatter<W>) -> fmt::Result {
        match self {
            Done::Silence => Ok(()),
            Done::Laid(run) => write!(f, "run {run}"),
            Done::Struck => f.write_str("struck"),
            Done::Retimed => f.write_str("retimed"),
            Done::Named => f.write_str("named"),
            Done::InForce(rule) => write!(f, "rule {rule} in force"),
            Done::Routed { kind, route } => {
                let cost = Cost {
                    kind: *kind,
                    value: route.cost,
                };
                let count = route.runs.len();
                let end = plural_end(count as u64);
                write!(f, "{cost} by {count} run{end}")
            }
        }
    }
}

impl fmt::Display for Refused {
    ghost output = { λ refused. Some (refused_words refused) };

    fn fmt<W: fmt::Write>(&self, f: &mut fmt::Formatter<W>) -> fmt::Result {
        match self {
            Refused::Unreadable => f.write_str("cannot be read"),
            Refused::Call(refusal) => {
                let number = u8::from(*refusal);
                write!(f, "refused {number}: {refusal}")
            }
            Refused::Rule(refusal) => {
                let number = u8::from(*refusal);
                write!(f, "refused {number}: {refusal}")
            }
            // That there is no way is an answer, and goes by no number.
            Refused::Search(SearchRefusal::NoWay) => write!(f, "{}", SearchRefusal::NoWay),
            Refused::Search(refusal) => {
                let number = u8::from(*refusal);
                write!(f, "refused {number}: {refusal}")
            }
        }
    }
}
