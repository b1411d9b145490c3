ghost use Rattle.std.specs.Prelude.{◌≡◌, Some};
ghost use Rattle.sheet.specs.Wording.{seconds, plural, cost_words};

use std::fmt;
use tape::command::KindName;
use walks::hand_overs::CHANGE;

/// A time in tenths of a second, shown in seconds.
#[derive(Clone, Copy)]
pub struct Seconds(pub u64);

impl fmt::Display for Seconds {
    ghost output = { λ s. Some (seconds s.0) };

    fn fmt<W: fmt::Write>(&self, f: &mut fmt::Formatter<W>) -> fmt::Result {
        let whole = self.0 / 10;
        let tenth = self.0 % 10;
        write!(f, "{whole}.{tenth}")
    }
}

/// The end of a word for `count` of a kind.
pub(crate) fn plural_end(count: u64) -> &'static str
    ensures { result.now ≡ plural count }
{
    if count == 1 { "" } else { "s" }
}

/// A cost of a kind.
#[derive(Clone, Copy)]
pub struct Cost {
    pub kind: KindName,
    pub value: u64,
}

impl fmt::Display for Cost {
    ghost output = { λ c. Some (cost_words c.kind c.value) };

    fn fmt<W: fmt::Write>(&self, f: &mut fmt::Formatter<W>) -> fmt::Result {
        let value = self.value;
        match self.kind {
            KindName::Time => {
                let time = Seconds(value);
                write!(f, "{time} s ({value} tenths)")
            }
            KindName::Strain => write!(f, "{value} %"),
            KindName::HandOvers => {
                let count = value / CHANGE;
                let end = plural_end(count);
                let tenths = value % CHANGE;
                let time = Seconds(tenths);
                write!(f, "{count} hand-over{end}, {time} s ({tenths} tenths)")
            }
        }
    }
}
