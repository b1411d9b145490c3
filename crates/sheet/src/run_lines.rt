ghost use Rattle.std.specs.Prelude.{Some};
ghost use Rattle.sheet.specs.Wording.{percent, run_line};

use crate::costs::Seconds;
use std::fmt;
use track::run::Run;

/// A share of the rated load.
#[derive(Clone, Copy)]
pub struct Percent(pub u8);

impl fmt::Display for Percent {
    ghost output = { λ p. Some (percent p.0) };

    fn fmt<W: fmt::Write>(&self, f: &mut fmt::Formatter<W>) -> fmt::Result {
        let n = self.0;
        write!(f, "{n} %")
    }
}

/// A run of the map, with its number.
#[derive(Clone, Copy)]
pub struct RunLine {
    pub number: usize,
    pub run: Run,
}

impl fmt::Display for RunLine {
    ghost output = { λ l. Some (run_line l.number l.run) };

    fn fmt<W: fmt::Write>(&self, f: &mut fmt::Formatter<W>) -> fmt::Result {
        let number = self.number;
        let tail = self.run.tail;
        let head = self.run.head;
        let winch = self.run.winch;
        let time = Seconds(u64::from(self.run.time));
        let strain = Percent(self.run.strain);
        write!(
            f,
            "run {number}: {tail} to {head}, winch {winch}, {time} s, strain {strain}"
        )
    }
}
