use crate::fault::Fault;
use rehearsal::tally::Tally;
use std::alloc::Global;
use std::fmt::Display;

/// How many disagreements are shown.
const MOST_SHOWN: usize = 5;

/// The scores under one kind of cost.
#[derive(Clone, Copy, Drop)]
pub struct KindScores {
    pub kind: &'static str,
    /// Surveys from a home.
    pub surveys: Tally,
    /// Routes to a mark that can be reached.
    pub routes: Tally,
    /// Routes to a mark that cannot.
    pub no_ways: Tally,
    /// Rigs of few runs, with a home, of which every walk was tried.
    pub walks: Tally,
}

impl KindScores {
    pub fn new(kind: &'static str) -> KindScores {
        KindScores {
            kind,
            surveys: Tally::new(),
            routes: Tally::new(),
            no_ways: Tally::new(),
            walks: Tally::new(),
        }
    }
}

/// The first disagreements, a line for each.
#[derive(Drop)]
pub struct Log {
    pub heap: Global,
    pub lines: Vec<String>,
}

impl Log {
    pub fn new(heap: Global) -> Log {
        Log {
            heap,
            lines: Vec::new(heap),
        }
    }

    /// Counts what came of a try, and notes what did not agree, with words to find it by.
    pub fn judge<W: Display + Drop>(
        &mut self,
        score: &mut Tally,
        outcome: Result<(), Fault>,
        words: W,
    ) -> Result<(), Fault> {
        score.count(outcome.is_ok());
        if let Err(fault) = outcome {
            if self.lines.len() < MOST_SHOWN {
                let line = format!(in self.heap; "{words}: {fault}")?;
                self.lines.push(line)?;
            }
        }
        Ok(())
    }
}
