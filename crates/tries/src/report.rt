use rehearsal::tally::Tally;
use std::alloc::{AllocError, Global};
use std::fmt::Debug;

/// What was tried, and what came of it.
#[derive(Drop)]
pub struct Report {
    heap: Global,
    /// What is being tried.
    what: String,
    pub row: Tally,
    pub all: Tally,
    /// A line for each try that came out otherwise than it should.
    pub misses: Vec<String>,
}

impl Report {
    pub fn new(heap: Global) -> Report {
        Report {
            heap,
            what: String::new(heap),
            row: Tally::new(),
            all: Tally::new(),
            misses: Vec::new(heap),
        }
    }

    /// Begins a row. Where its name finds no memory the counts still tell.
    pub fn begin(&mut self, what: &str) {
        self.what.clear();
        let _ = self.what.push_str(what);
        self.row = Tally::new();
    }

    /// Notes what came out, and what should have. Where the answer is right, what the call left is not.
    fn miss<T: Debug>(&mut self, got: &T, wanted: &T) -> Result<(), AllocError> {
        let what = &self.what;
        let case = self.row.tried;
        let line = format!(in self.heap;
            "{what}, case {case}: answer {got:?}, should be {wanted:?}"
        )?;
        self.misses.push(line)?;
        Ok(())
    }

    /// Counts a try that answered `got`, and left everything as it should be or not. Where a miss finds no memory the counts still tell.
    pub fn hold<T: PartialEq + Debug + Drop>(&mut self, got: T, wanted: T, left: bool) {
        let agrees = got == wanted && left;
        self.row.count(agrees);
        self.all.count(agrees);
        if !agrees {
            let _ = self.miss(&got, &wanted);
        }
    }

    /// Counts a try that came out as it should or not.
    pub fn hold_true(&mut self, is: bool) {
        self.hold(is, true, true);
    }
}
