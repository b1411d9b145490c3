ghost use Rattle.std.specs.Prelude.{◌≡◌, ◌+◌, ◌-◌, ◌^◌, min, IsTrue, IsFalse};

/// How often something was tried, and how often it came out as it should.
#[derive(Clone, Copy, Drop, PartialEq, Eq, Debug)]
pub struct Tally {
    pub tried: u32,
    pub agreed: u32,
}

impl Tally {
    /// Nothing tried.
    pub fn new() -> Tally
        ensures tried { result.tried ≡ 0 }
        ensures agreed { result.agreed ≡ 0 }
    {
        Tally {
            tried: 0,
            agreed: 0,
        }
    }

    /// Counts a try that came out as it should, or not. The counts stop at 4,294,967,295.
    pub fn count(&mut self, agrees: bool)
        ensures tried { self.new.tried ≡ min (self.old.tried + 1) (2 ^ 32 - 1) }
        ensures agreed { IsTrue agrees → self.new.agreed ≡ min (self.old.agreed + 1) (2 ^ 32 - 1) }
        ensures differed { IsFalse agrees → self.new.agreed ≡ self.old.agreed }
    {
        self.tried = self.tried.saturating_add(1);
        if agrees {
            self.agreed = self.agreed.saturating_add(1);
        }
    }
}
