ghost use Rattle.std.specs.Prelude.{◌≡◌};

use crate::refusal::MapRefusal;
use arrayvec::ArrayVec;

/// How many points there are, numbered from 0.
pub const POINTS: usize = 128;

/// How many winches there are, numbered from 0.
pub const WINCHES: u8 = 16;

/// The highest strain of a run, in percent of rated load.
pub const MOST_STRAIN: u8 = 100;

/// How many runs may be laid, struck ones counted.
pub const MOST_RUNS: usize = 256;

/// The name of a point that was not named: eight spaces.
pub const NO_NAME: [u8; 8] = [b' '; 8];

/// A run: a one-way piece of track from its tail point to its head point, hauled by one winch.
#[derive(Clone, Copy, Default, PartialEq, Eq, Debug)]
pub struct Run {
    pub tail: u8,
    pub head: u8,
    pub winch: u8,
    /// In tenths of a second.
    pub time: u16,
    /// In percent of rated load.
    pub strain: u8,
    /// A struck run is out of use, and keeps its number.
    pub struck: bool,
}

/// The runs in the order in which they were laid.
#[derive(Drop)]
pub struct RunTable {
    pub(crate) runs: ArrayVec<Run, MOST_RUNS>,
}

impl RunTable {
    ghost use Rattle.std.specs.Borrow.{sem};
    ghost use Rattle.std.specs.Prelude.{IfOk, slice_index_or};
    ghost use Rattle.track.specs.Runs.{idle};
    ghost use Rattle.track.specs.Lends.{LendsRun, lent_answer, use_answer};

    /// The run of that number, lent to be changed, if it was laid and is not struck.
    pub(crate) fn in_use(&mut self, run: u16) -> Result<&mut Run, MapRefusal>
        ensures* writes_back { sem 𝓛 (LendsRun self.entry run result) }
        ensures answer { lent_answer result ≡ use_answer self.old.runs.items run }
        ensures lent { IfOk result (λ r. r.now ≡ slice_index_or self.old.runs.items run idle) }
    {
        let run = self
            .runs
            .get_mut(usize::from(run))
            .ok_or(MapRefusal::NoRun)?;
        if run.struck {
            return Err(MapRefusal::RunStruck);
        }
        Ok(run)
    }
}
