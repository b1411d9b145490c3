ghost use Rattle.std.specs.Prelude.{◌≡◌, ℕ, ◌<◌, ◌≤◌, true, [], length, slice_index_or};
ghost use Rattle.std.specs.Ordering.{on};
ghost use Rattle.std.specs.Cmp.{on_per};
ghost use Rattle.arrayvec.specs.ArrayVec.{array_vec_len};
ghost use Rattle.track.specs.Sizes.{points, most_runs};
ghost use Rattle.track.specs.Runs.{run_ok, name_ok, idle};

use crate::run::{POINTS, Run, RunTable};
use std::marker::PhantomData;

/// The state of a rig in get-in: its map may be changed and written, and no route may be asked of it.
#[derive(Drop)]
pub struct GetIn;

/// The state of a rig in show: its map stands.
#[derive(Drop)]
pub struct Show;

/// What a rig holds in either state, in one piece, so that a change of state moves it as one.
#[derive(Drop)]
pub(crate) struct Layout {
    pub(crate) table: RunTable,
    pub(crate) names: [[u8; 8]; POINTS],
}

/// A rig in the state `S`: the runs laid and the name of each point.
// Clauses see its map by `map_of`, and no model: theorems on any rig, in crates above, rest on its ghost fields, which a model would keep from them.
#[derive(Drop)]
pub struct Rig<S> {
    pub(crate) layout: Layout,
    pub(crate) state: PhantomData<S>,
    ghost room: { array_vec_len layout.table.runs ≤ most_runs },
    ghost named: { length layout.names ≡ points },
    ghost sound: { (k : ℕ) → k < array_vec_len layout.table.runs → run_ok (slice_index_or layout.table.runs.items k idle) ≡ true },
    ghost legible: { (p : ℕ) → p < points → name_ok (slice_index_or layout.names p []) ≡ true },
}

impl<S> Rig<S> {
    ghost use Rattle.track.specs.Calls.{map_of};

    /// The runs laid, struck ones too, by number.
    pub fn runs(&self) -> &[Run]
        ensures value { result.now ≡ (map_of self.now).runs }
        ensures bound { length result.now ≤ most_runs }
    {
        self.layout.table.runs.as_slice()
    }

    /// The name of each point.
    pub fn names(&self) -> &[[u8; 8]; POINTS]
        ensures value { result.now ≡ (map_of self.now).names }
        ensures len { length result.now ≡ points }
    {
        &self.layout.names
    }

    /// The same rig in another state.
    pub(crate) fn into_state<T>(self) -> Rig<T>
        ensures { map_of result ≡ map_of self }
    {
        let Rig { layout, state: _ } = self;
        Rig {
            layout,
            state: PhantomData,
        }
    }
}

// By hand: a derive would ask that states can be compared, and would not say that it decides whether two maps are equal.
impl<S> PartialEq for Rig<S> {
    ghost use Rattle.std.specs.Prelude.{Decides};
    ghost use Rattle.track.specs.Calls.{map_of};
    ghost use Rattle.track.specs.Equal.{same_map, same_map_per};
    ghost use Rattle.track.specs.Map.{EqualMaps};

    ghost eq = { on map_of same_map };

    ghost laws = { on_per map_of same_map_per };

    /// Whether two rigs are equal: their runs, struck marks and names agree.
    fn eq(&self, other: &Rig<S>) -> bool
        ensures value { result ≡ same_map (map_of self.now) (map_of other.now) }
        ensures decides { Decides result (EqualMaps (map_of self.now) (map_of other.now)) }
    {
        self.runs() == other.runs() && self.names() == other.names()
    }
}
