ghost use Rattle.std.specs.Prelude.{List, [], ◌∷◌, ◌++◌};
ghost use Rattle.track.specs.Map.{Call};
ghost use Rattle.track.specs.Map.Call.{Lay, Open, Close};
ghost use Rattle.track.specs.Calls.{map_of, LeftBy};

use track::rig::{Rig, Show};
use track::run::Run;

/// At the half: the rig is closed, a run is laid as it is handed over, and the rig is opened again.
///
/// A program that lays the run without closing the rig first is refused by the check: a `Rig<Show>` has no `lay`.
pub fn lay_at_the_half(show: Rig<Show>, run: Run) -> Rig<Show>
    ensures { (calls : List Call) → LeftBy calls (map_of show) → LeftBy (calls ++ Close ∷ Lay run.tail run.head run.winch run.time run.strain ∷ Open ∷ []) (map_of result) }
{
    let mut rig = show.close();
    let _ = rig.lay(run.tail, run.head, run.winch, run.time, run.strain);
    rig.open()
}
