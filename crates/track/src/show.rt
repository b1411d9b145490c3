ghost use Rattle.std.specs.Prelude.{◌≡◌, List, [], ◌∷◌, ◌++◌};
ghost use Rattle.track.specs.Map.{Call};
ghost use Rattle.track.specs.Map.Call.{Close};
ghost use Rattle.track.specs.Calls.{map_of, LeftBy};

use crate::rig::{GetIn, Rig, Show};

impl Rig<Show> {
    /// Takes the rig back to get-in, with the same map.
    pub fn close(self) -> Rig<GetIn>
        ensures done { map_of result ≡ map_of self }
        ensures law { (calls : List Call) → LeftBy calls (map_of self) → LeftBy (calls ++ Close ∷ []) (map_of result) }
    {
        self.into_state()
    }
}
