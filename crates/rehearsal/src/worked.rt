// What the worked cases are tried on.
ghost use Rattle.std.specs.Prelude.{◌≡◌};
ghost use Rattle.track.specs.Calls.{map_of, LeftBy};
ghost use Rattle.rehearsal.specs.Cases.{W};

use track::rig::{GetIn, Rig};
use walks::flat::Flat;

/// A run that no rig has, to fill buffers with.
pub const NO_RUN: u16 = 60_000;

/// The map W, on which most of the worked cases are: two ways from 0 to 1, one by way of 2, and one on to 3.
pub fn map_w() -> Rig<GetIn>
    ensures { LeftBy W (map_of result) }
{
    let mut rig = Rig::new();
    let _ = rig.lay(0, 1, 0, 30, 40);
    let _ = rig.lay(0, 2, 1, 20, 70);
    let _ = rig.lay(2, 1, 1, 20, 20);
    let _ = rig.lay(1, 3, 1, 50, 60);
    rig
}

/// A flat rule at this setting.
pub fn flat_at(setting: u16) -> Flat
    ensures { result.setting ≡ setting }
{
    let mut rule = Flat::new();
    rule.set(setting);
    rule
}
