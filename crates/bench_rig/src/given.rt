ghost use Rattle.std.specs.Prelude.{◌≡◌};
ghost use Rattle.track.specs.Calls.{map_of, LeftBy};
ghost use Rattle.bench_rig.specs.Given.{lays, settings_after};

use track::rig::{GetIn, Rig};
use walks::by_pair::ByPair;

/// A run to be laid.
#[repr(C)]
#[derive(Clone, Copy, Drop)]
pub struct GivenRun {
    pub tail: u8,
    pub head: u8,
    pub winch: u8,
    pub strain: u8,
    pub time: u16,
}

/// A setting of the pair rule.
#[repr(C)]
#[derive(Clone, Copy, Drop)]
pub struct GivenSetting {
    pub arriving: u8,
    pub leaving: u8,
    pub setting: u16,
}

/// A rig on which the runs were laid in turn. A run that is refused is left out.
pub(crate) fn lay_all(runs: &[GivenRun]) -> Rig<GetIn>
    ensures { LeftBy (lays runs.now) (map_of result) }
{
    let mut rig = Rig::new();
    for run in runs {
        let _ = rig.lay(run.tail, run.head, run.winch, run.time, run.strain);
    }
    rig
}

/// A pair rule with these settings. One that is refused is left out.
pub(crate) fn set_all(settings: &[GivenSetting]) -> ByPair
    ensures { result.settings ≡ settings_after settings.now }
{
    let mut rule = ByPair::new();
    for given in settings {
        let _ = rule.set(given.arriving, given.leaving, given.setting);
    }
    rule
}
