// The survey as the benchmark's C++ calls it.
#![tactic(auto)]

mod costs;
pub mod given;

ghost use Rattle.std.specs.Prelude.{◌≡◌, ◌*◌, true, false, ◌&&◌, length, nat_le};
ghost use Rattle.track.specs.Sizes.{points};
ghost use Rattle.track.specs.Calls.{map_after};
ghost use Rattle.walks.specs.Cheapest.{task};
ghost use Rattle.walks.specs.Costs.{time_kind};
ghost use Rattle.walks.specs.Settings.{pair_rule};
ghost use Rattle.bench_rig.specs.Given.{lays, settings_after};
ghost use Rattle.bench_rig.specs.Costs.{RowsLeft};

use costs::survey_homes;
use given::{GivenRun, GivenSetting, lay_all, set_all};
use track::run::{MOST_RUNS, POINTS};

/// Lays the runs on a new rig, sets a new pair rule, and surveys by time from each of the points below `homes`.
/// The cost of the point v from the home h then stands in place 128 h + v of `costs`: 4,294,967,295 where there is no legal walk.
///
/// Answers whether there are so many points and `costs` has the places; where not, it leaves `costs` as it was.
#[unsafe(no_mangle)]
pub extern "C" fn bench_surveys(
    runs: &[GivenRun],
    settings: &[GivenSetting],
    homes: u8,
    costs: &mut [u32],
) -> bool
    ensures answer { result ≡ (nat_le homes points && nat_le (points * homes) (length costs.old)) }
    ensures surveyed { result ≡ true → RowsLeft (λ home. task time_kind (pair_rule (settings_after settings.now)) (map_after (lays runs.now)).runs home) homes costs.old costs.new }
    ensures refused { result ≡ false → costs.new ≡ costs.old }
{
    let rows = usize::from(homes);
    if rows > POINTS || costs.len() < POINTS * rows {
        return false;
    }
    let rig = lay_all(runs).open();
    let rule = set_all(settings);
    let mut table = [None; MOST_RUNS];
    let mut board = [None; POINTS];
    survey_homes(&rig, &rule, homes, &mut table, &mut board, costs);
    true
}
