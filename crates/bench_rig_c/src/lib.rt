// The survey of the benchmark for C++: the static library that exports what `bench_rig` has.
#![tactic(auto)]

ghost use Rattle.std.specs.Prelude.{◌≡◌, ◌*◌, true, false, ◌&&◌, length, nat_le};
ghost use Rattle.track.specs.Sizes.{points};
ghost use Rattle.track.specs.Calls.{map_after};
ghost use Rattle.walks.specs.Cheapest.{task};
ghost use Rattle.walks.specs.Costs.{time_kind};
ghost use Rattle.walks.specs.Settings.{pair_rule};
ghost use Rattle.bench_rig.specs.Given.{lays, settings_after};
ghost use Rattle.bench_rig.specs.Costs.{RowsLeft};

use bench_rig::given::{GivenRun, GivenSetting};

/// Lays the runs on a new rig, sets a new pair rule, and surveys by time from each of the points below `homes`.
/// The cost of the point v from the home h then stands in place 128 h + v of `costs`: 4,294,967,295 where there is no legal walk.
///
/// Answers whether there are so many points and `costs` has the places; where not, it leaves `costs` as it was.
#[unsafe(no_mangle)]
pub extern "C" fn bench_surveys(
    runs: &[GivenRun],
    settings: &[GivenSetting],
    homes: u8,
    costs: &mut [u32],
) -> bool
    ensures answer { result ≡ (nat_le homes points && nat_le (points * homes) (length costs.old)) }
    ensures surveyed { result ≡ true → RowsLeft (λ home. task time_kind (pair_rule (settings_after settings.now)) (map_after (lays runs.now)).runs home) homes costs.old costs.new }
    ensures refused { result ≡ false → costs.new ≡ costs.old }
{
    bench_rig::bench_surveys(runs, settings, homes, costs)
}
