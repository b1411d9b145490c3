ghost use Rattle.std.specs.Prelude.{◌≡◌, ℕ, ◌*◌, ◌<◌, ◌≤◌, length, slice_index};
ghost use Rattle.track.specs.Sizes.{points, most_runs};
ghost use Rattle.track.specs.Calls.{map_of};
ghost use Rattle.walks.specs.Cheapest.{task};
ghost use Rattle.walks.specs.Costs.{time_kind};
ghost use Rattle.walks.specs.Settings.{pair_rule};
ghost use Rattle.routing.specs.Tables.{place as place_at};
ghost use Rattle.bench_rig.specs.Costs.{cost_number, RowHolds, RowsLeft};

use routing::place::Place;
use routing::survey::survey;
use track::rig::{Rig, Show};
use track::run::POINTS;
use walks::by_pair::ByPair;
use walks::time::Time;

/// The number for a point that no legal walk leads to.
// C reads a list of numbers, so that there is no walk is a number too.
const NO_WALK: u32 = u32::MAX;

fn cost_of(place: Place<u32>) -> u32
    ensures { result ≡ cost_number place }
{
    place.map_or(NO_WALK, |place| place.cost)
}

/// Writes the cost of each place of the board.
fn write_costs(board: &[Place<u32>], row: &mut [u32])
    requires { length board.now ≡ length row.old }
    ensures { (v : ℕ) → v < length board.now → slice_index row.new v ≡ cost_number (place_at board.now v) }
{
    // By number: of costs lent for writing and zipped a proof knows nothing afterwards.
    for (v, cost) in row.iter_mut().enumerate() {
        *cost = cost_of(board[v]);
    }
}

/// Surveys from one home, and writes the cost of each point.
fn survey_home(
    rig: &Rig<Show>,
    rule: &ByPair,
    home: u8,
    table: &mut [Place<u32>],
    board: &mut [Place<u32>],
    row: &mut [u32],
)
    requires { (home < points) × ((length table.old ≡ most_runs) × ((length board.old ≡ points) × (length row.old ≡ points))) }
    ensures { RowHolds (task time_kind (pair_rule rule.now.settings) (map_of rig.now).runs home) row.new }
{
    let _ = survey(rig, &Time, rule, home, table, board);
    write_costs(board, row);
}

/// Surveys from each of the points below `homes`, and writes a row of costs for each.
pub(crate) fn survey_homes(
    rig: &Rig<Show>,
    rule: &ByPair,
    homes: u8,
    table: &mut [Place<u32>],
    board: &mut [Place<u32>],
    costs: &mut [u32],
)
    requires places { (length table.old ≡ most_runs) × (length board.old ≡ points) }
    requires rows { (homes ≤ points) × (points * homes ≤ length costs.old) }
    ensures { RowsLeft (λ home. task time_kind (pair_rule rule.now.settings) (map_of rig.now).runs home) homes costs.old costs.new }
{
    // By home: once rows lent as chunks are given back, a proof knows nothing of what was written.
    for home in 0..homes {
        let at = POINTS * usize::from(home);
        survey_home(rig, rule, home, table, board, &mut costs[at..at + POINTS]);
    }
}
