ghost use Rattle.std.specs.Prelude.{◌≡◌, ◌<◌, ◌≤◌, List, [], ◌∷◌, ◌++◌, length};
ghost use Rattle.track.specs.Answers.{told};
ghost use Rattle.track.specs.Map.{Call};
ghost use Rattle.track.specs.Map.Call.{Route};
ghost use Rattle.track.specs.Calls.{map_of, map_after, LeftBy};
ghost use Rattle.routing.specs.Asked.{asked};
ghost use Rattle.routing.specs.Refusals.{number};
ghost use Rattle.routing.specs.Tables.{TableHolds};
ghost use Rattle.routing.specs.Route.{route_checks, Routed, RouteDone};

use crate::board::place_of;
use crate::follow::follow_back;
use crate::place::{Place, Reached};
use crate::refusal::SearchRefusal;
use crate::search::search;
use crate::task::Task;
use track::rig::{Rig, Show};
use track::run::POINTS;
use walks::kind::CostKind;
use walks::rule::HandoverRule;

/// Finds a cheapest legal walk from `home` to `mark` on an opened rig, writes its runs in hauling order at the beginning of the list,
/// and answers their number and the walk's cost. The first places of the table then hold what a survey leaves in them.
///
/// Refuses with 1 a home or a mark above 127, with 8 a table and with 9 a list that has fewer places than runs were laid;
/// table and list are then as they were. Refuses with 11 where no legal walk leads to the mark; the list is then as it was.
// A number of runs beside the cost: the list is the caller's, who allocates or not, and is longer than the route.
pub fn route<K: CostKind, R: HandoverRule>(
    rig: &Rig<Show>,
    kind: &K,
    rule: &R,
    home: u8,
    mark: u8,
    table: &mut [Place<K::Cost>],
    list: &mut [u16],
) -> Result<(usize, K::Cost), SearchRefusal>
    ensures done { RouteDone (K.CostKind.meaning kind.now) (R.HandoverRule.table rule.now) (map_of rig.now) home mark table.old list.old (told number result) table.new list.new }
    ensures law { (calls : List Call) → LeftBy calls (map_of rig.now) → RouteDone (K.CostKind.meaning kind.now) (R.HandoverRule.table rule.now) (map_after calls) home mark table.old list.old (told number result) table.new list.new × LeftBy (calls ++ Route ∷ []) (map_of rig.now) }
{
    check_route(rig, home, mark, table.len(), list.len())?;
    let runs = rig.runs();
    let laid = runs.len();
    let task = Task {
        kind,
        rule,
        runs,
        home,
    };
    route_runs(&task, mark, &mut table[0..laid], list)
}

/// The first refusal that applies before any search, with so many places in the table and in the list.
// Beside the one of a survey: the mark is tested between the two tests that they share, so one function for both is no plainer.
fn check_route(
    rig: &Rig<Show>,
    home: u8,
    mark: u8,
    places: usize,
    room: usize,
) -> Result<(), SearchRefusal>
    ensures { told number result ≡ route_checks (map_of rig.now) home mark places room }
{
    if usize::from(home) >= POINTS || usize::from(mark) >= POINTS {
        return Err(SearchRefusal::NoPoint);
    }
    if places < rig.runs().len() {
        return Err(SearchRefusal::TableShort);
    }
    if room < rig.runs().len() {
        return Err(SearchRefusal::ListShort);
    }
    Ok(())
}

/// The same on a table of just the runs and a list that has room for them all.
fn route_runs<K: CostKind, R: HandoverRule>(
    task: &Task<K, R>,
    mark: u8,
    table: &mut [Place<K::Cost>],
    list: &mut [u16],
) -> Result<(usize, K::Cost), SearchRefusal>
    requires laid { length table.old ≡ length task.now.runs.now }
    requires room { length task.now.runs.now ≤ length list.old }
    ensures runs_hold { TableHolds (asked K.CostKind.meaning R.HandoverRule.table task.now) table.new }
    ensures routed { Routed (asked K.CostKind.meaning R.HandoverRule.table task.now) mark list.old (told number result) list.new }
{
    search(task, table);
    let Reached { cost, run } = place_of(task, table, mark).ok_or(SearchRefusal::NoWay)?;
    let count = match run {
        None => 0,
        Some(end) => follow_back(table, end, list),
    };
    Ok((count, cost))
}
