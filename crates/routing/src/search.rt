ghost use Rattle.std.specs.Prelude.{◌≡◌, ◌<◌, ◌≤◌, length, MatchOption};
ghost use Rattle.walks.specs.Moves.{begin_cost};
ghost use Rattle.routing.specs.Tables.{TableHolds};
ghost use Rattle.routing.specs.Asked.{asked};
ghost use Rattle.routing.specs.Steps.{begun, Begun, lower, improved, Relaxed, NoneWaits, Lowest};

use crate::place::{Place, Reached};
use crate::task::Task;
use track::run::{MOST_RUNS, Run};
use walks::kind::CostKind;
use walks::rule::HandoverRule;
use walks::walk::{begin as begin_cost, follow};

/// A run that waits to be taken, and its label.
#[derive(Clone, Copy, Drop)]
struct Waiting<C> {
    run: usize,
    cost: C,
}

/// The place of a run before any run is taken: reached at the cost of the walk of this one run, if it is one from the home.
fn begin<K: CostKind>(kind: &K, home: u8, run: Run) -> Place<K::Cost>
    ensures { result ≡ begun (begin_cost (K.CostKind.meaning kind.now) home run) }
{
    begin_cost(kind, home, run).map(|cost| Reached { cost, run: None })
}

/// Whether `cost` is below the other cost, or there is no other.
fn is_lower<K: CostKind>(kind: &K, cost: K::Cost, other: Option<K::Cost>) -> bool
    ensures { result ≡ lower (K.CostKind.meaning kind.now).at_most cost other }
{
    match other {
        None => true,
        Some(other) => !kind.at_most(other, cost),
    }
}

/// Writes what the run `run` offers into a place, where it offers something lower.
pub(crate) fn improve<K: CostKind>(
    kind: &K,
    run: u16,
    offer: Option<K::Cost>,
    place: &mut Place<K::Cost>,
)
    ensures { place.new ≡ improved (K.CostKind.meaning kind.now).at_most run offer place.old }
{
    if let Some(cost) = offer {
        if is_lower(kind, cost, place.map(|held| held.cost)) {
            *place = Some(Reached {
                cost,
                run: Some(run),
            });
        }
    }
}

/// Fills the table with the places of the runs before any is taken.
fn begin_all<K: CostKind, R>(task: &Task<K, R>, table: &mut [Place<K::Cost>])
    requires { length table.old ≡ length task.now.runs.now }
    ensures { Begun (K.CostKind.meaning task.now.kind.now) task.now.home task.now.runs.now table.new }
{
    // By number: of places lent for writing and zipped a proof knows nothing afterwards.
    for (run, place) in table.iter_mut().enumerate() {
        *place = begin(task.kind, task.home, task.runs[run]);
    }
}

// Of its own, though it asks `is_lower` alone, so that an edit that takes the highest first is refused by a clause of its own.
/// Whether a run with this label goes before the lowest that waits so far.
fn goes_first<K: CostKind>(kind: &K, label: K::Cost, lowest: Option<K::Cost>) -> bool
    ensures { result ≡ lower (K.CostKind.meaning kind.now).at_most label lowest }
{
    is_lower(kind, label, lowest)
}

/// A waiting run with a lowest label, if any labelled run waits.
fn next_waiting<K: CostKind>(
    kind: &K,
    table: &[Place<K::Cost>],
    taken: &[bool],
) -> Option<Waiting<K::Cost>>
    requires { length table.now ≤ length taken.now }
    ensures { MatchOption result (NoneWaits table.now taken.now (length table.now)) (λ x. Lowest (K.CostKind.meaning kind.now).at_most table.now taken.now (length table.now) x.run x.cost) }
{
    let mut lowest: Option<Waiting<K::Cost>> = None;
    // By number, which is the answer: zipped with what is taken, five goals stayed open.
    for (run, place) in table.iter().enumerate() {
        if !taken[run] {
            if let Some(place) = place {
                if goes_first(kind, place.cost, lowest.map(|low| low.cost)) {
                    lowest = Some(Waiting {
                        run,
                        cost: place.cost,
                    });
                }
            }
        }
    }
    lowest
}

/// Offers each waiting run what follows from the run just taken.
///
/// A place is written only where the offer is lower: a run before that is replaced at an equal cost could close a ring.
fn relax<K: CostKind, R: HandoverRule>(
    task: &Task<K, R>,
    table: &mut [Place<K::Cost>],
    taken: &[bool],
    from: Waiting<K::Cost>,
)
    requires { (length table.old ≡ length task.now.runs.now) × (length task.now.runs.now ≤ length taken.now) × (from.run < length task.now.runs.now) }
    ensures { Relaxed (K.CostKind.meaning task.now.kind.now) (R.HandoverRule.table task.now.rule.now) task.now.runs.now taken.now from.run from.cost table.old table.new }
{
    let Waiting { run, cost } = from;
    // Read once, before the innermost loop of a search.
    let (kind, rule, runs) = (task.kind, task.rule, task.runs);
    let last = runs[run];
    let before = run as u16;
    // By number: of places lent for writing and zipped a proof knows nothing afterwards.
    for (next, place) in table.iter_mut().enumerate() {
        let waits = !taken[next];
        let offer = follow(kind, rule, last, runs[next], cost).filter(|_| waits);
        improve(kind, before, offer, place);
    }
}

/// Fills the table, one place for each run, with the least costs of the legal walks from the home that end with it.
///
/// Takes one run after another, a lowest waiting label first. At most the square of the number of runs, and at most one
/// question to the rule for each pair of runs that meet.
pub(crate) fn search<K: CostKind, R: HandoverRule>(task: &Task<K, R>, table: &mut [Place<K::Cost>])
    requires { length table.old ≡ length task.now.runs.now }
    ensures { TableHolds (asked K.CostKind.meaning R.HandoverRule.table task.now) table.new }
{
    // Beside the table: its places are the caller's, and say nothing of what a search has taken.
    let mut taken = [false; MOST_RUNS];
    begin_all(task, table);
    while let Some(next) = next_waiting(task.kind, table, &taken) {
        taken[next.run] = true;
        relax(task, table, &taken, next);
    }
}
