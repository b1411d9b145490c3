// The least costs worked out once more, by relaxing every pair of runs until nothing changes.
// It shares no code with the search: what looks like `walks::walk` is written anew, so that an error there shows here.
ghost use Rattle.std.specs.Prelude.{◌≡◌, length, IfOk, vec_len};

use crate::fault::Fault;
use crate::question::Question;
use std::alloc::{AllocError, Global};
use track::run::Run;
use walks::kind::CostKind;
use walks::rule::HandoverRule;

/// What the walk of this one run costs, if it is a walk from the home.
fn first_cost<K: CostKind, R: HandoverRule>(asked: &Question<K, R>, run: Run) -> Option<K::Cost> {
    if run.struck || run.tail != asked.home {
        return None;
    }
    Some(asked.kind.along(asked.kind.start(), run.time, run.strain))
}

/// What a walk of cost `cost` that ends with `last` costs once it goes on along `run`, if it may.
fn next_cost<K: CostKind, R: HandoverRule>(
    asked: &Question<K, R>,
    last: Run,
    cost: K::Cost,
    run: Run,
) -> Option<K::Cost> {
    if run.struck || run.tail != last.head {
        return None;
    }
    let penalty = asked.rule.ask(run.tail, last.winch, run.winch)?;
    let at_joint = asked.kind.over(cost, penalty, run.winch != last.winch);
    Some(asked.kind.along(at_joint, run.time, run.strain))
}

/// Lowers a label to what is offered, if that is lower, and says whether it was.
pub fn lower<K: CostKind>(kind: &K, label: &mut Option<K::Cost>, offer: Option<K::Cost>) -> bool {
    let Some(cost) = offer else {
        return false;
    };
    if label.is_some_and(|least| kind.at_most(least, cost)) {
        return false;
    }
    *label = Some(cost);
    true
}

/// The labels of the runs before any is relaxed: what walks of one run cost.
///
/// They stand beside the runs, as the places of a table do; a list of both would copy the runs.
fn begin_labels<K: CostKind, R: HandoverRule>(
    heap: Global,
    asked: &Question<K, R>,
) -> Result<Vec<Option<K::Cost>>, AllocError>
    ensures { IfOk result (λ v. vec_len v ≡ length asked.now.runs.now) }
{
    asked
        .runs
        .iter()
        .map(|run| first_cost(asked, *run))
        .collect(heap)
}

/// Relaxes every run by every labelled run, and says whether a label changed.
///
/// The label of the last run is read by its place, since all labels are lent out to be lowered.
fn relax_all<K: CostKind, R: HandoverRule>(
    asked: &Question<K, R>,
    labels: &mut [Option<K::Cost>],
) -> bool
    requires { length labels.old ≡ length asked.now.runs.now }
{
    let mut changed = false;
    for (i, last) in asked.runs.iter().enumerate() {
        if let Some(cost) = labels[i] {
            for (run, label) in asked.runs.iter().zip(labels.iter_mut()) {
                changed |= lower(asked.kind, label, next_cost(asked, *last, cost, *run));
            }
        }
    }
    changed
}

/// For each run the least cost of the legal walks from the home that end with it, if there is one.
///
/// A round more than there are runs always comes to rest: a walk that repeats no run has no more runs than that.
pub fn least_costs<K: CostKind, R: HandoverRule>(
    heap: Global,
    asked: &Question<K, R>,
) -> Result<Vec<Option<K::Cost>>, Fault> {
    let mut labels = begin_labels(heap, asked)?;
    for _ in 0..=asked.runs.len() {
        if !relax_all(asked, &mut labels) {
            return Ok(labels);
        }
    }
    Err(Fault::NoRest)
}

/// The least cost of the legal walks from the home to a point, by the labels of the runs.
pub fn least_to<K: CostKind, R: HandoverRule>(
    asked: &Question<K, R>,
    labels: &[Option<K::Cost>],
    point: u8,
) -> Option<K::Cost> {
    let mut least = None;
    if point == asked.home {
        least = Some(asked.kind.start());
    }
    for (run, label) in asked.runs.iter().zip(labels) {
        if run.head == point {
            lower(asked.kind, &mut least, *label);
        }
    }
    least
}

/// Whether two answers are both absent, or at the same cost. A kind's order decides that: its costs need have no `==`.
pub fn is_same<K: CostKind>(kind: &K, a: Option<K::Cost>, b: Option<K::Cost>) -> bool {
    match (a, b) {
        (Some(x), Some(y)) => kind.at_most(x, y) && kind.at_most(y, x),
        (None, None) => true,
        _ => false,
    }
}
