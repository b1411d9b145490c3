ghost use Rattle.std.specs.Prelude.{◌≡◌, ℕ, ◌<◌, length};
ghost use Rattle.track.specs.Sizes.{points};
ghost use Rattle.routing.specs.Tables.{place as place_at, TableHolds, BoardPlace, BoardHolds};
ghost use Rattle.routing.specs.Asked.{asked};
ghost use Rattle.routing.specs.Offers.{BestInto};

use crate::place::{Place, Reached};
use crate::search::improve;
use crate::task::Task;
use walks::kind::CostKind;
use walks::rule::HandoverRule;

/// The best place that the runs into `point` offer it.
fn best_into<K: CostKind, R: HandoverRule>(
    task: &Task<K, R>,
    table: &[Place<K::Cost>],
    point: u8,
) -> Place<K::Cost>
    requires { length table.now ≡ length task.now.runs.now }
    ensures { BestInto (K.CostKind.meaning task.now.kind.now) task.now.runs.now table.now (length task.now.runs.now) point result }
{
    let mut best = None;
    // By number, which the place keeps: a triple zip with it is no plainer.
    for (i, run) in task.runs.iter().enumerate() {
        if run.head == point {
            improve(
                task.kind,
                i as u16,
                table[i].map(|place| place.cost),
                &mut best,
            );
        }
    }
    best
}

/// The place that a board beside the table has for `point`.
pub(crate) fn place_of<K: CostKind, R: HandoverRule>(
    task: &Task<K, R>,
    table: &[Place<K::Cost>],
    point: u8,
) -> Place<K::Cost>
    requires { length table.now ≡ length task.now.runs.now }
    ensures { TableHolds (asked K.CostKind.meaning R.HandoverRule.table task.now) table.now → BoardPlace (asked K.CostKind.meaning R.HandoverRule.table task.now) table.now point result }
{
    if point == task.home {
        Some(Reached {
            cost: task.kind.start(),
            run: None,
        })
    } else {
        best_into(task, table, point)
    }
}

/// Gives each point of a cleared board the best place that the runs into it offer.
fn offer_runs<K: CostKind, R: HandoverRule>(
    task: &Task<K, R>,
    table: &[Place<K::Cost>],
    board: &mut [Place<K::Cost>],
)
    requires laid { length table.now ≡ length task.now.runs.now }
    requires room { length board.old ≡ points }
    requires cleared { (v : ℕ) → place_at board.old v ≡ None }
    ensures { (v : ℕ) → v < length board.old → BestInto (K.CostKind.meaning task.now.kind.now) task.now.runs.now table.now (length task.now.runs.now) v (place_at board.new v) }
{
    // By number, which the place keeps: a triple zip with it is no plainer.
    for (i, run) in task.runs.iter().enumerate() {
        let head = usize::from(run.head);
        improve(
            task.kind,
            i as u16,
            table[i].map(|place| place.cost),
            &mut board[head],
        );
    }
}

/// Fills the board beside the table: the home is reached by the empty walk, and any other point by a run into it.
pub(crate) fn fill_board<K: CostKind, R: HandoverRule>(
    task: &Task<K, R>,
    table: &[Place<K::Cost>],
    board: &mut [Place<K::Cost>],
)
    requires laid { length table.now ≡ length task.now.runs.now }
    requires room { length board.old ≡ points }
    ensures { TableHolds (asked K.CostKind.meaning R.HandoverRule.table task.now) table.now → BoardHolds (asked K.CostKind.meaning R.HandoverRule.table task.now) table.now board.new }
{
    board.fill(None);
    offer_runs(task, table, board);
    board[usize::from(task.home)] = Some(Reached {
        cost: task.kind.start(),
        run: None,
    });
}
