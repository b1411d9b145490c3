ghost use Rattle.std.specs.Prelude.{◌≡◌, ℕ, ◌<◌, ◌≤◌, List, ◌++◌, length, drop};
ghost use Rattle.routing.specs.Tables.{place as place_at};
ghost use Rattle.routing.specs.Chains.{before, Chain};

use crate::place::Place;

/// The run before `run`, by the table.
fn run_before<C: Copy>(table: &[Place<C>], run: u16) -> Option<u16>
    requires { run < length table.now }
    ensures { result ≡ before (place_at table.now run) }
{
    table[usize::from(run)]?.run
}

/// The number of runs of the walk that ends with `end`.
fn count_back<C: Copy>(table: &[Place<C>], end: u16) -> usize
    requires { (w : List ℕ) × Chain table.now end w }
    ensures { (w : List ℕ) → Chain table.now end w → result ≡ length w }
{
    let mut count = 1;
    let mut at = end;
    while let Some(run) = run_before(table, at) {
        count += 1;
        at = run;
    }
    count
}

/// Writes the walk that ends with `end`, from its last run back, over a list of just its length.
fn write_back<C: Copy>(table: &[Place<C>], end: u16, walk: &mut [u16])
    requires { (w : List ℕ) × Chain table.now end w × (length w ≡ length walk.old) }
    ensures { (w : List ℕ) → Chain table.now end w → length w ≡ length walk.old → walk.new ≡ w }
{
    let mut at = end;
    // By place: once places lent for writing are turned round, a proof knows nothing of what was written.
    for i in (0..walk.len()).rev() {
        walk[i] = at;
        at = run_before(table, at).unwrap_or(at);
    }
}

/// Writes the walk that ends with `end` at the beginning of the list, in hauling order, and answers the number of its runs.
pub(crate) fn follow_back<C: Copy>(table: &[Place<C>], end: u16, list: &mut [u16]) -> usize
    requires { ((w : List ℕ) × Chain table.now end w) × (length table.now ≤ length list.old) }
    ensures { (w : List ℕ) → Chain table.now end w → (result ≡ length w) × (list.new ≡ w ++ drop (length w) list.old) }
{
    let count = count_back(table, end);
    write_back(table, end, &mut list[0..count]);
    count
}
