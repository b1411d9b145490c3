ghost use Rattle.std.specs.Prelude.{◌≡◌};
ghost use Rattle.walks.specs.Walks.{run_at};
ghost use Rattle.walks.specs.Moves.{begin_cost, follow_cost};
ghost use Rattle.walks.specs.Cheapest.{task};
ghost use Rattle.walks.specs.Prices.{Priced};

use crate::kind::CostKind;
use crate::rule::HandoverRule;
use track::run::Run;

/// What stands for a number that was not laid: no walk has a struck run.
const NOT_LAID: Run = Run {
    tail: 0,
    head: 0,
    winch: 0,
    time: 0,
    strain: 0,
    struck: true,
};

fn run_at(runs: &[Run], run: u16) -> Run
    ensures { result ≡ run_at runs.now run }
{
    runs.get(usize::from(run)).copied().unwrap_or(NOT_LAID)
}

/// The cost of the walk of one run, if it is a walk from `home`.
pub fn begin<K: CostKind>(kind: &K, home: u8, run: Run) -> Option<K::Cost>
    ensures { result ≡ begin_cost (K.CostKind.meaning kind.now) home run }
{
    if run.struck || run.tail != home {
        return None;
    }
    Some(kind.along(kind.start(), run.time, run.strain))
}

/// What the cost of a walk that ends with `last` becomes once `next` follows, if it may.
pub fn follow<K: CostKind, R: HandoverRule>(
    kind: &K,
    rule: &R,
    last: Run,
    next: Run,
    cost: K::Cost,
) -> Option<K::Cost>
    ensures { result ≡ follow_cost (K.CostKind.meaning kind.now) (R.HandoverRule.table rule.now) last next cost }
{
    if next.struck || next.tail != last.head {
        return None;
    }
    let penalty = rule.ask(last.head, last.winch, next.winch)?;
    let crossed = kind.over(cost, penalty, last.winch != next.winch);
    Some(kind.along(crossed, next.time, next.strain))
}

// Kind, rule, runs and home go together through here, as survey and route are given them: a struct made for this one call is no plainer.
/// What the walk of these run numbers costs, or `None` where it is no legal walk from `home` to `mark`.
pub fn walk_cost<K: CostKind, R: HandoverRule>(
    kind: &K,
    rule: &R,
    runs: &[Run],
    home: u8,
    mark: u8,
    walk: &[u16],
) -> Option<K::Cost>
    ensures { Priced (task (K.CostKind.meaning kind.now) (R.HandoverRule.table rule.now) runs.now home) mark walk.now result }
{
    let [first, rest @ ..] = walk else {
        return if home == mark {
            Some(kind.start())
        } else {
            None
        };
    };
    let mut last = *first;
    let mut cost = begin(kind, home, run_at(runs, last))?;
    for next in rest {
        cost = follow(kind, rule, run_at(runs, last), run_at(runs, *next), cost)?;
        last = *next;
    }
    if run_at(runs, last).head == mark {
        Some(cost)
    } else {
        None
    }
}
