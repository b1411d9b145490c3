// What a list of runs is as a walk, step by step. It is written apart from the search and from the relaxation, as a second opinion.
use crate::fault::Fault;
use crate::question::Question;
use crate::relaxation::is_same;
use routing::place::Place;
use std::alloc::Global;
use track::run::Run;
use walks::kind::CostKind;
use walks::rule::HandoverRule;

/// Where a legal walk from the home has come to, and its cost so far.
#[derive(Clone, Copy, Drop)]
pub struct Progress<C> {
    /// Its last run, unless it is the empty walk.
    last: Option<Run>,
    end: u8,
    pub cost: C,
}

/// The empty walk.
pub fn set_out<K: CostKind, R: HandoverRule>(asked: &Question<K, R>) -> Progress<K::Cost> {
    Progress {
        last: None,
        end: asked.home,
        cost: asked.kind.start(),
    }
}

/// One run more, if the walk may go on along it.
pub fn step<K: CostKind, R: HandoverRule>(
    asked: &Question<K, R>,
    so_far: Progress<K::Cost>,
    run: Run,
) -> Option<Progress<K::Cost>> {
    if run.struck || run.tail != so_far.end {
        return None;
    }
    let mut cost = so_far.cost;
    if let Some(last) = so_far.last {
        let penalty = asked.rule.ask(so_far.end, last.winch, run.winch)?;
        cost = asked.kind.over(cost, penalty, last.winch != run.winch);
    }
    Some(Progress {
        last: Some(run),
        end: run.head,
        cost: asked.kind.along(cost, run.time, run.strain),
    })
}

/// Where these runs lead from the home and at what cost, if they are a legal walk.
fn walk_along<K: CostKind, R: HandoverRule>(
    asked: &Question<K, R>,
    walk: &[u16],
) -> Option<Progress<K::Cost>> {
    let mut so_far = set_out(asked);
    for number in walk {
        let run = asked.runs.get(usize::from(*number))?;
        so_far = step(asked, so_far, *run)?;
    }
    Some(so_far)
}

/// Whether a number stands in the list twice.
fn repeats(walk: &[u16]) -> bool {
    walk.iter().enumerate().any(|(i, number)| walk.iter().skip(i + 1).any(|other| other == number))
}

/// Whether this is a legal walk from the home to `mark` that repeats no run and has this cost.
pub fn check_walk<K: CostKind, R: HandoverRule>(
    asked: &Question<K, R>,
    mark: u8,
    walk: &[u16],
    cost: K::Cost,
) -> Result<(), Fault> {
    if repeats(walk) {
        return Err(Fault::Repeats);
    }
    let walked = walk_along(asked, walk).ok_or(Fault::NoWalk)?;
    if walked.end != mark {
        return Err(Fault::NoWalk);
    }
    if !is_same(asked.kind, Some(walked.cost), Some(cost)) {
        return Err(Fault::WalkCost);
    }
    Ok(())
}

/// The run before a run, by the table.
fn run_before<C: Copy>(table: &[Place<C>], run: u16) -> Result<Option<u16>, Fault> {
    match table.get(usize::from(run)) {
        Some(Some(reached)) => Ok(reached.run),
        _ => Err(Fault::NoBeginning),
    }
}

/// The walk that ends with `end`, by the runs before.
pub fn walk_back<C: Copy>(heap: Global, table: &[Place<C>], end: u16) -> Result<Vec<u16>, Fault> {
    let mut walk = Vec::new(heap);
    let mut at = end;
    for _ in 0..table.len() {
        walk.push(at)?;
        match run_before(table, at)? {
            Some(run) => at = run,
            None => {
                walk.reverse();
                return Ok(walk);
            }
        }
    }
    Err(Fault::NoBeginning)
}
