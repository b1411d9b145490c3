// The least costs of a small rig once more, by trying every walk that repeats no run.
use crate::fault::Fault;
use crate::price::{Progress, set_out, step};
use crate::question::Question;
use crate::relaxation::{is_same, lower};
use arrayvec::ArrayVec;
use std::alloc::Global;
use track::run::Run;
use walks::kind::CostKind;
use walks::rule::HandoverRule;

/// The most runs of a rig whose walks are all tried.
pub const FEW_RUNS: usize = 5;

/// As many walks repeat none of five runs: the empty one, 5 of one run, 5 · 4 of two, and so on.
const MOST_WALKS: usize = 1 + 5 + 20 + 60 + 120 + 120;

/// A walk that repeats no run, by the numbers of its runs, and how far it has come.
#[derive(Drop)]
struct Tried<C> {
    runs: ArrayVec<usize, FEW_RUNS>,
    so_far: Progress<C>,
}

/// The walk that goes on by the run of this number, if it may and does not have that run.
fn longer<K: CostKind, R: HandoverRule>(
    asked: &Question<K, R>,
    walk: &Tried<K::Cost>,
    number: usize,
    run: Run,
) -> Option<Tried<K::Cost>> {
    if walk.runs.contains(&number) {
        return None;
    }
    let so_far = step(asked, walk.so_far, run)?;
    let mut runs = ArrayVec::new();
    runs.try_extend_from_slice(&walk.runs).ok()?;
    runs.try_push(number).ok()?;
    Some(Tried { runs, so_far })
}

/// Adds the walks that go on by one run.
fn go_on<K: CostKind, R: HandoverRule>(
    asked: &Question<K, R>,
    walk: &Tried<K::Cost>,
    walks: &mut Vec<Tried<K::Cost>>,
) -> Result<(), Fault> {
    for (number, run) in asked.runs.iter().enumerate() {
        if let Some(next) = longer(asked, walk, number, *run) {
            walks.push(next)?;
        }
    }
    Ok(())
}

/// Lowers the least cost of the walks that end with the same run.
fn keep_least<K: CostKind>(kind: &K, walk: &Tried<K::Cost>, least: &mut [Option<K::Cost>]) {
    if let Some(last) = walk.runs.last() {
        if let Some(label) = least.get_mut(*last) {
            lower(kind, label, Some(walk.so_far.cost));
        }
    }
}

/// The least costs by last run of all legal walks from the home that repeat no run.
fn tried_costs<K: CostKind, R: HandoverRule>(
    heap: Global,
    asked: &Question<K, R>,
) -> Result<Vec<Option<K::Cost>>, Fault> {
    let mut least = vec![in heap; None; asked.runs.len()]?;
    let mut walks = Vec::new(heap);
    walks.push(Tried {
        runs: ArrayVec::new(),
        so_far: set_out(asked),
    })?;
    for _ in 0..=MOST_WALKS {
        let Some(walk) = walks.pop() else {
            return Ok(least);
        };
        keep_least(asked.kind, &walk, &mut least);
        go_on(asked, &walk, &mut walks)?;
    }
    Err(Fault::TooManyWalks)
}

/// Holds the least costs of a rig of few runs to those of all its walks.
pub fn check_costs<K: CostKind, R: HandoverRule>(
    heap: Global,
    asked: &Question<K, R>,
    labels: &[Option<K::Cost>],
) -> Result<(), Fault> {
    let least = tried_costs(heap, asked)?;
    let mut costs = labels.iter().zip(least.iter());
    if costs.all(|(label, cost)| is_same(asked.kind, *label, *cost)) {
        Ok(())
    } else {
        Err(Fault::SecondOpinion)
    }
}
