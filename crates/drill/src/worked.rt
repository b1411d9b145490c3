// The worked cases, asked of the calls.
use crate::buffers::{marked_numbers, marked_places};
use crate::fault::Fault;
use crate::relaxation::is_same;
use crate::score::Log;
use rehearsal::tally::Tally;
use rehearsal::worked::{flat_at, map_w};
use routing::refusal::SearchRefusal;
use routing::route::route;
use std::alloc::Global;
use track::rig::{Rig, Show};
use walks::by_point::ByPoint;
use walks::hand_overs::HandOvers;
use walks::kind::CostKind;
use walks::rule::HandoverRule;
use walks::setting::BARRED;
use walks::strain::Strain;
use walks::time::Time;

/// A route that was found.
#[derive(Drop)]
struct Found<C> {
    cost: C,
    walk: Vec<u16>,
}

/// Asks for a route, with a table and a list of just the places needed.
fn find<K: CostKind, R: HandoverRule>(
    heap: Global,
    rig: &Rig<Show>,
    kind: &K,
    rule: &R,
    home: u8,
    mark: u8,
) -> Result<Found<K::Cost>, Fault> {
    let laid = rig.runs().len();
    let mut table = marked_places(heap, kind, laid)?;
    let mut walk = marked_numbers(heap, laid)?;
    let found = route(rig, kind, rule, home, mark, &mut table, &mut walk)?;
    walk.truncate(found.0);
    Ok(Found {
        cost: found.1,
        walk,
    })
}

/// Whether the route has this cost and is this walk.
fn expect_route<K: CostKind, R: HandoverRule>(
    heap: Global,
    rig: &Rig<Show>,
    kind: &K,
    rule: &R,
    home: u8,
    mark: u8,
    cost: K::Cost,
    walk: &[u16],
) -> Result<(), Fault> {
    let found = find(heap, rig, kind, rule, home, mark)?;
    if !is_same(kind, Some(found.cost), Some(cost)) {
        return Err(Fault::NotLeast);
    }
    if found.walk.as_slice() != walk {
        return Err(Fault::OtherWalk);
    }
    Ok(())
}

/// Whether there is no way.
fn expect_no_way<K: CostKind, R: HandoverRule>(
    heap: Global,
    rig: &Rig<Show>,
    kind: &K,
    rule: &R,
    home: u8,
    mark: u8,
) -> Result<(), Fault> {
    match find(heap, rig, kind, rule, home, mark) {
        Ok(_) => Err(Fault::Way),
        Err(Fault::SearchRefused(SearchRefusal::NoWay)) => Ok(()),
        Err(fault) => Err(fault),
    }
}

/// A route on the map W from point 0, under the flat rule.
fn on_w<K: CostKind>(
    heap: Global,
    kind: &K,
    setting: u16,
    mark: u8,
    cost: K::Cost,
    walk: &[u16],
) -> Result<(), Fault> {
    let rig = map_w().open();
    expect_route(heap, &rig, kind, &flat_at(setting), 0, mark, cost, walk)
}

/// At the setting 10 both ways cost the same, and either may be answered.
fn tie_on_w(heap: Global) -> Result<(), Fault> {
    let rig = map_w().open();
    let found = find(heap, &rig, &Time, &flat_at(10), 0, 3)?;
    if found.cost != 90 {
        return Err(Fault::NotLeast);
    }
    match found.walk.as_slice() {
        [1, 2, 3] | [0, 3] => Ok(()),
        _ => Err(Fault::OtherWalk),
    }
}

/// No run leaves point 3.
fn against_w(heap: Global) -> Result<(), Fault> {
    let rig = map_w().open();
    expect_no_way(heap, &rig, &Time, &flat_at(25), 3, 0)
}

/// Whoever stays where he is hauls nothing.
fn stay_on_w(heap: Global) -> Result<(), Fault> {
    let rig = map_w().open();
    expect_route(heap, &rig, &Time, &flat_at(25), 2, 2, 0, &[])
}

/// With every hand-over barred and run 1 struck, point 3 is out of reach and point 1 is not.
fn barred_on_w(heap: Global) -> Result<(), Fault> {
    let mut laid = map_w();
    laid.strike(1)?;
    let rig = laid.open();
    expect_no_way(heap, &rig, &Time, &flat_at(BARRED), 0, 3)?;
    expect_route(heap, &rig, &Time, &flat_at(BARRED), 0, 1, 30, &[0])
}

/// The straight joint at point 1 is barred, so the way leads round by point 4 and through point 1 twice.
fn round_by_four(heap: Global) -> Result<(), Fault> {
    let mut laid = Rig::new();
    laid.lay(0, 1, 0, 10, 10)?;
    laid.lay(1, 3, 1, 10, 10)?;
    laid.lay(1, 4, 0, 5, 10)?;
    laid.lay(4, 1, 1, 5, 10)?;
    let rig = laid.open();
    let mut rule = ByPoint::new();
    rule.set(1, BARRED)?;
    rule.set(4, 3)?;
    expect_route(heap, &rig, &Time, &rule, 0, 3, 33, &[0, 2, 3, 1])
}

/// A new rig has no runs, and needs no table and no list.
fn on_new_rig(heap: Global) -> Result<(), Fault> {
    let rig = Rig::new().open();
    expect_route(heap, &rig, &Time, &flat_at(25), 0, 0, 0, &[])?;
    expect_no_way(heap, &rig, &Time, &flat_at(25), 0, 1)
}

/// Tries the worked cases, numbered from 1 on.
pub fn try_worked_cases(score: &mut Tally, log: &mut Log) -> Result<(), Fault> {
    let heap = log.heap;
    let outcomes = [
        on_w(heap, &Time, 25, 3, 90, &[1, 2, 3]),
        on_w(heap, &Time, 25, 1, 30, &[0]),
        on_w(heap, &Time, 9, 3, 89, &[0, 3]),
        tie_on_w(heap),
        on_w(heap, &Strain, 25, 3, 60, &[0, 3]),
        on_w(heap, &HandOvers, 25, 3, 90, &[1, 2, 3]),
        against_w(heap),
        stay_on_w(heap),
        barred_on_w(heap),
        round_by_four(heap),
        on_new_rig(heap),
    ];
    for (case, outcome) in (1u8..).zip(&outcomes) {
        log.judge(score, *outcome, format_args!("worked case {case}"))?;
    }
    Ok(())
}
