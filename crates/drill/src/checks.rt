// Surveys and routes, held to the least costs that the relaxation found.
use crate::buffers::{check_numbers, check_places, cost_of, marked_numbers, marked_places};
use crate::fault::Fault;
use crate::price::{check_walk, walk_back};
use crate::question::{Named, Question};
use crate::relaxation::{is_same, least_to};
use desk::rules::Rules;
use routing::place::{Place, Reached};
use routing::refusal::SearchRefusal;
use routing::route::route;
use routing::survey::survey;
use std::alloc::Global;
use tape::command;
use track::rig::{Rig, Show};
use track::run::{POINTS, Run};
use walks::kind::CostKind;
use walks::rule::HandoverRule;

/// How many places more than needed the buffers have.
const MORE: usize = 3;

/// Place `number` of a table: its cost is the least, and followed back it gives a walk of that cost.
fn check_table_place<K: CostKind, R: HandoverRule>(
    heap: Global,
    asked: &Question<K, R>,
    table: &[Place<K::Cost>],
    number: u16,
    run: Run,
    label: Option<K::Cost>,
) -> Result<(), Fault> {
    let place = table.get(usize::from(number)).ok_or(Fault::TablePlace)?;
    let told = cost_of(*place);
    if !is_same(asked.kind, told, label) {
        return Err(Fault::TablePlace);
    }
    let Some(cost) = told else {
        return Ok(());
    };
    let walk = walk_back(heap, table, number)?;
    check_walk(asked, run.head, &walk, cost)
}

/// A table with a place for each run.
fn check_table<K: CostKind, R: HandoverRule>(
    heap: Global,
    asked: &Question<K, R>,
    labels: &[Option<K::Cost>],
    table: &[Place<K::Cost>],
) -> Result<(), Fault> {
    for (number, (run, label)) in (0u16..).zip(asked.runs.iter().zip(labels)) {
        check_table_place(heap, asked, table, number, *run, *label)?;
    }
    Ok(())
}

/// The last run that the board names for a point that is reached.
fn check_last_run<K: CostKind, R: HandoverRule>(
    asked: &Question<K, R>,
    table: &[Place<K::Cost>],
    point: u8,
    reached: Reached<K::Cost>,
) -> Result<(), Fault> {
    let Some(number) = reached.run else {
        return if point == asked.home {
            Ok(())
        } else {
            Err(Fault::LastRun)
        };
    };
    let run = asked.runs.get(usize::from(number)).ok_or(Fault::LastRun)?;
    let place = table.get(usize::from(number)).ok_or(Fault::LastRun)?;
    if point == asked.home || run.head != point {
        return Err(Fault::LastRun);
    }
    if !is_same(asked.kind, cost_of(*place), Some(reached.cost)) {
        return Err(Fault::LastRun);
    }
    Ok(())
}

/// The place of a point on a board.
fn check_board_place<K: CostKind, R: HandoverRule>(
    asked: &Question<K, R>,
    labels: &[Option<K::Cost>],
    table: &[Place<K::Cost>],
    point: u8,
    place: Place<K::Cost>,
) -> Result<(), Fault> {
    if !is_same(asked.kind, cost_of(place), least_to(asked, labels, point)) {
        return Err(Fault::BoardPlace);
    }
    match place {
        Some(reached) => check_last_run(asked, table, point, reached),
        None => Ok(()),
    }
}

/// A board with a place for each point.
fn check_board<K: CostKind, R: HandoverRule>(
    asked: &Question<K, R>,
    labels: &[Option<K::Cost>],
    table: &[Place<K::Cost>],
    board: &[Place<K::Cost>],
) -> Result<(), Fault> {
    let places = board.get(..POINTS).ok_or(Fault::BoardPlace)?;
    for (point, place) in (0u8..).zip(places) {
        check_board_place(asked, labels, table, point, *place)?;
    }
    Ok(())
}

/// A survey: its table, its board, and that the places past them are untouched.
pub fn check_survey<K: CostKind, R: HandoverRule>(
    heap: Global,
    rig: &Rig<Show>,
    asked: &Question<K, R>,
    labels: &[Option<K::Cost>],
) -> Result<(), Fault> {
    let laid = asked.runs.len();
    let mut table = marked_places(heap, asked.kind, laid.saturating_add(MORE))?;
    let mut board = marked_places(heap, asked.kind, POINTS + MORE)?;
    survey(
        rig, asked.kind, asked.rule, asked.home, &mut table, &mut board,
    )?;
    check_table(heap, asked, labels, &table)?;
    check_places(asked.kind, &table, laid)?;
    check_board(asked, labels, &table, &board)?;
    check_places(asked.kind, &board, POINTS)
}

/// A route that was found: a walk of the least cost at the beginning of the list, and the rest untouched.
fn check_found<K: CostKind, R: HandoverRule>(
    asked: &Question<K, R>,
    mark: u8,
    least: Option<K::Cost>,
    cost: K::Cost,
    count: usize,
    list: &[u16],
) -> Result<(), Fault> {
    if least.is_none() {
        return Err(Fault::Way);
    }
    if !is_same(asked.kind, Some(cost), least) {
        return Err(Fault::NotLeast);
    }
    let walk = list.get(..count).ok_or(Fault::TooLong)?;
    check_walk(asked, mark, walk, cost)?;
    check_numbers(list, count)
}

/// A route: its answer and its list, the table that it leaves, and that the places past them are untouched.
pub fn check_route<K: CostKind, R: HandoverRule>(
    heap: Global,
    rig: &Rig<Show>,
    asked: &Question<K, R>,
    labels: &[Option<K::Cost>],
    mark: u8,
) -> Result<(), Fault> {
    let laid = asked.runs.len();
    let mut table = marked_places(heap, asked.kind, laid.saturating_add(MORE))?;
    let mut list = marked_numbers(heap, laid.saturating_add(MORE))?;
    let answer = route(
        rig, asked.kind, asked.rule, asked.home, mark, &mut table, &mut list,
    );
    check_table(heap, asked, labels, &table)?;
    check_places(asked.kind, &table, laid)?;
    let least = least_to(asked, labels, mark);
    match answer {
        Ok((count, cost)) => check_found(asked, mark, least, cost, count, &list),
        Err(SearchRefusal::NoWay) => {
            if least.is_some() {
                return Err(Fault::Way);
            }
            check_numbers(&list, 0)
        }
        Err(refusal) => Err(Fault::SearchRefused(refusal)),
    }
}

/// The last run that a board by names has for a point that is reached.
fn check_looked_run<K: Named, R: HandoverRule>(
    asked: &Question<K, R>,
    labels: &[Option<K::Cost>],
    point: u8,
    reached: Reached<u64>,
) -> Result<(), Fault> {
    let Some(number) = reached.run else {
        return if point == asked.home {
            Ok(())
        } else {
            Err(Fault::LastRun)
        };
    };
    let number = usize::from(number);
    let run = asked.runs.get(number).ok_or(Fault::LastRun)?;
    let label = labels.get(number).ok_or(Fault::LastRun)?;
    if point == asked.home || run.head != point {
        return Err(Fault::LastRun);
    }
    if label.map(|cost| K::told(cost)) != Some(reached.cost) {
        return Err(Fault::LastRun);
    }
    Ok(())
}

/// The same survey by the names of kind and rule: the board has the least costs, and for each point a last run of that cost.
pub fn check_looked<K: Named, R: HandoverRule>(
    rig: &Rig<Show>,
    rules: &Rules,
    asked: &Question<K, R>,
    labels: &[Option<K::Cost>],
) -> Result<(), Fault> {
    let mut board = [None; POINTS];
    rules.look(rig, K::NAME, asked.home, &mut board)?;
    for (point, place) in (0u8..).zip(&board) {
        let least = least_to(asked, labels, point).map(|cost| K::told(cost));
        if place.map(|reached| reached.cost) != least {
            return Err(Fault::BoardPlace);
        }
        if let Some(reached) = place {
            check_looked_run(asked, labels, point, *reached)?;
        }
    }
    Ok(())
}

/// The same route as the programs ask it, by the names of kind and rule: its cost is the least, and its runs are a walk of that cost.
pub fn check_asked<K: Named, R: HandoverRule>(
    rig: &Rig<Show>,
    rules: &Rules,
    asked: &Question<K, R>,
    labels: &[Option<K::Cost>],
    mark: u8,
) -> Result<(), Fault> {
    let question = command::Question {
        kind: K::NAME,
        home: asked.home,
        mark,
    };
    let least = least_to(asked, labels, mark);
    match rules.ask(rig, question) {
        Ok(route) => {
            let Some(cost) = least else {
                return Err(Fault::Way);
            };
            if route.cost != K::told(cost) {
                return Err(Fault::NotLeast);
            }
            check_walk(asked, mark, route.runs.as_slice(), cost)
        }
        Err(SearchRefusal::NoWay) => {
            if least.is_some() {
                return Err(Fault::Way);
            }
            Ok(())
        }
        Err(refusal) => Err(Fault::SearchRefused(refusal)),
    }
}
