// The refusals of survey and route on the map W, on both sides of each limit and in every mix.
use crate::buffers::{check_numbers, check_places, marked_numbers, marked_places};
use crate::fault::Fault;
use crate::score::Log;
use rehearsal::tally::Tally;
use rehearsal::worked::{flat_at, map_w};
use routing::refusal::SearchRefusal;
use routing::route::route;
use routing::survey::survey;
use std::alloc::Global;
use track::rig::{Rig, Show};
use walks::time::Time;

/// The number of the first refusal of a survey that applies on the map W, if one does.
fn survey_refusal(home: u8, places: usize, room: usize) -> Option<u8> {
    if home > 127 {
        Some(1)
    } else if places < 4 {
        Some(8)
    } else if room < 128 {
        Some(10)
    } else {
        None
    }
}

/// The number of the first refusal of a route that applies on the map W, if one does: from 0 each point to 3 is reached, from 127 only itself.
fn route_refusal(home: u8, mark: u8, places: usize, room: usize) -> Option<u8> {
    if home > 127 || mark > 127 {
        Some(1)
    } else if places < 4 {
        Some(8)
    } else if room < 4 {
        Some(9)
    } else if home != mark && (home != 0 || mark > 3) {
        Some(11)
    } else {
        None
    }
}

/// Asks for a survey with a table and a board of these sizes.
fn check_refused_survey(
    heap: Global,
    rig: &Rig<Show>,
    home: u8,
    places: usize,
    room: usize,
) -> Result<(), Fault> {
    let mut table = marked_places(heap, &Time, places)?;
    let mut board = marked_places(heap, &Time, room)?;
    let refusal = survey(rig, &Time, &flat_at(25), home, &mut table, &mut board).err();
    if refusal.map(u8::from) != survey_refusal(home, places, room) {
        return Err(Fault::OtherAnswer);
    }
    if refusal.is_some() {
        check_places(&Time, &table, 0)?;
        check_places(&Time, &board, 0)?;
    }
    Ok(())
}

/// Asks for a route with a table and a list of these sizes.
fn check_refused_route(
    heap: Global,
    rig: &Rig<Show>,
    home: u8,
    mark: u8,
    places: usize,
    room: usize,
) -> Result<(), Fault> {
    let mut table = marked_places(heap, &Time, places)?;
    let mut list = marked_numbers(heap, room)?;
    let refusal = route(rig, &Time, &flat_at(25), home, mark, &mut table, &mut list).err();
    if refusal.map(u8::from) != route_refusal(home, mark, places, room) {
        return Err(Fault::OtherAnswer);
    }
    match refusal {
        None => Ok(()),
        Some(SearchRefusal::NoWay) => check_numbers(&list, 0),
        Some(_) => {
            check_places(&Time, &table, 0)?;
            check_numbers(&list, 0)
        }
    }
}

/// Tries the surveys from one home.
fn try_surveys_from(
    rig: &Rig<Show>,
    home: u8,
    score: &mut Tally,
    log: &mut Log,
) -> Result<(), Fault> {
    for places in [0, 3, 4, 5] {
        for room in [0, 127, 128, 129] {
            let outcome = check_refused_survey(log.heap, rig, home, places, room);
            let words = format_args!("survey from {home}, table {places}, board {room}");
            log.judge(score, outcome, words)?;
        }
    }
    Ok(())
}

/// Tries the routes from one home to one mark.
// As from one home alone, but for the sizes, the call and the words: words are made of what is captured at each turn,
// so that a loop passed to both would be passed a closure that makes them and the call too, and is no plainer.
fn try_routes_between(
    rig: &Rig<Show>,
    home: u8,
    mark: u8,
    score: &mut Tally,
    log: &mut Log,
) -> Result<(), Fault> {
    for places in [0, 3, 4, 5] {
        for room in [0, 3, 4, 5] {
            let outcome = check_refused_route(log.heap, rig, home, mark, places, room);
            let words = format_args!("route from {home} to {mark}, table {places}, list {room}");
            log.judge(score, outcome, words)?;
        }
    }
    Ok(())
}

/// Tries surveys and routes on both sides of each limit.
pub fn try_refusals(surveys: &mut Tally, routes: &mut Tally, log: &mut Log) -> Result<(), Fault> {
    let rig = map_w().open();
    for home in [0, 127, 128, 255] {
        try_surveys_from(&rig, home, surveys, log)?;
        for mark in [0, 3, 127, 128, 255] {
            try_routes_between(&rig, home, mark, routes, log)?;
        }
    }
    Ok(())
}
