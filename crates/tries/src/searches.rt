// Survey and route on the map W by time, the flat rule at 25: each refusal and each size of a buffer, in every mix.
use crate::report::Report;
use rehearsal::worked::{NO_RUN, flat_at, map_w};
use routing::place::{Place, Reached};
use routing::route::route;
use routing::survey::survey;
use track::rig::{Rig, Show};
use walks::time::Time;

/// Homes, marks and sizes of buffers, on both sides of each limit.
const HOMES: [u8; 4] = [0, 127, 128, 255];

const MARKS: [u8; 5] = [0, 3, 127, 128, 255];

const SIZES: [usize; 4] = [0, 3, 4, 5];

const BOARDS: [usize; 4] = [0, 127, 128, 129];

/// One place more than is needed.
const TABLE: usize = 5;

const BOARD: usize = 129;

const UNTOUCHED: Place<u32> = Some(Reached {
    cost: 7,
    run: Some(NO_RUN),
});

/// The table of W from the home 0, and its board up to point 3.
const TABLE_FROM_0: [Place<u32>; TABLE] = [
    Some(Reached {
        cost: 30,
        run: None,
    }),
    Some(Reached {
        cost: 20,
        run: None,
    }),
    Some(Reached {
        cost: 40,
        run: Some(1),
    }),
    Some(Reached {
        cost: 90,
        run: Some(2),
    }),
    UNTOUCHED,
];

const BOARD_FROM_0: [Place<u32>; 4] = [
    Some(Reached { cost: 0, run: None }),
    Some(Reached {
        cost: 30,
        run: Some(0),
    }),
    Some(Reached {
        cost: 20,
        run: Some(1),
    }),
    Some(Reached {
        cost: 90,
        run: Some(3),
    }),
];

/// The table of W from a point that no run leaves.
const TABLE_FROM_127: [Place<u32>; TABLE] = [None, None, None, None, UNTOUCHED];

/// The number of the first check that applies, if one does.
fn first(checks: &[(bool, u8)]) -> Option<u8> {
    checks
        .iter()
        .find(|(applies, _)| *applies)
        .map(|(_, number)| *number)
}

/// What the table should be after a search from a home, or where there was none.
fn table_after(searched: Option<u8>) -> [Place<u32>; TABLE] {
    match searched {
        Some(0) => TABLE_FROM_0,
        Some(_) => TABLE_FROM_127,
        None => [UNTOUCHED; TABLE],
    }
}

/// What place `point` of the board should be after a survey from a home, or where there was none.
fn place_after(searched: Option<u8>, point: usize) -> Place<u32> {
    match searched {
        Some(home) if point == usize::from(home) => Some(Reached { cost: 0, run: None }),
        Some(0) if point < 4 => BOARD_FROM_0[point],
        Some(_) if point < 128 => None,
        _ => UNTOUCHED,
    }
}

/// Whether a board is as it should be.
fn board_holds(board: &[Place<u32>; BOARD], searched: Option<u8>) -> bool {
    board
        .iter()
        .enumerate()
        .all(|(point, place)| *place == place_after(searched, point))
}

/// A survey with a table and a board of these sizes.
fn try_survey(show: &Rig<Show>, home: u8, places: usize, room: usize, report: &mut Report) {
    let wanted = first(&[(home > 127, 1), (places < 4, 8), (room < 128, 10)]);
    let mut table = [UNTOUCHED; TABLE];
    let mut board = [UNTOUCHED; BOARD];
    let answer = survey(
        show,
        &Time,
        &flat_at(25),
        home,
        &mut table[..places.min(TABLE)],
        &mut board[..room.min(BOARD)],
    );
    let searched = match wanted {
        Some(_) => None,
        None => Some(home),
    };
    let left = table == table_after(searched) && board_holds(&board, searched);
    report.hold(answer.err().map(u8::from), wanted, left);
}

pub fn surveys(report: &mut Report) {
    let show = map_w().open();
    for home in HOMES {
        for places in SIZES {
            for room in BOARDS {
                try_survey(&show, home, places, room, report);
            }
        }
    }
}

/// What a route answers: its number of runs and its cost, or the number of its refusal.
type Answer = Result<(usize, u32), u8>;

/// What a route on W should answer: from 0 to 3 it has three runs, and where home and mark are one point it has none.
fn route_wanted(home: u8, mark: u8, places: usize, room: usize) -> Answer {
    let refused = first(&[
        (home > 127 || mark > 127, 1),
        (places < 4, 8),
        (room < 4, 9),
        (home != mark && (home != 0 || mark != 3), 11),
    ]);
    match refused {
        Some(number) => Err(number),
        None if home == mark => Ok((0, 0)),
        None => Ok((3, 90)),
    }
}

/// A route with a table and a list of these sizes.
fn try_route(
    show: &Rig<Show>,
    home: u8,
    mark: u8,
    places: usize,
    room: usize,
    report: &mut Report,
) {
    let wanted = route_wanted(home, mark, places, room);
    let mut table = [UNTOUCHED; TABLE];
    let mut list = [NO_RUN; TABLE];
    let answer = route(
        show,
        &Time,
        &flat_at(25),
        home,
        mark,
        &mut table[..places.min(TABLE)],
        &mut list[..room.min(TABLE)],
    );
    let searched = match wanted {
        Ok(_) | Err(11) => Some(home),
        Err(_) => None,
    };
    let list_wanted = match wanted {
        Ok((3, _)) => [1, 2, 3, NO_RUN, NO_RUN],
        _ => [NO_RUN; TABLE],
    };
    let left = list == list_wanted && table == table_after(searched);
    report.hold(answer.map_err(u8::from), wanted, left);
}

pub fn routes(report: &mut Report) {
    let show = map_w().open();
    for home in HOMES {
        for mark in MARKS {
            for places in SIZES {
                for room in SIZES {
                    try_route(&show, home, mark, places, room, report);
                }
            }
        }
    }
}
