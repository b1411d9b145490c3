use crate::dice::Dice;
use crate::fault::Fault;
use rehearsal::worked::flat_at;
use std::alloc::{AllocError, Global};
use track::rig::{GetIn, Rig};
use track::run::{MOST_RUNS, Run};
use walks::by_pair::ByPair;
use walks::by_point::ByPoint;
use walks::flat::Flat;

/// The points that drawn rigs use, the first and the last among them.
const POINTS_IN_USE: [u8; 6] = [0, 127, 1, 64, 5, 126];

/// A point that no drawn rig uses.
const POINT_APART: u8 = 77;

/// The winches that drawn rigs use, the first and the last among them.
const WINCHES_IN_USE: [u8; 4] = [0, 15, 1, 2];

/// Settings to draw from: free, small, the highest penalty, and barred.
const SETTINGS: [u16; 10] = [0, 0, 1, 2, 3, 5, 25, 65_534, 65_535, 65_535];

/// Times that are small, and often 0.
const SMALL: &[u16] = &[0, 0, 1, 1, 2, 3, 4, 7];

/// What the times of a rig's runs are drawn from: all 0, so that every ring is one of time 0; all 1, so that many walks tie; small; up to the highest.
const TIMES: [&[u16]; 5] = [
    &[0],
    &[1],
    SMALL,
    SMALL,
    &[0, 1, 9, 300, 4_000, 65_534, 65_535],
];

/// A rig in get-in, the runs that it should have, and the points to ask it for.
#[derive(Drop)]
pub struct Drawn {
    pub rig: Rig<GetIn>,
    pub runs: Vec<Run>,
    pub points: Vec<u8>,
}

impl Drawn {
    /// Lays a run on the rig, and keeps it among the runs that the rig should have.
    fn lay(&mut self, run: Run) -> Result<(), Fault> {
        let number = self
            .rig
            .lay(run.tail, run.head, run.winch, run.time, run.strain)?;
        if usize::from(number) != self.runs.len() {
            return Err(Fault::RunNumber);
        }
        self.runs.push(run)?;
        Ok(())
    }

    /// Strikes a run of the rig, unless it is struck already or was not laid.
    fn strike(&mut self, number: usize) -> Result<(), Fault> {
        match self.runs.get_mut(number) {
            Some(run) if number < MOST_RUNS && !run.struck => {
                self.rig.strike(number as u16)?;
                run.struck = true;
                Ok(())
            }
            _ => Ok(()),
        }
    }

    /// Alters the time of a run of the rig, unless it is struck or was not laid.
    fn retime(&mut self, number: usize, time: u16) -> Result<(), Fault> {
        match self.runs.get_mut(number) {
            Some(run) if number < MOST_RUNS && !run.struck => {
                self.rig.retime(number as u16, time)?;
                run.time = time;
                Ok(())
            }
            _ => Ok(()),
        }
    }
}

/// One of these times. Where there is but one, no dice are thrown.
fn draw_time(dice: &mut Dice, times: &[u16]) -> u16 {
    match times {
        [time] => *time,
        _ => dice.pick(times, 0),
    }
}

/// A run between two different points.
fn draw_run(dice: &mut Dice, points: &[u8], times: &[u16]) -> Run {
    let tail = dice.pick(points, 0);
    let mut head = dice.pick(points, 0);
    if head == tail {
        head = if tail == 0 { 127 } else { 0 };
    }
    let winch = dice.pick(&WINCHES_IN_USE, 0);
    let time = draw_time(dice, times);
    let strain = dice.pick(&[0, 10, 10, 20, 35, 50, 99, 100], 0);
    Run {
        tail,
        head,
        winch,
        time,
        strain,
        struck: false,
    }
}

/// Two to six points in use.
fn draw_points(heap: Global, dice: &mut Dice) -> Result<Vec<u8>, AllocError> {
    let count = dice.pick(&[2, 3, 4, 5, 6], 2);
    POINTS_IN_USE.iter().copied().take(count).collect(heap)
}

/// A rig of up to nine runs over two to six points, some of the runs struck and some retimed.
pub fn draw_rig(heap: Global, dice: &mut Dice) -> Result<Drawn, Fault> {
    let times = dice.pick(&TIMES, SMALL);
    let mut drawn = Drawn {
        rig: Rig::new(),
        runs: Vec::new(heap),
        points: draw_points(heap, dice)?,
    };
    for _ in 0..dice.below(10) {
        let run = draw_run(dice, &drawn.points, times);
        drawn.lay(run)?;
    }
    for _ in 0..dice.pick(&[0, 0, 1, 2], 0) {
        let number = dice.below(drawn.runs.len());
        drawn.strike(number)?;
    }
    for _ in 0..dice.pick(&[0, 0, 1, 3], 0) {
        let number = dice.below(drawn.runs.len());
        let time = draw_time(dice, times);
        drawn.retime(number, time)?;
    }
    drawn.points.push(POINT_APART)?;
    Ok(drawn)
}

/// A flat rule.
pub fn draw_flat(dice: &mut Dice) -> Flat {
    flat_at(dice.pick(&SETTINGS, 0))
}

/// A rule by point, with a setting for each point in use.
pub fn draw_by_point(dice: &mut Dice) -> Result<ByPoint, Fault> {
    let mut rule = ByPoint::new();
    for point in POINTS_IN_USE {
        rule.set(point, dice.pick(&SETTINGS, 0))?;
    }
    Ok(rule)
}

/// A rule by pair, with a setting for each pair of winches in use.
pub fn draw_by_pair(dice: &mut Dice) -> Result<ByPair, Fault> {
    let mut rule = ByPair::new();
    for arriving in WINCHES_IN_USE {
        for leaving in WINCHES_IN_USE {
            if arriving != leaving {
                rule.set(arriving, leaving, dice.pick(&SETTINGS, 0))?;
            }
        }
    }
    Ok(rule)
}
