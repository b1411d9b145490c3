// Reads a crew's sheet of calls in words, carries it out on a rig in get-in, and prints what each line was answered,
// the map that it leaves, and the tape of that map.
#![tactic(auto)]

mod costs;
mod obey;
mod outcomes;
mod routes;
mod run_lines;
mod tape_text;
mod winches;

use obey::Desk;
use outcomes::{Done, Outcome};
use routes::{Hop, hand_over};
use run_lines::RunLine;
use std::io;
use std::io::{Read, Write};
use tape_text::tape_text;
use track::rig::{GetIn, Rig};
use track::run::{NO_NAME, Run};
use winches::winches_in_use;

/// Prints a route run by run, with each hand-over on the way. A run's points and its winch stay as they are laid.
fn print_route(rt: &HostRuntime, runs: &[Run], route: &[u16]) -> io::Result<()> {
    let mut before: Option<Run> = None;
    for number in route {
        if let Some(run) = runs.get(usize::from(*number)) {
            if let Some(last) = before {
                if let Some(change) = hand_over(last, *run) {
                    rt.println(change)?;
                }
            }
            rt.println(Hop {
                number: *number,
                run: *run,
            })?;
            before = Some(*run);
        }
    }
    Ok(())
}

/// Prints what came of each line, by its number from 1 on; of comments, nothing.
fn print_outcomes(rt: &HostRuntime, runs: &[Run], outcomes: &[Outcome]) -> io::Result<()> {
    for (i, outcome) in outcomes.iter().enumerate() {
        let number = i + 1;
        match outcome {
            Ok(Done::Silence) => {}
            Ok(done) => {
                println!(rt; "line {number}: {done}")?;
                if let Done::Routed { route, .. } = done {
                    print_route(rt, runs, &route.runs)?;
                }
            }
            Err(refused) => println!(rt; "line {number}: {refused}")?,
        }
    }
    Ok(())
}

/// Prints the runs in use.
fn print_runs(rt: &HostRuntime, rig: &Rig<GetIn>) -> io::Result<()> {
    for (number, run) in rig.runs().iter().enumerate() {
        if !run.struck {
            rt.println(RunLine { number, run: *run })?;
        }
    }
    Ok(())
}

/// Prints the points that have a name.
fn print_names(rt: &HostRuntime, rig: &Rig<GetIn>) -> io::Result<()> {
    for (point, name) in rig.names().iter().enumerate() {
        if *name != NO_NAME {
            print!(rt; "point {point}: ")?;
            rt.stdout().write_all(name)?;
            println!(rt)?;
        }
    }
    Ok(())
}

/// The whole job, from standard input to standard output.
fn run(rt: &HostRuntime) -> anyhow::Result<()> {
    let mut text = Vec::new(rt.alloc());
    rt.stdin().read_to_end(&mut text)?;
    let mut desk = Desk::new();
    let outcomes = desk.obey_sheet(rt.alloc(), &text)?;
    print_outcomes(rt, desk.rig.runs(), &outcomes)?;
    print_runs(rt, &desk.rig)?;
    print_names(rt, &desk.rig)?;
    let winches = winches_in_use(desk.rig.runs());
    println!(rt; "winches in use: {winches}")?;
    rt.println(tape_text(rt.alloc(), &desk.rig)?)?;
    Ok(())
}

fn main(rt: HostRuntime) -> anyhow::Result<()> {
    run(&rt)
}
