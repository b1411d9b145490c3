// Compares what survey and route answer with a computation of its own, on many small rigs that look random and are the same in each run.
#![tactic(auto)]

mod buffers;
mod checks;
mod dice;
mod draw;
mod enumeration;
mod fault;
mod price;
mod question;
mod refusals;
mod relaxation;
mod score;
mod trial;
mod worked;

use anyhow::anyhow;
use desk::rules::Rules;
use dice::Dice;
use draw::{Drawn, draw_by_pair, draw_by_point, draw_flat, draw_rig};
use fault::Fault;
use refusals::try_refusals;
use rehearsal::tally::Tally;
use score::{KindScores, Log};
use std::alloc::Global;
use std::io;
use tape::command::RuleName;
use track::rig::{Rig, Show};
use track::run::Run;
use trial::{Trial, try_homes};
use walks::hand_overs::HandOvers;
use walks::rule::HandoverRule;
use walks::strain::Strain;
use walks::time::Time;
use worked::try_worked_cases;

/// How many rigs are drawn.
const RIGS: usize = 800;

/// What was tried, and what came of it.
#[derive(Drop)]
struct Report {
    rigs: Tally,
    time: KindScores,
    strain: KindScores,
    hand_overs: KindScores,
    worked: Tally,
    refused_surveys: Tally,
    refused_routes: Tally,
    log: Log,
}

impl Report {
    fn new(heap: Global) -> Report {
        Report {
            rigs: Tally::new(),
            time: KindScores::new("time"),
            strain: KindScores::new("strain"),
            hand_overs: KindScores::new("hand-overs"),
            worked: Tally::new(),
            refused_surveys: Tally::new(),
            refused_routes: Tally::new(),
            log: Log::new(heap),
        }
    }
}

/// Whether a rig has the runs that it should have.
fn check_runs(rig: &Rig<Show>, runs: &[Run]) -> Result<(), Fault> {
    if rig.runs() != runs {
        return Err(Fault::RigRuns);
    }
    Ok(())
}

/// Asks a rig under one rule, by each kind of cost.
fn try_kinds<R: HandoverRule>(trial: &Trial, rule: &R, report: &mut Report) -> Result<(), Fault> {
    let log = &mut report.log;
    try_homes(trial, &Time, rule, &mut report.time, log)?;
    try_homes(trial, &Strain, rule, &mut report.strain, log)?;
    try_homes(trial, &HandOvers, rule, &mut report.hand_overs, log)
}

/// Draws a rig, and asks it under each rule.
fn try_rig(dice: &mut Dice, number: usize, report: &mut Report) -> Result<(), Fault> {
    let Drawn { rig, runs, points } = draw_rig(report.log.heap, dice)?;
    let rig = rig.open();
    let outcome = check_runs(&rig, &runs);
    let words = format_args!("rig {number}");
    report.log.judge(&mut report.rigs, outcome, words)?;
    let flat = draw_flat(dice);
    let by_point = draw_by_point(dice)?;
    let by_pair = draw_by_pair(dice)?;
    let rules_by = |in_force| Rules {
        flat,
        point: by_point,
        pair: by_pair,
        in_force,
    };
    let mut trial = Trial {
        number,
        rule: "flat rule",
        rig: &rig,
        runs: &runs,
        points: &points,
        rules: rules_by(RuleName::Flat),
    };
    try_kinds(&trial, &flat, report)?;
    trial.rule = "rule by point";
    trial.rules = rules_by(RuleName::Point);
    try_kinds(&trial, &by_point, report)?;
    trial.rule = "rule by pair";
    trial.rules = rules_by(RuleName::Pair);
    try_kinds(&trial, &by_pair, report)
}

/// Tries everything.
fn try_all(report: &mut Report) -> Result<(), Fault> {
    let mut dice = Dice::new(2_463_534_242);
    for number in 0..RIGS {
        try_rig(&mut dice, number, report)?;
    }
    let log = &mut report.log;
    try_worked_cases(&mut report.worked, log)?;
    try_refusals(&mut report.refused_surveys, &mut report.refused_routes, log)
}

fn print_score(rt: &HostRuntime, what: &str, score: Tally) -> io::Result<()> {
    let Tally { tried, agreed } = score;
    println!(rt; "{what:<28}{tried:>7} tried{agreed:>7} agreed")
}

fn print_kind(rt: &HostRuntime, scores: KindScores) -> io::Result<()> {
    let kind = scores.kind;
    for (asked, score) in [
        ("surveys", scores.surveys),
        ("routes", scores.routes),
        ("no way", scores.no_ways),
        ("all walks", scores.walks),
    ] {
        let what = format!(in rt.alloc(); "{asked} by {kind}")?;
        print_score(rt, &what, score)?;
    }
    Ok(())
}

fn print_report(rt: &HostRuntime, report: &Report) -> io::Result<()> {
    print_score(rt, "rigs laid", report.rigs)?;
    for scores in [report.time, report.strain, report.hand_overs] {
        print_kind(rt, scores)?;
    }
    print_score(rt, "worked cases", report.worked)?;
    print_score(rt, "limits of survey", report.refused_surveys)?;
    print_score(rt, "limits of route", report.refused_routes)?;
    for line in &report.log.lines {
        println!(rt; "{line}")?;
    }
    Ok(())
}

fn run(rt: &HostRuntime) -> anyhow::Result<()> {
    let mut report = Report::new(rt.alloc());
    let outcome = try_all(&mut report);
    print_report(rt, &report)?;
    if let Err(fault) = outcome {
        println!(rt; "broken off: {fault}")?;
        return Err(anyhow!("the drill broke off"));
    }
    if !report.log.lines.is_empty() {
        return Err(anyhow!("not everything agreed"));
    }
    Ok(())
}

fn main(rt: HostRuntime) -> anyhow::Result<()> {
    run(&rt)
}
