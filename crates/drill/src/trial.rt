// A rig asked for every home and every mark, under one rule and one kind of cost.
use crate::checks::{check_asked, check_looked, check_route, check_survey};
use crate::enumeration::{FEW_RUNS, check_costs};
use crate::fault::Fault;
use crate::question::{Named, Question};
use crate::relaxation::{least_costs, least_to};
use crate::score::{KindScores, Log};
use desk::rules::Rules;
use std::alloc::Global;
use track::rig::{Rig, Show};
use track::run::Run;
use walks::rule::HandoverRule;

/// An opened rig, the runs that it should have, the points to ask it for, and words to find it by.
#[derive(Drop)]
pub struct Trial<'a> {
    pub number: usize,
    pub rule: &'static str,
    pub rig: &'a Rig<Show>,
    pub runs: &'a [Run],
    pub points: &'a [u8],
    /// The three rules, the one that is asked in force: the programs ask routes by these.
    pub rules: Rules,
}

/// A survey, put to the search itself and by the names of kind and rule.
fn check_surveys<K: Named, R: HandoverRule>(
    heap: Global,
    trial: &Trial,
    asked: &Question<K, R>,
    labels: &[Option<K::Cost>],
) -> Result<(), Fault> {
    check_survey(heap, trial.rig, asked, labels)?;
    check_looked(trial.rig, &trial.rules, asked, labels)
}

/// A route, put to the search itself and by the names of kind and rule.
fn check_routes<K: Named, R: HandoverRule>(
    heap: Global,
    trial: &Trial,
    asked: &Question<K, R>,
    labels: &[Option<K::Cost>],
    mark: u8,
) -> Result<(), Fault> {
    check_route(heap, trial.rig, asked, labels, mark)?;
    check_asked(trial.rig, &trial.rules, asked, labels, mark)
}

/// Tries every walk of a rig of few runs, and asks for the survey from a home and for the route to each mark.
fn try_home<K: Named, R: HandoverRule>(
    trial: &Trial,
    asked: &Question<K, R>,
    scores: &mut KindScores,
    log: &mut Log,
) -> Result<(), Fault> {
    let heap = log.heap;
    let number = trial.number;
    let rule = trial.rule;
    let kind = scores.kind;
    let home = asked.home;
    let labels = least_costs(heap, asked)?;
    if trial.runs.len() <= FEW_RUNS {
        let outcome = check_costs(heap, asked, &labels);
        let words = format_args!("rig {number}, {rule}, {kind}, walks from {home}");
        log.judge(&mut scores.walks, outcome, words)?;
    }
    let outcome = check_surveys(heap, trial, asked, &labels);
    let words = format_args!("rig {number}, {rule}, {kind}, survey from {home}");
    log.judge(&mut scores.surveys, outcome, words)?;
    for mark in trial.points {
        let outcome = check_routes(heap, trial, asked, &labels, *mark);
        let score = match least_to(asked, &labels, *mark) {
            Some(_) => &mut scores.routes,
            None => &mut scores.no_ways,
        };
        let words = format_args!("rig {number}, {rule}, {kind}, route from {home} to {mark}");
        log.judge(score, outcome, words)?;
    }
    Ok(())
}

/// Asks from every home.
pub fn try_homes<'a, K: Named, R: HandoverRule>(
    trial: &Trial,
    kind: &'a K,
    rule: &'a R,
    scores: &mut KindScores,
    log: &mut Log,
) -> Result<(), Fault> {
    for home in trial.points {
        let asked = Question {
            kind,
            rule,
            runs: trial.runs,
            home: *home,
        };
        try_home(trial, &asked, scores, log)?;
    }
    Ok(())
}
