// Tries what the table of worked cases does not show: each call at its accepted and refused neighbours, each buffer one short, exact and long,
// and each command of a tape, whole and cut. Prints what was tried, how often, and how often it came out as it should.
#![tactic(auto)]

mod house;
mod report;
mod rules;
mod searches;
mod tapes;
mod writes;

use anyhow::anyhow;
use rehearsal::tally::Tally;
use report::Report;
use std::io;

fn print_row(rt: &HostRuntime, what: &str, tally: Tally) -> io::Result<()> {
    let Tally { tried, agreed } = tally;
    println!(rt; "{what:<36}{tried:>5} tried{agreed:>6} agreed")
}

/// Makes the tries of one row of the table, and prints it.
fn row<F: FnOnce(&mut Report)>(
    rt: &HostRuntime,
    report: &mut Report,
    what: &str,
    tries: F,
) -> io::Result<()>
    requires { F.IsAlwaysCallable tries }
{
    report.begin(what);
    tries(report);
    print_row(rt, what, report.row)
}

fn rows(rt: &HostRuntime, report: &mut Report) -> io::Result<()> {
    row(rt, report, "lay", house::lays)?;
    row(rt, report, "strike and retime", house::changes)?;
    row(rt, report, "name", house::names)?;
    row(rt, report, "a full map", house::full_map)?;
    row(rt, report, "equal rigs", tapes::equal_rigs)?;
    row(
        rt,
        report,
        "settings and answers of the rules",
        rules::settings,
    )?;
    row(rt, report, "survey and its buffers", searches::surveys)?;
    row(rt, report, "route and its buffers", searches::routes)?;
    row(rt, report, "worked cases", tapes::worked_cases)?;
    row(rt, report, "write and its buffer", writes::buffers)?;
    row(rt, report, "written and played again", writes::round_trips)?;
    row(rt, report, "a tape cut at each byte", tapes::cuts)?;
    row(rt, report, "faults of a tape", tapes::faults)?;
    row(rt, report, "room in the listing", tapes::rooms)?;
    print_row(rt, "in all", report.all)
}

fn run(rt: &HostRuntime) -> anyhow::Result<()> {
    let mut report = Report::new(rt.alloc());
    rows(rt, &mut report)?;
    for miss in &report.misses {
        println!(rt; "{miss}")?;
    }
    if report.all.agreed != report.all.tried {
        return Err(anyhow!("not everything came out as it should"));
    }
    Ok(())
}

fn main(rt: HostRuntime) -> anyhow::Result<()> {
    run(&rt)
}
