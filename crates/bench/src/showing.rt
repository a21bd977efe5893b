// What the program prints that is the same on every run: the answers, and the plans themselves.
ghost use Rattle.std.specs.Prelude.{◌≡◌, ◌<◌, length};

use crate::asking::{Call, Outcome, Rows};
use crate::kinds::{KINDS, Kind, PLANS};
use crate::making::{EVENTS, PLACES, make_plan};
use crate::repairing::build_repaired;
use marks::kind::Mark;
use marks::minutes::{Minutes, MinutesLag};
use plan::{FlowFound, PlanFault};
use std::io;

// The events whose spread is asked.
const ASKED: [usize; 5] = [0, 15, 31, 46, 62];

/// How many lags stand in the table.
pub fn count_lags(table: &[Option<MinutesLag>]) -> usize {
    table.iter().filter(|place| place.is_some()).count()
}

// The least and the greatest time of each event that is asked for.
fn ask_spreads(
    rows: &mut Rows,
    table: &[Option<MinutesLag>],
) -> Result<[Option<Minutes>; 2 * ASKED.len()], PlanFault> {
    let mut found = [None; 2 * ASKED.len()];
    for (place, event) in ASKED.iter().enumerate() {
        rows.ask(Call::Spread(*event), table)?;
        found[2 * place] = rows.answer[0];
        found[2 * place + 1] = rows.answer[1];
    }
    Ok(found)
}

// The flow, how often it asked the solver, and the sum over the latest times within it.
fn show_flow(rt: &HostRuntime, rows: &mut Rows, table: &[Option<MinutesLag>]) -> io::Result<()> {
    match rows.ask_flow(table) {
        Ok(FlowFound { flow, asked }) => {
            let within = Outcome::new(Ok(()), &rows.answer);
            println!(rt; ", flow {flow} in {asked} and {within}")
        }
        Err(fault) => {
            let ended = Outcome::new(Err(fault), &[]);
            println!(rt; ", flow {ended}")
        }
    }
}

fn show_plan(rt: &HostRuntime, rows: &mut Rows, table: &[Option<MinutesLag>]) -> io::Result<()>
    requires places { length table.now ≡ 3969 }
{
    let ended = rows.ask(Call::Earliest, table);
    let earliest = Outcome::new(ended, &rows.answer);
    let ended = rows.ask(Call::Latest, table);
    let latest = Outcome::new(ended, &rows.answer);
    let spread = match ask_spreads(rows, table) {
        Ok(found) => Outcome::new(Ok(()), &found),
        Err(fault) => Outcome::new(Err(fault), &[]),
    };
    let ended = build_repaired(rows, table, &mut [None; PLACES]);
    let repaired = Outcome::new(ended, &rows.totals);
    let lags = count_lags(table);
    print!(rt; "{lags} lags, earliest {earliest}, latest {latest}, spread {spread}")?;
    print!(rt; ", repaired {repaired}")?;
    show_flow(rt, rows, table)
}

fn show_kind(
    rt: &HostRuntime,
    kind: Kind,
    rows: &mut Rows,
    table: &mut [Option<MinutesLag>],
) -> io::Result<()>
    requires places { length table.old ≡ 3969 }
{
    for number in 0..PLANS {
        make_plan(kind, number, table);
        print!(rt; "{kind} {number}: ")?;
        show_plan(rt, rows, table)?;
    }
    Ok(())
}

/// Prints a line for each plan: its lags, the sums over what the calls answer, and the flow with
/// how often it asked the solver.
pub fn show_answers(rt: &HostRuntime) -> io::Result<()> {
    let mut table = [None; PLACES];
    let mut rows = Rows::new();
    for kind in KINDS {
        show_kind(rt, kind, &mut rows, &mut table)?;
    }
    Ok(())
}

fn print_lags(rt: &HostRuntime, table: &[Option<MinutesLag>]) -> io::Result<()> {
    for (place, lag) in table.iter().enumerate() {
        if let Some(minutes) = lag.and_then(|lag| Minutes::lag_part(lag, 0)) {
            let (to, from) = (place / EVENTS, place % EVENTS);
            println!(rt; "{to} {from} {minutes}")?;
        }
    }
    Ok(())
}

fn print_kind(rt: &HostRuntime, kind: Kind, table: &mut [Option<MinutesLag>]) -> io::Result<()>
    requires places { length table.old ≡ 3969 }
{
    for number in 0..PLANS {
        make_plan(kind, number, table);
        let lags = count_lags(table);
        println!(rt; "plan {kind} {number} {EVENTS} {lags}")?;
        print_lags(rt, table)?;
    }
    Ok(())
}

/// Prints each plan: a line with its kind, number, events and lags, and a line for each lag, the
/// event it is to, the event it is from, and the minutes.
pub fn show_plans(rt: &HostRuntime) -> io::Result<()> {
    let mut table = [None; PLACES];
    for kind in KINDS {
        print_kind(rt, kind, &mut table)?;
    }
    Ok(())
}
