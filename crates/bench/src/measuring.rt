// How long the calls take.
ghost use Rattle.std.specs.Prelude.{◌≡◌, ◌<◌, length};

use crate::asking::{Call, Outcome, Rows};
use crate::kinds::{KINDS, Kind, PLANS};
use crate::making::{EVENTS, PLACES, STAGES, make_plan};
use crate::repairing::build_repaired;
use crate::showing::count_lags;
use marks::kind::Mark;
use marks::minutes::{Minutes, MinutesLag};
use plan::PlanFault;
use std::io;
use std::time::{Duration, Instant};

// The best of so many runs counts.
const RUNS: usize = 5;

// A run goes on for so many milliseconds at least.
const RUN_MILLIS: u64 = 5;

// The clock is read after so many calls.
const BATCH: u32 = 16;

const MOST_BATCHES: u32 = 100_000;

// The event whose spread is asked.
const ASKED: usize = 31;

fn ask_batch(rows: &mut Rows, call: Call, table: &[Option<MinutesLag>]) {
    for _ in 0..BATCH {
        let _ended = rows.ask(call, table);
    }
}

// The time of one call, over a run of them.
fn time_run(
    rt: &HostRuntime,
    rows: &mut Rows,
    call: Call,
    table: &[Option<MinutesLag>],
) -> io::Result<Duration> {
    let least = Duration::from_millis(RUN_MILLIS);
    let start = Instant::now(rt)?;
    for batch in 0..MOST_BATCHES {
        ask_batch(rows, call, table);
        let spent = start.elapsed(rt)?;
        if spent >= least {
            return Ok(spent / ((batch + 1) * BATCH));
        }
    }
    Ok(start.elapsed(rt)? / (MOST_BATCHES * BATCH))
}

// The time of one call, in the best of the runs.
fn time_call(
    rt: &HostRuntime,
    rows: &mut Rows,
    call: Call,
    table: &[Option<MinutesLag>],
) -> io::Result<Duration> {
    let mut best = Duration::MAX;
    for _ in 0..RUNS {
        best = best.min(time_run(rt, rows, call, table)?);
    }
    Ok(best)
}

// Builds the plan anew, lag by lag.
fn build(
    rows: &mut Rows,
    table: &[Option<MinutesLag>],
    built: &mut [Option<MinutesLag>],
) -> Result<(), PlanFault> {
    plan::open::<Minutes>(STAGES, built)?;
    for (place, lag) in table.iter().enumerate() {
        if let Some(minutes) = lag.and_then(|lag| Minutes::lag_part(lag, 0)) {
            rows.set(built, place / EVENTS, place % EVENTS, minutes)?;
        }
    }
    Ok(())
}

// Prints how long it takes to build the plan, and what is earliest in what was built.
fn measure_build(
    rt: &HostRuntime,
    rows: &mut Rows,
    table: &[Option<MinutesLag>],
) -> io::Result<()> {
    let mut built = [None; PLACES];
    let start = Instant::now(rt)?;
    let ended = build(rows, table, &mut built);
    let nanos = start.elapsed(rt)?.as_nanos();
    let ended = ended.and_then(|()| rows.ask(Call::Earliest, &built));
    let outcome = Outcome::new(ended, &rows.answer);
    println!(rt; " {outcome} {nanos}")
}

// Prints how long it takes to build the plan by repairs, and the times that they end in.
fn measure_repairs(
    rt: &HostRuntime,
    rows: &mut Rows,
    table: &[Option<MinutesLag>],
) -> io::Result<()>
    requires places { length table.now ≡ 3969 }
{
    let mut built = [None; PLACES];
    let mut best = Duration::MAX;
    let mut ended = Ok(());
    for _ in 0..RUNS {
        let start = Instant::now(rt)?;
        ended = build_repaired(rows, table, &mut built);
        best = best.min(start.elapsed(rt)?);
    }
    let outcome = Outcome::new(ended, &rows.totals);
    let nanos = best.as_nanos();
    println!(rt; " {outcome} {nanos}")
}

// Prints how long each call takes, and how `earliest` ends.
fn measure_calls(
    rt: &HostRuntime,
    rows: &mut Rows,
    table: &[Option<MinutesLag>],
) -> io::Result<()> {
    let ended = rows.ask(Call::Earliest, table);
    let outcome = Outcome::new(ended, &rows.answer);
    let lags = count_lags(table);
    print!(rt; " {lags} {outcome}")?;
    for call in [
        Call::Earliest,
        Call::Latest,
        Call::Spread(ASKED),
        Call::Flow,
    ] {
        let nanos = time_call(rt, rows, call, table)?.as_nanos();
        print!(rt; " {nanos}")?;
    }
    println!(rt; "")
}

// Prints how often flow asks the solver; 0 where it is refused.
fn count_asked(rt: &HostRuntime, rows: &mut Rows, table: &[Option<MinutesLag>]) -> io::Result<()> {
    let asked = rows.ask_flow(table).map_or(0, |found| found.asked);
    println!(rt; " {asked}")
}

fn measure_kind(
    rt: &HostRuntime,
    kind: Kind,
    rows: &mut Rows,
    table: &mut [Option<MinutesLag>],
) -> io::Result<()>
    requires places { length table.old ≡ 3969 }
{
    for number in 0..PLANS {
        make_plan(kind, number, table);
        print!(rt; "calls {kind} {number}")?;
        measure_calls(rt, rows, table)?;
        print!(rt; "asked {kind} {number}")?;
        count_asked(rt, rows, table)?;
        if matches!(kind, Kind::Sparse | Kind::Middling | Kind::Full) {
            print!(rt; "build {kind} {number}")?;
            measure_build(rt, rows, table)?;
            print!(rt; "repairs {kind} {number}")?;
            measure_repairs(rt, rows, table)?;
        }
    }
    Ok(())
}

/// Measures, and prints two lines for each plan: `calls`, its kind, number and lags, how `earliest`
/// ends, and the nanoseconds of `earliest`, of `latest`, of `spread` of one event and of `flow`;
/// and `asked`, its kind and number, and how often `flow` asks the solver. A sparse, a middling and
/// a full plan have two lines more, each with its kind and number. `build`: how
/// `earliest` ends on the same plan built by a call of `set` for each lag, and the nanoseconds of
/// all these calls. `repairs`: the sum over the least times that are nowhere before zero, repaired
/// after each lag, and the nanoseconds of all these repairs.
pub fn measure(rt: &HostRuntime) -> io::Result<()> {
    let mut table = [None; PLACES];
    let mut rows = Rows::new();
    for kind in KINDS {
        measure_kind(rt, kind, &mut rows, &mut table)?;
    }
    Ok(())
}
