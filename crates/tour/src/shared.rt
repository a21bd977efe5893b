// What the walks share.
use crate::show::{show_refusal, show_set, show_times};
use marks::kind::Mark;
use marks::minutes::{Minutes, MinutesLag};
use rows::MOST_EVENTS;
use std::io;

pub fn time(minutes: i64) -> Option<Minutes> {
    Minutes::make_total(&[minutes])
}

// Sets each lag, and shows only what is refused. Of each: the event it is to, the event it is from,
// the minutes.
pub fn set_lags(
    rt: &HostRuntime,
    stages: usize,
    table: &mut [Option<MinutesLag>],
    lags: &[(usize, usize, i64)],
) -> io::Result<()> {
    let mut totals = [None; MOST_EVENTS];
    let mut next = [None; MOST_EVENTS];
    let mut loop_row = [0; MOST_EVENTS];
    for (to, from, minutes) in lags {
        let parts = [*minutes];
        let outcome = plan::set::<Minutes>(
            stages,
            table,
            *to,
            *from,
            &parts,
            &mut totals,
            &mut next,
            &mut loop_row,
        );
        if let Err(fault) = outcome {
            show_refusal(rt, fault)?;
        }
    }
    Ok(())
}

// Sets a lag and shows how that ended. The two working rows are lent, since a local array of a type
// parameter gets no proof.
pub fn set_lag<K: Mark>(
    rt: &HostRuntime,
    stages: usize,
    table: &mut [Option<K::Lag>],
    to: usize,
    from: usize,
    parts: &[i64],
    totals: &mut [Option<K>],
    next: &mut [Option<K>],
) -> io::Result<()> {
    let mut loop_row = [0; MOST_EVENTS];
    let outcome = plan::set::<K>(stages, table, to, from, parts, totals, next, &mut loop_row);
    show_set(rt, outcome, &loop_row)
}

// The flow of the plan, and the latest times within it of some events.
pub fn show_flow(
    rt: &HostRuntime,
    stages: usize,
    table: &[Option<MinutesLag>],
    events: &[usize],
) -> io::Result<()> {
    let mut times = [None; MOST_EVENTS];
    let outcome = plan::flow(
        stages,
        table,
        &mut times,
        &mut [None; MOST_EVENTS],
        &mut [None; MOST_EVENTS],
        &mut [None; MOST_EVENTS],
        &mut [None; MOST_EVENTS],
        &mut [0; MOST_EVENTS],
    );
    match outcome {
        Ok(flow) => println!(rt; "  every stage ends within {flow} of its start")?,
        Err(fault) => return show_refusal(rt, fault),
    }
    show_times(rt, "latest times", &times, events)
}
