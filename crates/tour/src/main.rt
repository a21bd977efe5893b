// A walk through worked plans: what each call is asked, and what it answers.
#![tactic(auto)]

mod flow_plan;
mod minutes_plan;
mod nearest_plan;
mod shared;
mod show;
mod stamps_plan;

use marks::kind::Mark;
use marks::minutes::{Minutes, MinutesLag};
use plan::PlanFault;
use shared::{set_lags, time};
use show::{show_line, show_outcome, show_refusal, show_times};
use std::io;

const STAGES: usize = 4;

const EVENTS: usize = 9;

const STARTS: [usize; STAGES] = [1, 3, 5, 7];

const FINISHES: [usize; STAGES] = [2, 4, 6, 8];

// The start-to-finish lags of the plan: the event it is to, the event it is from, the minutes.
const LAGS: [(usize, usize, i64); 10] = [
    (2, 1, 8),
    (2, 3, 10),
    (4, 3, 5),
    (4, 5, 4),
    (4, 7, 8),
    (6, 1, 6),
    (6, 3, 12),
    (6, 5, 11),
    (6, 7, 7),
    (8, 7, 12),
];

// Backward from the due times, and forward again from the starts that it gives.
fn work_back(rt: &HostRuntime, table: &[Option<MinutesLag>]) -> io::Result<()> {
    let due = [
        None,
        None,
        time(14),
        None,
        time(11),
        None,
        time(16),
        None,
        time(15),
    ];
    let mut starts = [None; EVENTS];
    let mut finishes = [None; EVENTS];
    println!(rt; "work back from the due times to the latest starts")?;
    show_times(rt, "due", &due, &FINISHES)?;
    show_outcome(
        rt,
        plan::backward::<Minutes>(STAGES, table, &due, &mut starts),
    )?;
    show_times(rt, "starts", &starts, &STARTS)?;
    println!(rt; "work forward from those starts to the finishes")?;
    show_outcome(
        rt,
        plan::finish::<Minutes>(STAGES, table, &starts, &mut finishes),
    )?;
    show_times(rt, "finishes", &finishes, &FINISHES)?;
    check_times(rt, table, &starts, &finishes)
}

// The starts and the finishes in one row, after the opening.
fn join_times(
    starts: &[Option<Minutes>],
    finishes: &[Option<Minutes>],
    times: &mut [Option<Minutes>],
) {
    let pairs = starts.iter().zip(finishes);
    for (time, (start, finish)) in times.iter_mut().zip(pairs).skip(1) {
        *time = start.or(*finish);
    }
}

// A row of the starts and the finishes, with the opening at zero, kept and then broken.
fn check_times(
    rt: &HostRuntime,
    table: &[Option<MinutesLag>],
    starts: &[Option<Minutes>],
    finishes: &[Option<Minutes>],
) -> io::Result<()> {
    let mut times = [Some(Minutes::zero()); EVENTS];
    join_times(starts, finishes, &mut times);
    println!(rt; "check the starts and finishes")?;
    show_check(rt, plan::check::<Minutes>(STAGES, table, &times))?;
    times[4] = time(10);
    println!(rt; "check them with stage 2 finished at 10")?;
    show_check(rt, plan::check::<Minutes>(STAGES, table, &times))
}

fn show_check(
    rt: &HostRuntime,
    outcome: Result<Option<(usize, usize)>, PlanFault>,
) -> io::Result<()> {
    match outcome {
        Ok(None) => println!(rt; "  every lag is kept"),
        Ok(Some((to, from))) => println!(rt; "  the lag to event {to} from event {from} is broken"),
        Err(fault) => show_refusal(rt, fault),
    }
}

// The events of a mask, lowest first.
fn show_waiting(rt: &HostRuntime, table: &[Option<MinutesLag>], event: usize) -> io::Result<()> {
    println!(rt; "who waits on event {event}")?;
    match plan::waiting::<Minutes>(STAGES, table, event) {
        Ok((mask, count)) => {
            let waiting = (0..EVENTS).filter(|other| mask >> other & 1 == 1);
            show_line(rt, format_args!("{count} events"), waiting)
        }
        Err(fault) => show_refusal(rt, fault),
    }
}

// A lag dropped and a stage voided, each with who waits then.
fn edit(rt: &HostRuntime, table: &mut [Option<MinutesLag>]) -> io::Result<()> {
    show_waiting(rt, table, 7)?;
    println!(rt; "drop the lag to event 4 from event 7")?;
    show_outcome(rt, plan::drop::<Minutes>(STAGES, table, 4, 7))?;
    show_waiting(rt, table, 7)?;
    println!(rt; "void stage 3")?;
    show_outcome(rt, plan::void::<Minutes>(STAGES, table, 3))?;
    show_waiting(rt, table, 7)
}

fn main(rt: HostRuntime) -> io::Result<()> {
    let mut table = [None; EVENTS * EVENTS];
    println!(rt; "open a plan of {STAGES} stages")?;
    show_outcome(&rt, plan::open::<Minutes>(STAGES, &mut table))?;
    set_lags(&rt, STAGES, &mut table, &LAGS)?;
    work_back(&rt, &table)?;
    edit(&rt, &mut table)?;
    println!(rt; "drop the lag to event 9 from event 0")?;
    show_outcome(&rt, plan::drop::<Minutes>(STAGES, &mut table, 9, 0))?;
    println!(rt; "open a plan of 32 stages")?;
    show_outcome(&rt, plan::open::<Minutes>(32, &mut table))?;
    minutes_plan::walk(&rt)?;
    stamps_plan::walk(&rt)?;
    nearest_plan::walk(&rt)?;
    flow_plan::walk(&rt)
}
