// A plan of two stages in minutes, built by set: its earliest and latest times, its flow, and a due
// date tightened until it contradicts.
use crate::shared::{set_lag, show_flow};
use crate::show::{show_outcome, show_refusal, show_times};
use marks::minutes::{Minutes, MinutesLag};
use marks::turned::Turned;
use std::io;

const STAGES: usize = 2;

const EVENTS: usize = 5;

const ALL: [usize; EVENTS] = [0, 1, 2, 3, 4];

// To, from, minutes: stage 1 lasts at least 120, stage 2 at least 90, and stage 2 follows stage 1
// by 30 at its start and by 45 at its finish; not before 60, due by 300.
const LAGS: [(usize, usize, i64); 6] = [
    (2, 1, 120),
    (3, 1, 30),
    (4, 2, 45),
    (4, 3, 90),
    (1, 0, 60),
    (0, 4, -300),
];

// The rows that the calls work in, of one kind: an array of a type parameter gets no proof.
#[derive(Default, Drop)]
struct Work {
    totals: [Option<Minutes>; EVENTS],
    next: [Option<Minutes>; EVENTS],
    turned: [Option<Turned<Minutes>>; EVENTS],
    turned_next: [Option<Turned<Minutes>>; EVENTS],
    loop_row: [usize; EVENTS],
}

impl Work {
    fn set(
        &mut self,
        rt: &HostRuntime,
        table: &mut [Option<MinutesLag>],
        to: usize,
        from: usize,
        minutes: i64,
    ) -> io::Result<()> {
        println!(rt; "set {minutes} minutes to event {to} from event {from}")?;
        set_lag::<Minutes>(
            rt,
            STAGES,
            table,
            to,
            from,
            &[minutes],
            &mut self.totals,
            &mut self.next,
        )
    }

    fn show_earliest(&mut self, rt: &HostRuntime, table: &[Option<MinutesLag>]) -> io::Result<()> {
        let mut times = [None; EVENTS];
        println!(rt; "earliest times")?;
        let outcome = plan::earliest::<Minutes>(
            STAGES,
            table,
            &mut times,
            &mut self.totals,
            &mut self.next,
            &mut self.loop_row,
        );
        show_outcome(rt, outcome)?;
        show_times(rt, "events 0 to 4", &times, &ALL)
    }

    fn show_latest(&mut self, rt: &HostRuntime, table: &[Option<MinutesLag>]) -> io::Result<()> {
        let mut times = [None; EVENTS];
        println!(rt; "latest times")?;
        let outcome = plan::latest::<Minutes>(
            STAGES,
            table,
            &mut times,
            &mut self.totals,
            &mut self.next,
            &mut self.turned,
            &mut self.turned_next,
            &mut self.loop_row,
        );
        show_outcome(rt, outcome)?;
        show_times(rt, "events 0 to 4", &times, &ALL)
    }

    fn show_spread(
        &mut self,
        rt: &HostRuntime,
        table: &[Option<MinutesLag>],
        event: usize,
    ) -> io::Result<()> {
        println!(rt; "spread of event {event}")?;
        let outcome = plan::spread::<Minutes>(
            STAGES,
            table,
            event,
            &mut self.totals,
            &mut self.next,
            &mut self.turned,
            &mut self.turned_next,
            &mut self.loop_row,
        );
        match outcome {
            Ok((least, greatest)) => {
                show_times(rt, "earliest and latest", &[least, greatest], &[0, 1])
            }
            Err(fault) => show_refusal(rt, fault),
        }
    }
}

pub fn walk(rt: &HostRuntime) -> io::Result<()> {
    let mut table = [None; EVENTS * EVENTS];
    let mut work = Work::default();
    println!(rt; "open a plan of {STAGES} stages")?;
    show_outcome(rt, plan::open::<Minutes>(STAGES, &mut table))?;
    work.show_earliest(rt, &table)?;
    for (to, from, minutes) in LAGS {
        work.set(rt, &mut table, to, from, minutes)?;
    }
    work.show_earliest(rt, &table)?;
    work.show_latest(rt, &table)?;
    work.show_spread(rt, &table, 4)?;
    println!(rt; "the flow")?;
    show_flow(rt, STAGES, &table, &ALL)?;
    work.set(rt, &mut table, 0, 4, -225)?;
    work.set(rt, &mut table, 0, 4, -224)?;
    work.show_latest(rt, &table)
}
