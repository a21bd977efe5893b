// The calls that are measured, over rows of one's own.
ghost use Rattle.std.specs.Prelude.{◌≡◌, length};

use crate::making::{EVENTS, STAGES};
use marks::kind::Mark;
use marks::minutes::{Minutes, MinutesLag};
use marks::turned::Turned;
use plan::{FlowFound, PlanFault};
use std::fmt;
use std::fmt::Display;

/// A call that is measured.
#[derive(Clone, Copy)]
pub enum Call {
    Earliest,
    Latest,
    /// Of one event.
    Spread(usize),
    Flow,
}

/// The rows that the calls answer and work in.
#[derive(Drop)]
pub struct Rows {
    pub answer: [Option<Minutes>; EVENTS],
    pub totals: [Option<Minutes>; EVENTS],
    pub next: [Option<Minutes>; EVENTS],
    pub turned: [Option<Turned<Minutes>>; EVENTS],
    pub turned_next: [Option<Turned<Minutes>>; EVENTS],
    pub loop_row: [usize; EVENTS],
}

impl Rows {
    /// Rows that hold nothing yet.
    pub fn new() -> Rows {
        Rows {
            answer: [None; EVENTS],
            totals: [None; EVENTS],
            next: [None; EVENTS],
            turned: [None; EVENTS],
            turned_next: [None; EVENTS],
            loop_row: [0; EVENTS],
        }
    }

    /// Makes the call. `answer` holds what it answers: of `Spread` the two times, in the first
    /// places.
    pub fn ask(&mut self, call: Call, table: &[Option<MinutesLag>]) -> Result<(), PlanFault> {
        match call {
            Call::Earliest => self.ask_earliest(table),
            Call::Latest => self.ask_latest(table),
            Call::Spread(event) => self.ask_spread(table, event),
            Call::Flow => self.ask_flow(table).map(|_| ()),
        }
    }

    fn ask_earliest(&mut self, table: &[Option<MinutesLag>]) -> Result<(), PlanFault> {
        plan::earliest::<Minutes>(
            STAGES,
            table,
            &mut self.answer,
            &mut self.totals,
            &mut self.next,
            &mut self.loop_row,
        )
    }

    fn ask_latest(&mut self, table: &[Option<MinutesLag>]) -> Result<(), PlanFault> {
        plan::latest::<Minutes>(
            STAGES,
            table,
            &mut self.answer,
            &mut self.totals,
            &mut self.next,
            &mut self.turned,
            &mut self.turned_next,
            &mut self.loop_row,
        )
    }

    fn ask_spread(&mut self, table: &[Option<MinutesLag>], event: usize) -> Result<(), PlanFault> {
        let (least, greatest) = plan::spread::<Minutes>(
            STAGES,
            table,
            event,
            &mut self.totals,
            &mut self.next,
            &mut self.turned,
            &mut self.turned_next,
            &mut self.loop_row,
        )?;
        self.answer[0] = least;
        self.answer[1] = greatest;
        Ok(())
    }

    /// Asks for the flow. `answer` holds the latest times within it.
    pub fn ask_flow(&mut self, table: &[Option<MinutesLag>]) -> Result<FlowFound, PlanFault> {
        plan::flow_counted(
            STAGES,
            table,
            &mut self.answer,
            &mut self.totals,
            &mut self.next,
            &mut self.turned,
            &mut self.turned_next,
            &mut self.loop_row,
        )
    }

    /// Puts the lag into the plan.
    pub fn set(
        &mut self,
        table: &mut [Option<MinutesLag>],
        to: usize,
        from: usize,
        minutes: i64,
    ) -> Result<(), PlanFault> {
        plan::set::<Minutes>(
            STAGES,
            table,
            to,
            from,
            &[minutes],
            &mut self.totals,
            &mut self.next,
            &mut self.loop_row,
        )
    }
}

/// How a call ended, with the sum over the times that it answered.
#[derive(Clone, Copy, PartialEq, Eq)]
pub enum Outcome {
    /// In times of that sum.
    Answered(u64),
    /// By a loop of lags.
    Contradicts,
    /// By the check of that number.
    Refused(u8),
}

impl Outcome {
    /// How a call ended that answered in these times, if it did.
    pub fn new(ended: Result<(), PlanFault>, times: &[Option<Minutes>]) -> Outcome {
        match ended {
            Ok(()) => Outcome::Answered(sum_times(OFFSET, times)),
            Err(PlanFault::Loop(_)) => Outcome::Contradicts,
            Err(fault) => Outcome::Refused(fault.number()),
        }
    }
}

impl Display for Outcome {
    fn fmt<W: fmt::Write>(&self, f: &mut fmt::Formatter<W>) -> fmt::Result {
        match *self {
            Outcome::Answered(sum) => write!(f, "{sum}"),
            Outcome::Contradicts => f.write_str("contradicts"),
            Outcome::Refused(number) => write!(f, "refused-{number}"),
        }
    }
}

// The sum is that of Fowler, Noll and Vo, over words: another time, or the same times in another
// order, change it.
const OFFSET: u64 = 14_695_981_039_346_656_037;

const PRIME: u64 = 1_099_511_628_211;

// What stands in the sum for the time of a free event. No time is so late.
const FREE: i64 = 1 << 62;

fn sum_times(start: u64, times: &[Option<Minutes>]) -> u64 {
    let mut sum = start;
    for time in times {
        let minutes = time.and_then(|total| total.part(0)).unwrap_or(FREE);
        sum = (sum ^ minutes.cast_unsigned()).wrapping_mul(PRIME);
    }
    sum
}
