// A plan of any kind of mark with the rows of its calls, and the steps of a script that asks it in
// whole numbers.
use crate::reading::{Unread, read_lags};
use marks::fault::{Layer, MarkFault};
use marks::kind::Mark;
use marks::minutes::Minutes;
use marks::turned::Turned;
use plan::PlanFault;
use solver::work::Work;
use std::alloc::{AllocError, Global};
use std::mem;
use std::process::Abort;
use std::test::Fail;

// The event that a lag is to, the event that it is from, and its number.
pub(crate) type Lag = (usize, usize, i64);

// The number and the layer of the check that a call missed.
pub(crate) type Missed = (u8, Layer);

#[derive(Clone, Copy, Debug)]
pub(crate) enum Call {
    Open,
    Set(usize, usize, i64),
    SetParts(usize, usize, &'static [i64]),
    Drop(usize, usize),
    Void(usize),
    Check,
    Waiting(usize),
    Finish,
    Backward,
    Earliest,
    Latest,
    Spread(usize),
    // no call of the planner: lags put into an emptied table, with the times repaired after each
    Read(&'static [Lag]),
}

#[derive(Clone, Copy, PartialEq, Eq, Debug)]
pub(crate) enum Answer {
    Done,
    Broken(Option<(usize, usize)>),
    Waits(u64, u32),
    Within(Option<i64>, Option<i64>),
}

#[derive(Clone, Copy, Debug)]
pub(crate) enum Row {
    Given,
    Answer,
    Totals,
    Next,
    Turned,
    TurnedNext,
    Loop,
}

#[derive(Clone, Copy, Debug)]
pub(crate) enum Act {
    // a call and its answer
    Ask(Call, Result<Answer, Missed>),
    // calls of one answer
    AskAll(&'static [Call], Result<Answer, Missed>),
    // the number of stages that calls are told from here on
    Tell(usize),
    // a row as it was made, of so many places
    Renew(Row, usize),
    // the totals that calls are given from here on
    Give(&'static [Option<i64>]),
    // a lag put into the table past all checks
    Lay(Lag),
    // every lag of the table
    Lags(&'static [Lag]),
    // the whole row of answers
    Times(&'static [Option<i64>]),
    // the whole row of repaired times
    Repaired(&'static [Option<i64>]),
    // the whole loop row
    Loop(&'static [usize]),
    // that the loop row has a loop of the table's lags, but for these in stead of what stands there
    Closes(&'static [Lag]),
}

pub(crate) const DONE: Result<Answer, Missed> = Ok(Answer::Done);

pub(crate) const STAGES: Result<Answer, Missed> = Err((3, Layer::Plan));

pub(crate) const TABLE: Result<Answer, Missed> = Err((4, Layer::Plan));

pub(crate) const ROW: Result<Answer, Missed> = Err((5, Layer::Plan));

pub(crate) const EVENT: Result<Answer, Missed> = Err((9, Layer::Plan));

pub(crate) const NO_LAG: Result<Answer, Missed> = Err((10, Layer::Mark));

pub(crate) const TOTAL: Result<Answer, Missed> = Err((12, Layer::Plan));

pub(crate) const LOOP: Result<Answer, Missed> = Err((14, Layer::Plan));

// What no check of the planner names.
pub(crate) const UNFIT: Result<Answer, Missed> = Err((0, Layer::Plan));

fn numbered<A>(outcome: Result<A, PlanFault>) -> Result<A, Missed> {
    outcome.map_err(|fault| (fault.number(), fault.layer()))
}

// A number stands for the mark whose first part it is, and whose second part, if there is one, is
// its opposite.
fn to_total<K: Mark>(number: Option<i64>) -> Option<K> {
    let number = number?;
    K::make_total([number, number.saturating_neg()].get(..K::WIDTH)?)
}

pub(crate) fn to_lag<K: Mark>(number: i64) -> Result<K::Lag, MarkFault> {
    let parts = [number, number.saturating_neg()];
    K::make_lag(parts.get(..K::WIDTH).unwrap_or(&parts))
}

// The number of a mark of these parts: the least number stands for parts that are not each other's
// opposites.
fn to_number<K: Mark>(first: Option<i64>, second: Option<i64>) -> i64 {
    let number = first.unwrap_or(i64::MIN);
    let opposite = (K::WIDTH == 2).then_some(number.saturating_neg());
    if second == opposite { number } else { i64::MIN }
}

fn number_of<K: Mark>(total: Option<K>) -> Option<i64> {
    let total = total?;
    Some(to_number::<K>(total.part(0), total.part(1)))
}

pub(crate) fn has_numbers<K: Mark>(row: &[Option<K>], numbers: &[Option<i64>]) -> bool {
    row.len() == numbers.len()
        && row
            .iter()
            .zip(numbers)
            .all(|(total, number)| number_of::<K>(*total) == *number)
}

#[derive(Drop)]
pub(crate) struct Trial<K: Mark> {
    alloc: Global,
    // the events of the table, whatever the calls are told
    count: usize,
    pub stages: usize,
    pub table: Vec<Option<K::Lag>>,
    pub given: Vec<Option<K>>,
    pub answer: Vec<Option<K>>,
    totals: Vec<Option<K>>,
    next: Vec<Option<K>>,
    turned: Vec<Option<Turned<K>>>,
    turned_next: Vec<Option<Turned<K>>>,
    loop_row: Vec<usize>,
    // how long the loop is that was shown last
    shown: usize,
}

impl<K: Mark> Trial<K> {
    // Every place of the table is taken, each total of an answer is 8 and each event of a loop is
    // 9, until a call writes there.
    pub fn new(alloc: Global, stages: usize) -> Result<Trial<K>, Fail> {
        let count = stages.saturating_mul(2).saturating_add(1);
        Ok(Trial {
            alloc,
            count,
            stages,
            table: vec![in alloc; Some(to_lag::<K>(7)?); count.saturating_mul(count)]?,
            given: vec![in alloc; None; count]?,
            answer: vec![in alloc; to_total::<K>(Some(8)); count]?,
            totals: vec![in alloc; None; count]?,
            next: vec![in alloc; None; count]?,
            turned: vec![in alloc; None; count]?,
            turned_next: vec![in alloc; None; count]?,
            loop_row: vec![in alloc; 9; count]?,
            shown: 0,
        })
    }

    fn place_of(&self, to: usize, from: usize) -> usize {
        to.saturating_mul(self.count).saturating_add(from)
    }

    pub fn lay(&mut self, to: usize, from: usize, number: i64) -> Result<(), MarkFault> {
        let at = self.place_of(to, from);
        if let Some(place) = self.table.get_mut(at) {
            *place = Some(to_lag::<K>(number)?);
        }
        Ok(())
    }

    fn number_at(&self, to: usize, from: usize) -> Option<i64> {
        let lag = self.table.get(self.place_of(to, from)).copied().flatten()?;
        Some(to_number::<K>(K::lag_part(lag, 0), K::lag_part(lag, 1)))
    }

    pub fn has_just(&self, lags: &[Lag]) -> bool {
        let count = self.table.iter().filter(|lag| lag.is_some()).count();
        count == lags.len()
            && lags.iter().all(|(to, from, number)| self.number_at(*to, *from) == Some(*number))
    }

    pub fn give(&mut self, numbers: &[Option<i64>]) -> Result<(), AllocError> {
        self.given = numbers
            .iter()
            .map(|number| to_total::<K>(*number))
            .collect(self.alloc)?;
        Ok(())
    }

    pub fn has_times(&self, numbers: &[Option<i64>]) -> bool {
        has_numbers(&self.answer, numbers)
    }

    // Whether the loop shown last is one of the table's lags, with more in stead of what stands
    // there: its lowest event first, and more than nothing all round.
    pub fn closes(&mut self, more: &[Lag]) -> bool {
        let len = mem::replace(&mut self.shown, 0);
        let Some((first, rest)) = self
            .loop_row
            .get(..len)
            .and_then(|steps| steps.split_first())
        else {
            return false;
        };
        let mut sum: i64 = 0;
        let mut from = *first;
        for to in rest.iter().chain([first]) {
            let put = more.iter().find(|lag| lag.0 == *to && lag.1 == from);
            let Some(number) = put.map(|lag| lag.2).or(self.number_at(*to, from)) else {
                return false;
            };
            sum = sum.saturating_add(number);
            from = *to;
        }
        sum > 0 && rest.iter().all(|event| event > first)
    }

    // What a call answered, with the length of a loop noted.
    fn noted<A>(&mut self, outcome: Result<A, PlanFault>) -> Result<A, Missed> {
        self.shown = match outcome {
            Err(PlanFault::Loop(len)) => len,
            _ => 0,
        };
        numbered(outcome)
    }

    fn renew(&mut self, row: Row, len: usize) -> Result<(), AllocError> {
        let alloc = self.alloc;
        match row {
            Row::Given => self.given = vec![in alloc; None; len]?,
            Row::Answer => self.answer = vec![in alloc; to_total::<K>(Some(8)); len]?,
            Row::Totals => self.totals = vec![in alloc; None; len]?,
            Row::Next => self.next = vec![in alloc; None; len]?,
            Row::Turned => self.turned = vec![in alloc; None; len]?,
            Row::TurnedNext => self.turned_next = vec![in alloc; None; len]?,
            Row::Loop => self.loop_row = vec![in alloc; 9; len]?,
        }
        Ok(())
    }

    fn set_parts(&mut self, to: usize, from: usize, parts: &[i64]) -> Result<(), Missed> {
        let ended = plan::set::<K>(
            self.stages,
            &mut self.table,
            to,
            from,
            parts,
            &mut self.totals,
            &mut self.next,
            &mut self.loop_row,
        );
        self.noted(ended)
    }

    pub fn set(&mut self, to: usize, from: usize, number: i64) -> Result<(), Missed> {
        let parts = [number, number.saturating_neg()];
        self.set_parts(to, from, parts.get(..K::WIDTH).unwrap_or(&parts))
    }

    fn finish(&mut self) -> Result<(), Missed> {
        numbered(plan::finish::<K>(self.stages, &self.table, &self.given, &mut self.answer))
    }

    fn backward(&mut self) -> Result<(), Missed> {
        numbered(plan::backward::<K>(self.stages, &self.table, &self.given, &mut self.answer))
    }

    fn earliest(&mut self) -> Result<(), Missed> {
        let ended = plan::earliest::<K>(
            self.stages,
            &self.table,
            &mut self.answer,
            &mut self.totals,
            &mut self.next,
            &mut self.loop_row,
        );
        self.noted(ended)
    }

    fn latest(&mut self) -> Result<(), Missed> {
        let ended = plan::latest::<K>(
            self.stages,
            &self.table,
            &mut self.answer,
            &mut self.totals,
            &mut self.next,
            &mut self.turned,
            &mut self.turned_next,
            &mut self.loop_row,
        );
        self.noted(ended)
    }

    fn spread(&mut self, event: usize) -> Result<Answer, Missed> {
        let ended = plan::spread::<K>(
            self.stages,
            &self.table,
            event,
            &mut self.totals,
            &mut self.next,
            &mut self.turned,
            &mut self.turned_next,
            &mut self.loop_row,
        );
        let (least, greatest) = self.noted(ended)?;
        Ok(Answer::Within(number_of(least), number_of(greatest)))
    }

    pub fn read(&mut self, lags: &[Lag]) -> Result<(), Missed> {
        let mut work = Work {
            totals: &mut self.totals,
            next: &mut self.next,
        };
        let ended = read_lags::<K>(
            self.stages,
            &mut self.table,
            lags,
            &mut work,
            &mut self.loop_row,
        );
        match ended {
            Ok(()) => Ok(()),
            Err(Unread::Loop(len)) => self.noted(Err(PlanFault::Loop(len))),
            Err(Unread::Unfit) => Err((0, Layer::Plan)),
        }
    }

    // Whether the repaired times keep every lag.
    pub fn repaired_keep(&self) -> bool {
        numbered(plan::check::<K>(self.stages, &self.table, &self.totals)) == Ok(None)
    }

    fn check(&self) -> Result<Answer, Missed> {
        let broken = numbered(plan::check::<K>(self.stages, &self.table, &self.given))?;
        Ok(Answer::Broken(broken))
    }

    fn waiting(&self, event: usize) -> Result<Answer, Missed> {
        let (mask, count) = numbered(plan::waiting::<K>(self.stages, &self.table, event))?;
        Ok(Answer::Waits(mask, count))
    }

    fn open(&mut self) -> Result<(), Missed> {
        numbered(plan::open::<K>(self.stages, &mut self.table))
    }

    fn drop(&mut self, to: usize, from: usize) -> Result<(), Missed> {
        numbered(plan::drop::<K>(self.stages, &mut self.table, to, from))
    }

    fn void(&mut self, stage: usize) -> Result<(), Missed> {
        numbered(plan::void::<K>(self.stages, &mut self.table, stage))
    }

    fn ask(&mut self, call: Call) -> Result<Answer, Missed> {
        match call {
            Call::Check => return self.check(),
            Call::Waiting(event) => return self.waiting(event),
            Call::Spread(event) => return self.spread(event),
            Call::Open => self.open()?,
            Call::Set(to, from, number) => self.set(to, from, number)?,
            Call::SetParts(to, from, parts) => self.set_parts(to, from, parts)?,
            Call::Drop(to, from) => self.drop(to, from)?,
            Call::Void(stage) => self.void(stage)?,
            Call::Finish => self.finish()?,
            Call::Backward => self.backward()?,
            Call::Earliest => self.earliest()?,
            Call::Latest => self.latest()?,
            Call::Read(lags) => self.read(lags)?,
        }
        Ok(Answer::Done)
    }

    // Makes a step; whether it found what it names.
    fn holds(&mut self, step: Act) -> Result<bool, Fail> {
        match step {
            Act::Ask(call, answer) => return Ok(self.ask(call) == answer),
            Act::AskAll(calls, answer) => {
                return Ok(calls.iter().all(|call| self.ask(*call) == answer));
            }
            Act::Lags(lags) => return Ok(self.has_just(lags)),
            Act::Times(numbers) => return Ok(self.has_times(numbers)),
            Act::Repaired(numbers) => return Ok(has_numbers(&self.totals, numbers)),
            Act::Closes(more) => return Ok(self.closes(more)),
            Act::Loop(events) => return Ok(self.loop_row.as_slice() == events),
            Act::Tell(stages) => self.stages = stages,
            Act::Renew(row, len) => self.renew(row, len)?,
            Act::Give(numbers) => self.give(numbers)?,
            Act::Lay((to, from, number)) => self.lay(to, from, number)?,
        }
        Ok(true)
    }

    pub fn run(&mut self, rt: &impl Abort, script: &[Act]) -> Result<(), Fail> {
        for step in script {
            assert!(rt; self.holds(*step)?, "{step:?}");
        }
        Ok(())
    }
}

impl Trial<Minutes> {
    pub fn closest(&mut self) -> Result<u64, Missed> {
        numbered(plan::closest(self.stages, &self.table, &self.given, &mut self.answer))
    }

    pub fn flow(&mut self) -> Result<u64, Missed> {
        let ended = plan::flow(
            self.stages,
            &self.table,
            &mut self.answer,
            &mut self.totals,
            &mut self.next,
            &mut self.turned,
            &mut self.turned_next,
            &mut self.loop_row,
        );
        self.noted(ended)
    }
}
