// What a loop of a plan with a flow in its lags says of all flows.
ghost use Rattle.std.specs.Prelude.{◌≡◌, ◌<◌, ◌≤◌, ◌≢◌, length, None};
ghost use Rattle.plan.specs.FlowSteps.{LoopCounted, NextFlow, OneMore, SumInside, flowing_lags};
ghost use Rattle.plan.specs.Passing.{lags_of};
ghost use Rattle.rows.specs.Limits.{most_events};
ghost use Rattle.schedules.specs.Plans.{Loop, Schedulable};

use crate::calls::flow::flowing::Flowing;
use marks::kind::Mark;
use solver::work::Step;

// Of lags of a loop, how many are the flow's, and the sum of the plan's own.
#[derive(Clone, Copy)]
pub(crate) struct Tally {
    pub(crate) added: u64,
    pub(crate) sum: i64,
}

impl<'a, K: Mark> Flowing<'a, K> {
    // One lag more, to an event from another.
    fn count_lag(&self, tally: Tally, to: usize, from: usize) -> Tally
        requires to { to < self.now.table.count }
        requires from { from < self.now.table.count }
        requires stands { flowing_lags self.now to from ≢ None }
        requires inside { SumInside most_events tally }
        ensures { OneMore self.now.flow (lags_of self.now.table) to from tally result }
    {
        match self.counting_minutes(to, from) {
            None => Tally {
                added: tally.added + 1,
                sum: tally.sum,
            },
            Some(minutes) => Tally {
                added: tally.added,
                sum: tally.sum + minutes,
            },
        }
    }

    // Every lag of a loop.
    fn count_loop(&self, around: &[Step]) -> Tally
        requires few { length around.now ≤ most_events }
        requires closed { Loop K.Mark.WIDTH self.now.table.count (flowing_lags self.now)
            around.now }
        requires schedule { Schedulable K.Mark.WIDTH self.now.table.count (lags_of self.now.table) }
        ensures { LoopCounted self.now.table.stages self.now.flow (lags_of self.now.table) result }
    {
        let first = around[0];
        let mut from = first;
        let mut tally = Tally { added: 0, sum: 0 };
        for to in &around[1..] {
            tally = self.count_lag(tally, *to, from);
            from = *to;
        }
        self.count_lag(tally, first, from)
    }

    // The least flow that a loop does not refute: the sum of the plan's own lags, shared out to the
    // lags of the flow.
    pub(crate) fn next_flow(&self, around: &[Step]) -> u64
        requires few { length around.now ≤ most_events }
        requires closed { Loop K.Mark.WIDTH self.now.table.count (flowing_lags self.now)
            around.now }
        requires schedule { Schedulable K.Mark.WIDTH self.now.table.count (lags_of self.now.table) }
        ensures { NextFlow self.now.table.stages self.now.flow (lags_of self.now.table) result }
    {
        let tally = self.count_loop(around);
        (tally.sum as u64).div_ceil(tally.added)
    }
}
