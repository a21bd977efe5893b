// The lags between two events of a plan with a flow in its lags, as numbers.
ghost use Rattle.std.specs.Prelude.{◌≡◌, ◌<◌, ◌≢◌, true, Some, None, IfSome};
ghost use Rattle.std.specs.Option.{option_map};
ghost use Rattle.plan.specs.FlowSteps.{CountsAt, flowing_lags, lasting};
ghost use Rattle.plan.specs.Passing.{lags_of};
ghost use Rattle.rows.specs.Limits.{flow_limit, lag_limit};
ghost use Rattle.rows.specs.Rows.{Within};
ghost use Rattle.schedules.specs.Flows.{back_over_stage};

use crate::calls::flow::flowing::Flowing;
use crate::calls::flow::numbers::{is_back_over_stage, later_number, opposite};
use marks::kind::Mark;

impl<'a, K: Mark> Flowing<'a, K> {
    // The plan's own lag to an event from another, as a number.
    fn own_minutes(&self, to: usize, from: usize) -> Option<i64>
        requires to { to < self.now.table.count }
        requires from { from < self.now.table.count }
        ensures is { option_map lasting result ≡ lags_of self.now.table to from }
        ensures inside { IfSome result (λ z. Within lag_limit (lasting z)) }
    {
        let lag = self.table.lag(to, from)?;
        K::lag_part(lag, 0)
    }

    // The lag to the start of a stage from its finish, as a number: the plan's own or that of the
    // flow, the later of the two.
    pub(crate) fn back_minutes(&self, to: usize, from: usize) -> i64
        requires to { to < self.now.table.count }
        requires from { from < self.now.table.count }
        requires back { back_over_stage to from ≡ true }
        ensures is { flowing_lags self.now to from ≡ Some (lasting result) }
        ensures inside { Within flow_limit (lasting result) }
    {
        later_number(self.own_minutes(to, from), opposite(self.flow))
    }

    // The plan's own lag to an event from another, where it is the one that counts; nothing where
    // that of the flow does. Of two alike it is the plan's own.
    pub(crate) fn counting_minutes(&self, to: usize, from: usize) -> Option<i64>
        requires to { to < self.now.table.count }
        requires from { from < self.now.table.count }
        requires stands { flowing_lags self.now to from ≢ None }
        ensures is { CountsAt self.now.flow (lags_of self.now.table) to from result }
        ensures inside { IfSome result (λ z. Within lag_limit (lasting z)) }
    {
        let minutes = self.own_minutes(to, from)?;
        if is_back_over_stage(to, from) && minutes < opposite(self.flow) {
            return None;
        }
        Some(minutes)
    }
}
