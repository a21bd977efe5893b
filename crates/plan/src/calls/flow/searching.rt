// The least flow of any schedule, and the greatest times within it.
ghost use Rattle.std.specs.Prelude.{◌≡◌, ◌≤◌, length};
ghost use Rattle.plan.specs.FlowSteps.{LeastFound, flowing_lags};
ghost use Rattle.plan.specs.Passing.{lags_of};
ghost use Rattle.schedules.specs.Answers.{GreatestTimes};
ghost use Rattle.schedules.specs.Plans.{Schedulable};
ghost use Rattle.schedules.specs.Tables.{times};
ghost use Rattle.solver.specs.Working.{HasRoom, SameRows};

use crate::calls::flow::FlowFound;
use crate::calls::flow::flowing::Flowing;
use crate::calls::flow::views::FlowingReversed;
use crate::table::Table;
use marks::kind::Mark;
use marks::turned::Turned;
use rows::MOST_EVENTS;
use solver::least::{find_least, settle};
use solver::work::Work;

// The least flow that some schedule is within, of a plan that has one. From nothing on, and not by halves: a loop
// found for one flow tells the least that is worth trying next.
pub(crate) fn least_flow<K: Mark>(table: &Table<'_, K>, work: &mut Work<'_, K>) -> FlowFound
    requires one { K.Mark.WIDTH ≡ 1 }
    requires room { HasRoom table.now.count work.old }
    requires schedule { Schedulable K.Mark.WIDTH table.now.count (lags_of table.now) }
    ensures found { LeastFound table.now.stages (lags_of table.now) result }
    ensures rows { SameRows work.new work.old }
{
    let mut flow = 0;
    let mut asked = 0;
    // of fixed size, since there is no heap
    let mut loop_row = [0; MOST_EVENTS];
    loop {
        let plan = Flowing {
            table: *table,
            flow,
        };
        asked += 1;
        let Some(len) = find_least(&plan, work, &mut loop_row) else {
            return FlowFound { flow, asked };
        };
        flow = plan.next_flow(&loop_row[..len]);
    }
}

// The greatest time of every event within the flow, of a plan that has a schedule within it.
pub(crate) fn settle_within<K: Mark>(plan: &Flowing<'_, K>, work: &mut Work<'_, Turned<K>>)
    requires room { HasRoom plan.now.table.count work.old }
    requires schedule { Schedulable K.Mark.WIDTH plan.now.table.count (flowing_lags plan.now) }
    ensures greatest { GreatestTimes K.Mark.WIDTH plan.now.table.count (flowing_lags plan.now)
        (times (λ t. K.Mark.row t.inner) work.new.totals.now) }
    ensures rows { SameRows work.new work.old }
{
    settle(&FlowingReversed { plan: *plan }, work)
}
