// The solver at a plan's table.
ghost use Rattle.std.specs.Prelude.{◌≡◌, ◌≤◌, [], length};
ghost use Rattle.plan.specs.Endings.{Solved};
ghost use Rattle.plan.specs.Passing.{lags_of, needs_of};
ghost use Rattle.schedules.specs.Answers.{LeastTimes, LoopSought, GreatestTimes};
ghost use Rattle.schedules.specs.Plans.{Schedulable};
ghost use Rattle.schedules.specs.Tables.{times};
ghost use Rattle.solver.specs.Working.{HasRoom, SameRows};

use crate::fault::PlanFault;
use crate::table::Table;
use crate::turning::turn_loop;
use crate::views::{Forward, Reversed};
use crate::witness::keep_all;
use marks::kind::Mark;
use marks::turned::Turned;
use solver::least::{find_least, settle};
use solver::work::{Step, Work};

// A loop of the table's lags in the first places of the loop row, and its length; nothing if there
// is a schedule.
pub(crate) fn contradiction<K: Mark>(
    table: &Table<'_, K>,
    work: &mut Work<'_, K>,
    loop_row: &mut [Step],
) -> Option<usize>
    requires room { HasRoom table.now.count work.old }
    requires places { table.now.count ≤ length loop_row.old }
    ensures sought { LoopSought K.Mark.WIDTH table.now.count (lags_of table.now)
        loop_row.old loop_row.new result }
    ensures rows { SameRows work.new work.old }
{
    let totals = &mut *work.totals;
    // a short cut, for what the call before left there may still be a schedule
    if keep_all(table, totals) {
        return None;
    }
    find_least(&Forward { table: *table }, work, loop_row)
}

// 14: that there is a schedule, and the least time of every event then; else a loop of the table's
// lags in the first places of the loop row, and its length in the fault.
pub(crate) fn least_times<K: Mark>(
    table: &Table<'_, K>,
    work: &mut Work<'_, K>,
    loop_row: &mut [Step],
) -> Result<(), PlanFault>
    requires room { HasRoom table.now.count work.old }
    requires places { table.now.count ≤ length loop_row.old }
    ensures solved { Solved (needs_of table.now [] loop_row.old loop_row.new)
        (λ _. LeastTimes K.Mark.WIDTH table.now.count (lags_of table.now)
        (times K.Mark.row work.new.totals.now)) (Unit {0}) result }
    ensures rows { SameRows work.new work.old }
{
    match find_least(&Forward { table: *table }, work, loop_row) {
        None => Ok(()),
        Some(len) => Err(PlanFault::Loop(len)),
    }
}

// 14, and the greatest time of every event: the inner totals of the least times of the reversed
// plan over turned marks, whose loops run the other way round.
pub(crate) fn greatest_times<K: Mark>(
    table: &Table<'_, K>,
    work: &mut Work<'_, Turned<K>>,
    loop_row: &mut [Step],
) -> Result<(), PlanFault>
    requires room { HasRoom table.now.count work.old }
    requires places { table.now.count ≤ length loop_row.old }
    ensures solved { Solved (needs_of table.now [] loop_row.old loop_row.new)
        (λ _. GreatestTimes K.Mark.WIDTH table.now.count (lags_of table.now)
        (times (λ t. K.Mark.row t.inner) work.new.totals.now)) (Unit {0}) result }
    ensures rows { SameRows work.new work.old }
{
    match find_least(&Reversed { table: *table }, work, loop_row) {
        None => Ok(()),
        Some(len) => {
            turn_loop(len, loop_row);
            Err(PlanFault::Loop(len))
        }
    }
}

// The greatest time of every event, of a plan known to have a schedule. That is asked for: no ghost
// field can hold it, since a schedule is a value.
pub(crate) fn settle_greatest<K: Mark>(table: &Table<'_, K>, work: &mut Work<'_, Turned<K>>)
    requires room { HasRoom table.now.count work.old }
    requires schedules { Schedulable K.Mark.WIDTH table.now.count (lags_of table.now) }
    ensures greatest { GreatestTimes K.Mark.WIDTH table.now.count (lags_of table.now)
        (times (λ t. K.Mark.row t.inner) work.new.totals.now) }
    ensures rows { SameRows work.new work.old }
{
    settle(&Reversed { table: *table }, work)
}
