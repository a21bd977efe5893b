// earliest: the least time of every event.
ghost use Rattle.std.specs.Prelude.{length, [], ◌∷◌, OnOk};
ghost use Rattle.algebra.specs.Answers.{IsOpeningColumn};
ghost use Rattle.plan.specs.Calls.{EarliestEnds, lags_in};
ghost use Rattle.schedules.specs.Tables.{events, times};

use crate::checks::read_table;
use crate::fault::PlanFault;
use crate::solving::least_times;
use crate::table::Place;
use marks::kind::Mark;
use solver::work::{Step, Work, copy_totals};

/// Writes for each event the least time over all schedules, or none where the event is free:
/// schedules have it before every row. The places of the answer past the events stay.
///
/// Refused by 3, 4, 5 and 14. A refusal leaves answer and loop row as they were, but for the loop
/// of the plan that 14 writes into the first places of the loop row. `totals` and `next` are
/// working rows: they may hold anything afterwards.
pub fn earliest<K: Mark>(
    stages: usize,
    table: &[Place<K>],
    answer: &mut [Option<K>],
    totals: &mut [Option<K>],
    next: &mut [Option<K>],
    loop_row: &mut [Step],
) -> Result<(), PlanFault>
    ensures ends { EarliestEnds K.Mark stages table.now answer.old answer.new
        (length answer.old ∷ length totals.old ∷ length next.old ∷ length loop_row.old ∷ [])
        loop_row.old loop_row.new result }
    ensures algebra { OnOk result
        (IsOpeningColumn K.Mark.WIDTH (events stages) (lags_in K.Mark stages table.now)
        (times K.Mark.row answer.new)) }
{
    let rows = [answer.len(), totals.len(), next.len(), loop_row.len()];
    let table = read_table::<K>(stages, table, &rows)?;
    let mut work = Work { totals, next };
    least_times(&table, &mut work, loop_row)?;
    copy_totals(table.count, totals, answer);
    Ok(())
}
