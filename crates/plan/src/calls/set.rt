// set: a lag put into the plan.
ghost use Rattle.std.specs.Prelude.{length, [], ◌∷◌};
ghost use Rattle.plan.specs.Calls.{SetEnds};

use crate::checks::{check_event, check_head};
use crate::fault::PlanFault;
use crate::solving::contradiction;
use crate::table::{Place, Table, lag_at, put_lag};
use marks::kind::Mark;
use solver::work::{Step, Work};

/// Makes the lag of the numbers and puts it to an event from another, in stead of what stood there,
/// unless the plan as it would be then has no schedule.
///
/// Refused by 3, 4, 5, 9, 10 and 14. A refusal leaves table and loop row as they were, but for the
/// loop that 14 writes into the first places of the loop row: a loop of the plan as it would be.
/// `totals` and `next` are working rows: they may hold anything afterwards.
pub fn set<K: Mark>(
    stages: usize,
    table: &mut [Place<K>],
    to: usize,
    from: usize,
    parts: &[i64],
    totals: &mut [Option<K>],
    next: &mut [Option<K>],
    loop_row: &mut [Step],
) -> Result<(), PlanFault>
    ensures { SetEnds K.Mark stages table.old table.new to from parts.now
        (length totals.old ∷ length next.old ∷ length loop_row.old ∷ [])
        loop_row.old loop_row.new result }
{
    let count = check_head(
        stages,
        table.len(),
        &[totals.len(), next.len(), loop_row.len()],
    )?;
    check_event(stages, to.max(from))?;
    let lag = K::make_lag(parts)?;
    let stood = lag_at::<K>(count, table, to, from);
    put_lag::<K>(count, table, to, from, Some(lag));
    // not by `least_times`: what stood goes back before the fault goes up
    let found = contradiction(
        &Table::<K> {
            stages,
            count,
            lags: table,
        },
        &mut Work { totals, next },
        loop_row,
    );
    match found {
        None => Ok(()),
        Some(len) => {
            put_lag::<K>(count, table, to, from, stood);
            Err(PlanFault::Loop(len))
        }
    }
}
