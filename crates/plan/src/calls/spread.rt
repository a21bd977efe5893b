// spread: the least and the greatest time of one event.
ghost use Rattle.std.specs.Prelude.{length, [], ◌∷◌};
ghost use Rattle.plan.specs.Calls.{SpreadEnds};

use crate::checks::{check_event, read_table};
use crate::fault::PlanFault;
use crate::solving::{least_times, settle_greatest};
use crate::table::{Place, time_at};
use crate::turning::inner_of;
use marks::kind::Mark;
use marks::turned::Turned;
use solver::work::{Step, Work};

/// Answers the least and the greatest time of an event over all schedules, each none where the
/// event is free on that side.
///
/// Refused by 3, 4, 5, 9 and 14. A refusal leaves the loop row as it was, but for the loop of the
/// plan that 14 writes into its first places. The four rows behind the event are working rows: they
/// may hold anything afterwards.
pub fn spread<K: Mark>(
    stages: usize,
    table: &[Place<K>],
    event: usize,
    totals: &mut [Option<K>],
    next: &mut [Option<K>],
    turned: &mut [Option<Turned<K>>],
    turned_next: &mut [Option<Turned<K>>],
    loop_row: &mut [Step],
) -> Result<(Option<K>, Option<K>), PlanFault>
    ensures { SpreadEnds K.Mark stages table.now event
        (length totals.old ∷ length next.old ∷ length turned.old ∷ length turned_next.old
        ∷ length loop_row.old ∷ [])
        loop_row.old loop_row.new result }
{
    let rows = [
        totals.len(),
        next.len(),
        turned.len(),
        turned_next.len(),
        loop_row.len(),
    ];
    let table = read_table::<K>(stages, table, &rows)?;
    check_event(stages, event)?;
    let mut work = Work { totals, next };
    least_times(&table, &mut work, loop_row)?;
    let mut turned_work = Work {
        totals: turned,
        next: turned_next,
    };
    settle_greatest(&table, &mut turned_work);
    Ok((time_at(totals, event), inner_of(time_at(turned, event))))
}
