// void: a stage without lags.
ghost use Rattle.std.specs.Prelude.{◌≡◌, ◌*◌, ◌<◌, ◌≤◌, length};
ghost use Rattle.plan.specs.Calls.{VoidEnds};
ghost use Rattle.rows.specs.Limits.{most_events};
ghost use Rattle.schedules.specs.Tables.{Cleared};

use crate::checks::{check_head, check_stage};
use crate::fault::PlanFault;
use crate::table::{Place, put_lag};
use marks::kind::Mark;

// Empties every place of a lag to or from an event, of so many events. By its pairs, two for each
// event: the whole table has the square of so many places.
fn clear_event<K: Mark>(count: usize, table: &mut [Place<K>], event: usize)
    requires count { count ≤ most_events }
    requires event { event < count }
    requires full { length table.old ≡ count * count }
    ensures { Cleared count (λ v. v ≡ event) table.old table.new }
{
    for other in 0..count {
        put_lag::<K>(count, table, event, other, None);
        put_lag::<K>(count, table, other, event, None);
    }
}

/// Empties every place of a lag to or from the start or the finish of a stage, 1 to n.
///
/// Refused by 3, 4 and 9, with the table as it was.
pub fn void<K: Mark>(stages: usize, table: &mut [Place<K>], stage: usize) -> Result<(), PlanFault>
    ensures { VoidEnds stages stage table.old table.new result }
{
    let count = check_head(stages, table.len(), &[])?;
    check_stage(stages, stage)?;
    clear_event::<K>(count, table, 2 * stage - 1);
    clear_event::<K>(count, table, 2 * stage);
    Ok(())
}
