// drop: a lag taken out.
ghost use Rattle.plan.specs.Calls.{DropEnds};

use crate::checks::{check_event, check_head};
use crate::fault::PlanFault;
use crate::table::{Place, put_lag};
use marks::kind::Mark;

/// Empties the place of the lag to an event from another, also an empty one.
///
/// Refused by 3, 4 and 9, with the table as it was.
pub fn drop<K: Mark>(
    stages: usize,
    table: &mut [Place<K>],
    to: usize,
    from: usize,
) -> Result<(), PlanFault>
    ensures { DropEnds stages to from table.old table.new result }
{
    let count = check_head(stages, table.len(), &[])?;
    check_event(stages, to.max(from))?;
    put_lag::<K>(count, table, to, from, None);
    Ok(())
}
