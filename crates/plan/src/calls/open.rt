// open: an empty plan.
ghost use Rattle.plan.specs.Calls.{OpenEnds};

use crate::checks::check_head;
use crate::fault::PlanFault;
use crate::table::Place;
use marks::kind::Mark;

/// Empties every place of the table of a plan of so many stages.
///
/// Refused by 3 and 4, with the table as it was.
pub fn open<K: Mark>(stages: usize, table: &mut [Place<K>]) -> Result<(), PlanFault>
    ensures { OpenEnds stages table.old table.new result }
{
    check_head(stages, table.len(), &[])?;
    table.fill(None);
    Ok(())
}
