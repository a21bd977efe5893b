// waiting: who waits on an event, the other events that a chain of lags from it reaches. A word of
// events has bit v for event v.
ghost use Rattle.plan.specs.Calls.{WaitingEnds};

use crate::checks::{check_event, read_table};
use crate::fault::PlanFault;
use crate::table::Place;
use crate::views::Forward;
use marks::kind::Mark;
use solver::reach::reach_by;

/// Answers the other events that a chain of lags from the event reaches, bit v for event v, and how
/// many they are.
///
/// Refused by 3, 4 and 9.
pub fn waiting<K: Mark>(
    stages: usize,
    table: &[Place<K>],
    event: usize,
) -> Result<(u64, u32), PlanFault>
    ensures { WaitingEnds K.Mark stages table.now event result }
{
    let table = read_table::<K>(stages, table, &[])?;
    check_event(stages, event)?;
    let net = Forward { table };
    // a word when it is asked for: few events may wait, and all words are a walk over the table
    let reached = reach_by(&net, |from| net.stand_from(from), event);
    let others = reached & !(1 << event);
    Ok((others, others.count_ones()))
}
