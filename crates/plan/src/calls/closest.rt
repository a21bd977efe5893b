// closest: from due times to the starts whose finishes miss them least.
ghost use Rattle.std.specs.Prelude.{IfOk};
ghost use Rattle.algebra.specs.Matrices.{lag_matrix, starts_of, finishes_of};
ghost use Rattle.algebra.specs.Theorems.{ClosestIsHalf};
ghost use Rattle.plan.specs.Calls.{ClosestEnds, lags_in};
ghost use Rattle.schedules.specs.Tables.{times};

use crate::calls::backward::backward;
use crate::calls::closest::served::check_served;
use crate::calls::closest::timely::Timely;
use crate::checks::read_table;
use crate::fault::PlanFault;
use crate::given::GivenTotals;
use crate::table::Place;
use marks::kind::Mark;
use marks::minutes::{Minutes, MinutesLag};
use rows::MOST_EVENTS;

mod moving;
mod served;
mod timely;

/// Writes the starts whose finishes miss the due times by the smallest largest distance, and of all
/// such starts the latest; answers the distance, in minutes. None is written at the opening and at
/// each finish, and the places of `starts` past the events stay.
///
/// Refused by 3, 4, 5, 12 and 13, with `starts` as it was; the row of due times is read at every
/// finish.
pub fn closest(
    stages: usize,
    table: &[Place<Minutes>],
    due: &[Option<Minutes>],
    starts: &mut [Option<Minutes>],
) -> Result<u64, PlanFault>
    ensures ends { ClosestEnds ⟦<Minutes as Mark>⟧ stages table.now
        due.now starts.old starts.new result }
    ensures algebra { IfOk result
        (ClosestIsHalf stages (lag_matrix (lags_in ⟦<Minutes as Mark>⟧ stages table.now))
        (finishes_of (times ⟦<Minutes as Mark>⟧.row due.now))
        (starts_of (times ⟦<Minutes as Mark>⟧.row starts.new))) }
{
    let table_read = read_table::<Minutes>(stages, table, &[due.len(), starts.len()])?;
    // of fixed size, since there is no heap
    let mut greatest = [None; MOST_EVENTS];
    backward(stages, table, due, &mut greatest)?;
    check_served(&table_read)?;
    let due = GivenTotals {
        totals: due,
        count: stages,
    };
    let timely = Timely {
        table: table_read,
        due,
        starts: &greatest,
    };
    Ok(timely.write_closest(starts))
}
