// latest: the greatest time of every event.
ghost use Rattle.std.specs.Prelude.{length, [], ◌∷◌, OnOk};
ghost use Rattle.algebra.specs.Answers.{IsOpeningColumn};
ghost use Rattle.plan.specs.Calls.{LatestEnds, lags_in};
ghost use Rattle.plan.specs.Mirror.{LatestIsEarliestReversed};
ghost use Rattle.rows.specs.Algebra.{transpose, conjugate};
ghost use Rattle.schedules.specs.Tables.{events, times};

use crate::checks::read_table;
use crate::fault::PlanFault;
use crate::solving::greatest_times;
use crate::table::Place;
use crate::turning::turn_back;
use marks::kind::Mark;
use marks::turned::Turned;
use solver::work::{Step, Work};

/// Writes for each event the greatest time over all schedules, or none where the event is free:
/// schedules have it after every row. The places of the answer past the events stay.
///
/// Refused by 3, 4, 5 and 14. A refusal leaves answer and loop row as they were, but for the loop
/// of the plan that 14 writes into the first places of the loop row. The four rows behind the
/// answer are working rows: they may hold anything afterwards.
// The least times of the reversed plan over turned marks. One function of it and `earliest` would
// take all rows and answer from totals of two kinds.
pub fn latest<K: Mark>(
    stages: usize,
    table: &[Place<K>],
    answer: &mut [Option<K>],
    totals: &mut [Option<K>],
    next: &mut [Option<K>],
    turned: &mut [Option<Turned<K>>],
    turned_next: &mut [Option<Turned<K>>],
    loop_row: &mut [Step],
) -> Result<(), PlanFault>
    ensures ends { LatestEnds K.Mark stages table.now answer.old answer.new
        (length answer.old ∷ length totals.old ∷ length next.old
        ∷ length turned.old ∷ length turned_next.old ∷ length loop_row.old ∷ [])
        loop_row.old loop_row.new result }
    ensures mirror { OnOk result
        (LatestIsEarliestReversed ⟦<Turned<K> as Mark>⟧ stages table.now
        answer.old answer.new) }
    ensures algebra { OnOk result
        (IsOpeningColumn K.Mark.WIDTH (events stages) (transpose (lags_in K.Mark stages table.now))
        (conjugate (times K.Mark.row answer.new))) }
{
    let rows = [
        answer.len(),
        totals.len(),
        next.len(),
        turned.len(),
        turned_next.len(),
        loop_row.len(),
    ];
    let table = read_table::<K>(stages, table, &rows)?;
    let mut work = Work {
        totals: turned,
        next: turned_next,
    };
    greatest_times(&table, &mut work, loop_row)?;
    turn_back(table.count, turned, answer);
    Ok(())
}
