// finish: from starts to finishes.
ghost use Rattle.std.specs.Prelude.{OnOk};
ghost use Rattle.algebra.specs.Answers.{IsProduct};
ghost use Rattle.algebra.specs.Matrices.{lag_matrix, starts_of, finishes_of};
ghost use Rattle.plan.specs.Calls.{FinishEnds, lags_in};
ghost use Rattle.schedules.specs.Tables.{times};

use crate::checks::{read_table, read_totals};
use crate::fault::PlanFault;
use crate::stages::{latest_arrival, write_stages};
use crate::table::Place;
use marks::kind::Mark;

/// Writes each stage's finish: the latest of start plus lag over the start-to-finish lags into it,
/// or none if it has none; and none at the opening and at each start. The places of `finishes` past
/// the events stay.
///
/// Refused by 3, 4, 5 and 12, with `finishes` as it was; the row of starts is read at every start.
pub fn finish<K: Mark>(
    stages: usize,
    table: &[Place<K>],
    starts: &[Option<K>],
    finishes: &mut [Option<K>],
) -> Result<(), PlanFault>
    ensures ends { FinishEnds K.Mark stages table.now starts.now finishes.old finishes.new result }
    ensures algebra { OnOk result
        (IsProduct stages (lag_matrix (lags_in K.Mark stages table.now))
        (starts_of (times K.Mark.row starts.now)) (finishes_of (times K.Mark.row finishes.new))) }
{
    let table = read_table::<K>(stages, table, &[starts.len(), finishes.len()])?;
    let given = read_totals::<K, 1, 2>(starts, stages)?;
    write_stages(
        stages,
        finishes,
        |k| (None, latest_arrival(&table, given.totals, 2 * k + 2)),
    );
    Ok(())
}
