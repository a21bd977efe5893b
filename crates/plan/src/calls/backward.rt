// backward: from due times back to the greatest starts.
ghost use Rattle.std.specs.Prelude.{◌≡◌, ◌<◌, OnOk};
ghost use Rattle.std.specs.Option.{option_map};
ghost use Rattle.algebra.specs.Answers.{IsResidual};
ghost use Rattle.algebra.specs.Matrices.{lag_matrix, starts_of, finishes_of};
ghost use Rattle.plan.specs.Calls.{BackwardEnds, lags_in};
ghost use Rattle.plan.specs.Passing.{lags_of};
ghost use Rattle.schedules.specs.Folds.{start_of};
ghost use Rattle.schedules.specs.Tables.{times};

use crate::checks::{read_table, read_totals};
use crate::fault::PlanFault;
use crate::given::GivenTotals;
use crate::stages::{departure, fold_stages, write_stages};
use crate::table::{Place, Table};
use marks::kind::Mark;
use marks::totals::earlier_of;

// The earliest of due time minus lag over the start-to-finish lags from an event.
fn earliest_departure<K: Mark>(
    table: &Table<'_, K>,
    due: &GivenTotals<'_, K, 2, 2>,
    from: usize,
) -> Option<K>
    requires { (due.now.count ≡ table.now.stages) × (from < table.now.count) }
    ensures { option_map K.Mark.row result
        ≡ start_of table.now.stages (lags_of table.now) (times K.Mark.row due.now.totals.now) from }
{
    fold_stages(
        table.stages,
        earlier_of,
        |k| departure(table, due.totals, 2 * k + 2, from),
    )
}

/// Writes the greatest starts whose finishes are not after the due times, over the start-to-finish
/// lags; a start with none is free, and none is written. So it is at the opening and at each
/// finish. The places of `starts` past the events stay.
///
/// Refused by 3, 4, 5 and 12, with `starts` as it was; the row of due times is read at every
/// finish.
pub fn backward<K: Mark>(
    stages: usize,
    table: &[Place<K>],
    due: &[Option<K>],
    starts: &mut [Option<K>],
) -> Result<(), PlanFault>
    ensures ends { BackwardEnds K.Mark stages table.now due.now starts.old starts.new result }
    ensures algebra { OnOk result
        (IsResidual K.Mark.WIDTH stages (lag_matrix (lags_in K.Mark stages table.now))
        (finishes_of (times K.Mark.row due.now)) (starts_of (times K.Mark.row starts.new))) }
{
    let table = read_table::<K>(stages, table, &[due.len(), starts.len()])?;
    let due = read_totals(due, stages)?;
    write_stages(
        stages,
        starts,
        |k| (earliest_departure(&table, &due, 2 * k + 1), None),
    );
    Ok(())
}
