// check: whether a row of times keeps every lag.
ghost use Rattle.std.specs.Prelude.{◌≡◌, ◌<◌, Decides};
ghost use Rattle.plan.specs.Calls.{CheckEnds};
ghost use Rattle.plan.specs.Keeping.{Breaks, FirstBroken};
ghost use Rattle.plan.specs.Passing.{lags_of};
ghost use Rattle.schedules.specs.Tables.{times};

use crate::checks::{read_table, read_totals};
use crate::fault::PlanFault;
use crate::given::GivenTotals;
use crate::table::{Place, Table};
use marks::kind::Mark;
use marks::totals::sum_of;

// Whether the times break the lag to an event from another.
fn breaks<K: Mark>(
    table: &Table<'_, K>,
    totals: &GivenTotals<'_, K, 0, 1>,
    to: usize,
    from: usize,
) -> bool
    requires { (to < table.now.count) × (from < table.now.count)
        × (totals.now.count ≡ table.now.count) }
    ensures { Decides result
        (Breaks (lags_of table.now) (times K.Mark.row totals.now.totals.now) to from) }
{
    let Some(least) = sum_of(Some(totals.nth(from)), table.lag(to, from)) else {
        return false;
    };
    totals.nth(to).order(least).is_lt()
}

// The first broken lag in the order of the table.
fn first_broken<K: Mark>(
    table: &Table<'_, K>,
    totals: &GivenTotals<'_, K, 0, 1>,
) -> Option<(usize, usize)>
    requires { totals.now.count ≡ table.now.count }
    ensures { FirstBroken table.now.count (lags_of table.now)
        (times K.Mark.row totals.now.totals.now) result }
{
    // by events and not by places, since the pair is the answer
    'table: {
        for to in 0..table.count {
            for from in 0..table.count {
                if breaks(table, totals, to, from) {
                    break 'table Some((to, from));
                }
            }
        }
        None
    }
}

/// Answers nothing where the times keep every lag, else (to, from) of the first lag in the order of
/// the table that they break.
///
/// Refused by 3, 4, 5 and 12; the row of totals is read at every event.
pub fn check<K: Mark>(
    stages: usize,
    table: &[Place<K>],
    totals: &[Option<K>],
) -> Result<Option<(usize, usize)>, PlanFault>
    ensures { CheckEnds K.Mark stages table.now totals.now result }
{
    let table = read_table(stages, table, &[totals.len()])?;
    let totals = read_totals(totals, table.count)?;
    Ok(first_broken(&table, &totals))
}
