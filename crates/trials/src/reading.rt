// Lags read one by one into an empty plan, its times repaired after each, as a reader of many lags
// does it.
ghost use Rattle.std.specs.Prelude.{
  ◌≡◌,
  ◌<◌,
  ◌≤◌,
  ◌*◌,
  ◌↔◌,
  length,
  None,
  slice_index_or,
  IsTrue,
};
ghost use Rattle.plan.specs.Checks.{Laid};
ghost use Rattle.schedules.specs.Tables.{events, place};

use crate::shared::{Lag, to_lag};
use marks::kind::Mark;
use plan::Place;
use plan::repairing::{open_at_zero, put_from_zero};
use rows::MOST_STAGES;
use solver::work::{Step, Work};

// Why not all lags were read.
#[derive(Clone, Copy, PartialEq, Eq, Debug)]
pub(crate) enum Unread {
    // one closes a loop of so many events
    Loop(usize),
    // a row has the wrong length, or a lag is none, of no event, or the second one of its pair
    Unfit,
}

// Whether a plan of so many stages has so many places, and no more events than each row has.
fn fits(stages: usize, places: usize, totals: usize, next: usize, steps: usize) -> bool
    ensures { IsTrue result → Laid stages places (events stages) × (events stages ≤ totals)
        × (events stages ≤ next) × (events stages ≤ steps) }
{
    if stages == 0 || stages > MOST_STAGES {
        return false;
    }
    let count = 2 * stages + 1;
    places == count * count && totals >= count && next >= count && steps >= count
}

// Whether nothing stands at the place of a pair.
fn is_free<L: Copy>(count: usize, table: &[Option<L>], to: usize, from: usize) -> bool
    requires count { count ≤ 63 }
    requires to { to < count }
    requires from { from < count }
    requires table { length table.now ≡ count * count }
    ensures { IsTrue result ↔ (slice_index_or table.now (place count to from) None ≡ None) }
{
    table[to * count + from].is_none()
}

// Empties the table and puts the lags into it, the times repaired after each.
pub(crate) fn read_lags<K: Mark>(
    stages: usize,
    table: &mut [Place<K>],
    lags: &[Lag],
    work: &mut Work<'_, K>,
    loop_row: &mut [Step],
) -> Result<(), Unread> {
    if !fits(
        stages,
        table.len(),
        work.totals.len(),
        work.next.len(),
        loop_row.len(),
    ) {
        return Err(Unread::Unfit);
    }
    let count = 2 * stages + 1;
    let totals = &mut *work.totals;
    let mut standing = open_at_zero::<K>(stages, table, totals);
    for (to, from, number) in lags {
        let lag = to_lag::<K>(*number).map_err(|_| Unread::Unfit)?;
        if *to >= count || *from >= count || !is_free(count, table, *to, *from) {
            return Err(Unread::Unfit);
        }
        let found = put_from_zero::<K>(
            stages,
            table,
            &mut standing,
            *to,
            *from,
            lag,
            work,
            loop_row,
        );
        if let Some(len) = found {
            return Err(Unread::Loop(len));
        }
    }
    Ok(())
}
