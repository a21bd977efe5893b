// Plans built lag by lag, with times that are repaired after each.
ghost use Rattle.std.specs.Prelude.{◌≡◌, ◌<◌, length, None, slice_index_or, MatchOption};
ghost use Rattle.plan.specs.Repairing.{LeastFromZero};

use crate::asking::Rows;
use crate::making::{EVENTS, STAGES};
use marks::kind::Mark;
use marks::minutes::{Minutes, MinutesLag};
use plan::PlanFault;
use plan::repairing::{open_at_zero, put_from_zero};
use solver::network::Standing;
use solver::work::Work;

// Puts the lag at an empty place, and repairs the times; the length of a loop where it closes one.
fn put_next(
    rows: &mut Rows,
    built: &mut [Option<MinutesLag>],
    standing: &mut Standing,
    place: usize,
    lag: MinutesLag,
) -> Option<usize>
    requires built { length built.old ≡ 3969 }
    requires place { place < 3969 }
    requires empty { slice_index_or built.old place None ≡ None }
    requires least { LeastFromZero ⟦<Minutes as Mark>⟧ 31 built.old standing.old rows.old.totals }
    ensures built { length built.new ≡ 3969 }
    ensures least { MatchOption result
        (LeastFromZero ⟦<Minutes as Mark>⟧ 31 built.new standing.new rows.new.totals)
        (λ _. Unit {0}) }
{
    put_from_zero::<Minutes>(
        STAGES,
        built,
        standing,
        place / EVENTS,
        place % EVENTS,
        lag,
        &mut Work {
            totals: &mut rows.totals,
            next: &mut rows.next,
        },
        &mut rows.loop_row,
    )
}

/// Builds the plan anew in `built`, lag by lag in the order of its places, from times at zero on.
/// `rows.totals` then has the least times that keep the lags and are nowhere before zero.
///
/// # Errors
///
/// `Loop`, with the length of a loop that a lag closed.
pub fn build_repaired(
    rows: &mut Rows,
    table: &[Option<MinutesLag>],
    built: &mut [Option<MinutesLag>],
) -> Result<(), PlanFault>
    requires table { length table.now ≡ 3969 }
    requires built { length built.old ≡ 3969 }
{
    let mut standing = open_at_zero::<Minutes>(STAGES, built, &mut rows.totals);
    for (place, lag) in table.iter().enumerate() {
        if let Some(lag) = *lag
            && built[place].is_none()
            && let Some(len) = put_next(rows, built, &mut standing, place, lag)
        {
            return Err(PlanFault::Loop(len));
        }
    }
    Ok(())
}
