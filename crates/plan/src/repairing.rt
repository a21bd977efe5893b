// Lags put one by one into a plan whose times are known.
ghost use Rattle.std.specs.Prelude.{◌≡◌, ◌<◌, ◌≤◌, length, replicate, None, MatchOption, slice_index_or};
ghost use Rattle.plan.specs.Checks.{Laid};
ghost use Rattle.plan.specs.Repairing.{LeastFromZero, PutEnds, meant, plan_lags};
ghost use Rattle.rows.specs.Limits.{lag_limit};
ghost use Rattle.schedules.specs.Plans.{AllKnown, KeepsLags};
ghost use Rattle.schedules.specs.Rounds.{total_of};
ghost use Rattle.schedules.specs.Tables.{events, place, places};
ghost use Rattle.solver.specs.Settled.{LeavesRoom};
ghost use Rattle.solver.specs.Words.{Stands};
ghost use Rattle.solver.specs.Working.{HasRoom, SameRows};

use crate::table::{Place, Table, lag_at, put_lag};
use crate::views::Forward;
use marks::kind::Mark;
use rows::MOST_EVENTS;
use solver::network::{Standing, note_lag};
use solver::repair::repair;
use solver::work::{Step, Work, fill_totals};

/// Puts a lag to event `to` from event `from`, in stead of what stood there, into a plan of which
/// `work.totals` has times that keep every lag, and repairs these: `work.totals` then has the least
/// times that keep the new lag too and are nowhere before the former. `standing` has the lags that
/// stand, as `Network::stand` makes it of the table, and stays so. Answers nothing then, and leaves
/// `loop_row` as it was.
///
/// Where the plan as it would be then has no times, table and `standing` are as they were. The
/// answer is the length of a loop of that plan, which is in the first places of `loop_row`, its
/// lowest event first. The times are lost: what is left in `work.totals` does not matter, so that
/// one goes on from other times. What is left in `work.next` never matters.
pub fn put_repaired<K: Mark>(
    stages: usize,
    table: &mut [Place<K>],
    standing: &mut Standing,
    to: usize,
    from: usize,
    lag: K::Lag,
    work: &mut Work<'_, K>,
    loop_row: &mut [Step],
) -> Option<usize>
    requires laid { Laid stages (length table.old) (events stages) }
    requires to { to < events stages }
    requires from { from < events stages }
    requires standing { Stands (events stages) (plan_lags K.Mark stages table.old) standing.old }
    requires known { AllKnown (events stages) (meant K.Mark work.old.totals.now) }
    requires keeps { KeepsLags K.Mark.WIDTH (events stages) (plan_lags K.Mark stages table.old)
        (λ v. total_of K.Mark.WIDTH (meant K.Mark work.old.totals.now v)) }
    requires leaves { LeavesRoom lag_limit (events stages) (meant K.Mark work.old.totals.now) }
    requires room { HasRoom (events stages) work.old }
    requires places { events stages ≤ length loop_row.old }
    ensures ends { PutEnds K.Mark stages to from lag table.old table.new standing.old standing.new
        work.old.totals.now work.new.totals.now loop_row.old loop_row.new result }
    ensures rows { SameRows work.new work.old }
{
    let count = 2 * stages + 1;
    let stood = lag_at::<K>(count, table, to, from);
    let stood_from = standing[from];
    put_lag::<K>(count, table, to, from, Some(lag));
    note_lag(standing, to, from);
    let found = repair(
        &Forward {
            table: Table::<K> {
                stages,
                count,
                lags: table,
            },
        },
        standing,
        work,
        to,
        from,
        loop_row,
    );
    let Some(len) = found else {
        return None;
    };
    put_lag::<K>(count, table, to, from, stood);
    standing[from] = stood_from;
    Some(len)
}

/// Empties the table and puts every event at zero, for [`put_from_zero`] to go on from; answers the
/// words of a table without lags. What is left in `totals` past the events does not matter.
pub fn open_at_zero<K: Mark>(
    stages: usize,
    table: &mut [Place<K>],
    totals: &mut [Option<K>],
) -> Standing
    requires laid { Laid stages (length table.old) (events stages) }
    requires room { events stages ≤ length totals.old }
    ensures opened { LeastFromZero K.Mark stages table.new result totals.new }
    ensures emptied { table.new ≡ replicate (places stages) None }
    ensures places { length totals.new ≡ length totals.old }
{
    table.fill(None);
    fill_totals(2 * stages + 1, totals, Some(K::zero()));
    [0; MOST_EVENTS]
}

/// [`put_repaired`] at a place where nothing stands, of a plan whose times are the least from zero
/// on: where the lag closes no loop, they are so again, and there is room for the next.
pub fn put_from_zero<K: Mark>(
    stages: usize,
    table: &mut [Place<K>],
    standing: &mut Standing,
    to: usize,
    from: usize,
    lag: K::Lag,
    work: &mut Work<'_, K>,
    loop_row: &mut [Step],
) -> Option<usize>
    requires laid { Laid stages (length table.old) (events stages) }
    requires to { to < events stages }
    requires from { from < events stages }
    requires empty { slice_index_or table.old (place (events stages) to from) None ≡ None }
    requires least { LeastFromZero K.Mark stages table.old standing.old work.old.totals.now }
    requires room { HasRoom (events stages) work.old }
    requires places { events stages ≤ length loop_row.old }
    ensures ends { PutEnds K.Mark stages to from lag table.old table.new standing.old standing.new
        work.old.totals.now work.new.totals.now loop_row.old loop_row.new result }
    ensures least { MatchOption result
        (LeastFromZero K.Mark stages table.new standing.new work.new.totals.now) (λ _. Unit {0}) }
    ensures leaves { MatchOption result
        (LeavesRoom lag_limit (events stages) (meant K.Mark work.new.totals.now)) (λ _. Unit {0}) }
    ensures rows { SameRows work.new work.old }
{
    put_repaired(stages, table, standing, to, from, lag, work, loop_row)
}
