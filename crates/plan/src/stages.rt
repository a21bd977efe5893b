// Sums and differences over one lag, what is chosen over the stages, and the writing of an answer
// row.
ghost use Rattle.std.specs.Prelude.{◌≡◌, ◌+◌, ◌*◌, ◌<◌, ◌≤◌, length, slice_set};
ghost use Rattle.std.specs.Option.{option_map};
ghost use Rattle.rows.specs.Limits.{most_stages};
ghost use Rattle.rows.specs.MaxPlus.{added, taken};
ghost use Rattle.plan.specs.Checks.{Given};
ghost use Rattle.plan.specs.Filling.{Chosen, Staged};
ghost use Rattle.plan.specs.Passing.{lags_of};
ghost use Rattle.schedules.specs.Folds.{NearGiven, StartsInside, finish_of};
ghost use Rattle.schedules.specs.Tables.{events, times};

use crate::table::{Table, time_at};
use marks::kind::Mark;
use marks::totals::{difference_of, later_of, sum_of};

// The time of `from` plus the lag to `to` from it.
fn arrival<K: Mark>(table: &Table<'_, K>, totals: &[Option<K>], to: usize, from: usize) -> Option<K>
    requires { (to < table.now.count) × (from < table.now.count)
        × NearGiven (times K.Mark.row totals.now from) }
    ensures { option_map K.Mark.row result
        ≡ added (times K.Mark.row totals.now from) (lags_of table.now to from) }
{
    sum_of(time_at(totals, from), table.lag(to, from))
}

// The time of `to` minus the lag to it from `from`. An operation apart from `arrival`: one function
// would take it as a closure, and be longer.
pub(crate) fn departure<K: Mark>(
    table: &Table<'_, K>,
    totals: &[Option<K>],
    to: usize,
    from: usize,
) -> Option<K>
    requires { (to < table.now.count) × (from < table.now.count)
        × Given (times K.Mark.row totals.now to) }
    ensures { option_map K.Mark.row result
        ≡ taken (times K.Mark.row totals.now to) (lags_of table.now to from) }
{
    difference_of(time_at(totals, to), table.lag(to, from))
}

// What the closure gives for every stage, one after the other, chosen from. A loop, whose invariant
// is the contract itself: `map` and `fold` leave `returns` open, as two calls of a closure agree
// only in what their totals mean.
pub(crate) fn fold_stages<
    K: Mark,
    C: Fn(Option<K>, Option<K>) -> Option<K>,
    F: Fn(usize) -> Option<K>,
>(stages: usize, choose: C, time_of: F) -> Option<K>
    requires { (C.IsAlwaysCallable choose) × ((k : _) → k < stages → F.pre time_of k) }
    ensures { Chosen K.Mark.row (C.post choose) (F.post time_of) stages stages result }
{
    let mut chosen = None;
    for k in 0..stages {
        chosen = choose(chosen, time_of(k));
    }
    chosen
}

// The latest of start plus lag over the start-to-finish lags into an event.
pub(crate) fn latest_arrival<K: Mark>(
    table: &Table<'_, K>,
    starts: &[Option<K>],
    to: usize,
) -> Option<K>
    requires { (to < table.now.count)
        × StartsInside table.now.stages (times K.Mark.row starts.now) }
    ensures { option_map K.Mark.row result
        ≡ finish_of table.now.stages (lags_of table.now) (times K.Mark.row starts.now) to }
{
    fold_stages(
        table.stages,
        later_of,
        |k| arrival(table, starts, to, 2 * k + 1),
    )
}

// Writes the start and the finish of stage k + 1.
fn put_stage<K: Mark>(totals: &mut [Option<K>], k: usize, start: Option<K>, finish: Option<K>)
    requires { 2 * k + 2 < length totals.old }
    ensures { totals.new ≡ slice_set (slice_set totals.old (2 * k + 1) start) (2 * k + 2) finish }
{
    totals[2 * k + 1] = start;
    totals[2 * k + 2] = finish;
}

// Writes an answer row: nothing at the opening, and what the closure gives as the start and the
// finish of each stage. By index, since pairs of places taken from `row[1..]` have to be counted,
// too.
pub(crate) fn write_stages<K: Mark, F: Fn(usize) -> (Option<K>, Option<K>)>(
    stages: usize,
    row: &mut [Option<K>],
    times_of: F,
)
    requires { (stages ≤ most_stages) × (events stages ≤ length row.old)
        × ((k : _) → k < stages → F.pre times_of k) }
    ensures { Staged (F.post times_of) stages row.old row.new }
{
    row[0] = None;
    for stage in 0..stages {
        let (start, finish) = times_of(stage);
        put_stage(row, stage, start, finish);
    }
}
