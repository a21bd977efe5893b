// Totals that show by themselves that a plan has a schedule.
ghost use Rattle.std.specs.Prelude.{◌≡◌, ◌<◌, ◌≤◌, length, true};
ghost use Rattle.std.specs.Option.{option_map};
ghost use Rattle.plan.specs.Witness.{Kept, KeepAll, KeepInto};
ghost use Rattle.plan.specs.Passing.{lags_of};
ghost use Rattle.schedules.specs.Tables.{times};

use crate::table::Table;
use marks::kind::Mark;

// Whether a lag, where one stands, leads to an event with a time, and this is not before what the
// lag asks from the time where it begins, if there is one.
fn keeps_lag<K: Mark>(time: Option<K>, begins: Option<K>, lag: Option<K::Lag>) -> bool
    ensures { result ≡ true → Kept (option_map K.Mark.row time) (option_map K.Mark.row begins)
        (option_map K.Mark.amount lag) }
{
    let Some(lag) = lag else {
        return true;
    };
    let Some(time) = time else {
        return false;
    };
    let Some(begins) = begins else {
        return true;
    };
    match begins.add(lag) {
        // beyond the limit of totals: no matter on which side, since this is a short cut alone
        None => false,
        Some(least) => !time.order(least).is_lt(),
    }
}

// Whether every lag to an event is kept.
fn keeps_into<K: Mark>(table: &Table<'_, K>, totals: &[Option<K>], to: usize) -> bool
    requires totals { table.now.count ≤ length totals.now }
    requires to { to < table.now.count }
    ensures { result ≡ true → KeepInto table.now.count (lags_of table.now)
        (times K.Mark.row totals.now) to }
{
    let time = totals[to];
    for from in 0..table.count {
        let begins = totals[from];
        if !keeps_lag(time, begins, table.lag(to, from)) {
            return false;
        }
    }
    true
}

// Whether every lag is kept. There is a schedule then, whatever the totals are.
pub(crate) fn keep_all<K: Mark>(table: &Table<'_, K>, totals: &[Option<K>]) -> bool
    requires totals { table.now.count ≤ length totals.now }
    ensures { result ≡ true → KeepAll table.now.count (lags_of table.now)
        (times K.Mark.row totals.now) }
{
    for to in 0..table.count {
        if !keeps_into(table, totals, to) {
            return false;
        }
    }
    true
}
