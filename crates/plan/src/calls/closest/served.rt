// 13: whether every finish and every start has a start-to-finish lag.
ghost use Rattle.std.specs.Prelude.{◌≡◌, ◌+◌, ◌<◌, not, [], ◌∷◌};
ghost use Rattle.plan.specs.Checks.{served_check};
ghost use Rattle.plan.specs.Endings.{Ended};
ghost use Rattle.plan.specs.Passing.{lags_of};
ghost use Rattle.schedules.specs.Served.{lag_into, lag_from, served, unserved, AllServed};

use crate::fault::PlanFault;
use crate::table::Table;
use marks::kind::Mark;

// Whether a lag stands to an event from any start.
fn has_lag_into<K: Mark>(table: &Table<'_, K>, to: usize) -> bool
    requires { to < table.now.count }
    ensures { result ≡ lag_into (lags_of table.now) to table.now.stages }
{
    (0..table.stages).any(|k| table.lag(to, 2 * k + 1).is_some())
}

// Whether a lag stands from an event to any finish. Its twin stays: a line each, where one function
// of both would take a closure for the pair.
fn has_lag_from<K: Mark>(table: &Table<'_, K>, from: usize) -> bool
    requires { from < table.now.count }
    ensures { result ≡ lag_from (lags_of table.now) from table.now.stages }
{
    (0..table.stages).any(|k| table.lag(2 * k + 2, from).is_some())
}

// Whether stage k + 1 has a start-to-finish lag into its finish and one from its start.
fn is_served<K: Mark>(table: &Table<'_, K>, k: usize) -> bool
    requires { k < table.now.stages }
    ensures { result ≡ served table.now.stages (lags_of table.now) (k + 1) }
{
    has_lag_into(table, 2 * k + 2) && has_lag_from(table, 2 * k + 1)
}

// Whether every stage is served.
fn are_all_served<K: Mark>(table: &Table<'_, K>) -> bool
    ensures { result ≡ not (unserved table.now.stages (lags_of table.now)) }
{
    (0..table.stages).all(|k| is_served(table, k))
}

pub(crate) fn check_served<K: Mark>(table: &Table<'_, K>) -> Result<(), PlanFault>
    ensures { Ended (served_check table.now.stages (lags_of table.now) ∷ [])
        (λ _. AllServed table.now.stages (lags_of table.now)) (Unit {0}) result }
{
    if are_all_served(table) {
        Ok(())
    } else {
        Err(PlanFault::Unserved)
    }
}
