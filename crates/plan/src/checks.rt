// The checks that calls share, in the order of their numbers.
ghost use Rattle.std.specs.Prelude.{
  ◌≡◌,
  ◌+◌,
  ◌*◌,
  ◌^◌,
  ◌<◌,
  ◌≤◌,
  length,
  nat_lt,
  not,
  [],
  ◌∷◌,
};
ghost use Rattle.std.specs.List.{list_any};
ghost use Rattle.rows.specs.Limits.{most_stages};
ghost use Rattle.plan.specs.Checks.{
  head_checks,
  event_check,
  stage_check,
  totals_check,
  total_missed,
  totals_missed,
  AllGiven,
  HeadPassed,
};
ghost use Rattle.plan.specs.Endings.{Ended};
ghost use Rattle.plan.specs.Passing.{PlanRead};
ghost use Rattle.schedules.specs.Tables.{times};

use crate::fault::PlanFault;
use crate::given::GivenTotals;
use crate::table::{Place, Table, count_places, time_at};
use marks::kind::Mark;
use marks::totals::is_given;

// 5: whether a row has fewer places than there are events.
fn has_short(count: usize, rows: &[usize]) -> bool
    ensures { result ≡ list_any (λ len. nat_lt len count) rows.now }
{
    rows.iter().any(|len| *len < count)
}

// 3, 4 and 5, at the length of the table and of each row; the number of events.
#[tactic(auto, using(crate::proofs::Lengths::long_enough))]
pub(crate) fn check_head(stages: usize, len: usize, rows: &[usize]) -> Result<usize, PlanFault>
    ensures { Ended (head_checks most_stages stages len rows.now)
        (HeadPassed stages len rows.now) (Unit {0}) result }
{
    let count = match count_places(stages) {
        None => return Err(PlanFault::Stages),
        Some(places) if places != len => return Err(PlanFault::Table),
        Some(_) => 2 * stages + 1,
    };
    if has_short(count, rows) {
        return Err(PlanFault::Row);
    }
    Ok(count)
}

// 3, 4 and 5, of a table and at the length of each row; the table with its number of events.
pub(crate) fn read_table<'a, K: Mark>(
    stages: usize,
    table: &'a [Place<K>],
    rows: &[usize],
) -> Result<Table<'a, K>, PlanFault>
    ensures { Ended (head_checks most_stages stages (length table.now) rows.now)
        (PlanRead stages table.now rows.now) (Unit {0}) result }
{
    let count = check_head(stages, table.len(), rows)?;
    Ok(Table {
        stages,
        count,
        lags: table,
    })
}

// 9, of an event.
pub(crate) fn check_event(stages: usize, event: usize) -> Result<(), PlanFault>
    ensures { Ended (event_check stages event ∷ []) (λ _. event ≤ 2 * stages) (Unit {0}) result }
{
    if event > stages.saturating_mul(2) {
        return Err(PlanFault::Event);
    }
    Ok(())
}

// 9, of a stage.
pub(crate) fn check_stage(stages: usize, stage: usize) -> Result<(), PlanFault>
    ensures { Ended (stage_check stages stage ∷ []) (λ _. (1 ≤ stage) × (stage ≤ stages)) (Unit {0})
        result }
{
    if stage == 0 || stage > stages {
        return Err(PlanFault::Event);
    }
    Ok(())
}

// Whether a total stands there that is within the limit of given totals.
fn has_given<K: Mark>(totals: &[Option<K>], at: usize) -> bool
    ensures { result ≡ not (total_missed (times K.Mark.row totals.now at)) }
{
    time_at(totals, at).is_some_and(is_given)
}

// Whether so many totals are given: those of the events `first`, `first + step`, and so on.
fn are_given<K: Mark>(totals: &[Option<K>], first: usize, step: usize, count: usize) -> bool
    ensures { first + step * count < 2 ^ 64
        → result ≡ not (totals_missed (times K.Mark.row totals.now) first step count) }
{
    (0..count).all(|k| has_given(totals, first.wrapping_add(step.wrapping_mul(k))))
}

// 12, of so many events: `first`, `first + step`, and so on.
fn check_totals<K: Mark>(
    totals: &[Option<K>],
    first: usize,
    step: usize,
    count: usize,
) -> Result<(), PlanFault>
    ensures { first + step * count < 2 ^ 64
        → Ended (totals_check (times K.Mark.row totals.now) first step count ∷ [])
        (λ _. AllGiven (times K.Mark.row totals.now) first step count) (Unit {0}) result }
{
    if are_given(totals, first, step, count) {
        Ok(())
    } else {
        Err(PlanFault::Total)
    }
}

// 12, of the events FIRST, FIRST + STEP, and so on; the row as one whose totals there are given.
pub(crate) fn read_totals<'a, K: Mark, const FIRST: usize, const STEP: usize>(
    totals: &'a [Option<K>],
    count: usize,
) -> Result<GivenTotals<'a, K, FIRST, STEP>, PlanFault>
    requires { FIRST + STEP * count < 2 ^ 64 }
    ensures { Ended (totals_check (times K.Mark.row totals.now) FIRST STEP count ∷ [])
        (λ given. (given.totals.now ≡ totals.now) × (given.count ≡ count)) (Unit {0}) result }
{
    check_totals(totals, FIRST, STEP, count)?;
    Ok(GivenTotals { totals, count })
}
