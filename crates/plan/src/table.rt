// Where lags lie: the counts of places, and the place of a pair of events.
ghost use Rattle.std.specs.Prelude.{
  ◌≡◌,
  ◌*◌,
  ◌<◌,
  ◌≤◌,
  ⊤,
  if◌then◌else◌,
  length,
  Some,
  None,
  slice_index_or,
  slice_set,
};
ghost use Rattle.rows.specs.Limits.{most_events, most_stages};
ghost use Rattle.plan.specs.Checks.{stages_missed};
ghost use Rattle.schedules.specs.Tables.{events, places, place};

use marks::kind::Mark;
use rows::MOST_STAGES;
use std::alloc::AllocError;

/// A place of a table: the lag that stands there, or nothing.
pub type Place<K> = Option<<K as Mark>::Lag>;

// The places of the table for 1, 2, .. stages, up to the most.
const PLACES: [usize; MOST_STAGES] = [
    9, 25, 49, 81, 121, 169, 225, 289, 361, 441, 529, 625, 729, 841, 961, 1089, 1225, 1369, 1521,
    1681, 1849, 2025, 2209, 2401, 2601, 2809, 3025, 3249, 3481, 3721, 3969,
];

/// How many places the table of so many stages has: the square of its number of events. Nothing for
/// 0 stages, and for more than [`MOST_STAGES`].
pub fn count_places(stages: usize) -> Option<usize>
    ensures { result ≡ (if stages_missed most_stages stages then None else Some (places stages)) }
{
    if stages == 0 || stages > MOST_STAGES {
        return None;
    }
    Some(PLACES[stages - 1])
}

// The place of the lag to an event from another, of so many events.
fn place_of(count: usize, to: usize, from: usize) -> usize
    ensures { count ≤ most_events → to < count → from < count → result ≡ place count to from }
{
    to.wrapping_mul(count).wrapping_add(from)
}

// A table with the number of its events and stages. An event is a number below `count`, asked for
// where it is used: a type for it would carry the table along.
#[derive(Drop)]
pub(crate) struct Table<'a, K: Mark> {
    pub(crate) stages: usize,
    pub(crate) count: usize,
    pub(crate) lags: &'a [Place<K>],
    ghost laid: { count ≡ events stages },
    ghost some: { 1 ≤ count },
    ghost few: { count ≤ most_events },
    ghost full: { length lags.now ≡ count * count },
}

// By hand, since a copy is not derived over ghost fields.
impl<'a, K: Mark> Clone for Table<'a, K> {
    ghost is_clone = { λ table copy. copy ≡ table };

    ghost is_infallible = { λ _. ⊤ };

    fn clone(&self) -> Result<Self, AllocError> {
        Ok(*self)
    }
}

impl<'a, K: Mark> Copy for Table<'a, K> {}

impl<'a, K: Mark> Table<'a, K> {
    // The lag to an event from another, both of the table: its place needs no test.
    pub(crate) fn lag(&self, to: usize, from: usize) -> Option<K::Lag>
        requires to { to < self.now.count }
        requires from { from < self.now.count }
        ensures { result ≡ slice_index_or self.now.lags.now (place self.now.count to from) None }
    {
        self.lags[to * self.count + from]
    }
}

// What lies at the place of a pair. The pair stays two numbers, as the calls have it.
pub(crate) fn lag_at<K: Mark>(
    count: usize,
    table: &[Place<K>],
    to: usize,
    from: usize,
) -> Option<K::Lag>
    ensures { count ≤ most_events → to < count → from < count
        → result ≡ slice_index_or table.now (place count to from) None }
{
    *table.get(place_of(count, to, from))?
}

// Puts a lag, or none, at the place of a pair. With the count beside the table, since a `Table`
// only reads; by the place, since through `get_mut` it stays open what the table holds afterwards.
pub(crate) fn put_lag<K: Mark>(
    count: usize,
    table: &mut [Place<K>],
    to: usize,
    from: usize,
    lag: Option<K::Lag>,
)
    ensures { count ≤ most_events → to < count → from < count
        → table.new ≡ slice_set table.old (place count to from) lag }
{
    let at = place_of(count, to, from);
    if at < table.len() {
        table[at] = lag;
    }
}

// The total of an event; nothing past the end of the row.
pub(crate) fn time_at<K: Mark>(totals: &[Option<K>], event: usize) -> Option<K>
    ensures { result ≡ slice_index_or totals.now event None }
{
    *totals.get(event)?
}
