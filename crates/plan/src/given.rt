// Totals that passed the check of given totals.
ghost use Rattle.std.specs.Prelude.{◌≡◌, ◌+◌, ◌*◌, ◌<◌, false, Some};
ghost use Rattle.plan.specs.Checks.{totals_missed};
ghost use Rattle.schedules.specs.Tables.{times};

use crate::table::time_at;
use marks::kind::Mark;

// A row of totals of which so many are given: those of the events FIRST, FIRST + STEP, and so on.
// How many is said beside a table where the two meet, since it may be events or stages.
#[derive(Drop)]
pub(crate) struct GivenTotals<'a, K: Mark, const FIRST: usize, const STEP: usize> {
    pub(crate) totals: &'a [Option<K>],
    pub(crate) count: usize,
    ghost all: { totals_missed (times K.Mark.row totals.now) FIRST STEP count ≡ false },
}

impl<'a, K: Mark, const FIRST: usize, const STEP: usize> GivenTotals<'a, K, FIRST, STEP> {
    // The total of the event FIRST + STEP * k.
    pub(crate) fn nth(&self, k: usize) -> K
        requires { k < self.now.count }
        ensures { times K.Mark.row self.now.totals.now (FIRST + STEP * k)
            ≡ Some (K.Mark.row result) }
    {
        match time_at(self.totals, FIRST + STEP * k) {
            Some(total) => total,
            None => unreachable!(),
        }
    }
}
