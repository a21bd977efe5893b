// What the closest starts are found from.
ghost use Rattle.std.specs.Prelude.{◌≡◌};
ghost use Rattle.plan.specs.Passing.{lags_of};
ghost use Rattle.schedules.specs.Nearing.{Ready};
ghost use Rattle.schedules.specs.Tables.{times};

use crate::given::GivenTotals;
use crate::table::Table;
use marks::kind::Mark;

// A plan of a kind of one part with its due times and the greatest starts in time.
#[derive(Drop)]
pub(crate) struct Timely<'a, 'b, 'c, K: Mark> {
    pub(crate) table: Table<'a, K>,
    pub(crate) due: GivenTotals<'b, K, 2, 2>,
    pub(crate) starts: &'c [Option<K>],
    ghost one: { K.Mark.WIDTH ≡ 1 },
    ghost laid: { due.count ≡ table.stages },
    ghost ready: { Ready table.stages (lags_of table) (times K.Mark.row due.totals.now)
        (times K.Mark.row starts.now) },
}
