// The width of what a table and a row of totals mean.
ghost use Rattle.std.specs.Prelude.{ℕ};
ghost use Rattle.schedules.specs.Tables.{lags, times};
ghost use Rattle.schedules.specs.Plans.{columns, Wide};

use crate::table::Place;
use marks::kind::Mark;

/// Every amount of a table has the kind's width.
pub fn amounts_have_the_width<K: Mark>(count: usize, table: &[Place<K>])
    ensures { (n : ℕ) → Wide K.Mark.WIDTH n (lags K.Mark.amount count table.now) }
{}

/// So has every total of a row.
pub fn totals_have_the_width<K: Mark>(totals: &[Option<K>])
    ensures { (n : ℕ) → Wide K.Mark.WIDTH n (columns (times K.Mark.row totals.now)) }
{}
