// What every kind of mark offers. Everything is promised of meanings (rows), never of stored bits.
ghost use Rattle.std.specs.Prelude.{◌≡◌, ℕ, ◌≤◌, length};
ghost use Rattle.rows.specs.Rows.{Row, zeros, plus, minus, Within};
ghost use Rattle.rows.specs.Limits.{lag_limit, most_parts, total_limit};
ghost use Rattle.marks.specs.Meaning.{LagMade, TotalMade, TotalOf, Ranked, part_at};

use crate::fault::MarkFault;
use std::cmp::Ordering;

/// A kind of mark. A mark is a lag (a time between two events) or a total (the time of one).
/// Each means a row: a list of `WIDTH` whole numbers, its parts, within the limit of lags or of
/// totals. A total is a `Self`, and each kind names its own sort of lag.
pub trait Mark: Copy {
    /// The lags of the kind.
    type Lag: Copy;

    /// The number of parts of every row of the kind, 1 to 8.
    const WIDTH: usize;

    // the constant, for clauses
    ghost WIDTH: { ℕ };

    // what a total means
    ghost row: { Self → Row };

    // what a lag means
    ghost amount: { Self.Lag → Row };

    /// The lag with these parts. `NoLag` exactly when they are not `WIDTH` numbers or one is beyond
    /// the limit of lags.
    fn make_lag(parts: &[i64]) -> Result<Self::Lag, MarkFault>
        ensures { LagMade WIDTH amount parts.now result };

    /// The total with these parts. Nothing exactly when they are not `WIDTH` numbers or one is
    /// beyond the limit of totals.
    fn make_total(parts: &[i64]) -> Option<Self>
        ensures { TotalMade WIDTH row parts.now result };

    /// The total whose parts are all 0.
    fn zero() -> Self
        ensures { row result ≡ zeros WIDTH };

    /// The total plus the lag, part by part. Nothing exactly when a part of the sum is beyond the
    /// limit of totals.
    fn add(self, lag: Self::Lag) -> Option<Self>
        ensures { TotalOf row (plus (row self) (amount lag)) result };

    /// The total minus the lag, part by part. Nothing exactly when a part of the difference is
    /// beyond the limit of totals.
    fn take(self, lag: Self::Lag) -> Option<Self>
        ensures { TotalOf row (minus (row self) (amount lag)) result };

    /// `Less`, `Equal` or `Greater`: the total is before the other, means the same, or is after it.
    /// The first part that differs decides.
    fn order(self, other: Self) -> Ordering
        ensures { Ranked (row self) (row other) result };

    /// The part of the total with this index, counted from 0. Nothing from `WIDTH` on.
    fn part(self, index: usize) -> Option<i64>
        ensures { result ≡ part_at (row self) index };

    /// The part of the lag with this index, counted from 0. Nothing from `WIDTH` on.
    fn lag_part(lag: Self::Lag, index: usize) -> Option<i64>
        ensures { result ≡ part_at (amount lag) index };

    ghost wide_low: { 1 ≤ WIDTH };

    ghost wide_high: { WIDTH ≤ most_parts };

    ghost row_wide: { (total : Self) → length (row total) ≡ WIDTH };

    ghost row_limit: { (total : Self) → Within total_limit (row total) };

    ghost amount_wide: { (lag : Self.Lag) → length (amount lag) ≡ WIDTH };

    ghost amount_limit: { (lag : Self.Lag) → Within lag_limit (amount lag) };
}
