// Minutes: rows of one part.
ghost use Rattle.marks.specs.Meaning.{clamped_row};
ghost use Rattle.std.specs.Prelude.{[], ◌∷◌};
ghost use Rattle.rows.specs.Limits.{lag_limit, total_limit};
ghost use Rattle.std.proofs.Common.{rules};

use crate::fault::MarkFault;
use crate::kind::Mark;
use crate::numbers::{Limit, add_parts, order_parts, take_parts};
use std::cmp::Ordering;

/// A time in whole minutes. Its row has one part, the minutes; a stored number beyond the limit of
/// totals means the limit.
// Not a struct of any const width, shared with wider kinds: it would be a kind of width 0 and of 9,
// too, and a kind has 1 to 8 parts.
#[derive(Clone, Copy, Debug)]
pub struct Minutes {
    minute: i64,
}

/// A lag in whole minutes. Its row has one part; a stored number beyond the limit of lags means the
/// limit.
// A type of its own, so that no lag is taken for a total.
#[derive(Clone, Copy, Debug)]
pub struct MinutesLag {
    minute: i64,
}

impl Mark for Minutes {
    type Lag = MinutesLag;

    const WIDTH: usize = 1;

    ghost WIDTH = { 1 };

    ghost row = { λ total. clamped_row total_limit (total.minute ∷ []) };

    ghost amount = { λ lag. clamped_row lag_limit (lag.minute ∷ []) };

    ghost wide_low = { Prim.search rules };

    ghost wide_high = { Prim.search rules };

    ghost row_wide = { Prim.search rules };

    ghost row_limit = { Prim.search rules };

    ghost amount_wide = { Prim.search rules };

    ghost amount_limit = { Prim.search rules };

    fn make_lag(parts: &[i64]) -> Result<MinutesLag, MarkFault> {
        let [minute] = parts else {
            return Err(MarkFault::NoLag);
        };
        let minute = Limit::Lag.within(*minute).ok_or(MarkFault::NoLag)?;
        Ok(MinutesLag { minute })
    }

    fn make_total(parts: &[i64]) -> Option<Minutes> {
        let [minute] = parts else {
            return None;
        };
        let minute = Limit::Total.within(*minute)?;
        Some(Minutes { minute })
    }

    fn zero() -> Minutes {
        Minutes { minute: 0 }
    }

    fn add(self, lag: MinutesLag) -> Option<Minutes> {
        let minute = add_parts(self.minute, lag.minute)?;
        Some(Minutes { minute })
    }

    fn take(self, lag: MinutesLag) -> Option<Minutes> {
        let minute = take_parts(self.minute, lag.minute)?;
        Some(Minutes { minute })
    }

    fn order(self, other: Minutes) -> Ordering {
        order_parts(self.minute, other.minute)
    }

    fn part(self, index: usize) -> Option<i64> {
        [Limit::Total.clamp(self.minute)].get(index).copied()
    }

    fn lag_part(lag: MinutesLag, index: usize) -> Option<i64> {
        [Limit::Lag.clamp(lag.minute)].get(index).copied()
    }
}
