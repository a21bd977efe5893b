// Stamps: rows of two parts, the minute and the turn within it. Neither is converted into the
// other.
ghost use Rattle.std.specs.Prelude.{◌≡◌, [], ◌∷◌, ℤ};
ghost use Rattle.rows.specs.Limits.{lag_limit, total_limit};
ghost use Rattle.marks.specs.Meaning.{clamped_row, NumberOf, TotalOf};
ghost use Rattle.std.proofs.Common.{rules};

use crate::fault::MarkFault;
use crate::kind::Mark;
use crate::numbers::{Limit, add_parts, order_parts, take_parts};
use std::cmp::Ordering;

/// A time as a minute and a turn within it. Its row has these two parts, the minute first; a stored
/// number beyond the limit of totals means the limit.
#[derive(Clone, Copy, Debug)]
pub struct Stamp {
    minute: i64,
    turn: i64,
}

/// A lag of some minutes and some turns, either of them negative too. Its row has these two parts;
/// a stored number beyond the limit of lags means the limit.
// A type of its own, so that no lag is taken for a total.
#[derive(Clone, Copy, Debug)]
pub struct StampLag {
    minute: i64,
    turn: i64,
}

impl Stamp {
    // The stamp of two parts, where both are there: sums and differences alike.
    fn of(minute: Option<i64>, turn: Option<i64>) -> Option<Stamp>
        ensures { (x y : ℤ) → NumberOf total_limit x minute → NumberOf total_limit y turn
            → TotalOf (λ stamp. clamped_row total_limit (stamp.minute ∷ stamp.turn ∷ []))
            (x ∷ y ∷ []) result }
    {
        Some(Stamp {
            minute: minute?,
            turn: turn?,
        })
    }

    fn numbers(self) -> [i64; 2]
        ensures { result ≡ clamped_row total_limit (self.minute ∷ self.turn ∷ []) }
    {
        [
            Limit::Total.clamp(self.minute),
            Limit::Total.clamp(self.turn),
        ]
    }
}

impl Mark for Stamp {
    type Lag = StampLag;

    const WIDTH: usize = 2;

    ghost WIDTH = { 2 };

    ghost row = { λ total. clamped_row total_limit (total.minute ∷ total.turn ∷ []) };

    ghost amount = { λ lag. clamped_row lag_limit (lag.minute ∷ lag.turn ∷ []) };

    ghost wide_low = { Prim.search rules };

    ghost wide_high = { Prim.search rules };

    ghost row_wide = { Prim.search rules };

    ghost row_limit = { Prim.search rules };

    ghost amount_wide = { Prim.search rules };

    ghost amount_limit = { Prim.search rules };

    fn make_lag(parts: &[i64]) -> Result<StampLag, MarkFault> {
        let [minute, turn] = parts else {
            return Err(MarkFault::NoLag);
        };
        let minute = Limit::Lag.within(*minute).ok_or(MarkFault::NoLag)?;
        let turn = Limit::Lag.within(*turn).ok_or(MarkFault::NoLag)?;
        Ok(StampLag { minute, turn })
    }

    fn make_total(parts: &[i64]) -> Option<Stamp> {
        let [minute, turn] = parts else {
            return None;
        };
        let minute = Limit::Total.within(*minute)?;
        let turn = Limit::Total.within(*turn)?;
        Some(Stamp { minute, turn })
    }

    fn zero() -> Stamp {
        Stamp { minute: 0, turn: 0 }
    }

    fn add(self, lag: StampLag) -> Option<Stamp> {
        Stamp::of(
            add_parts(self.minute, lag.minute),
            add_parts(self.turn, lag.turn),
        )
    }

    fn take(self, lag: StampLag) -> Option<Stamp> {
        Stamp::of(
            take_parts(self.minute, lag.minute),
            take_parts(self.turn, lag.turn),
        )
    }

    // A match, and inlined: by `then_with`, out of line, a check of a full plan took 1.2 times as
    // long, and of one in turned stamps 1.4 times.
    #[inline(always)]
    fn order(self, other: Stamp) -> Ordering {
        match order_parts(self.minute, other.minute) {
            Ordering::Less => Ordering::Less,
            Ordering::Equal => order_parts(self.turn, other.turn),
            Ordering::Greater => Ordering::Greater,
        }
    }

    fn part(self, index: usize) -> Option<i64> {
        self.numbers().get(index).copied()
    }

    fn lag_part(lag: StampLag, index: usize) -> Option<i64> {
        [Limit::Lag.clamp(lag.minute), Limit::Lag.clamp(lag.turn)]
            .get(index)
            .copied()
    }
}
