// Turned marks, over any kind.
ghost use Rattle.std.specs.Prelude.{◌≡◌, ◌≤◌, length, take};
ghost use Rattle.std.proofs.Common.{◌∙◌, rules};
ghost use Rattle.rows.specs.Rows.{negated};
ghost use Rattle.marks.specs.Opposites.{all_opposite};
ghost use Rattle.rows.proofs.Sums.{length-negated, Within-negated};
ghost use Rattle.rows.specs.Limits.{most_parts, total_limit};

use crate::fault::MarkFault;
use crate::kind::Mark;
use rows::MOST_PARTS;
use std::cmp::Ordering;

/// A turned total: it means what the inner total means, with the sign of every part changed. Its
/// lags are those of the inner kind, and mean the same.
#[derive(Clone, Copy, Debug)]
pub struct Turned<M> {
    /// The total that is turned.
    pub inner: M,
}

// The numbers with every sign changed, and noughts behind them: eight places, since a library has
// no heap.
// The least of all numbers becomes the greatest: both are far beyond the limits.
fn opposites(parts: &[i64]) -> [i64; MOST_PARTS]
    requires { length parts.now ≤ most_parts }
    ensures { take (length parts.now) result ≡ all_opposite parts.now }
{
    let mut turned = [0; MOST_PARTS];
    // by the place: over the two zipped, what the function promises was not proved
    for (i, part) in parts.iter().enumerate() {
        turned[i] = part.saturating_neg();
    }
    turned
}

impl<M: Mark> Mark for Turned<M> {
    type Lag = M::Lag;

    const WIDTH: usize = M::WIDTH;

    ghost WIDTH = { M.Mark.WIDTH };

    ghost row = { λ total. negated (M.Mark.row total.inner) };

    ghost amount = { λ lag. M.Mark.amount lag };

    ghost wide_low = { Prim.search rules };

    ghost wide_high = { Prim.search rules };

    ghost row_wide = { λ total. length-negated (M.Mark.row total.inner)
        ∙ M.Mark.row_wide total.inner };

    ghost row_limit = { λ total. Within-negated total_limit
        (M.Mark.row total.inner) (M.Mark.row_limit total.inner) };

    ghost amount_wide = { Prim.search rules };

    ghost amount_limit = { Prim.search rules };

    fn make_lag(parts: &[i64]) -> Result<M::Lag, MarkFault> {
        M::make_lag(parts)
    }

    fn make_total(parts: &[i64]) -> Option<Turned<M>> {
        let count = parts.len();
        if count > MOST_PARTS {
            return None;
        }
        let turned = opposites(parts);
        let inner = M::make_total(&turned[..count])?;
        Some(Turned { inner })
    }

    #[tactic(auto, using(crate::proofs::Turning::turning))]
    fn zero() -> Turned<M> {
        Turned { inner: M::zero() }
    }

    fn add(self, lag: M::Lag) -> Option<Turned<M>> {
        self.inner.take(lag).map(|inner| Turned { inner })
    }

    fn take(self, lag: M::Lag) -> Option<Turned<M>> {
        self.inner.add(lag).map(|inner| Turned { inner })
    }

    // inlined for the sake of the inner order
    #[inline(always)]
    #[tactic(auto, using(crate::proofs::Turning::turning))]
    fn order(self, other: Turned<M>) -> Ordering {
        other.inner.order(self.inner)
    }

    fn part(self, index: usize) -> Option<i64> {
        let number = self.inner.part(index)?;
        Some(-number)
    }

    fn lag_part(lag: M::Lag, index: usize) -> Option<i64> {
        M::lag_part(lag, index)
    }
}
