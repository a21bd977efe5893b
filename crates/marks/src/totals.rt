// Optional totals of any kind: the later and the earlier of two, and a total plus or minus a lag.
// An absent total stands for no time.
ghost use Rattle.std.specs.Prelude.{◌≡◌, None};
ghost use Rattle.std.specs.declared.cmp.Ordering.TheVariants.{Less, Greater};
ghost use Rattle.std.specs.Option.{option_map};
ghost use Rattle.rows.specs.Limits.{given_limit};
ghost use Rattle.rows.specs.Rows.{inside};
ghost use Rattle.marks.specs.Fits.{FitsTotal, later_row, earlier_row, sum_row, difference_row};

use crate::kind::Mark;
use crate::numbers::Limit;
use std::cmp::Ordering;

// The other where the order of the two is `second`, or where there is no one; else the one.
// Inlined, since each of the two that call it names the order: out of line, finish of a full plan
// in minutes took twice as long.
#[tactic(auto, using(crate::proofs::Choices::choices))]
#[inline(always)]
fn chosen<K: Mark>(one: Option<K>, other: Option<K>, second: Ordering) -> Option<K>
    ensures later { second ≡ Less
        → option_map K.Mark.row result ≡ later_row K.Mark one other }
    ensures earlier { second ≡ Greater
        → option_map K.Mark.row result ≡ earlier_row K.Mark one other }
{
    match (one, other) {
        (Some(x), Some(y)) if x.order(y) == second => Some(y),
        (Some(x), _) => Some(x),
        (None, _) => other,
    }
}

/// The later of the two; the one that is there, where one is absent; nothing where both are.
pub fn later_of<K: Mark>(one: Option<K>, other: Option<K>) -> Option<K>
    ensures { option_map K.Mark.row result ≡ later_row K.Mark one other }
{
    chosen(one, other, Ordering::Less)
}

/// The earlier of the two; the one that is there, where one is absent; nothing where both are.
pub fn earlier_of<K: Mark>(one: Option<K>, other: Option<K>) -> Option<K>
    ensures { option_map K.Mark.row result ≡ earlier_row K.Mark one other }
{
    chosen(one, other, Ordering::Greater)
}

// Apart from the difference: one function for both, with the step as a closure, would be longer.
/// Total plus lag, where both are there and the sum fits a total; else nothing.
pub fn sum_of<K: Mark>(total: Option<K>, lag: Option<K::Lag>) -> Option<K>
    ensures fits { FitsTotal (sum_row K.Mark total lag)
        → option_map K.Mark.row result ≡ sum_row K.Mark total lag }
    ensures beyond { (FitsTotal (sum_row K.Mark total lag) → ⊥) → result ≡ None }
{
    total?.add(lag?)
}

/// Total minus lag, where both are there and the difference fits a total; else nothing.
pub fn difference_of<K: Mark>(total: Option<K>, lag: Option<K::Lag>) -> Option<K>
    ensures fits { FitsTotal (difference_row K.Mark total lag)
        → option_map K.Mark.row result ≡ difference_row K.Mark total lag }
    ensures beyond { (FitsTotal (difference_row K.Mark total lag) → ⊥) → result ≡ None }
{
    total?.take(lag?)
}

/// Whether no part of the total is beyond the limit of given totals.
pub fn is_given<K: Mark>(total: K) -> bool
    ensures { result ≡ inside given_limit (K.Mark.row total) }
{
    // a loop: what `all` says of each part through a closure was not enough
    for index in 0..K::WIDTH {
        let Some(part) = total.part(index) else {
            return false;
        };
        if !Limit::Given.allows(part) {
            return false;
        }
    }
    true
}
