// Turning twice restores the meaning of a total, for every kind of mark.
ghost use Rattle.std.specs.Prelude.{◌≡◌};
ghost use Rattle.marks.specs.Twice.{TurningTwice, Added, Taken, Ordered};

use crate::kind::Mark;
use crate::turned::Turned;
use std::cmp::Ordering;

/// The total itself, turned and turned back: it means what it meant, and so do the sums and the
/// order of such totals.
pub fn turned_twice<M: Mark>(total: M) -> Turned<Turned<M>>
    ensures value { result.inner.inner ≡ total }
    ensures meaning { ⟦<Turned<Turned<M>> as Mark>⟧.row result ≡ M.Mark.row total }
    ensures every { TurningTwice M.Mark ⟦<Turned<Turned<M>> as Mark>⟧ }
{
    Turned {
        inner: Turned { inner: total },
    }
}

// The three below go by totals turned twice, and promise what the kind itself promises.

/// What the kind's `add` answers.
pub fn add_turned_twice<M: Mark>(total: M, lag: M::Lag) -> Option<M>
    ensures { Added M.Mark total lag result }
{
    turned_twice(total).add(lag).map(|sum| sum.inner.inner)
}

/// What the kind's `take` answers.
pub fn take_turned_twice<M: Mark>(total: M, lag: M::Lag) -> Option<M>
    ensures { Taken M.Mark total lag result }
{
    turned_twice(total).take(lag).map(|rest| rest.inner.inner)
}

/// What the kind's `order` answers.
pub fn order_turned_twice<M: Mark>(total: M, other: M) -> Ordering
    ensures { Ordered M.Mark total other result }
{
    turned_twice(total).order(turned_twice(other))
}
