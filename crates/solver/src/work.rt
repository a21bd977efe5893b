// The rows that a solver works in.
ghost use Rattle.std.specs.Prelude.{◌≡◌, ℕ, ◌<◌, ◌≤◌, length, None, slice_index_or};
ghost use Rattle.schedules.specs.Tables.{Overwritten};

use marks::kind::Mark;

/// A step of a loop: the event that it leads from. It leads to the event of the next place, the
/// last one to that of the first.
pub type Step = usize;

/// Two rows of the caller's to work in, with a place for every event at least. What stands in them
/// before does not matter.
#[derive(Drop)]
pub struct Work<'a, K> {
    /// The total of each event so far, nothing where none is known.
    pub totals: &'a mut [Option<K>],
    /// The totals that the round under way makes of them.
    pub next: &'a mut [Option<K>],
}

/// Copies the first totals of one row into another, whose other places are kept.
// A function of its own: a copy between two slices that a struct holds is not covered by the borrow
// checker, and its callers need that the other places are kept.
pub fn copy_totals<K: Mark>(count: usize, from: &[Option<K>], to: &mut [Option<K>])
    requires from { count ≤ length from.now }
    requires to { count ≤ length to.old }
    ensures { Overwritten (λ v. slice_index_or from.now v None) count to.old to.new }
{
    to[..count].copy_from_slice(&from[..count]);
}

/// Makes the first totals of a row all alike. What is left in its other places does not matter.
pub fn fill_totals<K: Mark>(count: usize, totals: &mut [Option<K>], total: Option<K>)
    requires { count ≤ length totals.old }
    ensures { (v : ℕ) → v < count → slice_index_or totals.new v None ≡ total }
{
    // no `fill`: it asks for a clone that cannot fail, and a kind says nothing of its clone
    for place in &mut totals[..count] {
        *place = total;
    }
}
