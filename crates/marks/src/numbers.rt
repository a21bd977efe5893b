// Stored numbers and their limits: a part of a lag or of a total is kept as a number of 64 bits.
ghost use Rattle.std.specs.Prelude.{◌≡◌, ◌≢◌, ◌↔◌, IsTrue, pos, ◌+ℤ◌, neg_ℤ};
ghost use Rattle.std.specs.Ordering.{int_cmp};
ghost use Rattle.rows.specs.Limits.{lag_limit, total_limit};
ghost use Rattle.rows.specs.Rows.{bounded};
ghost use Rattle.marks.specs.Bounds.{limit_of};
ghost use Rattle.marks.specs.Meaning.{clamped, NumberOf};

use std::cmp::Ordering;

const LAG_LIMIT: i64 = 1_000_000;

const TOTAL_LIMIT: i64 = 4_000_000_000;

const GIVEN_LIMIT: i64 = 1_000_000_000;

/// How far from 0, either way, a part of a row may be.
#[derive(Clone, Copy, PartialEq, Eq, Debug)]
pub enum Limit {
    /// A part of a lag.
    Lag,
    /// A part of a total.
    Total,
    /// A part of a total that a call reads from a row it is given.
    Given,
}

impl Limit {
    #[tactic(auto, unfolding(rows::specs::Limits::lag_limit, rows::specs::Limits::total_limit, rows::specs::Limits::given_limit))]
    fn most(self) -> i64
        ensures { result ≡ pos (limit_of self) }
    {
        match self {
            Limit::Lag => LAG_LIMIT,
            Limit::Total => TOTAL_LIMIT,
            Limit::Given => GIVEN_LIMIT,
        }
    }

    /// What a stored number means: itself, or the limit on its side of 0 if it is beyond.
    #[tactic(auto, using(crate::proofs::Clamps::clamped_within))]
    pub fn clamp(self, stored: i64) -> i64
        ensures { result ≡ clamped (limit_of self) stored }
    {
        if self.allows(stored) {
            stored
        } else {
            self.clamp_beyond(stored)
        }
    }

    // What a stored number means, on the way that only numbers beyond the limit go: out of line, so
    // that all others cost one test.
    #[cold]
    #[inline(never)]
    fn clamp_beyond(self, stored: i64) -> i64
        ensures { result ≡ clamped (limit_of self) stored }
    {
        let most = self.most();
        stored.clamp(-most, most)
    }

    /// Whether the number is not beyond the limit.
    pub fn allows(self, number: i64) -> bool
        ensures { result ≡ bounded (limit_of self) number }
    {
        let most = self.most();
        (-most..=most).contains(&number)
    }

    /// The number itself, or nothing if it is beyond the limit.
    pub fn within(self, number: i64) -> Option<i64>
        ensures { NumberOf (limit_of self) number result }
    {
        self.allows(number).then_some(number)
    }
}

// Sum and difference apart, since one function for both would take a flag or a sign.
/// What the stored part of a total means, plus what that of a lag means. Nothing if it is beyond
/// the limit of totals.
#[tactic(auto, using(crate::proofs::Clamps::sum_fits))]
pub fn add_parts(total: i64, lag: i64) -> Option<i64>
    ensures { NumberOf total_limit (clamped total_limit total +ℤ clamped lag_limit lag) result }
{
    Limit::Total.within(Limit::Total.clamp(total) + Limit::Lag.clamp(lag))
}

/// What the stored part of a total means, minus what that of a lag means. Nothing if it is beyond
/// the limit of totals.
#[tactic(auto, using(crate::proofs::Clamps::difference_fits))]
pub fn take_parts(total: i64, lag: i64) -> Option<i64>
    ensures { NumberOf total_limit
        (clamped total_limit total +ℤ neg_ℤ (clamped lag_limit lag)) result }
{
    Limit::Total.within(Limit::Total.clamp(total) - Limit::Lag.clamp(lag))
}

// Whether two stored parts of totals mean different numbers.
fn are_apart(one: i64, other: i64) -> bool
    ensures { IsTrue result ↔ (clamped total_limit one ≢ clamped total_limit other) }
{
    Limit::Total.clamp(one) != Limit::Total.clamp(other)
}

/// How what two stored parts of totals mean stand to each other.
pub fn order_parts(one: i64, other: i64) -> Ordering
    ensures { result ≡ int_cmp (clamped total_limit one) (clamped total_limit other) }
{
    // as stored first: what they mean stands so too, or is the same
    match one.cmp(&other) {
        Ordering::Less if are_apart(one, other) => Ordering::Less,
        Ordering::Greater if are_apart(one, other) => Ordering::Greater,
        _ => Ordering::Equal,
    }
}
