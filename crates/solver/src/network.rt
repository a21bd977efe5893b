// What a solver reads of a plan: its events and its lags, in whatever direction.
ghost use Rattle.std.specs.Prelude.{◌≡◌, ℕ, ◌<◌};
ghost use Rattle.rows.specs.Limits.{most_events};
ghost use Rattle.schedules.specs.Plans.{Lags};
ghost use Rattle.solver.specs.Networks.{Net, SumAlong};
ghost use Rattle.solver.specs.Words.{Noted, Stands};

use crate::words::with_event;
use marks::kind::Mark;
use rows::MOST_EVENTS;

/// For each event the word of the events to which a lag leads from it: bit k stands for event k.
pub type Standing = [u64; MOST_EVENTS];

/// A network of lags between events, whose marks are of one kind. A small value, which is copied.
pub trait Network: Copy {
    /// The kind of its totals and lags.
    type Kind: Mark;

    // how many events
    ghost size: { Self → ℕ };

    // the lags between them
    ghost weight: { Self → Lags };

    /// How many events there are.
    fn events(&self) -> usize
        ensures { result ≡ size self.now };

    /// A total plus the lag to an event from another; nothing where none stands, or where the sum
    /// is beyond the limit of totals.
    fn follow(&self, total: Self::Kind, to: usize, from: usize) -> Option<Self::Kind>
        requires to { to < size self.now }
        requires from { from < size self.now }
        ensures { SumAlong Self.Kind.Mark.row total (weight self.now to from) result };

    /// The lags that stand, made in one pass.
    fn stand(&self) -> Standing
        ensures { Stands (size self.now) (weight self.now) result };

    // every network has what the solver needs
    ghost sound: { (net : Self) → Net Self.Kind.Mark.WIDTH (size net) (weight net) };
}

/// Notes that a lag to an event from another stands.
pub fn note_lag(standing: &mut Standing, to: usize, from: usize)
    requires to { to < most_events }
    requires from { from < most_events }
    ensures { Noted standing.old to from standing.new }
{
    standing[from] = with_event(standing[from], to);
}
