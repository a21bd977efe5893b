// What a plan refuses.
ghost use Rattle.std.specs.Prelude.{◌≡◌};
ghost use Rattle.plan.specs.Faults.{plan_number, plan_layer};
ghost use Rattle.plan.specs.declared.fault.PlanFault.TheVariants.{Mark as of_mark};

use marks::fault::{Layer, MarkFault};
use thiserror::Error;

/// What a plan refuses, each with the number of the check that was missed. A caller learns the
/// number by [`PlanFault::number`], and where it comes from by [`PlanFault::layer`].
#[derive(Clone, Copy, PartialEq, Eq, Debug, Error)]
pub enum PlanFault {
    /// 3: the number of stages is 0 or above the most.
    #[error("the number of stages is 0 or above 31")]
    Stages,
    /// 4: the table has not exactly one place for each pair of events.
    #[error("the table has not one place for each pair of events")]
    Table,
    /// 5: a row that the call is lent has fewer places than there are events.
    #[error("a row has fewer places than there are events")]
    Row,
    /// 9: an event is above 2n, or a stage is 0 or above n, of n stages.
    #[error("no such event or stage")]
    Event,
    /// A fault of the marks, whole: 10, the numbers are not the parts of a lag.
    #[error("{0}")]
    Mark(MarkFault),
    /// 12: a given total is absent, or has a part beyond the limit of given totals.
    #[error("a given total is absent or beyond the limit of given totals")]
    Total,
    /// 13: a finish has no start-to-finish lag into it, or a start has none from it.
    #[error("a finish or a start has no start-to-finish lag")]
    Unserved,
    /// 14: no schedule exists. A loop of so many events stands in the first places of the loop row.
    #[error("no schedule exists: a loop of {0} events contradicts")]
    Loop(usize),
}

// A fault of the marks passes up whole. By hand, since of a derived conversion a caller's `?` does
// not learn which fault it makes.
impl From<MarkFault> for PlanFault {
    ghost from_gives = { λ fault r. r ≡ of_mark fault };

    fn from(fault: MarkFault) -> PlanFault {
        PlanFault::Mark(fault)
    }
}

impl PlanFault {
    /// The number of the check that was missed.
    // By a match, since a case has a field: no discriminant is the number of the check.
    pub fn number(self) -> u8
        ensures { result ≡ plan_number self }
    {
        match self {
            PlanFault::Stages => 3,
            PlanFault::Table => 4,
            PlanFault::Row => 5,
            PlanFault::Event => 9,
            PlanFault::Mark(fault) => fault.number(),
            PlanFault::Total => 12,
            PlanFault::Unserved => 13,
            PlanFault::Loop(_) => 14,
        }
    }

    /// The layer that the check belongs to: the marks' for 10, else the plan's.
    pub fn layer(self) -> Layer
        ensures { result ≡ plan_layer self }
    {
        match self {
            PlanFault::Mark(fault) => fault.layer(),
            _ => Layer::Plan,
        }
    }
}
