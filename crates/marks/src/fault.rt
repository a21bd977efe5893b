// What a mark refuses.
ghost use Rattle.std.specs.Prelude.{◌≡◌, Some};
ghost use Rattle.marks.specs.Faults.{layer_word, mark_number, mark_layer};

use std::fmt;
use thiserror::Error;

/// The layers a fault can come from. Shown as their words: mark, plan, sheet.
#[derive(Clone, Copy, PartialEq, Eq, Debug)]
pub enum Layer {
    /// A kind of mark.
    Mark,
    /// A call of a plan.
    Plan,
    /// A job sheet, a plan written as text; no check of that layer is here yet.
    Sheet,
}

impl fmt::Display for Layer {
    ghost output = { λ layer. Some (layer_word layer) };

    fn fmt<W: fmt::Write>(&self, f: &mut fmt::Formatter<W>) -> fmt::Result {
        match self {
            Layer::Mark => write!(f, "mark"),
            Layer::Plan => write!(f, "plan"),
            Layer::Sheet => write!(f, "sheet"),
        }
    }
}

/// What a kind of mark refuses.
#[derive(Clone, Copy, PartialEq, Eq, Debug, Error)]
pub enum MarkFault {
    /// The numbers are not the parts of a lag: their count is not the width, or one is beyond the
    /// limit of lags. Its number is 10.
    #[error("the numbers are not the parts of a lag")]
    NoLag,
}

impl MarkFault {
    /// The number of the fault.
    // a match, as for a plan's fault, where a case has a field
    pub fn number(self) -> u8
        ensures { result ≡ mark_number self }
    {
        match self {
            MarkFault::NoLag => 10,
        }
    }

    /// The layer of the fault: `Mark`.
    pub fn layer(self) -> Layer
        ensures { result ≡ mark_layer self }
    {
        match self {
            MarkFault::NoLag => Layer::Mark,
        }
    }
}
