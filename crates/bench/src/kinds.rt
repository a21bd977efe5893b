// The kinds of plan that are measured.
ghost use Rattle.std.specs.Prelude.{◌≤◌};

use std::fmt;
use std::fmt::Display;

/// How many plans there are of each kind.
pub const PLANS: u32 = 20;

/// The kinds, in the order in which they are shown.
pub const KINDS: [Kind; 5] = [
    Kind::Sparse,
    Kind::Middling,
    Kind::Full,
    Kind::Chain,
    Kind::Tight,
];

/// What a plan of the benchmark is like.
#[derive(Clone, Copy, PartialEq, Eq)]
pub enum Kind {
    /// 200 lags, with a schedule.
    Sparse,
    /// 1,000 lags, with a schedule.
    Middling,
    /// 3,969 lags, with a schedule.
    Full,
    /// One lag a pair of neighbours, laid against the order of the events, with a schedule.
    Chain,
    /// 1,000 lags that have a schedule, and a loop of 12 that has none.
    Tight,
}

impl Kind {
    /// How many lags are drawn for a plan of the kind.
    pub fn count_drawn(self) -> u32 {
        match self {
            Kind::Sparse => 200,
            Kind::Middling | Kind::Tight => 1_000,
            Kind::Full => 3_969,
            Kind::Chain => 0,
        }
    }

    /// The number that the draws of the kind's first plan follow.
    pub fn first_number(self) -> u32
        ensures { result ≤ 500 }
    {
        match self {
            Kind::Sparse => 100,
            Kind::Middling => 200,
            Kind::Full => 300,
            Kind::Chain => 400,
            Kind::Tight => 500,
        }
    }
}

impl Display for Kind {
    fn fmt<W: fmt::Write>(&self, f: &mut fmt::Formatter<W>) -> fmt::Result {
        f.write_str(match *self {
            Kind::Sparse => "sparse",
            Kind::Middling => "middling",
            Kind::Full => "full",
            Kind::Chain => "chain",
            Kind::Tight => "tight",
        })
    }
}
