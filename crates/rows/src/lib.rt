// Rows of whole numbers: the definitions and laws that marks and plans rest on.
#![tactic(auto)]

ghost use Rattle.rows.specs.Laws.{OrderedGroup, SumsWithin, TestsAgree};
ghost use Rattle.rows.specs.Limits.{Relations, most_events, most_parts, most_stages};
ghost use Rattle.std.specs.Prelude.{◌≡◌};

/// The most stages that a plan has.
pub const MOST_STAGES: usize = 31;

/// The most events that a plan has: the opening, and a start and a finish for each stage.
pub const MOST_EVENTS: usize = 2 * MOST_STAGES + 1;

/// The most parts that a row of a kind of mark has.
pub const MOST_PARTS: usize = 8;

/// [`MOST_PARTS`], as the definitions have it.
pub fn most_parts() -> usize
    ensures { result ≡ most_parts }
{
    MOST_PARTS
}

/// [`MOST_STAGES`], as the definitions have it.
pub fn most_stages() -> usize
    ensures { result ≡ most_stages }
{
    MOST_STAGES
}

/// [`MOST_EVENTS`], as the definitions have it.
pub fn most_events() -> usize
    ensures { result ≡ most_events }
{
    MOST_EVENTS
}

/// Rows of one width are an ordered abelian group, and sums stay within the sum of the limits.
pub fn rows_are_an_ordered_group()
    ensures group { OrderedGroup }
    ensures within { SumsWithin }
    ensures tests { TestsAgree }
{}

/// So many lags, and so many given totals, fit into a total.
pub fn limits_agree()
    ensures { Relations }
{}
