// A plan with a flow in its lags.
ghost use Rattle.std.specs.Prelude.{◌≡◌, ◌≤◌, ⊤};
ghost use Rattle.rows.specs.Limits.{flow_limit};

use crate::table::Table;
use marks::kind::Mark;
use std::alloc::AllocError;

// A plan of a kind of one part, with minus the flow to the start of each stage from its finish,
// where no later lag of the plan stands.
#[derive(Drop)]
pub(crate) struct Flowing<'a, K: Mark> {
    pub(crate) table: Table<'a, K>,
    pub(crate) flow: u64,
    ghost one: { K.Mark.WIDTH ≡ 1 },
    ghost inside: { flow ≤ flow_limit },
}

// By hand, since a copy is not derived over ghost fields.
impl<'a, K: Mark> Clone for Flowing<'a, K> {
    ghost is_clone = { λ plan copy. copy ≡ plan };

    ghost is_infallible = { λ _. ⊤ };

    fn clone(&self) -> Result<Self, AllocError> {
        Ok(*self)
    }
}

impl<'a, K: Mark> Copy for Flowing<'a, K> {}
