// Marks: what a kind is, the limits on lags and totals and the fault of a lag that cannot be made;
// the kinds minutes and stamps, turned marks over any kind, turning twice, and optional totals. A
// mark is a lag or a total of a kind.
#![tactic(auto)]

pub mod fault;
pub mod kind;
pub mod minutes;
mod numbers;
pub mod stamps;
pub mod totals;
pub mod turned;
pub mod twice;
