//! The planner: every call under its own name, the fault of a plan, and what the calls answer in
//! the max-plus algebra.
#![tactic(auto)]

pub use crate::calls::backward::backward;
pub use crate::calls::check::check;
pub use crate::calls::closest::closest;
pub use crate::calls::drop::drop;
pub use crate::calls::earliest::earliest;
pub use crate::calls::finish::finish;
pub use crate::calls::flow::{FlowFound, flow, flow_counted};
pub use crate::calls::latest::latest;
pub use crate::calls::open::open;
pub use crate::calls::set::set;
pub use crate::calls::spread::spread;
pub use crate::calls::void::void;
pub use crate::calls::waiting::waiting;
pub use crate::fault::PlanFault;
pub use crate::table::{Place, count_places};
pub use crate::widths::{amounts_have_the_width, totals_have_the_width};
pub use algebra::{
    backward_is_residual, closest_is_residual, earliest_is_star, finish_is_product,
    flow_is_greatest_mean, latest_is_star,
};
pub use schedules::flows_are_lags;

mod calls;
mod checks;
mod fault;
mod given;
// No call: for this library's own readers, which keep times from one lag to the next.
pub mod repairing;
mod solving;
mod stages;
mod standing;
mod table;
mod turning;
mod views;
mod widths;
mod witness;
