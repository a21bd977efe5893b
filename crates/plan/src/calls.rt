// The calls, a file for each.
pub mod backward;
pub mod check;
pub mod closest;
pub mod drop;
pub mod earliest;
pub mod finish;
pub mod flow;
pub mod latest;
pub mod open;
pub mod set;
pub mod spread;
pub mod void;
pub mod waiting;
