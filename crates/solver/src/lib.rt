// The solver: finds a loop of any network, or the least time of every event.
#![tactic(auto)]

pub mod least;
pub mod network;
pub mod reach;
pub mod repair;
mod rounds;
pub mod settle;
mod subnetwork;
mod walk;
mod words;
pub mod work;
