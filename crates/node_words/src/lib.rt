//! The words of `l2tp node` and `l2tp pool`, read into a plan.
#![tactic(auto)]

mod asking;
mod command;
mod plan;
mod reading;

pub use asking::{asks_for_help, asks_for_version, node_help, pool_help};
pub use plan::{Plan, PlanError};
pub use reading::read_plan;
