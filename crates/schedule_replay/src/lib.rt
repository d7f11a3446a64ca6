//! The world of a schedule: nodes over a network that may lose, repeat and reorder, and the report of a run.
#![tactic(auto)]

mod carrying;
mod epochs;
mod fault;
mod held;
mod kinds;
mod node;
mod replaying;
mod state;
mod tables;
mod world;

pub use fault::LineFault;
pub use replaying::{Replayed, replay};
pub use world::World;
