//! What a step of an end leaves in the checkpoint of its end: the ceilings of ids that rose, the tunnels and the calls that came up or
//! went, and the marks of tunnels that rose.
#![tactic(auto)]

mod committing;
mod records;
mod spaces;

pub use committing::commit_step;
pub use records::{Records, step_records};
pub use spaces::Spaces;
