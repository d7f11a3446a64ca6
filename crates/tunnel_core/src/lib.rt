//! A tunnel of an end, with its calls: each event is a step of it, which gives outputs and moves.
//!
//! A tunnel's step is planned, and then made: the plan says what will change and makes all room for it, and what it then
//! changes takes no memory. So where memory is wanting, the tunnel is as before.
#![tactic(auto)]

mod becoming;
mod events;
mod faulty;
mod hearing;
mod planning;
mod task;
mod tasks;

pub use planning::{Planned, TunnelCore};
pub use task::Task;
pub use tunnel_calls::{CallRows, Rows};
pub use tunnel_rules::same_state;
pub use tunnel_turn::env::{Env, Moves, Outputs};
