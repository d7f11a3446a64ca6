//! The tunnels of an end, by local id, which are also found by their peer with the id that it assigned, by their peer with their
//! state, and by the ids of their recovery tunnels; and those for which a tick does something are found without a look at the others.
//!
//! A step of a tunnel is planned, and room is made for all that it changes, in the indexes too; what is then made takes no
//! memory.
#![tactic(auto)]

mod apart;
mod finding;
mod indexes;
mod labels;
mod table;

pub use apart::Cores;
pub use table::TunnelTable;
pub use tunnel_core::{CallRows, Env, Moves, Outputs, Planned, Rows, Task, TunnelCore};
