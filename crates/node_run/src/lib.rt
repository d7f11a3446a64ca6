//! A node: a LAC or an LNS with its store, between its ports. A turn takes what waits, and what comes of it goes out; what a step leaves
//! is on the disk before anything of the step goes out.
#![tactic(auto)]

mod end;
mod events;
mod faults;
mod lending;
mod logs;
mod opening;
mod outs;
mod turns;

pub use end::{NodeEnd, NodeStop};
pub use faults::NodeFault;
pub use lending::Counts;
pub use logs::{logs_grow, write_lines, write_lost};
pub use opening::NodeUnopened;
pub use stored_ends::OpenStop;
pub use turns::{node_serve, node_turn};
