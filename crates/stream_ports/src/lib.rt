//! The Ethernet port and the uplink of a node over Unix stream sockets. They tell nothing of what a stream holds, count
//! each error of the system as a fault of theirs, and keep the last one.
#![tactic(auto)]

mod boxes;
mod faults;
mod messages;
mod streams;

pub use faults::Faults;
pub use streams::{UnixEther, UnixUplink};
