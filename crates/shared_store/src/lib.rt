//! What the tunnels of an end share, over a store on a disk: where they draw their ids from, what the end is told, and the store of the
//! records that their turns leave. With the disk it is a hub, whose type keeps why it stopped.
#![tactic(auto)]

mod hub;
mod shared;
mod stops;

pub use hub::{Begun, DiskHub};
pub use shared::SharedStore;
