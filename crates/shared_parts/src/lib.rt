//! An end that was opened over its store is taken apart into its tunnels and what they share, and what they share is a hub over the store
//! and its disk.
#![tactic(auto)]

mod lac;
mod lns;

pub use end_core::Cores;
pub use lac::{LacHub, LacShared, lac_parts};
pub use lac_core::LacAccess;
pub use lns::{LnsHub, LnsShared, lns_parts};
pub use shared_store::{Begun, DiskHub, SharedStore};
