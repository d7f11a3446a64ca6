//! A pool: a LAC or an LNS with its store, between its ports, with workers beside the calling thread.
#![tactic(auto)]

mod ending;
mod kept;
mod pool;

pub use pool::{PoolEnd, node_pool};
