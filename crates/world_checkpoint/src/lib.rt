//! A node's checkpoint: the store of its records, on a disk in memory. A stop that is armed is reached on a copy of the two: the copied disk
//! fails at one of the four calls of a commit and crashes, and the store that opens over what is left takes the place of the first.
#![tactic(auto)]

mod checkpoint;
mod commits;
mod crash;
mod stopping;

pub use checkpoint::Checkpoint;
pub use commits::CommitStop;
