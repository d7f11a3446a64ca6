//! A disk over a file of the system, which tells nothing of what the file holds.
#![tactic(auto)]

mod disk;
mod opening;
mod reading;

pub use disk::FileDisk;
