//! Ports in memory, which hold lists, and a clock of given moments.
#![tactic(auto)]

mod clocks;
mod counting;
mod ethers;
mod links;
mod queue;
mod uplinks;

pub use clocks::{ManualClock, Moments};
pub use ethers::{MemoryEther, SteadyEther};
pub use links::{MemoryLink, SteadyLink};
pub use uplinks::{MemoryUplink, SteadyUplink};
