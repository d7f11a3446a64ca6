//! What the calling thread of a pool does: turn after turn it takes what waits on the ports, puts each datagram for a worker, gives every
//! other event to a turn of its own, and gives what is finished to the ports.
#![tactic(auto)]

mod counting;
mod cutting;
mod desk;
mod handing;
mod hosts;
mod putting;
mod serving;
mod turning;

pub use desk::{Desk, LentGate, PoolFault};
pub use serving::PoolServing;
