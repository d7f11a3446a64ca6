//! All ports of a node, its clock and its generator, as one value, so that a call is lent one thing and tells what became of it.
#![tactic(auto)]

mod held;
mod ports;

pub use held::NodePorts;
pub use ports::Ports;
