//! A node's link over a UDP socket, the system's clock, and a clock that rests while nothing comes. The link tells nothing of
//! what the network holds, and counts an error of its socket as a fault, and keeps the last one.
#![tactic(auto)]

mod clocks;
mod udp;
mod watch;

pub use clocks::StdClock;
pub use udp::UdpLink;
pub use watch::{Descriptor, RestingClock, Watch, Watched};
