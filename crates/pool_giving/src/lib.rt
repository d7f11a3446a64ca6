//! What a pool gives to its ports: PPP frames that workers let pass, and what turns of tunnels give. None of it is copied, but for the
//! frame to a subscriber, which is written into a room that is kept from one to the next.
#![tactic(auto)]

mod frames;
mod giving;
mod hosts;
mod laws;

pub use frames::FrameRoom;
pub use giving::{give_frame, give_turn};
pub use hosts::Hosts;
pub use laws::gives_as_a_node;
