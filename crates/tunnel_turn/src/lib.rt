//! A tunnel in a step: each part of a step is a change of a turn, which gathers what the step gives. What the tunnel stands for is
//! changed only afterwards.
//!
//! A part that fails for want of memory says nothing of the turn, which its step then gives up.
#![tactic(auto)]

pub mod asking;
pub mod calls;
pub mod closing;
pub mod env;
pub mod frames;
pub mod links;
pub mod openings;
pub mod querying;
pub mod refusing;
pub mod ringing;
pub mod sending;
pub mod stopping;
pub mod ticking;
pub mod told;
pub mod turn;
