//! The recovery tunnel of a tunnel in a step (RFC 4951 section 4.3): what it sends and takes, and what becomes of the tunnel itself,
//! each as a change of a turn and of the recovery tunnel beside it.
//!
//! A part that fails for want of memory says nothing of either: the step gives both up.
#![tactic(auto)]

pub mod answering;
pub mod attempting;
pub mod hearing;
mod left;
pub mod restoring;
pub mod sending;
pub mod ticking;
