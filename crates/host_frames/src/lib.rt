//! Ethernet frames that come to a LAC, by what it knows of its hosts (RFC 2516), where its calls stand elsewhere: what a frame leads to
//! hangs on whether one call is live, which is asked for then.
#![tactic(auto)]

mod reading;
mod refusing;

pub use reading::{HostFrame, read_host_frame};
pub use refusing::refusal_in;
