//! The PPP link of an LNS's call, which ends there (RFC 1661): its LCP end, and what comes of it for the call. A link says which
//! frames are to be sent, when frames of the network pass, and when the call is to end. The call around it is told nothing else.
#![tactic(auto)]

mod env;
mod frames;
mod laws;
mod lcp;
mod link;
mod turn;

pub use env::LinkEnv;
pub use frames::{Frames, is_for_link};
pub use laws::{
    ended_links_stay_still, ends_are_of_lcp, frames_are_made, networks_open_once,
    new_links_ask_first, other_calls_change_nothing, timers_run_out_when_told,
    turns_tell_whether_lcp_is_open,
};
pub use link::Link;
pub use turn::LinkTurn;
