//! The automata of an incoming call, at a LAC and at an LNS (RFC 2661 section 7.4).
#![tactic(auto)]

mod table;

pub use table::{CallAction, CallEvent, CallState, lac_advance, lns_advance, rows_are_apart};
