//! The automaton of a tunnel (RFC 2661 section 7.2).
#![tactic(auto)]

mod table;

pub use table::{
    TunnelAction, TunnelEvent, TunnelState, advance, closed_stays_closed, rows_are_apart,
};
