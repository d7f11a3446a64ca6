//! The LCP end of one PPP link (RFC 1661): the automaton, the options that it asks for and takes, and its timer.
#![tactic(auto)]

mod codes;
mod end;
mod entries;
mod hearing;
mod laws;
mod options;
mod out;
mod state;
mod table;
mod turn;

pub use end::LcpEnd;
pub use laws::{
    answers_name_options, identifiers_are_counted, other_answers_change_nothing, outputs_tell_open,
};
pub use out::LcpOut;
pub use table::{LcpActions, LcpEvent, lcp_advance, table_is_whole};
