//! An end with a peer that is another program: words that tell its events, and the lines of what it gives for them. The program
//! that runs an end over rows of text and the tests of an end's limits stand on it.
#![tactic(auto)]

mod bench;
mod event;

pub use bench::{Bench, push_number};
pub use event::{Fault, id_of};
