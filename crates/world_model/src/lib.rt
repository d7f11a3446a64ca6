//! What a world of ends means: the definitions that the contracts of the replay and of the program cite, and the few types
//! that they share.
//!
//! A line of a schedule gives the next world, entries of the report, and what was done; a run goes from line to line, and
//! its report is the text of the entries, and of the tables at the end.
#![tactic(auto)]

mod held;
mod packet;
mod refusal;
mod standing;
mod stop;

pub use held::Held;
pub use packet::Packet;
pub use refusal::Refusal;
pub use standing::{Counts, Standing};
pub use stop::StopAt;
