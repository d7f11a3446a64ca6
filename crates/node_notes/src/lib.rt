//! The lines that an operator reads: a line for each tunnel and each call of an end that comes up or ends in a step, and for each tunnel
//! that is restored, frozen or recovered, and none for any other datagram. They are made from the moves and the outputs of the step, and
//! change nothing.
#![tactic(auto)]

mod causes;
mod laws;
mod note;
mod pieces;
mod texts;

pub use laws::{moves_have_their_notes, quiet_moves_make_no_text, records_have_their_notes};
pub use note::{Note, Told};
pub use texts::push_notes;
