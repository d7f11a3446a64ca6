//! What is seen of sessions by whoever carries their frames, and what becomes of a data message by that.
//!
//! It knows no tunnel and no call: an end, and whatever looks at frames beside it, decide by the same function.
#![tactic(auto)]

mod frames;
mod look;

pub use frames::{Way, carry_look, frame_of, header_why};
pub use look::{CellChange, CellChanges, Look};
