//! Data messages, by what is seen of their sessions in shared cells (RFC 2661 section 3.1, and section 5.3): which frame goes
//! up, where it stands in its datagram, or why it is dropped. Nothing is copied, and nothing waits.
#![tactic(auto)]

mod carry;
mod carrying;

pub use carry::Carry;
pub use carrying::{carry_in, carry_look, carry_out};
