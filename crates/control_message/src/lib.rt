//! Control messages as lists of attribute value pairs (RFC 2661 sections 3.2, 4.3, 4.4 and 6, RFC 4951 section 5).
#![tactic(auto)]

mod attribute;
mod checking;
mod finding;
mod kind;
mod message;
mod reading;
mod uncovering;
mod writing;

pub use finding::{assigned_session, assigned_tunnel, has_recovery};
pub use kind::{Kind, Kinds};
pub use message::{Failover, Message, MessageError, Opening, Read, Recovery, Suggested};
pub use reading::{kind_of_pairs, read_message, reads_what_was_written};
pub use uncovering::{
    has_hidden, hidden_requests_are_read, leaves_plain_pairs, plain_messages_stay,
    reads_what_was_hidden, spells_what_was_uncovered, uncover,
};
pub use writing::{has_room, has_room_with, hides_nothing_without_a_vector, write_message};
