//! Hidden attribute values (RFC 2661 section 4.3), and responses to challenges (sections 4.4.3 and 5.1.1), over MD5 and a
//! secret that both ends of a tunnel know.
#![tactic(auto)]

mod challenge;
mod error;
mod hiding;

pub use challenge::{check_response, response};
pub use error::UnhideError;
pub use hiding::{hide, unhide, unhides_what_was_hidden};
