//! The header of an L2TP datagram (RFC 2661 section 3.1): what stands at the front of control and data messages.
#![tactic(auto)]

mod header;
mod reading;
mod writing;

pub use header::{Header, HeaderError};
pub use reading::{read_header, reads_what_was_written};
pub use writing::{write_control, write_data};
