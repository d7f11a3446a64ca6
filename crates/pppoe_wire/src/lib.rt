//! PPPoE frames and their tags as bytes (RFC 2516 section 4).
#![tactic(auto)]

mod error;
mod frame;
mod reading;
mod writing;

pub use error::{PppoeError, TagError};
pub use frame::{Pppoe, Tag, Tags};
pub use reading::{read_frame, read_tags, reads_what_was_written};
pub use writing::{write_frame, write_tag};
