//! LCP packets and their configuration options as bytes (RFC 1661 sections 5 and 6).
#![tactic(auto)]

mod error;
mod packet;
mod reading;
mod writing;

pub use error::{LcpError, OptionError};
pub use packet::{Lcp, LcpOption, Options, Packets};
pub use reading::{read_lcp, read_options, reads_what_was_written};
pub use writing::{write_lcp, write_option};
