//! Reports of `l2tp replay`, read line by line: the datagrams and the Ethernet frames that they tell of.
#![tactic(auto)]

mod endings;
mod entry;
mod error;
mod fields;
mod hex_words;
mod line_reading;
mod parts;
mod reading;

pub use entry::{Entries, Entry};
pub use error::ReportError;
pub use reading::{read_report, sent_lines_are_read};
