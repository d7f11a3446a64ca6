//! Capture files: the bytes of a classic pcap file, of its records, and of the Ethernet frames that carry datagrams between nodes.
#![tactic(auto)]

mod file;
mod packet;
mod sums;

pub use file::{push_file_head, push_record};
pub use packet::{checksums_are_right, datagram_frame};
pub use sums::checksum;
