//! What a line of a report tells of what was sent, and lists of it.

use wire_base::{Bytes, Sequence};

/// What a line of a report tells of what was sent. Nodes are numbered from 1 to 255, lines of schedules and packets from 1 to
/// 4,294,967,295. A datagram and a frame have 1 to 65,507 bytes.
#[derive(Drop)]
pub enum Entry {
    /// In a line of the schedule this packet went from a node to a node: what UDP carried.
    Datagram {
        line: u32,
        packet: u32,
        from: u8,
        to: u8,
        bytes: Bytes,
    },
    /// In a line of the schedule a node sent an Ethernet frame to a PPPoE host: its bytes, from the destination address on.
    Frame {
        line: u32,
        node: u8,
        bytes: Bytes,
    },
    /// The line tells of something else.
    Other,
}

/// What the lines of a report tell, in their order.
pub type Entries = Sequence<Entry>;
