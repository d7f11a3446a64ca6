//! What waits for a worker.

use session_cells::CellSeen;
use wire_base::Bytes;

/// A datagram that waits for a worker, with what its caller had seen of the cells.
#[derive(Drop)]
pub struct Item {
    pub seen: CellSeen,
    /// Whether it came to an LNS, otherwise to a LAC.
    pub lns: bool,
    /// The IPv4 address that it came from, as a number.
    pub peer: u32,
    pub bytes: Bytes,
    /// When it came, in milliseconds.
    pub now: u64,
    /// Random bytes for what it brings about.
    pub block: [u8; 16],
}

/// An item with the number that it was given, from 1 on.
#[derive(Drop)]
pub struct Numbered {
    pub number: u64,
    pub item: Item,
}
