//! What the world keeps of a datagram.

use end_model::Origin;
use wire_base::Bytes;

/// A datagram that was sent, with what the world keeps beside it.
#[derive(Drop)]
pub struct Packet {
    /// The number of the node that sent it.
    pub from: u8,
    /// The number of the node that it is for.
    pub to: u8,
    pub bytes: Bytes,
    pub origin: Origin,
    /// The epoch in which its tunnel was as it sent it: 0 for what no tunnel sent, for a recovery tunnel's, and for data.
    pub epoch: u64,
}
