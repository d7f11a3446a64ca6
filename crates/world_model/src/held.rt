//! A frame that is carried beside an end.

use wire_base::{Bytes, Side};

/// A PPP frame that a node holds until it is handed up: all that what was seen of its session fixed as it came.
#[derive(Drop)]
pub struct Held {
    /// The call's local id at the node.
    pub session: u16,
    /// The birth of that call as the frame came.
    pub birth: u64,
    /// The tunnel's local id at the node.
    pub tunnel: u16,
    /// The address of the tunnel's other end.
    pub peer: u32,
    pub side: Side,
    /// From its protocol field on.
    pub frame: Bytes,
}
