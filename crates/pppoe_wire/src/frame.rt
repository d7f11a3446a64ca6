//! PPPoE frames, and lists of tags (RFC 2516 section 4 and appendix A).

use wire_base::{Bytes, Sequence};

/// A PPPoE frame in its Ethernet frame (RFC 2516 section 4). On the wire its head has twenty bytes, each number the
/// highest byte first: both addresses, the ethertype in two bytes, VER and TYPE in one, CODE in one, SESSION_ID in two
/// and LENGTH, which counts the payload, in two.
#[derive(Debug, Drop)]
pub struct Pppoe {
    /// DESTINATION_ADDR, in the order of the wire.
    pub dst: [u8; 6],
    /// SOURCE_ADDR, in the order of the wire.
    pub src: [u8; 6],
    /// Whether the ethertype is that of the session stage, 8864, and not that of discovery, 8863.
    pub session_stage: bool,
    /// CODE, as 09 for a PADI.
    pub code: u8,
    /// SESSION_ID.
    pub session: u16,
    /// How many bytes stand before the payload: 20 in every frame that is read. A frame is written without looking at it.
    pub start: usize,
    /// Where the payload ends. What stands behind it is padding. A frame is written without looking at it.
    pub end: usize,
    /// The payload, from 0 to 65,535 bytes: tags in discovery, and a PPP frame from its protocol field on in a session.
    pub payload: Bytes,
}

/// A tag (RFC 2516 appendix A). On the wire it has TAG_TYPE and TAG_LENGTH, in two bytes each, the highest first, and
/// TAG_VALUE; the length counts the value alone.
#[derive(Debug, Drop)]
pub struct Tag {
    /// TAG_TYPE, as 0101 for a Service-Name. It isn't 0000 in a tag that is read, which is End-Of-List.
    pub kind: u16,
    /// TAG_VALUE, from 0 to 65,535 bytes.
    pub value: Bytes,
}

/// A list of tags, in the order in which they stand.
pub type Tags = Sequence<Tag>;
