//! LCP packets, and lists of configuration options (RFC 1661 sections 5 and 6).

use wire_base::{Bytes, Sequence};

/// An LCP packet (RFC 1661 section 5). On the wire it has the code, the identifier, a length in two bytes, the highest
/// first, which counts these four bytes too, and the body.
#[derive(Debug, Drop)]
pub struct Lcp {
    /// Code: the kind of packet, as 1 for a Configure-Request.
    pub code: u8,
    /// Identifier, by which a reply is matched to its request.
    pub id: u8,
    /// Data, from 0 to 65,531 bytes.
    pub body: Bytes,
}

/// A configuration option (RFC 1661 section 6). On the wire it has the type, a length in one byte, which counts these
/// two bytes too, and the value.
#[derive(Debug, Drop)]
pub struct LcpOption {
    /// Type, as 1 for the Maximum-Receive-Unit.
    pub kind: u8,
    /// Data, from 0 to 253 bytes.
    pub value: Bytes,
}

/// A list of configuration options, in the order in which they stand.
pub type Options = Sequence<LcpOption>;

/// Packets as bytes, in the order in which they are sent.
pub type Packets = Sequence<Bytes>;
