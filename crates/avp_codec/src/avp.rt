//! Attribute value pairs, and lists of them (RFC 2661 section 4.1).

use wire_base::{Bytes, Sequence};

/// An attribute value pair. On the wire its head has six bytes, each number the highest byte first: a word of two flags,
/// four reserved bits and the length in ten bits, then the vendor, then the attribute.
#[derive(Debug, Drop)]
pub struct Avp {
    /// M: an end that doesn't recognise the pair refuses the message.
    pub mandatory: bool,
    /// H: the value is hidden by a secret (RFC 2661 section 4.3).
    pub hidden: bool,
    /// The four reserved bits, as a number from 0 to 15. It is 0 in a pair that is made; one with another number is
    /// unrecognised, and is written again as it was read.
    pub reserved: u8,
    /// Vendor ID, which is 0 for the attributes of the IETF.
    pub vendor: u16,
    /// Attribute Type.
    pub attribute: u16,
    /// The value as it stands on the wire, from 0 to 1,017 bytes.
    pub value: Bytes,
}

/// A list of attribute value pairs, in the order in which they stand.
pub type Avps = Sequence<Avp>;
