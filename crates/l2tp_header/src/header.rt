//! Headers, and why bytes have none.

/// The header of a datagram (RFC 2661 section 3.1). Numbers on the wire have their highest byte first.
#[derive(Clone, Copy, Debug)]
pub struct Header {
    /// Whether the body is a control message, and not a frame.
    pub control: bool,
    /// The tunnel id that the receiver assigned, or 0.
    pub tunnel: u16,
    /// The session id that the receiver assigned, or 0.
    pub session: u16,
    /// The sequence number of the message, where the header has one.
    pub ns: Option<u16>,
    /// The sequence number that the sender expects next, where the header has one.
    pub nr: Option<u16>,
    /// How many bytes stand before the body.
    pub start: usize,
    /// Where the body ends. What stands in the datagram behind it is ignored.
    pub end: usize,
}

/// The first fault of a datagram's header.
#[derive(Clone, Copy, Debug)]
pub enum HeaderError {
    /// Fewer bytes than the first word, or than the fields that its flags name, the offset's bytes included.
    Short,
    /// The version isn't 2.
    Version { seen: u8 },
    /// T is set, and not L and S with it, or O or P with it.
    ControlFlags { word: u16 },
    /// The length said is less than the header has, or more than the datagram has.
    Length { said: usize, have: usize },
}
