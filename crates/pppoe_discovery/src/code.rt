//! The codes of frames (RFC 2516 sections 5 and 6).

/// A host asks who offers a service.
pub const PADI: u8 = 0x09;

/// An access concentrator offers it.
pub const PADO: u8 = 0x07;

/// A host asks for a session.
pub const PADR: u8 = 0x19;

/// An access concentrator opens one, or refuses.
pub const PADS: u8 = 0x65;

/// A session has ended.
pub const PADT: u8 = 0xa7;

/// A frame of a session.
pub const SESSION: u8 = 0;
