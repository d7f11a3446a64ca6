//! The codes of LCP packets (RFC 1661 section 5).

pub(crate) const CONFIGURE_REQUEST: u8 = 1;

pub(crate) const CONFIGURE_ACK: u8 = 2;

pub(crate) const CONFIGURE_NAK: u8 = 3;

pub(crate) const CONFIGURE_REJECT: u8 = 4;

pub(crate) const TERMINATE_REQUEST: u8 = 5;

pub(crate) const TERMINATE_ACK: u8 = 6;

pub(crate) const CODE_REJECT: u8 = 7;

pub(crate) const PROTOCOL_REJECT: u8 = 8;

pub(crate) const ECHO_REQUEST: u8 = 9;

pub(crate) const ECHO_REPLY: u8 = 10;

pub(crate) const DISCARD_REQUEST: u8 = 11;
