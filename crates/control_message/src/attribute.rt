//! The attributes that are read and written (RFC 2661 section 4.4, RFC 4951 sections 5.1 to 5.4, and one of this
//! project's own).

pub const MESSAGE_TYPE: u16 = 0;

pub const RESULT_CODE: u16 = 1;

pub const PROTOCOL_VERSION: u16 = 2;

pub const FRAMING_CAPABILITIES: u16 = 3;

pub const HOST_NAME: u16 = 7;

pub const ASSIGNED_TUNNEL: u16 = 9;

pub const WINDOW: u16 = 10;

pub const CHALLENGE: u16 = 11;

pub const CHALLENGE_RESPONSE: u16 = 13;

pub const ASSIGNED_SESSION: u16 = 14;

pub const CALL_SERIAL_NUMBER: u16 = 15;

pub const FRAMING_TYPE: u16 = 19;

pub const CALLING_NUMBER: u16 = 22;

pub const CONNECT_SPEED: u16 = 24;

pub const CALL_ERRORS: u16 = 34;

pub const ACCM: u16 = 35;

pub const RANDOM_VECTOR: u16 = 36;

pub const SEQUENCING_REQUIRED: u16 = 39;

pub const FAILOVER: u16 = 76;

pub const RECOVERY: u16 = 77;

pub const SUGGESTED_SEQUENCE: u16 = 78;

pub const SESSION_STATE: u16 = 79;

/// The vendor of this project's own attribute.
pub const DRAW_VENDOR: u16 = 0xffff;

pub const DRAW_NUMBER: u16 = 1;
