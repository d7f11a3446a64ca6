//! The types of tags (RFC 2516 appendix A).

/// Service-Name: the service that is asked for or offered.
pub const SERVICE_NAME: u16 = 0x0101;

/// AC-Name: the name of the access concentrator.
pub const AC_NAME: u16 = 0x0102;

/// Host-Uniq: what a host writes into a request, and gets back as it was.
pub const HOST_UNIQ: u16 = 0x0103;

/// AC-Cookie: what the access concentrator writes into a PADO, and wants back in the PADR.
pub const AC_COOKIE: u16 = 0x0104;

/// Relay-Session-Id: what a relay writes into a request, and gets back as it was.
pub const RELAY_SESSION_ID: u16 = 0x0110;

/// Service-Name-Error: no such service is offered.
pub const SERVICE_NAME_ERROR: u16 = 0x0201;

/// AC-System-Error: the access concentrator can't serve the request.
pub const AC_SYSTEM_ERROR: u16 = 0x0202;

/// Generic-Error: any other fault.
pub const GENERIC_ERROR: u16 = 0x0203;
