//! What a frame leads to.

use wire_base::{Bytes, Cause, Why};

/// What a frame leads to at an access concentrator (RFC 2516 sections 5 and 6). Addresses are in the order of the wire.
#[derive(Debug, Drop)]
pub enum Discovered {
    /// Nothing is sent.
    Ignored {
        why: Why,
    },
    /// A whole Ethernet frame without padding is to be sent: a PADO, or with a cause the PADS that refuses a PADR.
    Reply {
        cause: Option<Cause>,
        frame: Bytes,
    },
    /// A PADR is good, and a session may be opened for it. `write_pads` answers it.
    Admit {
        /// The host's address.
        src: [u8; 6],
        /// The Service-Name: empty, or l2tp.
        service: Bytes,
        /// The Host-Uniq, where one came.
        uniq: Option<Bytes>,
        /// The Relay-Session-Id, where one came.
        relay: Option<Bytes>,
    },
    /// A PADT: whoever sent it says that the session has ended (RFC 2516 section 5.5).
    Left {
        src: [u8; 6],
        session: u16,
    },
    /// A frame of a session. Its PPP frame, from the protocol field on, stands in it from start up to end, counted in bytes
    /// from 0.
    Carried {
        src: [u8; 6],
        session: u16,
        start: usize,
        end: usize,
    },
}
