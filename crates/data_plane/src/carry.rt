//! What becomes of a data message.

use wire_base::{Side, Why};

/// What becomes of a data message.
#[derive(Clone, Copy)]
pub enum Carry {
    /// Its frame goes up in the call with this local session id: the bytes of the datagram from a place to an end, from its
    /// protocol field on.
    Up {
        session: u16,
        side: Side,
        start: usize,
        end: usize,
    },
    /// It is dropped.
    Dropped {
        why: Why,
    },
}
