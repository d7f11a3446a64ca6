//! What a step of an end gives.

use wire_base::{Bytes, Cause, Side, Why};

/// The tunnel that sent a control message, and its numbers, which have no end, where those on the wire stand modulo
/// 65536.
#[derive(Clone, Copy)]
pub struct ControlOrigin {
    /// The local id of the tunnel that sent it, 0 where the end sent it for none.
    pub tunnel: u16,
    pub ns: u64,
    pub nr: u64,
    /// Whether it is an acknowledgement alone.
    pub empty: bool,
}

/// Which of its objects an end sent a datagram for. It isn't on the wire: the world keeps it beside the packet.
#[derive(Clone, Copy)]
pub enum Origin {
    /// A control message, or an acknowledgement alone.
    Control(ControlOrigin),
    /// A control message of a recovery tunnel, or an acknowledgement alone: its local id, and the number of the message.
    Recovery {
        tunnel: u16,
        number: u64,
        empty: bool,
    },
    /// A PPP frame of the call with this local session id.
    Data {
        session: u16,
    },
}

/// What a step gives to the outside, in order.
#[derive(Drop)]
pub enum Out {
    /// A datagram to a peer, an IPv4 address as a number.
    Send {
        peer: u32,
        bytes: Bytes,
        origin: Origin,
    },
    /// A PPP frame of the call with this local session id, from its protocol field on, is handed up.
    Up {
        session: u16,
        side: Side,
        frame: Bytes,
    },
    /// The call with this local session id, one of a table's, ended.
    Gone {
        session: u32,
    },
    /// The input is ignored.
    Drop {
        why: Why,
    },
    /// The cause of the refusal that follows, or of the refused event itself.
    Cause {
        cause: Cause,
    },
}
