//! What comes to an end.

use l2tp_datagram::Datagram;
use wire_base::{Bytes, Why};

/// What comes to an end.
#[derive(Drop)]
pub enum Event {
    /// A datagram from a peer, an IPv4 address as a number.
    Datagram { peer: u32, datagram: Datagram },
    /// A port of a LAC rings.
    Ring { port: u16 },
    /// An Ethernet frame comes to a LAC, from its destination address on.
    Frame { bytes: Bytes },
    /// A PPPoE host at this Ethernet address was admitted, and wants a call. A LAC gives it to itself.
    Admitted { mac: [u8; 6] },
    /// The subscriber of a LAC's call sends a PPP frame, from its protocol field on.
    Payload { session: u16, frame: Bytes },
    /// The network sends a PPP frame down an LNS's call, from its protocol field on.
    Lower { session: u16, frame: Bytes },
    /// An LCP packet came up an LNS's call, from its PPP protocol field on. A datagram with such a packet makes it too.
    Lcp { session: u16, packet: Bytes },
    /// The subscriber of a LAC's call leaves.
    Hang { session: u16 },
    /// An administrative open of a tunnel.
    OpenTunnel,
    /// An administrative close of a call.
    DropCall { session: u16 },
    /// An administrative close of the tunnel with this local id.
    CloseTunnel { tunnel: u16 },
    /// Time has passed: what is due is done.
    Tick,
}

/// What a control message that comes is for.
#[derive(Clone, Copy)]
pub enum Addressee {
    /// A tunnel that is to be made, to which the peer assigned this id.
    Opens { remote: u16 },
    /// The tunnel to which the peer assigned this id, which it closes.
    Stops { remote: u16 },
    /// None: an SCCRP that names no tunnel, and tells this id.
    Answers { remote: u16 },
    /// The tunnel with this local id.
    Main { tunnel: u32 },
    /// The recovery tunnel of the tunnel with this local id.
    Recovery { tunnel: u32 },
    /// A tunnel that is to be recovered, by a recovery tunnel to which the peer assigned this id.
    Recovers { remote: u16 },
    /// None: the message is ignored.
    Nobody { why: Why },
}
