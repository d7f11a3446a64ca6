//! The lines of a schedule, and lists of them.

use wire_base::{Bytes, Sequence};

/// A line of a schedule. Nodes are numbered from 1 to 255, and packets from 1 to 4,294,967,295, in the order in which
/// they were sent.
///
/// A line may hold a secret, so it has no `Debug`: what it holds can't be written by accident.
#[derive(Drop)]
pub enum Line {
    /// A remark, which means nothing: the bytes behind the `#`, each of which is printable ASCII.
    Remark {
        text: Bytes,
    },
    /// A node that is a LAC, the node of the LNS that it opens tunnels to, the secret that it shares with it, of 1 to 64 bytes,
    /// if there is one, and whether it hides its calling numbers by the secret (RFC 2661 section 4.3), which needs one.
    Lac {
        node: u8,
        lns: u8,
        secret: Option<Bytes>,
        hide: bool,
    },
    /// A node that is an LNS, and the secret that it shares with its LACs, of 1 to 64 bytes, if there is one.
    Lns {
        node: u8,
        secret: Option<Bytes>,
    },
    /// A LAC opens a tunnel.
    OpenUp {
        node: u8,
    },
    /// An administrative close of a node's tunnel.
    Close {
        node: u8,
        tunnel: u16,
    },
    /// A port of a LAC rings, from 1 to 65535.
    Ring {
        node: u8,
        port: u16,
    },
    /// The subscriber of a LAC's call sends a PPP frame of 2 to 1494 bytes, from its protocol field on.
    FromSub {
        node: u8,
        session: u16,
        frame: Bytes,
    },
    /// The network sends a PPP frame of 2 to 1494 bytes down an LNS's call, from its protocol field on.
    Down {
        node: u8,
        session: u16,
        frame: Bytes,
    },
    /// The subscriber of a LAC's call leaves.
    Hang {
        node: u8,
        session: u16,
    },
    /// An administrative close of a node's call.
    DropCall {
        node: u8,
        session: u16,
    },
    /// An Ethernet frame of 1 to 2048 bytes comes to a LAC, from its destination address on.
    Frame {
        node: u8,
        bytes: Bytes,
    },
    /// A packet that was sent reaches its addressee.
    Deliver {
        packet: u32,
    },
    /// Whoever carries data beside a node's end looks at what is known of the session of a packet for it, and holds its frame.
    Load {
        node: u8,
        packet: u32,
    },
    /// A frame that is held at a node is handed up, by its number, from 1 to 4,294,967,295.
    Hand {
        node: u8,
        number: u32,
    },
    /// A node's clock goes on by so many milliseconds, from 0 to 86,400,000, and then ticks.
    Tick {
        node: u8,
        milliseconds: u32,
    },
    /// A node crashes: all but what its end committed is lost.
    Crash {
        node: u8,
    },
    /// A node is going to stop inside a commit, counted from the next one on, from 1 to 255, at one of the calls that a commit
    /// makes of its device, from 1 to 4. What is committed there is kept, which needs call 3 or 4, or it is lost.
    Stop {
        node: u8,
        commit: u8,
        call: u8,
        kept: bool,
    },
    /// A node that is down starts again over what its end committed.
    Start {
        node: u8,
    },
}

/// A list of lines, in their order.
pub type Lines = Sequence<Line>;
