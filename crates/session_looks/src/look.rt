//! What the data plane sees of sessions, and how that changes.

use wire_base::Sequence;

/// What the data plane sees of a session id.
#[derive(Clone, Copy)]
pub enum Look {
    /// No call that the other end knows has it.
    Unborn,
    /// The other end knows the call, and frames of the network don't pass yet: at a LAC it isn't established, at an LNS LCP was
    /// never open in it.
    Bound { tunnel: u16, peer: u32 },
    /// The call is established, at an LNS by LCP: all frames pass.
    Established { tunnel: u16, peer: u32 },
    /// The call ended.
    Dead,
}

/// What a step changes in the looks.
#[derive(Clone, Copy)]
pub enum CellChange {
    /// The other end comes to know the call: it goes to this peer, in the tunnel with this local id.
    Bind {
        session: u16,
        tunnel: u16,
        peer: u32,
    },
    /// Frames of the network pass from now on.
    Establish {
        session: u16,
    },
    /// The call ended. Its id is one of a table's.
    Kill {
        session: u32,
    },
}

/// Changes of looks, in order.
pub type CellChanges = Sequence<CellChange>;
