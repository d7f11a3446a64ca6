//! The entries of the log.

/// A change of one cell. The code keeps no list of them. `draw` is how often the session's id was drawn before; each id is drawn
/// once, so it is 0.
#[derive(Clone, Copy)]
pub enum Entry {
    /// The session is of a call in this tunnel, by its local id, to this peer, an IPv4 address as a number.
    Bind {
        session: u16,
        draw: u16,
        tunnel: u16,
        peer: u32,
    },
    /// Frames of the network pass.
    Establish {
        session: u16,
        draw: u16,
    },
    /// The call ended.
    Kill {
        session: u16,
        draw: u16,
    },
}
