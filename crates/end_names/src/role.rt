//! The two kinds of ends.

/// Which end of a tunnel a node is (RFC 2661 section 1.2).
#[derive(Clone, Copy)]
pub enum Role {
    /// The access concentrator, which opens tunnels.
    Lac,
    /// The network server.
    Lns,
}
