//! What the world counts of a tunnel.

/// How many letters a channel has taken, and how many of its own were acknowledged.
#[derive(Clone, Copy)]
pub struct Counts {
    pub taken: u64,
    pub acked: u64,
}

/// What the world counts of a tunnel, also while its node is down. An epoch of a tunnel begins with each reset of its channel, and the
/// first one is 0.
#[derive(Clone, Copy)]
pub struct Standing {
    /// The epoch that it entered last.
    pub epoch: u64,
    /// How many epochs were made of it and of the tunnel that it has learned.
    pub made: u64,
    /// Where its channel was lost and not reset since, what that had counted.
    pub lost: Option<Counts>,
}
