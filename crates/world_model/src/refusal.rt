//! Why a line of a schedule is refused.

use wire_base::Why;

/// Why a line of a schedule is refused, and the run ends there.
#[derive(Clone, Copy, Debug, PartialEq, Eq)]
pub enum Refusal {
    /// The line doesn't fit the world.
    Unfit { why: Why },
    /// The packet has outlived half of the numbers of a control channel (RFC 2661 section 5.8): its Ns, or its Nr, without
    /// an end, is more than 32,767 below how many messages the tunnel that it is for has taken, or has acknowledged.
    HalfSpace { number: u64, count: u64 },
    /// The packet was sent before the last reset of the tunnel that it is for: its own tunnel sent it in an earlier epoch.
    Stale { packet_epoch: u64, own_epoch: u64 },
    /// A node's checkpoint has so many records, and no room for those of its step: it has 1,048,576 at most.
    StoreFull { records: u32 },
}
