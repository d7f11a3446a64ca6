//! How a command ends.

ghost use Rattle.std.specs.Prelude.{◌≡◌};
ghost use Rattle.l2tp_cli.specs.Exits.{status_of};

use wire_base::Why;

/// How a command ends.
#[derive(Clone, Copy, PartialEq, Eq)]
pub enum Exit {
    Ok,
    /// The words are no command.
    Usage,
    /// The first line of the text that is outside the grammar, counted from 1.
    BadLine {
        line: u64,
    },
    /// The first line that doesn't fit, counted from 1, and why.
    Unfit {
        line: u64,
        why: Why,
    },
    /// The first line that delivers a packet which has outlived half of the numbers of its channel, counted from 1: an Ns or
    /// Nr of the packet, without an end, and how many messages the tunnel that it is for has taken, or has acknowledged.
    HalfSpace {
        line: u64,
        number: u64,
        count: u64,
    },
    /// The first line that delivers a packet which was sent before the last reset of the tunnel that it is for, counted from 1: the epoch
    /// in which it was sent, and the one that the tunnel is in.
    Stale {
        line: u64,
        packet_epoch: u64,
        own_epoch: u64,
    },
    /// A node's checkpoint has so many records, and no room for those of the step of a line.
    StoreFull {
        records: u32,
    },
    /// The source failed.
    ReadFault,
    /// The sink failed.
    WriteFault,
    /// The text passes a limit; so many lines are begun there.
    TooLong {
        lines: u64,
    },
    /// Memory was wanting, or a node's disk had another number of records behind a stop than was due.
    NoMemory,
}

impl Exit {
    /// The status of the process.
    pub fn status(&self) -> u8
        ensures { result ≡ status_of self.now }
    {
        match self {
            Exit::Ok => 0,
            Exit::Usage => 1,
            Exit::BadLine { .. } => 2,
            Exit::Unfit { .. } => 3,
            Exit::HalfSpace { .. } | Exit::Stale { .. } => 4,
            Exit::ReadFault => 5,
            Exit::WriteFault => 6,
            Exit::TooLong { .. } => 7,
            Exit::StoreFull { .. } => 13,
            Exit::NoMemory => 20,
        }
    }
}
