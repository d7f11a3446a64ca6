//! What the words of a node ask for.

use std::alloc::AllocError;
use wire_base::{Bytes, NoMemory as OutOfMemory};

/// How a node is to run. Addresses are IPv4 addresses as numbers: 127.0.0.1 is 0x7f000001.
#[derive(Drop)]
pub struct Plan {
    /// Whether it is a LAC; else it is an LNS.
    pub lac: bool,
    /// The node's number, from 1 to 255.
    pub number: u8,
    /// The address that it listens on.
    pub listen: u32,
    /// The address of its LNS, which a LAC has.
    pub peer: Option<u32>,
    /// The path of its checkpoint.
    pub store: String,
    /// How many turns it makes, at most 2^63 - 1.
    pub turns: u64,
    /// The secret of its tunnels, of 1 to 64 bytes.
    pub secret: Option<Bytes>,
    /// Whether it hides calling numbers, which needs a secret.
    pub hide: bool,
    /// Whether it opens a tunnel before its first turn.
    pub opens: bool,
    /// The UDP port, from 1 to 65535, of this end and of each other one.
    pub port: u16,
    /// The path of the socket of its Ethernet port.
    pub ether: Option<String>,
    /// The path of the socket of its uplink.
    pub uplink: Option<String>,
    /// The path of the file that its seed is read from.
    pub seed: Option<String>,
    /// How many workers a pool has, from 1 to 64.
    pub workers: u32,
}

/// Why words are no plan.
#[derive(Clone, Copy, PartialEq, Eq)]
pub enum PlanError {
    /// They aren't the command's form.
    Usage,
    NoMemory,
}

impl From<AllocError> for PlanError {
    ghost use Rattle.std.specs.Prelude.{◌≡◌};
    ghost use Rattle.node_words.specs.declared.plan.PlanError.TheVariants.{NoMemory};

    ghost from_gives = { λ _ e. e ≡ NoMemory };

    fn from(_e: AllocError) -> PlanError {
        PlanError::NoMemory
    }
}

impl From<OutOfMemory> for PlanError {
    ghost use Rattle.std.specs.Prelude.{◌≡◌};
    ghost use Rattle.node_words.specs.declared.plan.PlanError.TheVariants.{NoMemory};

    ghost from_gives = { λ _ e. e ≡ NoMemory };

    fn from(_e: OutOfMemory) -> PlanError {
        PlanError::NoMemory
    }
}
