//! How a node ends.

ghost use Rattle.std.specs.Prelude.{◌≡◌};
ghost use Rattle.node_top.specs.Exits.{status_of};

/// How a node ends.
#[derive(Clone, Copy, PartialEq, Eq)]
pub enum NodeExit {
    /// All turns were made, or a text was asked for.
    Ok,
    /// The words are no command.
    Usage,
    /// The sink failed.
    WriteFault,
    /// The file of the store isn't a journal of this kind and node, or has a content that isn't in place: the first place, in bytes, that
    /// tells.
    NotJournal { at: u64 },
    /// The disk failed.
    StoreFault,
    /// The link failed.
    LinkFault,
    /// The Ethernet port failed.
    EtherFault,
    /// The uplink failed.
    UplinkFault,
    /// The store has so many records, and no room for those of a step.
    StoreFull { records: u32 },
    /// Memory was wanting.
    NoMemory,
}

impl NodeExit {
    /// The status of the process.
    pub fn status(&self) -> u8
        ensures { result ≡ status_of self.now }
    {
        match self {
            NodeExit::Ok => 0,
            NodeExit::Usage => 1,
            NodeExit::WriteFault => 6,
            NodeExit::NotJournal { .. } => 8,
            NodeExit::StoreFault => 9,
            NodeExit::LinkFault => 10,
            NodeExit::EtherFault => 11,
            NodeExit::UplinkFault => 12,
            NodeExit::StoreFull { .. } => 13,
            NodeExit::NoMemory => 20,
        }
    }
}
