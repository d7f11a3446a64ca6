//! Why a node ends.

ghost use Rattle.std.specs.Prelude.{◌≡◌};
ghost use Rattle.node_run.specs.Faults.{of_stop, node_fault};

use crate::end::NodeStop;
use end_store::StoreStop;
use port_events::TurnFault;

/// Why a node ends early. What it did until then stays done.
#[derive(Clone, Copy, PartialEq, Eq)]
pub enum NodeFault {
    /// The disk failed.
    StoreFault,
    /// The link failed.
    LinkFault,
    /// The Ethernet port failed.
    EtherFault,
    /// The uplink failed.
    UplinkFault,
    /// The store has so many records, and with those of the step that wasn't made they pass the limit.
    StoreFull { records: u32 },
    /// Memory was wanting.
    NoMemory,
}

/// Why the node ends, where its end stopped.
fn of_stop(stop: NodeStop) -> NodeFault
    ensures { result ≡ of_stop stop }
{
    match stop {
        NodeStop::Unsent => NodeFault::NoMemory,
        NodeStop::Store { stop } => match stop {
            StoreStop::StoreFault | StoreStop::Halted => NodeFault::StoreFault,
            StoreStop::StoreFull { records } => NodeFault::StoreFull { records },
            StoreStop::NoMemory => NodeFault::NoMemory,
        },
    }
}

/// Why the node ends, where a turn ended early.
pub(crate) fn node_fault(fault: TurnFault<NodeStop>) -> NodeFault
    ensures { result ≡ node_fault fault }
{
    match fault {
        TurnFault::LinkFault => NodeFault::LinkFault,
        TurnFault::EtherFault => NodeFault::EtherFault,
        TurnFault::UplinkFault => NodeFault::UplinkFault,
        TurnFault::NoMemory => NodeFault::NoMemory,
        TurnFault::Stopped { stop } => of_stop(stop),
    }
}
