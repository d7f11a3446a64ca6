//! Why a pool ends.

ghost use Rattle.std.specs.Prelude.{◌≡◌};
ghost use Rattle.node_pool.specs.Exits.{fault_of_stop, refusal_of, turn_fault, pool_fault};

use node_run::NodeFault;
use pool_serving::PoolFault;
use port_events::TurnFault;
use step_hub::Stop;

fn fault_of_stop(stop: Stop) -> NodeFault
    ensures { result ≡ fault_of_stop stop }
{
    match stop {
        Stop::Fault => NodeFault::StoreFault,
        Stop::Full { records, .. } => NodeFault::StoreFull { records },
    }
}

/// Of a turn that was refused, or memory that was wanting: the hub's stop goes before that.
fn refusal_of(stop: Option<Stop>) -> NodeFault
    ensures { result ≡ refusal_of stop }
{
    match stop {
        Some(stop) => fault_of_stop(stop),
        None => NodeFault::NoMemory,
    }
}

/// And a fault of a port before both.
fn turn_fault(fault: PoolFault, stop: Option<Stop>) -> NodeFault
    ensures { result ≡ turn_fault fault stop }
{
    match fault {
        TurnFault::LinkFault => NodeFault::LinkFault,
        TurnFault::EtherFault => NodeFault::EtherFault,
        TurnFault::UplinkFault => NodeFault::UplinkFault,
        TurnFault::NoMemory | TurnFault::Stopped { .. } => refusal_of(stop),
    }
}

/// Why a pool ends: a fault of a port goes before the hub's stop, and that before a turn that was refused or memory that was wanting.
pub(crate) fn pool_fault(fault: Option<PoolFault>, stop: Option<Stop>) -> Option<NodeFault>
    ensures { result ≡ pool_fault fault stop }
{
    match fault {
        Some(fault) => Some(turn_fault(fault, stop)),
        None => match stop {
            Some(stop) => Some(fault_of_stop(stop)),
            None => None,
        },
    }
}
