ghost use Rattle.std.specs.Prelude.{◌≡◌};
ghost use Rattle.session_cells.specs.Tokens.{IsOf, count_of};

use crate::MemoryHub;
use crate::messages::{ICCN, ICRQ, SCCCN, SCCRQ, from_peer, lns};
use end_model::Role;
use locked_tunnels::{KeptTunnel, tunnel_turn};
use session_cells::{CellSeen, Cells};
use session_looks::{CellChanges, Look};
use std::alloc::Global;
use std::test::Fail;
use step_hub::StepError;
use tunnel_core::TunnelCore;
use wire_base::NoMemory;

/// The LAC 9 at 10.0.0.9.
const PEER: u32 = 0x0a00_0009;

/// A message of the LAC comes to the tunnel: whether its turn is made, is told its moment, and gives something.
fn hears(
    alloc: Global,
    kept: &mut KeptTunnel,
    cells: &Cells,
    seen: &mut CellSeen,
    hub: &mut MemoryHub,
    digits: &str,
) -> Result<bool, NoMemory>
    requires { (count_of cells.now ≡ 65536) × IsOf cells.now seen.old }
    ensures { IsOf cells.now seen.new }
{
    let event = from_peer(alloc, PEER, digits)?;
    if kept.is_gone() {
        return Ok(false);
    }
    match tunnel_turn(kept, cells, seen, hub, 10, [7; 16], &event) {
        Ok(turned) => Ok(turned.moment() == 10 && turned.outputs().len() > 0),
        Err(_) => Ok(false),
    }
}

#[test]
fn a_tunnel_comes_up_with_a_call(rt: HostRuntime) -> Result<(), Fail> {
    let alloc = rt.alloc();
    let (cells, mut seen) = Cells::open_cells(alloc, 65_536)?;
    let mut hub = MemoryHub::new(alloc, lns(), false);
    let core = TunnelCore::idle(alloc, PEER, 0);
    let mut kept = KeptTunnel::new(alloc, Role::Lns, core, CellChanges::new(alloc));
    assert!(rt; hears(alloc, &mut kept, &cells, &mut seen, &mut hub, SCCRQ)?);
    assert!(rt; hears(alloc, &mut kept, &cells, &mut seen, &mut hub, SCCCN)?);
    assert!(rt; hears(alloc, &mut kept, &cells, &mut seen, &mut hub, ICRQ)?);
    assert!(rt; hears(alloc, &mut kept, &cells, &mut seen, &mut hub, ICCN)?);
    assert_eq!(rt; kept.core().control().local, 1);
    assert_eq!(rt; kept.core().control().remote, 0x1234);
    assert!(rt;
        matches!(
            cells.lookup(&mut seen, 1),
            Look::Bound {
                tunnel: 1,
                peer: PEER
            }
        )
    );
    // two ceilings, the tunnel and the call
    assert_eq!(rt; hub.records(), 4);
    Ok(())
}

#[test]
fn a_turn_that_the_store_refuses_leaves_all_as_it_was(rt: HostRuntime) -> Result<(), Fail> {
    let alloc = rt.alloc();
    let (cells, mut seen) = Cells::open_cells(alloc, 65_536)?;
    let mut hub = MemoryHub::new(alloc, lns(), true);
    let core = TunnelCore::idle(alloc, PEER, 0);
    let mut kept = KeptTunnel::new(alloc, Role::Lns, core, CellChanges::new(alloc));
    let event = from_peer(alloc, PEER, SCCRQ)?;
    let first = tunnel_turn(&mut kept, &cells, &mut seen, &mut hub, 10, [7; 16], &event);
    assert!(rt; matches!(first, Err(StepError::StoreFault)));
    assert_eq!(rt; kept.core().control().local, 0);
    let second = tunnel_turn(&mut kept, &cells, &mut seen, &mut hub, 20, [7; 16], &event);
    assert!(rt; matches!(second, Err(StepError::Halted)));
    assert_eq!(rt; hub.records(), 0);
    Ok(())
}
