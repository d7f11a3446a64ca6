ghost use Rattle.std.specs.Prelude.{◌≡◌};
ghost use Rattle.session_cells.specs.Tokens.{IsOf, count_of};
ghost use Rattle.session_workers.specs.Passes.{IsPassIn, IsOpener};

use crate::shared::*;
use data_plane::Carry;
use end_model::{Event, Out, Role};
use l2tp_datagram::Datagram;
use locked_examples::MemoryHub;
use locked_tunnels::{KeptTunnel, tunnel_turn};
use session_cells::{CellSeen, Cells};
use session_looks::CellChanges;
use session_workers::*;
use std::alloc::Global;
use std::process::Abort;
use std::sync::Wait;
use std::test::*;
use step_hub::{Hub, StepError};
use tunnel_core::TunnelCore;
use wire_base::{Bytes, NoMemory, Side};

/// What the LNS answers to the SCCRQ: an SCCRP, which assigns the tunnel id 1.
const SCCRP: &str =
    "c802004c000100000000000180080000000000028008000000020100800a0000000300000003800a000000076c6e7332800800000009000180080000000a0008000c0000004c000300007530";

/// An SCCCN, and its acknowledgement.
const SCCCN: &str = "c802001400010000000100018008000000000003";

const OPEN: &str = "c802000c0001000000010002";

/// An ICRQ, and what the LNS answers: an ICRP, which assigns the session id 1.
const ICRQ: &str =
    "c80200380001000000020001800800000000000a80080000000e0001800a0000000f00000001801200000016666666663030303030303031";

const ICRP: &str = "c802001c0001000100010003800800000000000b80080000000e0001";

/// An ICCN, and what the LNS answers: the first request of its LCP, and an acknowledgement.
const ICCN: &str =
    "c80200280001000100030002800800000000000c800a0000001805f5e100800a0000001300000001";

const REQUEST: &str = "000200010001ff03c0210101000e010405d4050600000009";

const CONNECTED: &str = "c802000c0001000000020004";

/// An LCP request of the subscriber.
const LCP: &str = "000200010001ff03c0210101000a050611223344";

/// Whether the k-th output of an item's turn sends these bytes to the LAC, where k counts from 0.
fn sends(finished: &Finished, k: usize, bytes: &[u8]) -> bool {
    let Done::Turned { turned } = &finished.done else {
        return false;
    };
    match turned.outputs().lend(k) {
        Some(
            Out::Send {
                peer,
                bytes: sent,
                ..
            },
        ) => *peer == PEER && sent.as_slice() == bytes,
        _ => false,
    }
}

/// Puts a datagram, works it, hands it over and collects it. Nothing comes where memory is wanting.
fn through<W: Wait, H: Hub>(
    rt: &W,
    alloc: Global,
    shared: &Shared<H>,
    pass: &mut Pass,
    digits: &str,
) -> Option<Finished>
    requires { IsPassIn shared.now pass.old × IsOpener pass.old }
    ensures { IsPassIn shared.now pass.new × IsOpener pass.new }
{
    if put_one(rt, alloc, shared, pass, digits) != 0 {
        return None;
    }
    let _ = work(rt, shared, pass, &Open);
    collect(rt, shared, pass)
}

/// Whether the k-th output of the turn of a datagram sends these bytes to the LAC.
fn answers<W: Wait, H: Hub>(
    rt: &W,
    alloc: Global,
    shared: &Shared<H>,
    pass: &mut Pass,
    digits: &str,
    k: usize,
    answer: &str,
) -> bool
    requires { IsPassIn shared.now pass.old × IsOpener pass.old }
    ensures { IsPassIn shared.now pass.new × IsOpener pass.new }
{
    let Ok(bytes) = hex::decode(alloc, answer) else {
        return false;
    };
    match through(rt, alloc, shared, pass, digits) {
        None => false,
        Some(finished) => sends(&finished, k, bytes.as_slice()),
    }
}

#[test]
fn a_control_message_brings_about_its_turn(rt: HostRuntime) -> Result<(), Fail> {
    let alloc = rt.alloc();
    let (shared, mut pass) = open_lns(alloc, None, memory_hub(alloc, false))?;
    assert!(rt; answers(&rt, alloc, &shared, &mut pass, SCCRQ, 0, SCCRP));
    assert!(rt; answers(&rt, alloc, &shared, &mut pass, SCCCN, 0, OPEN));
    assert!(rt; answers(&rt, alloc, &shared, &mut pass, ICRQ, 0, ICRP));
    // its session isn't born yet, so its frame is dropped
    let early = through(&rt, alloc, &shared, &mut pass, LCP).ok_or("no memory")?;
    assert!(rt;
        matches!(
            early.done,
            Done::Carried {
                carry: Carry::Dropped { .. }
            }
        )
    );
    assert!(rt; answers(&rt, alloc, &shared, &mut pass, ICCN, 0, REQUEST));
    // a repeated one is acknowledged again
    assert!(rt; answers(&rt, alloc, &shared, &mut pass, ICCN, 0, CONNECTED));
    let up = through(&rt, alloc, &shared, &mut pass, LCP).ok_or("no memory")?;
    assert!(rt;
        matches!(
            up.done,
            Done::Carried {
                carry: Carry::Up {
                    session: 1,
                    side: Side::Lcp,
                    start: 8,
                    end: 20
                }
            }
        )
    );
    // two ceilings, the tunnel and the call
    assert_eq!(rt; shared.into_hub().records(), 4);
    Ok(())
}

#[test]
fn a_turn_that_the_store_refuses_comes_back(rt: HostRuntime) -> Result<(), Fail> {
    let alloc = rt.alloc();
    let (shared, mut pass) = open_lns(alloc, None, memory_hub(alloc, true))?;
    assert!(rt; establish(&shared, &mut pass));
    let first = through(&rt, alloc, &shared, &mut pass, SCCRQ).ok_or("no memory")?;
    assert!(rt;
        matches!(
            first.done,
            Done::Failed {
                error: StepError::StoreFault
            }
        )
    );
    let second = through(&rt, alloc, &shared, &mut pass, SCCRQ).ok_or("no memory")?;
    assert!(rt;
        matches!(
            second.done,
            Done::Failed {
                error: StepError::Halted
            }
        )
    );
    // frames go up as before
    let frame = through(&rt, alloc, &shared, &mut pass, IP).ok_or("no memory")?;
    assert_eq!(rt; told(&frame), (3, 1));
    assert_eq!(rt; shared.into_hub().records(), 0);
    Ok(())
}

/// A message of the LAC comes to a tunnel that no other thread knows: whether its turn is made.
fn hears(
    alloc: Global,
    kept: &mut KeptTunnel,
    cells: &Cells,
    seen: &mut CellSeen,
    hub: &mut MemoryHub,
    digits: &str,
) -> Result<bool, NoMemory>
    requires { (count_of cells.now ≡ 65536) × IsOf cells.now seen.old }
    ensures { IsOf cells.now seen.new }
{
    let Ok(bytes) = hex::decode(alloc, digits) else {
        return Err(NoMemory);
    };
    let bytes = Bytes::from_slice(alloc, bytes.as_slice())?;
    let event = Event::Datagram {
        peer: PEER,
        datagram: Datagram::read(alloc, bytes),
    };
    if kept.is_gone() {
        return Ok(false);
    }
    Ok(tunnel_turn(kept, cells, seen, hub, 10, BLOCK, &event).is_ok())
}

/// A tunnel with a call, of which its last turn bound the session.
fn tunnel_with_call(alloc: Global) -> Result<Option<KeptTunnel>, NoMemory> {
    let (cells, mut seen) = Cells::open_cells(alloc, 65_536)?;
    let mut hub = memory_hub(alloc, false);
    let core = TunnelCore::idle(alloc, PEER, 0);
    let mut kept = KeptTunnel::new(alloc, Role::Lns, core, CellChanges::new(alloc));
    let all = hears(alloc, &mut kept, &cells, &mut seen, &mut hub, SCCRQ)?
        && hears(alloc, &mut kept, &cells, &mut seen, &mut hub, SCCCN)?
        && hears(alloc, &mut kept, &cells, &mut seen, &mut hub, ICRQ)?
        && hears(alloc, &mut kept, &cells, &mut seen, &mut hub, ICCN)?;
    Ok(all.then_some(kept))
}

#[test]
fn a_tunnel_that_was_kept_goes_on(rt: HostRuntime) -> Result<(), Fail> {
    let alloc = rt.alloc();
    let kept = tunnel_with_call(alloc)?.ok_or("no tunnel")?;
    let (shared, mut pass) = open_lns(alloc, Some(kept), memory_hub(alloc, false))?;
    // its session is bound, and its tunnel is found
    let up = through(&rt, alloc, &shared, &mut pass, LCP).ok_or("no memory")?;
    assert_eq!(rt; told(&up), (1, 1));
    assert!(rt; answers(&rt, alloc, &shared, &mut pass, ICCN, 0, CONNECTED));
    Ok(())
}
