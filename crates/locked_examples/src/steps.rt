//! What tests do with an end behind locks.

ghost use Rattle.std.specs.Prelude.{IfOk};
ghost use Rattle.session_cells.specs.Tokens.{IsOf};

use crate::MemoryHub;
use crate::messages::{ICCN, ICRQ, SCCCN, count_sent, for_call, from_peer, session_told};
use end_model::{Config, Event, Role};
use locked_tunnels::{Locked, Turned, tick_all, turn_one};
use session_cells::CellSeen;
use std::alloc::Global;
use std::sync::Wait;
use tunnel_core::Outputs;
use wire_base::{NoMemory, Sequence};

/// Two LACs, and the LNS of a LAC.
pub(crate) const ONE: u32 = 0x0a00_0009;

pub(crate) const TWO: u32 = 0x0a00_000a;

pub(crate) const LNS: u32 = 0x0a00_0007;

/// An end without a tunnel, over a hub in memory.
pub(crate) fn opened(
    alloc: Global,
    role: Role,
    lns: u32,
    config: Config,
) -> Result<(Locked<MemoryHub>, CellSeen), NoMemory>
    ensures { IfOk result (λ r. IsOf r.0.cells r.1) }
{
    opened_over(alloc, role, lns, MemoryHub::new(alloc, config, false))
}

/// The same over this hub.
pub(crate) fn opened_over(
    alloc: Global,
    role: Role,
    lns: u32,
    hub: MemoryHub,
) -> Result<(Locked<MemoryHub>, CellSeen), NoMemory>
    ensures { IfOk result (λ r. IsOf r.0.cells r.1) }
{
    match Locked::open(alloc, role, lns, hub) {
        Ok(opened) => Ok(opened),
        Err(_) => Err(NoMemory),
    }
}

/// What an event leads to at the moment 10, None where its turn is refused.
pub(crate) fn takes<W: Wait>(
    rt: &W,
    locked: &Locked<MemoryHub>,
    seen: &mut CellSeen,
    event: &Event,
) -> Option<Outputs>
    requires { IsOf locked.now.cells seen.old }
    ensures { IsOf locked.now.cells seen.new }
{
    takes_at(rt, locked, seen, 10, event)
}

/// The same at another moment.
pub(crate) fn takes_at<W: Wait>(
    rt: &W,
    locked: &Locked<MemoryHub>,
    seen: &mut CellSeen,
    moment: u64,
    event: &Event,
) -> Option<Outputs>
    requires { IsOf locked.now.cells seen.old }
    ensures { IsOf locked.now.cells seen.new }
{
    match turn_one(rt, locked, seen, moment, [7; 16], event) {
        Ok(turned) => Some(turned.into_outputs()),
        Err(_) => None,
    }
}

/// A message comes from a peer: how many datagrams are sent then.
pub(crate) fn hears<W: Wait>(
    rt: &W,
    alloc: Global,
    locked: &Locked<MemoryHub>,
    seen: &mut CellSeen,
    peer: u32,
    digits: &str,
) -> Result<Option<usize>, NoMemory>
    requires { IsOf locked.now.cells seen.old }
    ensures { IsOf locked.now.cells seen.new }
{
    let event = from_peer(alloc, peer, digits)?;
    match takes(rt, locked, seen, &event) {
        Some(outputs) => Ok(Some(count_sent(&outputs))),
        None => Ok(None),
    }
}

/// A tunnel that was opened comes up by the last message of its peer: whether that turn was made.
pub(crate) fn connects<W: Wait>(
    rt: &W,
    alloc: Global,
    locked: &Locked<MemoryHub>,
    seen: &mut CellSeen,
    peer: u32,
    tunnel: u16,
) -> Result<bool, NoMemory>
    requires { IsOf locked.now.cells seen.old }
    ensures { IsOf locked.now.cells seen.new }
{
    let event = for_call(alloc, peer, SCCCN, tunnel, 0)?;
    Ok(takes(rt, locked, seen, &event).is_some())
}

/// A tick: for how many tunnels something is due, and how many datagrams they send; None where it is refused.
pub(crate) fn ticks<W: Wait>(
    rt: &W,
    alloc: Global,
    locked: &Locked<MemoryHub>,
    seen: &mut CellSeen,
    moment: u64,
) -> Option<(usize, usize)>
    requires { IsOf locked.now.cells seen.old }
    ensures { IsOf locked.now.cells seen.new }
{
    let mut turns = Sequence::<Turned>::new(alloc);
    if tick_all(rt, locked, seen, moment, [7; 16], &mut turns).is_err() {
        return None;
    }
    let mut sent = 0usize;
    for turned in turns.as_slice() {
        sent = sent.saturating_add(count_sent(turned.outputs()));
    }
    Some((turns.len(), sent))
}

/// Brings up a tunnel that was opened, with a call: whether it was told a session id and all turns were made.
pub(crate) fn brings_up<W: Wait>(
    rt: &W,
    alloc: Global,
    locked: &Locked<MemoryHub>,
    seen: &mut CellSeen,
    peer: u32,
    tunnel: u16,
) -> Result<bool, NoMemory>
    requires { IsOf locked.now.cells seen.old }
    ensures { IsOf locked.now.cells seen.new }
{
    let up = for_call(alloc, peer, SCCCN, tunnel, 0)?;
    if takes(rt, locked, seen, &up).is_none() {
        return Ok(false);
    }
    let asked = for_call(alloc, peer, ICRQ, tunnel, 0)?;
    let Some(given) = takes(rt, locked, seen, &asked) else {
        return Ok(false);
    };
    let session = session_told(&given);
    let connected = for_call(alloc, peer, ICCN, tunnel, session)?;
    Ok(session != 0 && takes(rt, locked, seen, &connected).is_some())
}
