//! The tables at the end of a report.

ghost use Rattle.std.specs.Prelude.{◌≡◌, ◌++◌, option_map, OnOk, Some};
ghost use Rattle.std.specs.Option.{option_copied};
ghost use Rattle.id_table.specs.Ids.{at};
ghost use Rattle.world_model.specs.Run.{call_table, tunnel_line, node_table, end_table, lns_tunnel, partner_of, is_resynchronised, are_alike, session_count, agree_with, agree_line, node_agreements, agreement_table};
ghost use Rattle.world_model.specs.World.{standing_in};
ghost use Rattle.lac_core.specs.Cores.{tunnel_of};

use crate::node::{Node, count_at};
use end_model::{Call, Control, node_of};
use id_table::Table;
use lac_core::TunnelCore;
use report_text::{agree, carries, push_agree, push_call, push_down, push_tunnel, session_count};
use std::alloc::Global;
use wire_base::{Bytes, NoMemory};

/// The calls of a tunnel, by local id.
#[tactic(auto, unfolding(world_model::specs::Run::call_table))]
fn push_call_table(
    alloc: Global,
    out: &mut Bytes,
    number: u32,
    tunnel: u32,
    births: &Table<u64>,
    calls: &Table<Call>,
) -> Result<(), NoMemory>
    ensures { OnOk result (out.new ≡ out.old ++ call_table number tunnel births.now.entries calls.now.entries) }
{
    let sessions = calls.ids(alloc)?;
    for session in sessions.as_slice() {
        if let Some(call) = calls.get(*session) {
            let birth = count_at(births, *session);
            push_call(out, number, tunnel, *session, call, birth)?;
        }
    }
    Ok(())
}

/// A tunnel with its calls.
#[tactic(auto, unfolding(world_model::specs::Run::tunnel_line))]
fn push_tunnel_line(
    alloc: Global,
    out: &mut Bytes,
    number: u32,
    node: &Node,
    id: u32,
    tunnel: &TunnelCore,
) -> Result<(), NoMemory>
    ensures { OnOk result (out.new ≡ out.old ++ tunnel_line number node.now id (Some (tunnel_of tunnel.now))) }
{
    let epoch = node.standing(id).epoch;
    push_tunnel(
        out,
        number,
        tunnel.control(),
        epoch,
        tunnel.mode(),
        tunnel.is_complete(),
    )?;
    push_call_table(alloc, out, number, id, &node.births, tunnel.calls())
}

/// The tunnels of a node with their calls, by local id, or that it is down.
#[tactic(auto, unfolding(world_model::specs::Run::node_table, world_model::specs::Run::tunnel_line))]
fn push_node_table(alloc: Global, out: &mut Bytes, number: u32, node: &Node) -> Result<(), NoMemory>
    ensures { OnOk result (out.new ≡ out.old ++ node_table number (Some node.now)) }
{
    if !node.up {
        return push_down(out, number);
    }
    let ids = node.end.end().tunnel_ids(alloc)?;
    for id in ids.as_slice() {
        if let Some(tunnel) = node.end.end().tunnel(*id) {
            push_tunnel_line(alloc, out, number, node, *id, tunnel)?;
        }
    }
    Ok(())
}

/// The tunnels of each node with their calls, in the order of nodes.
#[tactic(auto, unfolding(world_model::specs::Run::end_table, world_model::specs::Run::node_table))]
pub(crate) fn push_end_table(
    alloc: Global,
    out: &mut Bytes,
    nodes: &Table<Node>,
) -> Result<(), NoMemory>
    ensures { OnOk result (out.new ≡ out.old ++ end_table nodes.now.entries) }
{
    let numbers = nodes.ids(alloc)?;
    for number in numbers.as_slice() {
        if let Some(node) = nodes.get(*number) {
            push_node_table(alloc, out, *number, node)?;
        }
    }
    Ok(())
}

/// The LNS's tunnel that a LAC's tunnel has learned.
#[tactic(auto, unfolding(world_model::specs::Run::partner_of, world_model::specs::Run::lns_tunnel))]
fn partner<'a>(nodes: &'a Table<Node>, tunnel: &Control) -> Option<&'a TunnelCore>
    ensures { option_map tunnel_of (option_copied result) ≡ partner_of nodes.now.entries tunnel.now }
{
    let node = nodes.get(u32::from(node_of(tunnel.peer)))?;
    if node.is_lac() {
        return None;
    }
    node.end.end().tunnel(u32::from(tunnel.remote))
}

/// The epoch that a tunnel of a node is in.
fn epoch_in(nodes: &Table<Node>, node: u32, tunnel: u16) -> u64
    ensures { result ≡ (standing_in (at nodes.now.entries node) tunnel).epoch }
{
    match nodes.get(node) {
        Some(node) => node.standing(u32::from(tunnel)).epoch,
        None => 0,
    }
}

/// Whether a tunnel carries messages, and knows of its sessions since its last reset.
fn is_resynchronised(tunnel: &TunnelCore) -> bool
    ensures { result ≡ is_resynchronised (tunnel_of tunnel.now) }
{
    carries(tunnel.mode()) && tunnel.is_complete()
}

/// Whether a LAC's tunnel and its partner carry messages and ask for no session, are in the same epoch, and agree.
fn are_alike(nodes: &Table<Node>, number: u32, tunnel: &TunnelCore, partner: &TunnelCore) -> bool
    ensures { result ≡ are_alike nodes.now.entries number (tunnel_of tunnel.now) (tunnel_of partner.now) }
{
    let (control, other) = (tunnel.control(), partner.control());
    let own = epoch_in(nodes, number, control.local);
    let theirs = epoch_in(nodes, u32::from(node_of(control.peer)), other.local);
    is_resynchronised(tunnel)
        && is_resynchronised(partner)
        && own == theirs
        && agree(number, control, other)
}

/// The line of a LAC's tunnel that agrees with its partner.
#[tactic(auto, unfolding(world_model::specs::Run::agree_line, world_model::specs::Run::agree_with))]
fn push_agree_line(
    alloc: Global,
    out: &mut Bytes,
    nodes: &Table<Node>,
    number: u32,
    tunnel: &TunnelCore,
) -> Result<(), NoMemory>
    ensures { OnOk result (out.new ≡ out.old ++ agree_line nodes.now.entries number (Some (tunnel_of tunnel.now))) }
{
    let control = tunnel.control();
    match partner(nodes, control) {
        Some(partner) if are_alike(nodes, number, tunnel, partner) => {
            let count = session_count(alloc, tunnel.calls())?;
            push_agree(out, number, control, partner.control(), count as u64)
        }
        _ => Ok(()),
    }
}

/// The tunnels of a node, a LAC, that agree with their partners.
#[tactic(auto, unfolding(world_model::specs::Run::node_agreements, world_model::specs::Run::agree_line))]
fn push_node_agreements(
    alloc: Global,
    out: &mut Bytes,
    nodes: &Table<Node>,
    number: u32,
    node: &Node,
) -> Result<(), NoMemory>
    ensures { OnOk result (out.new ≡ out.old ++ node_agreements nodes.now.entries number (Some node.now)) }
{
    if !node.is_lac() {
        return Ok(());
    }
    let ids = node.end.end().tunnel_ids(alloc)?;
    for id in ids.as_slice() {
        if let Some(tunnel) = node.end.end().tunnel(*id) {
            push_agree_line(alloc, out, nodes, number, tunnel)?;
        }
    }
    Ok(())
}

/// The tunnels of each LAC that agree with their partners at an LNS.
#[tactic(auto, unfolding(world_model::specs::Run::agreement_table, world_model::specs::Run::node_agreements))]
pub(crate) fn push_agreement_table(
    alloc: Global,
    out: &mut Bytes,
    nodes: &Table<Node>,
) -> Result<(), NoMemory>
    ensures { OnOk result (out.new ≡ out.old ++ agreement_table nodes.now.entries) }
{
    let numbers = nodes.ids(alloc)?;
    for number in numbers.as_slice() {
        if let Some(node) = nodes.get(*number) {
            push_node_agreements(alloc, out, nodes, *number, node)?;
        }
    }
    Ok(())
}
