//! The tunnels that were kept over a start, behind locks.

ghost use Rattle.std.specs.Prelude.{◌≡◌, ◌++◌, OnOk, IfOk, flat_map};
ghost use Rattle.end_model.specs.Starting.{kept_looks};
ghost use Rattle.tunnel_core.specs.Cores.{tunnel_of};
ghost use Rattle.locked_tunnels.specs.Kept.{known};
ghost use Rattle.node_pool.specs.Keeping.{cell_looks, looks_of, kept_known, AreKept};

use end_core::{Cores, TunnelCore};
use end_model::Role;
use locked_tunnels::KeptTunnel;
use session_looks::{CellChange, CellChanges};
use std::alloc::Global;
use wire_base::{NoMemory, Pair};

/// What the cells have to know of a call of a tunnel with this local id and this peer: that the other end knows it, and at a LAC that it is
/// established.
fn push_looks(
    changes: &mut CellChanges,
    role: Role,
    tunnel: u16,
    peer: u32,
    session: u16,
) -> Result<(), NoMemory>
    ensures { OnOk result (changes.new ≡ changes.old ++ kept_looks role session tunnel peer) }
{
    changes.push(CellChange::Bind {
        session,
        tunnel,
        peer,
    })?;
    match role {
        Role::Lac => changes.push(CellChange::Establish { session }),
        Role::Lns => Ok(()),
    }
}

/// Nothing of a session whose id has no cell.
fn push_cell(
    changes: &mut CellChanges,
    role: Role,
    tunnel: u16,
    peer: u32,
    session: u32,
) -> Result<(), NoMemory>
    ensures { OnOk result (changes.new ≡ changes.old ++ cell_looks role tunnel peer session) }
{
    match u16::try_from(session) {
        Ok(session) => push_looks(changes, role, tunnel, peer, session),
        Err(_) => Ok(()),
    }
}

/// Those of each of these sessions.
fn looks_in(
    alloc: Global,
    role: Role,
    tunnel: u16,
    peer: u32,
    sessions: &[Pair],
) -> Result<CellChanges, NoMemory>
    ensures { IfOk result (λ changes. changes ≡ flat_map (λ p. cell_looks role tunnel peer p.sender) sessions.now) }
{
    let mut changes = CellChanges::new(alloc);
    for pair in sessions {
        push_cell(&mut changes, role, tunnel, peer, pair.sender)?;
    }
    Ok(changes)
}

/// What the cells have to know of the calls of a tunnel that was kept over a start, each of which is established.
fn kept_changes(alloc: Global, role: Role, core: &TunnelCore) -> Result<CellChanges, NoMemory>
    ensures { IfOk result (λ changes. changes ≡ looks_of role (tunnel_of core.now)) }
{
    let sessions = core.established()?;
    let control = core.control();
    looks_in(
        alloc,
        role,
        control.local,
        control.peer,
        sessions.as_slice(),
    )
}

/// A tunnel that was kept over a start.
fn kept_tunnel(alloc: Global, role: Role, core: TunnelCore) -> Result<KeptTunnel, NoMemory>
    ensures { IfOk result (λ kept. known kept ≡ kept_known role core) }
{
    let changes = kept_changes(alloc, role, &core)?;
    Ok(KeptTunnel::new(alloc, role, core, changes))
}

/// The tunnels of an end that made no step since its store was opened, in order, each with what the cells have to know of its calls.
#[tactic(auto, using(crate::proofs::Keeping::one_more))]
pub(crate) fn kept_tunnels(
    alloc: Global,
    role: Role,
    cores: Cores,
) -> Result<Vec<KeptTunnel>, NoMemory>
    ensures { IfOk result (λ kept. AreKept role cores kept.items) }
{
    let mut kept = Vec::new(alloc);
    for core in cores.into_vec() {
        let tunnel = kept_tunnel(alloc, role, core)?;
        kept.push(tunnel)?;
    }
    Ok(kept)
}
