//! Tunnels that are looked for one by one, where an index doesn't tell them.

ghost use Rattle.std.specs.Prelude.{◌≡◌, Some, find};
ghost use Rattle.id_table.specs.Ids.{at};
ghost use Rattle.end_model.specs.End.{is_known, is_in, has_line, is_answered, is_recovering};
ghost use Rattle.tunnel_core.specs.Cores.{tunnel_of};
ghost use Rattle.tunnel_table.specs.Tunnels.{tunnels_of};

use end_model::Mode;
use id_table::Table;
use recovery_tunnel::Recovering;
use tunnel_core::{TunnelCore, same_state};
use tunnel_fsm::TunnelState;

/// Whether the tunnel with this id, if there is one, goes to a peer which assigned this id.
#[tactic(auto, using(crate::specs::Tunnels::at_tunnels))]
fn is_known(table: &Table<TunnelCore>, id: u32, peer: u32, remote: u16) -> bool
    ensures { result ≡ is_known peer remote (at (tunnels_of table.now.entries) id) }
{
    match table.get(id) {
        None => false,
        Some(core) => core.control().peer == peer && core.control().remote == remote,
    }
}

/// Whether it goes to a peer, is current, and is in a state.
#[tactic(auto, using(crate::specs::Tunnels::at_tunnels))]
fn is_in(table: &Table<TunnelCore>, id: u32, state: TunnelState, peer: u32) -> bool
    ensures { result ≡ is_in state peer (at (tunnels_of table.now.entries) id) }
{
    let Some(core) = table.get(id) else {
        return false;
    };
    let control = core.control();
    same_state(control.state, state) && control.peer == peer && matches!(core.mode(), Mode::Current)
}

fn has_line_in(core: &TunnelCore, line: u16) -> bool
    ensures { result ≡ has_line line (Some (tunnel_of core.now)) }
{
    match core.recovery() {
        None => false,
        Some(recovery) => recovery.local() == line,
    }
}

/// Whether its recovery tunnel has this local id.
#[tactic(auto, using(crate::specs::Tunnels::at_tunnels))]
fn has_line(table: &Table<TunnelCore>, id: u32, line: u16) -> bool
    ensures { result ≡ has_line line (at (tunnels_of table.now.entries) id) }
{
    match table.get(id) {
        None => false,
        Some(core) => has_line_in(core, line),
    }
}

fn is_answered_in(core: &TunnelCore, peer: u32, remote: u16) -> bool
    ensures { result ≡ is_answered peer remote (Some (tunnel_of core.now)) }
{
    if core.control().peer != peer {
        return false;
    }
    match core.recovery() {
        Some(Recovering::ByAnswer(answer)) => answer.remote() == remote,
        Some(Recovering::ByAttempt(_)) | None => false,
    }
}

/// Whether its end answers the attempt of a peer with this id.
#[tactic(auto, using(crate::specs::Tunnels::at_tunnels))]
fn is_answered(table: &Table<TunnelCore>, id: u32, peer: u32, remote: u16) -> bool
    ensures { result ≡ is_answered peer remote (at (tunnels_of table.now.entries) id) }
{
    match table.get(id) {
        None => false,
        Some(core) => is_answered_in(core, peer, remote),
    }
}

/// Whether it goes to a peer and is frozen or restored.
#[tactic(auto, using(crate::specs::Tunnels::at_tunnels))]
fn is_recovering(table: &Table<TunnelCore>, id: u32, peer: u32) -> bool
    ensures { result ≡ is_recovering peer (at (tunnels_of table.now.entries) id) }
{
    match table.get(id) {
        None => false,
        Some(core) => core.control().peer == peer && !matches!(core.mode(), Mode::Current),
    }
}

/// The first of these tunnels that goes to a peer which assigned this id.
pub(crate) fn first_known(
    table: &Table<TunnelCore>,
    peer: u32,
    remote: u16,
    ids: &[u32],
) -> Option<u32>
    ensures { result ≡ find (λ i. is_known peer remote (at (tunnels_of table.now.entries) i)) ids.now }
{
    for id in ids {
        if is_known(table, *id, peer, remote) {
            return Some(*id);
        }
    }
    None
}

/// The first of these tunnels that goes to a peer, is current, and is in a state.
pub(crate) fn first_in(
    table: &Table<TunnelCore>,
    state: TunnelState,
    peer: u32,
    ids: &[u32],
) -> Option<u32>
    ensures { result ≡ find (λ i. is_in state peer (at (tunnels_of table.now.entries) i)) ids.now }
{
    for id in ids {
        if is_in(table, *id, state, peer) {
            return Some(*id);
        }
    }
    None
}

/// The first of these tunnels whose recovery tunnel has this local id.
pub(crate) fn first_recovered(table: &Table<TunnelCore>, line: u16, ids: &[u32]) -> Option<u32>
    ensures { result ≡ find (λ i. has_line line (at (tunnels_of table.now.entries) i)) ids.now }
{
    for id in ids {
        if has_line(table, *id, line) {
            return Some(*id);
        }
    }
    None
}

/// The first of these tunnels whose end answers the attempt of a peer with this id.
pub(crate) fn first_answered(
    table: &Table<TunnelCore>,
    peer: u32,
    remote: u16,
    ids: &[u32],
) -> Option<u32>
    ensures { result ≡ find (λ i. is_answered peer remote (at (tunnels_of table.now.entries) i)) ids.now }
{
    for id in ids {
        if is_answered(table, *id, peer, remote) {
            return Some(*id);
        }
    }
    None
}

/// The first of these tunnels that goes to a peer and is frozen or restored.
pub(crate) fn first_recovering(table: &Table<TunnelCore>, peer: u32, ids: &[u32]) -> Option<u32>
    ensures { result ≡ find (λ i. is_recovering peer (at (tunnels_of table.now.entries) i)) ids.now }
{
    for id in ids {
        if is_recovering(table, *id, peer) {
            return Some(*id);
        }
    }
    None
}
