//! Tunnels that agree, and the sessions that they have.

ghost use Rattle.std.specs.Prelude.{◌≡◌, count_by, IfOk};
ghost use Rattle.id_table.specs.Ids.{at, ids_of};
ghost use Rattle.end_model.specs.Tunnels.{is_current};
ghost use Rattle.world_model.specs.Run.{agree, is_session, session_count};

use call_fsm::CallState;
use end_model::{Call, Control, Mode, node_of};
use id_table::Table;
use std::alloc::Global;
use tunnel_fsm::TunnelState;
use wire_base::NoMemory;

/// Whether two tunnels have learned each other, are established, and each took all that the other was given to send.
#[tactic(auto, unfolding(world_model::specs::Run::agree))]
pub fn agree(node: u32, tunnel: &Control, partner: &Control) -> bool
    ensures { result ≡ agree node tunnel.now partner.now }
{
    tunnel.state == TunnelState::Established
        && partner.state == TunnelState::Established
        && partner.remote == tunnel.local
        && u32::from(node_of(partner.peer)) == node
        && partner.channel.taken_count() == tunnel.channel.sent_count()
        && tunnel.channel.taken_count() == partner.channel.sent_count()
}

/// Whether the channel of a tunnel in this mode carries messages.
pub fn carries(mode: Mode) -> bool
    ensures { result ≡ is_current mode }
{
    matches!(mode, Mode::Current)
}

/// Whether a call is there and is up.
fn is_session(calls: &Table<Call>, session: u32) -> bool
    ensures { result ≡ is_session (at calls.now.entries session) }
{
    match calls.get(session) {
        Some(call) => call.state == CallState::Established,
        None => false,
    }
}

/// How many sessions a tunnel has.
#[tactic(auto, unfolding(world_model::specs::Run::session_count))]
pub fn session_count(alloc: Global, calls: &Table<Call>) -> Result<usize, NoMemory>
    ensures { IfOk result (λ n. n ≡ session_count calls.now.entries) }
{
    let sessions = calls.ids(alloc)?;
    Ok(
        sessions
            .as_slice()
            .iter()
            .filter(|session| is_session(calls, **session))
            .count(),
    )
}
