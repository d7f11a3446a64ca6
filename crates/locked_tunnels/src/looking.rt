//! What threads ask of calls, and of the ids that are drawn next.

ghost use Rattle.std.specs.Prelude.{◌≡◌, ◌&&◌, not, is_some, Ok, IfOk, IfSome};
ghost use Rattle.id_table.specs.Ids.{at};
ghost use Rattle.id_source.specs.Spaces.{takes_id};
ghost use Rattle.session_cells.specs.Tokens.{log_of, IsOf, Later};
ghost use Rattle.session_cells.specs.Logs.{look_after};
ghost use Rattle.locked_tunnels.specs.Looking.{TellsLive, subscriber_in};

use crate::kept::KeptTunnel;
use crate::locked::Locked;
use session_cells::CellSeen;
use session_looks::Look;
use std::sync::{MutexGuard, Wait};
use step_hub::Hub;
use wire_base::NoMemory;

/// The six bytes of the subscriber of a call, None where it or its tunnel is gone.
fn subscriber_in(kept: &KeptTunnel, session: u16) -> Option<[u8; 6]>
    ensures { result ≡ subscriber_in kept.now.gone (at kept.now.core.calls.entries session) }
{
    if kept.is_gone() {
        return None;
    }
    match kept.core().calls().get(u32::from(session)) {
        None => None,
        Some(call) => Some(call.subscriber),
    }
}

/// Whether a tunnel has a call with this session id, and isn't gone.
fn has_call_in(kept: &KeptTunnel, session: u16) -> bool
    ensures { result ≡ (not kept.now.gone && is_some (at kept.now.core.calls.entries session)) }
{
    !kept.is_gone() && kept.core().calls().contains(u32::from(session))
}

/// The session id that a hub draws next, None where it has stopped or none is left. The hub is as before.
fn next_of<H: Hub>(hub: &mut H) -> Option<u16>
    ensures same { hub.new ≡ hub.old }
    ensures next { IfSome result (λ s. takes_id (H.spaces hub.old).sessions ≡ Ok s) }
{
    let Ok(env) = hub.lend(0, [0; 16]) else {
        return None;
    };
    let mut sessions = env.sessions;
    hub.back(env);
    match sessions.take() {
        Ok(session) => Some(session as u16),
        Err(_) => None,
    }
}

/// The six bytes of the subscriber of the call with this session id in the tunnel with this local id, None where the tunnel or the call is
/// gone.
pub fn subscriber_of<W: Wait, H: Hub>(
    rt: &W,
    locked: &Locked<H>,
    tunnel: u16,
    session: u16,
) -> Result<Option<[u8; 6]>, NoMemory> {
    let Some(place) = locked.tunnels.lock(rt).find(u32::from(tunnel))? else {
        return Ok(None);
    };
    let kept = place.lock(rt);
    Ok(subscriber_in(&*kept, session))
}

/// Whether a call that the other end doesn't know yet is live: its tunnel is told by which one made it.
fn has_unbound<W: Wait, H: Hub>(
    rt: &W,
    locked: &Locked<H>,
    session: u16,
) -> Result<bool, NoMemory> {
    let table = locked.tunnels.lock(rt);
    let home = table.directory().home(session);
    let Some(place) = table.find(home)? else {
        return Ok(false);
    };
    MutexGuard::unlock(table);
    let kept = place.lock(rt);
    Ok(has_call_in(&*kept, session))
}

/// Whether the call with this session id is live, bound or not: by its cell, and only where that is unborn by its tunnel. Of a call that
/// another thread makes or ends meanwhile it is told as before or after that.
#[tactic(auto, using(session_cells::proofs::Prefixes::prefix_self))]
pub fn has_call<W: Wait, H: Hub>(
    rt: &W,
    locked: &Locked<H>,
    seen: &mut CellSeen,
    session: u16,
) -> Result<bool, NoMemory>
    requires { IsOf locked.now.cells seen.old }
    ensures later { Later locked.now.cells seen.old seen.new }
    ensures told { IfOk result (λ there. TellsLive (look_after (log_of seen.new) session) there) }
{
    match locked.cells.lookup(seen, session) {
        Look::Bound { .. } | Look::Established { .. } => Ok(true),
        Look::Dead => Ok(false),
        Look::Unborn => has_unbound(rt, locked, session),
    }
}

/// The session id that is drawn next, None where the hub has stopped, none is left or memory is wanting. Another thread may draw it
/// meanwhile.
pub fn next_session<W: Wait, H: Hub>(rt: &W, locked: &Locked<H>) -> Option<u16> {
    let mut hub = locked.hub.lock(rt);
    next_of(&mut *hub)
}
