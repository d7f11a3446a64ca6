//! A tunnel that was kept comes back with its calls as its end starts, and its recovery is attempted.

ghost use Rattle.std.specs.Prelude.{◌≡◌, ◌<◌, ◌++◌, ◌∷◌, [], true, Some, OnOk, IfOk};
ghost use Rattle.std.specs.Option.{option_copied};
ghost use Rattle.call_link.specs.Turns.{Opens, linked};
ghost use Rattle.end_model.specs.Links.{link_env};
ghost use Rattle.end_model.specs.Turn.{with_move, with_looks_of};
ghost use Rattle.end_model.specs.Recovering.{with_recovery};
ghost use Rattle.end_model.specs.Starting.{kept_link, kept_call, kept_looks, keeps_calls, opens_link, opens_links, restored_move, restores};
ghost use Rattle.tunnel_calls.specs.Replays.{replays};

use crate::attempting::attempt;
use call_fsm::CallState;
use call_link::{Link, LinkEnv};
use end_model::{Call, Config, Move, Restored, Role};
use recovery_tunnel::Recovering;
use send_window::Letters;
use session_book::{BookCall, BookTunnel};
use session_looks::CellChange;
use tunnel_rules::{challenge_by, first_number, idle_call};
use tunnel_turn::links::open_kept_link;
use tunnel_turn::turn::Turn;
use wire_base::{NoMemory, Sequence};

/// The link of a call that was kept, at an LNS.
fn kept_link(turn: &Turn, role: Role) -> Option<Link>
    ensures { result ≡ kept_link role turn.now.on }
{
    match role {
        Role::Lac => None,
        Role::Lns => Some(Link::new(&LinkEnv {
            moment: turn.moment,
            block: turn.block,
        })),
    }
}

/// A call that was kept: it is established, and went through no row since.
#[tactic(auto, unfolding(tunnel_calls::specs::Replays::replays))]
fn kept_call(turn: &Turn, role: Role, kept: &BookCall) -> Call
    ensures value { result ≡ kept_call role turn.now.on kept.now }
    ensures replays { replays result ≡ true }
{
    let mut call = idle_call(turn.alloc, kept.subscriber);
    call.remote = kept.remote;
    call.state = CallState::Established;
    call.since = turn.moment;
    call.link = kept_link(turn, role);
    call.sequence = first_number(kept.sequenced);
    call
}

/// What the data plane sees of a call that comes back: at a LAC frames pass in it at once.
#[tactic(auto, unfolding(end_model::specs::Turn::with_looks_of))]
fn look_at_kept(turn: &mut Turn, role: Role, session: u16) -> Result<(), NoMemory>
    ensures { OnOk result (turn.new ≡ with_looks_of (kept_looks role session turn.old.control.local turn.old.control.peer) turn.old) }
{
    turn.changes.push(CellChange::Bind {
        session,
        tunnel: turn.control.local,
        peer: turn.control.peer,
    })?;
    match role {
        Role::Lac => turn.changes.push(CellChange::Establish { session }),
        Role::Lns => Ok(()),
    }
}

/// A call comes back.
#[tactic(auto, unfolding(end_model::specs::Turn::with_call))]
fn keep_call(turn: &mut Turn, role: Role, kept: &BookCall) -> Result<(), NoMemory>
    ensures { OnOk result (turn.new ≡ with_looks_of (kept_looks role kept.now.local turn.old.control.local turn.old.control.peer) (record turn.old { changed = turn.old.changed ++ (kept.now.local, Some (kept_call role turn.old.on kept.now)) ∷ []; added = turn.old.added ++ kept.now.local ∷ [] })) }
{
    let call = kept_call(turn, role, kept);
    turn.change(kept.local, call)?;
    turn.added.push(kept.local)?;
    look_at_kept(turn, role, kept.local)
}

/// The calls of a tunnel come back, by local ids.
#[tactic(auto, unfolding(end_model::specs::Starting::keeps_calls))]
fn keep_calls(turn: &mut Turn, role: Role, calls: &[BookCall]) -> Result<(), NoMemory>
    ensures { OnOk result (turn.new ≡ keeps_calls role calls.now turn.old) }
{
    for call in calls {
        keep_call(turn, role, call)?;
    }
    Ok(())
}

/// The link of a call that came back is opened, where it has one.
#[tactic(auto, unfolding(end_model::specs::Starting::opens_link))]
fn open_link(
    turn: &mut Turn,
    role: Role,
    letters: &Letters,
    kept: &BookCall,
) -> Result<(), NoMemory>
    requires { letters.now.letters ≡ [] }
    ensures { OnOk result (turn.new ≡ opens_link role kept.now.local (kept_call role turn.old.on kept.now) (kept_call role turn.old.on kept.now).link turn.old) }
{
    let call = kept_call(turn, role, kept);
    match &call.link {
        None => Ok(()),
        Some(link) => open_kept_link(turn, role, letters, kept.local, &call, link),
    }
}

/// And that of each.
#[tactic(auto, unfolding(end_model::specs::Starting::opens_links))]
fn open_links(
    turn: &mut Turn,
    role: Role,
    letters: &Letters,
    calls: &[BookCall],
) -> Result<(), NoMemory>
    requires { letters.now.letters ≡ [] }
    ensures { OnOk result (turn.new ≡ opens_links role calls.now turn.old) }
{
    for call in calls {
        open_link(turn, role, letters, call)?;
    }
    Ok(())
}

/// Tells that the tunnel is there again.
fn tell_restored(
    turn: &mut Turn,
    config: &Config,
    calls: &[BookCall],
    tunnel: &BookTunnel,
    local: u16,
    draw: u32,
) -> Result<(), NoMemory>
    ensures { OnOk result (turn.new ≡ with_move (restored_move config.now calls.now tunnel.now local draw turn.old) turn.old) }
{
    let challenge = challenge_by(config, &turn.block);
    let calls = Sequence::from_slice(turn.alloc, calls)?;
    turn.did(Move::Restored(Restored {
        tunnel: *tunnel,
        calls,
        attempt: local,
        draw,
        challenge,
    }))
}

/// The tunnel comes back with its calls, the SCCRQ that asks for its recovery goes, and then the links of its calls are opened.
pub fn restore(
    turn: &mut Turn,
    role: Role,
    config: &Config,
    calls: &[BookCall],
    tunnel: &BookTunnel,
    local: u16,
    draw: u32,
) -> Result<Recovering, NoMemory>
    requires { 0 < local }
    ensures { IfOk result (λ recovery. with_recovery recovery turn.new ≡ restores role config.now calls.now tunnel.now local draw turn.old) }
{
    keep_calls(turn, role, calls)?;
    tell_restored(turn, config, calls, tunnel, local, draw)?;
    let recovery = attempt(turn, role, config, local, draw)?;
    let letters = Letters::new(turn.alloc);
    open_links(turn, role, &letters, calls)?;
    Ok(recovery)
}
