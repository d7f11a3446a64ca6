//! Calls that ring, and are asked for (RFC 2661 section 7.4.1).

ghost use Rattle.std.specs.Prelude.{◌≡◌, OnOk, IsTrue, true};
ghost use Rattle.id_source.specs.Spaces.{takes_id};
ghost use Rattle.end_model.specs.Channels.{has_room};
ghost use Rattle.end_model.specs.Ringing.{requested, requests, requests_all, adds, rings_over, rings_within, rings_new, rings};
ghost use Rattle.tunnel_calls.specs.Replays.{replays};

use crate::openings::open_as;
use crate::turn::Turn;
use call_fsm::CallEvent;
use end_model::{Added, Call, Config, Move, Out, Requested, Role};
use session_looks::CellChange;
use tunnel_calls::TunnelCalls;
use tunnel_fsm::TunnelState;
use tunnel_rules::{
    advanced, call_row, copy_pairs, hidden_pairs, is_request, may_take, request_of, rung,
};
use wire_base::{Cause, NoMemory, Why};

/// Asks for a waiting call: the peer comes to know it. An end that hides its calling numbers hides this one.
#[tactic(auto, unfolding(end_model::specs::Ringing::requested))]
fn request_now(
    turn: &mut Turn,
    role: Role,
    config: &Config,
    session: u16,
    call: &Call,
) -> Result<(), NoMemory>
    requires room { IsTrue (has_room turn.old.control) }
    requires replays { replays call.now ≡ true }
    ensures { OnOk result (turn.new ≡ requested role config.now session call.now turn.old) }
{
    let given = turn.next_place();
    let tunnel = turn.control.local;
    let peer = turn.control.peer;
    let subscriber = call.subscriber;
    let asked = advanced(
        turn.alloc,
        role,
        CallEvent::TunnelOpen,
        turn.moment,
        call,
        call.remote,
    )?;
    let request = request_of(turn.alloc, session, &subscriber)?;
    let hidden = hidden_pairs(turn.alloc, config, &turn.block, &request)?;
    let letter = copy_pairs(turn.alloc, &hidden)?;
    turn.change(session, asked)?;
    turn.did(Move::Requested(Requested {
        tunnel,
        session,
        subscriber,
        hidden,
        given,
    }))?;
    turn.look(CellChange::Bind {
        session,
        tunnel,
        peer,
    })?;
    turn.give_as(0, &request, letter)
}

/// Asks for a call, where its table says so.
#[tactic(auto, unfolding(end_model::specs::Ringing::requests))]
fn request(
    turn: &mut Turn,
    role: Role,
    config: &Config,
    session: u16,
    call: &Call,
) -> Result<(), NoMemory>
    requires replays { replays call.now ≡ true }
    ensures { OnOk result (turn.new ≡ requests role config.now session call.now turn.old) }
{
    let (_, action) = call_row(role, call.state, CallEvent::TunnelOpen);
    if !is_request(action) {
        return Ok(());
    }
    if !turn.has_room() {
        return turn.drop_with(Why::Queue);
    }
    request_now(turn, role, config, session, call)
}

/// Asks for each of these calls that waits.
#[tactic(auto, unfolding(end_model::specs::Ringing::requests_all, end_model::specs::Ringing::requests_at))]
pub fn request_all(
    turn: &mut Turn,
    role: Role,
    config: &Config,
    sessions: &[u32],
    calls: &TunnelCalls,
) -> Result<(), NoMemory>
    ensures { OnOk result (turn.new ≡ requests_all role config.now sessions.now calls.now.entries turn.old) }
{
    for session in sessions {
        if let Some(call) = calls.get(*session) {
            if let Ok(id) = u16::try_from(*session) {
                request(turn, role, config, id, call)?;
            }
        }
    }
    Ok(())
}

/// A call is born, and added to the tunnel.
#[tactic(auto, unfolding(end_model::specs::Ringing::adds))]
fn add(turn: &mut Turn, role: Role, subscriber: [u8; 6], session: u16) -> Result<(), NoMemory>
    ensures { OnOk result (turn.new ≡ adds role subscriber session turn.old) }
{
    let tunnel = turn.control.local;
    let call = rung(turn.alloc, role, subscriber, turn.moment)?;
    turn.make(session, call)?;
    turn.did(Move::Added(Added {
        tunnel,
        session,
        subscriber,
    }))
}

/// A ring over a tunnel that is there: an open one asks for the call at once.
#[tactic(auto, unfolding(end_model::specs::Ringing::rings_over))]
fn ring_over(
    turn: &mut Turn,
    role: Role,
    config: &Config,
    subscriber: [u8; 6],
    session: u16,
) -> Result<(), NoMemory>
    ensures { OnOk result (turn.new ≡ rings_over role config.now subscriber session turn.old) }
{
    if turn.control.state != TunnelState::Established {
        return add(turn, role, subscriber, session);
    }
    let call = rung(turn.alloc, role, subscriber, turn.moment)?;
    add(turn, role, subscriber, session)?;
    request(turn, role, config, session, &call)
}

/// A ring over a new tunnel, which is opened for it.
#[tactic(auto, unfolding(end_model::specs::Ringing::rings_new))]
fn ring_new(
    turn: &mut Turn,
    role: Role,
    config: &Config,
    subscriber: [u8; 6],
) -> Result<(), NoMemory>
    ensures { OnOk result (turn.new ≡ rings_new role config.now subscriber (takes_id turn.old.ids.sessions) (takes_id turn.old.ids.tunnels) turn.old) }
{
    match (turn.next_session(), turn.next_tunnel()) {
        (Ok(session), Ok(local)) => {
            if !turn.has_room() {
                return turn.output(Out::Cause {
                    cause: Cause::Queue,
                });
            }
            open_as(turn, role, config, local as u16)?;
            add(turn, role, subscriber, session as u16)
        }
        _ => turn.output(Out::Cause { cause: Cause::Ids }),
    }
}

/// A ring over a tunnel that has these calls.
#[tactic(auto, unfolding(end_model::specs::Ringing::rings_within, end_model::specs::Ringing::rings_by))]
fn ring_within(
    turn: &mut Turn,
    role: Role,
    config: &Config,
    calls: &TunnelCalls,
    subscriber: [u8; 6],
) -> Result<(), NoMemory>
    ensures { OnOk result (turn.new ≡ rings_within role config.now calls.now.entries subscriber turn.old) }
{
    if calls.are_too_many() {
        return turn.output(Out::Cause {
            cause: Cause::Calls,
        });
    }
    if !may_take(&turn.control, calls) {
        return turn.output(Out::Cause {
            cause: Cause::Queue,
        });
    }
    match turn.next_session() {
        Err(_) => turn.output(Out::Cause { cause: Cause::Ids }),
        Ok(session) => ring_over(turn, role, config, subscriber, session as u16),
    }
}

/// A subscriber rings.
#[tactic(auto, unfolding(end_model::specs::Ringing::rings))]
pub fn ring(
    turn: &mut Turn,
    role: Role,
    config: &Config,
    calls: &TunnelCalls,
    subscriber: [u8; 6],
) -> Result<(), NoMemory>
    ensures { OnOk result (turn.new ≡ rings role config.now calls.now.entries subscriber turn.old) }
{
    if turn.control.state == TunnelState::Idle {
        return ring_new(turn, role, config, subscriber);
    }
    ring_within(turn, role, config, calls, subscriber)
}
