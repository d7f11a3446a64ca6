//! Calls that the peer asks for (RFC 2661 section 7.4.2).

ghost use Rattle.std.specs.Prelude.{◌≡◌, ◌<◌, OnOk, IfOk, IsTrue};
ghost use Rattle.id_table.specs.Ids.{at};
ghost use Rattle.end_model.specs.Channels.{has_room};
ghost use Rattle.end_model.specs.Asking.{granted, replied, replies, asked_by};

use crate::refusing::{answer, refuse};
use crate::turn::Turn;
use call_fsm::{CallEvent, CallState};
use control_message::Message;
use end_model::{Move, Replied, Role};
use message_reading::{Reason, out_of_state};
use tunnel_calls::TunnelCalls;
use tunnel_rules::{asked_for, call_row, is_reply, session_left};
use wire_base::{Cause, NoMemory, Why};

/// The session of a call that the peer asks for by this id, or the first cause for which there can be none.
#[tactic(auto, unfolding(end_model::specs::Asking::granted))]
fn grant(
    turn: &Turn,
    role: Role,
    calls: &TunnelCalls,
    remote: u16,
) -> Result<Result<u16, Reason>, NoMemory>
    ensures value { IfOk result (λ g. g ≡ granted role calls.now.entries remote turn.now.ids.sessions) }
    ensures some { IfOk result (λ g. IfOk g (λ session. 0 < session)) }
{
    let (_, action) = call_row(role, CallState::Idle, CallEvent::IcrqAcc);
    if !is_reply(action) {
        return Ok(Err(out_of_state()));
    }
    if remote == 0 || calls.call_of(turn.alloc, remote)?.is_some() {
        return Ok(Err(Reason {
            cause: Cause::Session,
            code: 2,
            error: Some(5),
        }));
    }
    Ok(session_left(calls.are_too_many(), turn.next_session()))
}

/// Makes a call by the request for the peer's session, and replies.
#[tactic(auto, unfolding(end_model::specs::Asking::replied))]
fn reply_now(turn: &mut Turn, role: Role, remote: u16, session: u16) -> Result<(), NoMemory>
    requires some { 0 < session }
    requires room { IsTrue (has_room turn.old.control) }
    ensures { OnOk result (turn.new ≡ replied role remote session turn.old) }
{
    let given = turn.next_place();
    let taken = turn.taken_place();
    let tunnel = turn.control.local;
    let peer = turn.control.peer;
    let call = asked_for(turn.alloc, role, remote, turn.moment)?;
    turn.take();
    turn.make(session, call)?;
    turn.did(Move::Replied(Replied {
        tunnel,
        peer,
        session,
        remote,
        taken,
        given,
    }))?;
    turn.give(remote, &Message::Icrp { session })
}

/// Makes a call by the request for the peer's session, where there is room for the reply.
#[tactic(auto, unfolding(end_model::specs::Asking::replies))]
fn reply(turn: &mut Turn, role: Role, remote: u16, session: u16) -> Result<(), NoMemory>
    requires { 0 < session }
    ensures { OnOk result (turn.new ≡ replies role remote session turn.old) }
{
    if !turn.has_room() {
        return turn.drop_with(Why::Queue);
    }
    reply_now(turn, role, remote, session)
}

/// Takes the request for a call of the peer. One that names a call is out of state.
#[tactic(auto, unfolding(end_model::specs::Asking::asked_by))]
pub fn take_request(
    turn: &mut Turn,
    role: Role,
    calls: &TunnelCalls,
    session: u16,
    remote: u16,
) -> Result<(), NoMemory>
    ensures { OnOk result (turn.new ≡ asked_by role session remote (granted role calls.now.entries remote turn.old.ids.sessions) (at calls.now.entries session) turn.old) }
{
    let id = u32::from(session);
    if let Some(call) = calls.get(id) {
        let (_, action) = call_row(role, call.state, CallEvent::IcrqAcc);
        return answer(turn, &out_of_state(), id, call, action);
    }
    match grant(turn, role, calls, remote)? {
        Ok(drawn) => reply(turn, role, remote, drawn),
        Err(reason) => refuse(turn, &reason, remote),
    }
}
