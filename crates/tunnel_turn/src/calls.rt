//! Calls that are connected and ended by the peer's messages (RFC 2661 section 7.4).

ghost use Rattle.std.specs.Prelude.{◌≡◌, OnOk, IsTrue, true, IfSome};
ghost use Rattle.std.specs.Option.{option_copied};
ghost use Rattle.end_model.specs.Channels.{has_room};
ghost use Rattle.end_model.specs.Connecting.{first_up, first_up_by, second_up_by, end_heard, end_heard_by};
ghost use Rattle.tunnel_calls.specs.Replays.{replays};

use crate::links::link_up;
use crate::refusing::{answer, answer_no_call};
use crate::turn::Turn;
use call_fsm::{CallEvent, CallState};
use control_message::Message;
use end_model::{Call, EndHeard, FirstUp, Move, Role};
use message_reading::out_of_state;
use session_looks::CellChange;
use tunnel_rules::{advanced, call_row, is_clean_up, is_connection};
use tunnel_timers::is_up;
use wire_base::{NoMemory, Why};

/// Learns the peer's session, and connects the call, which is up.
#[tactic(auto, unfolding(end_model::specs::Connecting::first_up))]
fn first_up(
    turn: &mut Turn,
    role: Role,
    session: u16,
    remote: u16,
    call: &Call,
) -> Result<(), NoMemory>
    requires room { IsTrue (has_room turn.old.control) }
    requires replays { replays call.now ≡ true }
    ensures { OnOk result (turn.new ≡ first_up role session remote call.now turn.old) }
{
    let given = turn.next_place();
    let taken = turn.taken_place();
    let tunnel = turn.control.local;
    let up = advanced(
        turn.alloc,
        role,
        CallEvent::IcrpAcc,
        turn.moment,
        call,
        remote,
    )?;
    turn.take();
    turn.change(session, up)?;
    turn.did(Move::FirstUp(FirstUp {
        tunnel,
        session,
        remote,
        subscriber: call.subscriber,
        taken,
        given,
    }))?;
    turn.look(CellChange::Establish { session })?;
    turn.give(
        remote,
        &Message::Iccn {
            speed: 100_000_000,
            framing: 1,
            sequenced: false,
        },
    )
}

/// Takes the reply to the request for a call.
#[tactic(auto, unfolding(end_model::specs::Connecting::first_up_by))]
pub fn take_reply(
    turn: &mut Turn,
    role: Role,
    session: u16,
    remote: u16,
    call: Option<&Call>,
) -> Result<(), NoMemory>
    requires replays { IfSome (option_copied call) (λ c. replays c ≡ true) }
    ensures { OnOk result (turn.new ≡ first_up_by role session remote (option_copied call.entry) turn.old) }
{
    let Some(call) = call else {
        let (_, none) = call_row(role, CallState::Idle, CallEvent::IcrpAcc);
        return answer_no_call(turn, &out_of_state(), remote, none);
    };
    let (_, action) = call_row(role, call.state, CallEvent::IcrpAcc);
    if !is_connection(action) {
        return answer(turn, &out_of_state(), u32::from(session), call, action);
    }
    if !turn.has_room() {
        return turn.drop_with(Why::Queue);
    }
    first_up(turn, role, session, remote, call)
}

/// Takes the connection of a call, which may have had Sequencing Required.
#[tactic(auto, unfolding(end_model::specs::Connecting::second_up_by))]
pub fn take_connection(
    turn: &mut Turn,
    role: Role,
    sequenced: bool,
    session: u16,
    call: Option<&Call>,
) -> Result<(), NoMemory>
    requires replays { IfSome (option_copied call) (λ c. replays c ≡ true) }
    ensures { OnOk result (turn.new ≡ second_up_by role sequenced session (option_copied call.entry) turn.old) }
{
    let Some(call) = call else {
        let (_, none) = call_row(role, CallState::Idle, CallEvent::IccnAcc);
        return answer_no_call(turn, &out_of_state(), 0, none);
    };
    let (next, action) = call_row(role, call.state, CallEvent::IccnAcc);
    if !is_up(next) {
        return answer(turn, &out_of_state(), u32::from(session), call, action);
    }
    link_up(turn, role, sequenced, session, call)
}

/// The call ends by the peer's CDN.
#[tactic(auto, unfolding(end_model::specs::Connecting::end_heard))]
fn hear_end(turn: &mut Turn, session: u32, booked: bool) -> Result<(), NoMemory>
    ensures { OnOk result (turn.new ≡ end_heard session booked turn.old) }
{
    let taken = turn.taken_place();
    let tunnel = turn.control.local;
    turn.take();
    turn.end_call(session)?;
    turn.did(Move::EndHeard(EndHeard {
        tunnel,
        session,
        booked,
        taken,
    }))
}

/// Takes the peer's CDN for a call.
#[tactic(auto, unfolding(end_model::specs::Connecting::end_heard_by))]
pub fn take_end(
    turn: &mut Turn,
    role: Role,
    session: u32,
    call: Option<&Call>,
) -> Result<(), NoMemory>
    ensures { OnOk result (turn.new ≡ end_heard_by role session (option_copied call.entry) turn.old) }
{
    let Some(call) = call else {
        let (_, none) = call_row(role, CallState::Idle, CallEvent::CdnCame);
        return answer_no_call(turn, &out_of_state(), 0, none);
    };
    let (_, action) = call_row(role, call.state, CallEvent::CdnCame);
    if !is_clean_up(action) {
        return turn.take_plain();
    }
    hear_end(turn, session, is_up(call.state))
}
