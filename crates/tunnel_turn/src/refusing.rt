//! Calls that are ended, and refused, by an answer to the peer's messages (RFC 2661 section 7.4).

ghost use Rattle.std.specs.Prelude.{◌≡◌, OnOk, IsTrue};
ghost use Rattle.end_model.specs.Channels.{has_room};
ghost use Rattle.end_model.specs.Refusing.{answers_by, refused, refuses, of_no_call};

use crate::closing::end_by;
use crate::turn::Turn;
use call_fsm::CallAction;
use control_message::Message;
use end_model::{Call, Move, Out, Refused};
use message_reading::Reason;
use wire_base::{NoMemory, Why};

/// Takes a letter to which a call does what its table says.
#[tactic(auto, unfolding(end_model::specs::Refusing::answers_by))]
pub fn answer(
    turn: &mut Turn,
    reason: &Reason,
    id: u32,
    call: &Call,
    action: CallAction,
) -> Result<(), NoMemory>
    ensures { OnOk result (turn.new ≡ answers_by reason.now id call.now action turn.old) }
{
    turn.take_plain()?;
    let Ok(session) = u16::try_from(id) else {
        return Ok(());
    };
    end_by(
        turn,
        reason.cause,
        reason.code,
        reason.error,
        session,
        call,
        action,
    )
}

/// Takes a letter for which there is no call, as the peer is told by a CDN that names none of this end's.
#[tactic(auto, unfolding(end_model::specs::Refusing::refused))]
fn refuse_now(turn: &mut Turn, reason: &Reason, remote: u16) -> Result<(), NoMemory>
    requires { IsTrue (has_room turn.old.control) }
    ensures { OnOk result (turn.new ≡ refused reason.now remote turn.old) }
{
    let given = turn.next_place();
    let taken = turn.taken_place();
    let tunnel = turn.control.local;
    turn.output(Out::Cause {
        cause: reason.cause,
    })?;
    turn.take();
    turn.did(Move::Refused(Refused {
        tunnel,
        remote,
        result: reason.code,
        error: reason.error,
        taken,
        given,
    }))?;
    turn.give(
        remote,
        &Message::Cdn {
            session: 0,
            result: reason.code,
            error: reason.error,
        },
    )
}

/// Refuses a letter for which there is no call, where there is room for the answer.
#[tactic(auto, unfolding(end_model::specs::Refusing::refuses))]
pub fn refuse(turn: &mut Turn, reason: &Reason, remote: u16) -> Result<(), NoMemory>
    ensures { OnOk result (turn.new ≡ refuses reason.now remote turn.old) }
{
    if !turn.has_room() {
        return turn.drop_with(Why::Queue);
    }
    refuse_now(turn, reason, remote)
}

/// Does what the table says of a call that there isn't.
#[tactic(auto, unfolding(end_model::specs::Refusing::of_no_call))]
pub fn answer_no_call(
    turn: &mut Turn,
    reason: &Reason,
    remote: u16,
    action: CallAction,
) -> Result<(), NoMemory>
    ensures { OnOk result (turn.new ≡ of_no_call reason.now remote action turn.old) }
{
    match action {
        CallAction::SendCdn => refuse(turn, reason, remote),
        CallAction::DropSession => turn.ignore(Why::Session),
        _ => turn.take_plain(),
    }
}
