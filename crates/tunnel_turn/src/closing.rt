//! Calls that end here (RFC 2661 sections 4.4.2 and 7.4): one that is hung up, one that is dropped, and one that takes too long
//! to be set up.

ghost use Rattle.std.specs.Prelude.{◌≡◌, false, OnOk, IsTrue};
ghost use Rattle.std.specs.Option.{option_copied};
ghost use Rattle.id_table.specs.Ids.{at};
ghost use Rattle.wire_base.specs.declared.cause.Cause.TheVariants as cause;
ghost use Rattle.call_fsm.specs.declared.table.CallEvent.TheVariants as event;
ghost use Rattle.end_model.specs.Channels.{has_room};
ghost use Rattle.end_model.specs.Sending.{settles};
ghost use Rattle.end_model.specs.Closing.{end_silent, end_told, ends_by, closes};

use crate::turn::Turn;
use call_fsm::{CallAction, CallEvent};
use control_message::Message;
use end_model::{Call, EndSilent, EndTold, Move, Out, Role};
use send_window::Letters;
use tunnel_calls::TunnelCalls;
use tunnel_rules::call_row;
use tunnel_timers::{is_current, is_up};
use wire_base::{Cause, NoMemory, Why};

/// The result code of a CDN for a call whose carrier was lost (RFC 2661 section 4.4.2).
const LOST_CARRIER: u16 = 1;

/// The result code of a CDN for a call that is disconnected for administrative reasons.
pub const ADMINISTRATIVE: u16 = 3;

/// A call ends of which the peer knows nothing.
#[tactic(auto, unfolding(end_model::specs::Closing::end_silent))]
fn end_silently(turn: &mut Turn, session: u16, booked: bool) -> Result<(), NoMemory>
    ensures { OnOk result (turn.new ≡ end_silent session booked turn.old) }
{
    let tunnel = turn.control.local;
    turn.end_call(u32::from(session))?;
    turn.did(Move::EndSilent(EndSilent {
        tunnel,
        session,
        booked,
    }))
}

/// A call ends, and the peer is told by a CDN with this result code and error code.
#[tactic(auto, unfolding(end_model::specs::Closing::end_told))]
fn end_and_tell(
    turn: &mut Turn,
    session: u16,
    call: &Call,
    code: u16,
    error: Option<u16>,
) -> Result<(), NoMemory>
    requires { IsTrue (has_room turn.old.control) }
    ensures { OnOk result (turn.new ≡ end_told session call.now code error turn.old) }
{
    let given = turn.next_place();
    let tunnel = turn.control.local;
    let remote = call.remote;
    turn.end_call(u32::from(session))?;
    turn.did(Move::EndTold(EndTold {
        tunnel,
        session,
        remote,
        booked: is_up(call.state),
        result: code,
        error,
        given,
    }))?;
    turn.give(
        remote,
        &Message::Cdn {
            session,
            result: code,
            error,
        },
    )
}

/// A call ends as its table has it: the cause is told where the peer is. In a tunnel that is frozen or restored nobody is told.
#[tactic(auto, unfolding(end_model::specs::Closing::ends_by))]
pub fn end_by(
    turn: &mut Turn,
    cause: Cause,
    code: u16,
    error: Option<u16>,
    session: u16,
    call: &Call,
    action: CallAction,
) -> Result<(), NoMemory>
    ensures { OnOk result (turn.new ≡ ends_by cause code error session call.now action turn.old) }
{
    match action {
        CallAction::CleanUp => end_silently(turn, session, is_up(call.state)),
        CallAction::SendCdn if !is_current(turn.mode) => {
            end_silently(turn, session, is_up(call.state))
        }
        CallAction::SendCdn if turn.has_room() => {
            turn.output(Out::Cause { cause })?;
            end_and_tell(turn, session, call, code, error)
        }
        CallAction::SendCdn => turn.drop_with(Why::Queue),
        _ => Ok(()),
    }
}

/// Closes a call of this end's, by an event of its table.
#[tactic(auto, unfolding(end_model::specs::Closing::closes))]
fn close(
    turn: &mut Turn,
    role: Role,
    cause: Cause,
    event: CallEvent,
    code: u16,
    session: u16,
    call: Option<&Call>,
) -> Result<(), NoMemory>
    ensures { OnOk result (turn.new ≡ closes role cause event code session (option_copied call.entry) turn.old) }
{
    let Some(call) = call else {
        return turn.drop_with(Why::Call);
    };
    let (_, action) = call_row(role, call.state, event);
    end_by(turn, cause, code, None, session, call, action)
}

/// The subscriber of a call leaves.
pub fn hang(
    turn: &mut Turn,
    role: Role,
    letters: &Letters,
    calls: &TunnelCalls,
    session: u16,
) -> Result<(), NoMemory>
    ensures { OnOk result (turn.new ≡ settles false letters.now.letters (closes role cause.Line event.LineDrop 1 session (at calls.now.entries session) turn.old)) }
{
    let call = calls.get(u32::from(session));
    let event = CallEvent::LineDrop;
    close(turn, role, Cause::Line, event, LOST_CARRIER, session, call)?;
    turn.settle(false, letters)
}

/// A call is closed for administrative reasons.
pub fn drop_call(
    turn: &mut Turn,
    role: Role,
    letters: &Letters,
    calls: &TunnelCalls,
    session: u16,
) -> Result<(), NoMemory>
    ensures { OnOk result (turn.new ≡ settles false letters.now.letters (closes role cause.Operator event.Close 3 session (at calls.now.entries session) turn.old)) }
{
    let call = calls.get(u32::from(session));
    let event = CallEvent::Close;
    close(
        turn,
        role,
        Cause::Operator,
        event,
        ADMINISTRATIVE,
        session,
        call,
    )?;
    turn.settle(false, letters)
}
