//! Letters about a call that have a fault (RFC 2661 sections 4.1, 4.4.2 and 7.4).

ghost use Rattle.std.specs.Prelude.{◌≡◌, OnOk};
ghost use Rattle.std.specs.Option.{option_copied};
ghost use Rattle.control_message.specs.declared.kind.Kind.TheVariants as kind;
ghost use Rattle.end_model.specs.Faulty.{faulty_at, faulty, in_faulty_call};
ghost use Rattle.end_model.specs.Hearing.{hears_faulty};

use crate::hearing::take_letter;
use call_fsm::{CallAction, CallEvent, CallState};
use control_message::Kind;
use end_model::{Call, Config, Role};
use message_reading::{CallFault, Reason, Said, fault_reason};
use tunnel_calls::TunnelCalls;
use tunnel_fsm::TunnelState;
use tunnel_rules::call_row;
use tunnel_turn::refusing::{answer, answer_no_call, refuse};
use tunnel_turn::told::Told;
use tunnel_turn::turn::Turn;
use wire_base::{Cause, NoMemory, Why};

/// What is done for a faulty letter by the table's row for this event, or, where there is no such call, by the action `none`.
#[tactic(auto, unfolding(end_model::specs::Faulty::faulty_at))]
fn answer_fault(
    turn: &mut Turn,
    role: Role,
    reason: &Reason,
    remote: u16,
    event: CallEvent,
    none: CallAction,
    id: u32,
    call: Option<&Call>,
) -> Result<(), NoMemory>
    ensures { OnOk result (turn.new ≡ faulty_at role reason.now id remote event none (option_copied call.entry) turn.old) }
{
    let Some(call) = call else {
        return answer_no_call(turn, reason, remote, none);
    };
    let (_, action) = call_row(role, call.state, event);
    answer(turn, reason, id, call, action)
}

/// A faulty request for a call.
#[tactic(auto, unfolding(end_model::specs::Faulty::faulty))]
fn take_faulty_request(
    turn: &mut Turn,
    role: Role,
    calls: &TunnelCalls,
    session: u16,
    cause: Cause,
    told: Option<u16>,
) -> Result<(), NoMemory>
    ensures { OnOk result (turn.new ≡ faulty role calls.now.entries session kind.Icrq cause told turn.old) }
{
    let id = u32::from(session);
    let event = CallEvent::IcrqNotAcc;
    let none = CallAction::SendCdn;
    let remote = told.unwrap_or(0);
    answer_fault(
        turn,
        role,
        &fault_reason(cause),
        remote,
        event,
        none,
        id,
        calls.get(id),
    )
}

/// A faulty request for an outgoing call.
#[tactic(auto, unfolding(end_model::specs::Faulty::faulty))]
fn refuse_faulty(
    turn: &mut Turn,
    role: Role,
    calls: &TunnelCalls,
    session: u16,
    cause: Cause,
    told: Option<u16>,
) -> Result<(), NoMemory>
    ensures { OnOk result (turn.new ≡ faulty role calls.now.entries session kind.Ocrq cause told turn.old) }
{
    refuse(turn, &fault_reason(cause), told.unwrap_or(0))
}

/// A faulty CDN, for a call that the header names by its session, or, where that is 0, by the one that the peer assigned.
#[tactic(auto, unfolding(end_model::specs::Faulty::faulty))]
fn take_faulty_end(
    turn: &mut Turn,
    role: Role,
    calls: &TunnelCalls,
    session: u16,
    cause: Cause,
    told: Option<u16>,
) -> Result<(), NoMemory>
    ensures { OnOk result (turn.new ≡ faulty role calls.now.entries session kind.Cdn cause told turn.old) }
{
    let named = calls.session_named(turn.alloc, session, told.unwrap_or(0))?;
    let (_, none) = call_row(role, CallState::Idle, CallEvent::CdnCame);
    let event = CallEvent::Close;
    answer_fault(
        turn,
        role,
        &fault_reason(cause),
        0,
        event,
        none,
        named,
        calls.get(named),
    )
}

/// A faulty letter of this kind about a call.
#[tactic(auto, unfolding(end_model::specs::Faulty::faulty))]
fn take_faulty(
    turn: &mut Turn,
    role: Role,
    calls: &TunnelCalls,
    session: u16,
    kind: Kind,
    cause: Cause,
    told: Option<u16>,
) -> Result<(), NoMemory>
    ensures { OnOk result (turn.new ≡ faulty role calls.now.entries session kind cause told turn.old) }
{
    let id = u32::from(session);
    let (remote, event, none) = match kind {
        Kind::Icrq => return take_faulty_request(turn, role, calls, session, cause, told),
        Kind::Ocrq => return refuse_faulty(turn, role, calls, session, cause, told),
        Kind::Cdn => return take_faulty_end(turn, role, calls, session, cause, told),
        Kind::Icrp => {
            let event = CallEvent::IcrpNotAcc;
            (
                told.unwrap_or(0),
                event,
                call_row(role, CallState::Idle, event).1,
            )
        }
        Kind::Iccn => {
            let event = CallEvent::IccnNotAcc;
            (0, event, call_row(role, CallState::Idle, event).1)
        }
        _ => (0, CallEvent::Close, CallAction::Nothing),
    };
    answer_fault(
        turn,
        role,
        &fault_reason(cause),
        remote,
        event,
        none,
        id,
        calls.get(id),
    )
}

/// A faulty letter about a call: only an open tunnel carries calls.
#[tactic(auto, unfolding(end_model::specs::Faulty::in_faulty_call))]
fn hear_call_fault(
    turn: &mut Turn,
    role: Role,
    calls: &TunnelCalls,
    session: u16,
    fault: &CallFault,
) -> Result<(), NoMemory>
    ensures { OnOk result (turn.new ≡ in_faulty_call role calls.now.entries session fault.now turn.old) }
{
    if turn.control.state != TunnelState::Established {
        return turn.ignore(Why::Session);
    }
    take_faulty(
        turn,
        role,
        calls,
        session,
        fault.kind,
        fault.cause,
        fault.session,
    )
}

/// A faulty letter: one about a call, or one that is an event of the tunnel's table; one of an unknown type that need not be
/// understood is neither.
#[tactic(auto, unfolding(end_model::specs::Hearing::hears_faulty))]
pub(crate) fn hear_fault(
    turn: &mut Turn,
    role: Role,
    config: &Config,
    calls: &TunnelCalls,
    session: u16,
    said: &Said,
    why: Why,
) -> Result<(), NoMemory>
    ensures { OnOk result (turn.new ≡ hears_faulty role config.now calls.now.entries session said.now.fault said.now.closing why turn.old) }
{
    match (&said.fault, &said.closing) {
        (Some(fault), _) => hear_call_fault(turn, role, calls, session, fault),
        (None, Some(fault)) => {
            let reason = fault_reason(fault.cause);
            let none = None;
            let told = Told::id(&none, fault.remote);
            take_letter(turn, role, config, calls, &reason, fault.event, &told)
        }
        (None, None) => turn.ignore(why),
    }
}
