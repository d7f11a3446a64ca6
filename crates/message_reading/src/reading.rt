//! What a datagram says.

ghost use Rattle.std.specs.Prelude.{◌≡◌, ◌≤◌, Ok, Err, Some, IfOk};
ghost use Rattle.l2tp_datagram.specs.Bodies.{room_of};
ghost use Rattle.message_reading.specs.Few.{HasFew};
ghost use Rattle.tunnel_fsm.specs.declared.table.TunnelEvent.TheVariants as event;
ghost use Rattle.end_model.specs.Reading.{kind_said, message_in, pairs_read, fault_cause, is_about_call, is_request, is_value, is_for_call, fault_of_kind, fault_of_pairs, call_fault_in, event_of_kind, told_by_kind, closing, closing_by, tunnel_fault_of_kind, tunnel_fault_read, tunnel_fault_of_pairs, tunnel_fault_in};

use avp_codec::{AvpError, LentAvps};
use control_message::{
    Kind, Kinds, Message, MessageError, Read, assigned_session, assigned_tunnel, kind_of_pairs,
    read_message,
};
use l2tp_datagram::Body;
use std::alloc::Global;
use std::marker::Model;
use tunnel_fsm::TunnelEvent;
use wire_base::{Cause, NoMemory, Why};

/// A message about a call that has a fault, and the session id that it tells, where that can be read.
#[derive(Drop)]
pub struct CallFault {
    pub kind: Kind,
    pub cause: Cause,
    pub session: Option<u16>,
}

impl Model for CallFault {
    ghost use Rattle.end_model.specs.Reading.{CallFault as Known};

    ghost Value = { Known };

    ghost view = { λ f. record { kind = f.kind; cause = f.cause; session = f.session } };
}

/// What a faulty message is to the tunnel's table, why the tunnel is closed where its row says so, and the tunnel id that an SCCRP
/// tells, where that can be read, else 0.
#[derive(Drop)]
pub struct TunnelFault {
    pub event: TunnelEvent,
    pub cause: Cause,
    pub remote: u16,
}

impl Model for TunnelFault {
    ghost use Rattle.end_model.specs.Reading.{TunnelFault as Known};

    ghost Value = { Known };

    ghost view = { λ f. record { event = f.event; cause = f.cause; remote = f.remote } };
}

/// What the body of a control message says: a message, or why it is ignored; and its fault, where it is about a call, or to the
/// tunnel's table.
#[derive(Drop)]
pub struct Said {
    pub message: Result<Message, Why>,
    pub fault: Option<CallFault>,
    pub closing: Option<TunnelFault>,
}

/// What a fault says to the peer: a pair that has to be understood isn't, or a value is wrong or wanting.
fn fault_cause(error: MessageError) -> Option<Cause>
    ensures { result ≡ fault_cause error }
{
    match error {
        MessageError::UnknownMandatory { .. } => Some(Cause::Mandatory),
        MessageError::HiddenWithoutVector { .. }
        | MessageError::BadValue { .. }
        | MessageError::Missing { .. } => Some(Cause::Value),
        MessageError::NoType | MessageError::UnknownType { .. } | MessageError::NoMemory => None,
    }
}

/// Whether a message of the kind is about a call.
fn is_about_call(kind: Kind) -> bool
    ensures { result ≡ is_about_call kind }
{
    matches!(
        kind,
        Kind::Icrq | Kind::Icrp | Kind::Iccn | Kind::Cdn | Kind::Wen | Kind::Sli | Kind::Ocrq
    )
}

/// Whether a faulty message is about a call, and answered by a CDN or by nothing: a request whose value is wrong and that tells no
/// session can't be.
fn is_for_call(kind: Kind, session: Option<u16>, cause: Option<Cause>) -> bool
    ensures { result ≡ is_for_call kind session cause }
{
    let is_request = matches!(kind, Kind::Icrq | Kind::Ocrq);
    let is_value = matches!(cause, Some(Cause::Value));
    is_about_call(kind) && !(is_request && is_value && session.is_none())
}

/// The fault of pairs that aren't read, where they are about a call.
fn fault_of(avps: &LentAvps<'_>, error: MessageError) -> Option<CallFault>
    ensures { result ≡ fault_of_kind (kind_said avps.now) error avps.now }
{
    let kind = kind_of_pairs(avps, Kinds::Queries)?;
    let session = assigned_session(avps);
    let cause = fault_cause(error);
    if !is_for_call(kind, session, cause) {
        return None;
    }
    let cause = cause?;
    Some(CallFault {
        kind,
        cause,
        session,
    })
}

/// The event of the tunnel's table that a faulty message of the kind is.
fn event_of_kind(kind: Kind) -> TunnelEvent
    ensures { result ≡ event_of_kind kind }
{
    match kind {
        Kind::Sccrq => TunnelEvent::SccrqNotAcc,
        Kind::Sccrp => TunnelEvent::SccrpNotAcc,
        Kind::Scccn => TunnelEvent::ScccnNotAcc,
        Kind::StopCcn => TunnelEvent::StopCcnCame,
        _ => TunnelEvent::AdminClose,
    }
}

/// The tunnel id that an SCCRP tells, where that can be read, else 0.
fn told_by_kind(kind: Kind, avps: &LentAvps<'_>) -> u16
    ensures { result ≡ told_by_kind kind avps.now }
{
    match kind {
        Kind::Sccrp => assigned_tunnel(avps).unwrap_or(0),
        _ => 0,
    }
}

/// What closes a tunnel, whatever its state.
fn closing(cause: Cause) -> Option<TunnelFault>
    ensures { result ≡ Some (closing event.AdminClose cause 0) }
{
    Some(TunnelFault {
        event: TunnelEvent::AdminClose,
        cause,
        remote: 0,
    })
}

/// The fault of pairs of a known kind that aren't read, where they aren't about a call.
fn closing_of_kind(avps: &LentAvps<'_>, error: MessageError) -> Option<TunnelFault>
    ensures { result ≡ tunnel_fault_of_kind (kind_said avps.now) error avps.now }
{
    let kind = kind_of_pairs(avps, Kinds::Queries)?;
    let cause = fault_cause(error);
    if is_for_call(kind, assigned_session(avps), cause) {
        return None;
    }
    let cause = cause?;
    Some(TunnelFault {
        event: event_of_kind(kind),
        cause,
        remote: told_by_kind(kind, avps),
    })
}

/// The fault of pairs that aren't read, where they aren't about a call.
fn closing_of(avps: &LentAvps<'_>, error: MessageError) -> Option<TunnelFault>
    ensures { result ≡ tunnel_fault_read avps.now (Err error) }
{
    match error {
        MessageError::NoType => closing(Cause::Avp),
        MessageError::UnknownType { .. } => closing(Cause::Mandatory),
        _ => closing_of_kind(avps, error),
    }
}

/// What pairs say.
#[tactic(auto, unfolding(end_model::specs::Reading::message_read, end_model::specs::Reading::pairs_read, end_model::specs::Reading::fault_of_pairs, end_model::specs::Reading::tunnel_fault_of_pairs))]
fn said_of(alloc: Global, avps: &LentAvps<'_>) -> Result<Said, NoMemory>
    requires room { room_of avps.now ≤ 65523 }
    ensures message { IfOk result (λ said. said.message ≡ pairs_read (Ok avps.now)) }
    ensures fault { IfOk result (λ said. said.fault ≡ fault_of_pairs (Ok avps.now)) }
    ensures closing { IfOk result (λ said. said.closing ≡ tunnel_fault_of_pairs (Ok avps.now)) }
    ensures few { IfOk result (λ said. HasFew said.message) }
{
    match read_message(alloc, avps, None, Kinds::Queries) {
        Ok(Read::Known(message)) => Ok(Said {
            message: Ok(message),
            fault: None,
            closing: None,
        }),
        Ok(Read::Ignored { .. }) => Ok(Said {
            message: Err(Why::Ignored),
            fault: None,
            closing: None,
        }),
        Err(MessageError::NoMemory) => Err(NoMemory),
        Err(error) => Ok(Said {
            message: Err(Why::Avp),
            fault: fault_of(avps, error),
            closing: closing_of(avps, error),
        }),
    }
}

/// What the body of a control message says. It names no more sessions than one message has room for.
#[tactic(auto, unfolding(end_model::specs::Reading::message_in, end_model::specs::Reading::pairs_read, end_model::specs::Reading::call_fault_in, end_model::specs::Reading::fault_of_pairs, end_model::specs::Reading::tunnel_fault_in, end_model::specs::Reading::tunnel_fault_of_pairs))]
pub fn read_body(alloc: Global, body: &Body<'_>) -> Result<Said, NoMemory>
    ensures message { IfOk result (λ said. said.message ≡ message_in body.now) }
    ensures fault { IfOk result (λ said. said.fault ≡ call_fault_in body.now) }
    ensures closing { IfOk result (λ said. said.closing ≡ tunnel_fault_in body.now) }
    ensures few { IfOk result (λ said. HasFew said.message) }
{
    match body.pairs() {
        Ok(avps) => said_of(alloc, &avps),
        Err(AvpError::NoMemory) => Err(NoMemory),
        Err(_) => Ok(Said {
            message: Err(Why::Avp),
            fault: None,
            closing: closing(Cause::Avp),
        }),
    }
}
