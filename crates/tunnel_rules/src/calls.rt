//! The calls of a tunnel: what their tables say of an event (RFC 2661 section 7.4), and how they are made.

ghost use Rattle.std.specs.Prelude.{◌≡◌, ◌<◌, ◌≤◌, if◌then◌else◌, length, true, None, Err, IfSome, IfOk};
ghost use Rattle.wire_base.specs.declared.cause.Cause.TheVariants as causes;
ghost use Rattle.control_message.specs.Pairs.{IsWritten, hidden_of};
ghost use Rattle.end_model.specs.Calls.{call_row, rung, advanced, idle_call, asked_for, is_request, is_reply, is_connection, is_clean_up, first_number, number_of, number_after, counted};
ghost use Rattle.tunnel_calls.specs.Replays.{replays};
ghost use Rattle.end_model.specs.Reasons.{reason};
ghost use Rattle.end_model.specs.Asking.{left_of};
ghost use Rattle.end_model.specs.Messages.{request_of};
ghost use Rattle.end_model.specs.Links.{is_passing};

use call_fsm::{CallAction, CallEvent, CallState, lac_advance, lns_advance};
use call_link::Link;
use control_message::Message;
use end_model::{Call, CallStep, CallSteps, Role, calling_number, twelve_digits};
use id_source::IdError;
use message_reading::Reason;
use std::alloc::Global;
use wire_base::{Cause, NoMemory};

/// What a call's table says (RFC 2661 section 7.4).
#[tactic(auto, unfolding(end_model::specs::Calls::call_row))]
pub fn call_row(role: Role, state: CallState, event: CallEvent) -> (CallState, CallAction)
    ensures { result ≡ call_row role state event }
{
    match role {
        Role::Lac => lac_advance(state, event),
        Role::Lns => lns_advance(state, event),
    }
}

/// The call as its table has it after an event, at a moment.
#[tactic(auto, unfolding(end_model::specs::Calls::advanced))]
fn gone_on(
    alloc: Global,
    role: Role,
    event: CallEvent,
    moment: u64,
    call: &Call,
    remote: u16,
) -> Result<Call, NoMemory>
    ensures { IfOk result (λ c. c ≡ advanced role event moment (record call.now { remote = remote })) }
{
    let (next, _) = call_row(role, call.state, event);
    let mut after = copy_call(alloc, call)?;
    after.steps.push(CallStep {
        state: call.state,
        event,
        next,
    })?;
    after.remote = remote;
    after.state = next;
    after.since = moment;
    Ok(after)
}

/// The call as its table has it after an event, at a moment, of one whose rows lead to its state. So do its own.
#[tactic(auto, using(tunnel_calls::specs::Replays::replays_moved))]
pub fn advanced(
    alloc: Global,
    role: Role,
    event: CallEvent,
    moment: u64,
    call: &Call,
    remote: u16,
) -> Result<Call, NoMemory>
    requires { replays call.now ≡ true }
    ensures value { IfOk result (λ c. c ≡ advanced role event moment (record call.now { remote = remote })) }
    ensures replays { IfOk result (λ c. replays c ≡ true) }
{
    gone_on(alloc, role, event, moment, call, remote)
}

/// A call that nothing came to yet.
#[tactic(auto, unfolding(tunnel_calls::specs::Replays::replays))]
pub fn idle_call(alloc: Global, subscriber: [u8; 6]) -> Call
    ensures value { result ≡ idle_call 0 subscriber }
    ensures replays { replays result ≡ true }
{
    Call {
        remote: 0,
        state: CallState::Idle,
        since: 0,
        subscriber,
        steps: CallSteps::new(alloc),
        link: None,
        sequence: None,
    }
}

/// A call that a subscriber rings for.
#[tactic(auto, unfolding(end_model::specs::Calls::rung))]
pub fn rung(alloc: Global, role: Role, subscriber: [u8; 6], moment: u64) -> Result<Call, NoMemory>
    ensures value { IfOk result (λ c. c ≡ rung role subscriber moment) }
    ensures replays { IfOk result (λ c. replays c ≡ true) }
{
    let idle = idle_call(alloc, subscriber);
    advanced(alloc, role, CallEvent::Ring, moment, &idle, 0)
}

/// A call that the peer asks for.
#[tactic(auto, unfolding(end_model::specs::Calls::asked_for))]
pub fn asked_for(alloc: Global, role: Role, remote: u16, moment: u64) -> Result<Call, NoMemory>
    ensures value { IfOk result (λ c. c ≡ asked_for role remote moment) }
    ensures replays { IfOk result (λ c. replays c ≡ true) }
{
    let idle = idle_call(alloc, [0; 6]);
    advanced(alloc, role, CallEvent::IcrqAcc, moment, &idle, remote)
}

/// The same call once more.
pub fn copy_call(alloc: Global, call: &Call) -> Result<Call, NoMemory>
    ensures { IfOk result (λ c. c ≡ call.now) }
{
    let mut copy = idle_call(alloc, call.subscriber);
    copy.steps = CallSteps::from_slice(alloc, call.steps.as_slice())?;
    copy.remote = call.remote;
    copy.state = call.state;
    copy.since = call.since;
    copy.link = call.link;
    copy.sequence = call.sequence;
    Ok(copy)
}

/// The number of the first data message of a call: 0 where its ICCN had Sequencing Required (RFC 2661 section 5.4), else none.
pub fn first_number(sequenced: bool) -> Option<u16>
    ensures { result ≡ first_number sequenced }
{
    if sequenced { Some(0) } else { None }
}

/// The number of a call's next data message as the header has it, which has 16 bits for it.
pub fn number_of(sequence: Option<u16>) -> Option<u16>
    ensures { result ≡ number_of sequence }
{
    match sequence {
        Some(number) => Some(number),
        None => None,
    }
}

/// The number behind that of a call's next data message: they are counted modulo 65536.
pub fn number_after(sequence: Option<u16>) -> Option<u16>
    ensures { result ≡ number_after sequence }
{
    match sequence {
        Some(number) => Some(number.wrapping_add(1)),
        None => None,
    }
}

/// The call after one data message, with the next number where its data messages have one.
pub fn counted(alloc: Global, call: &Call) -> Result<Call, NoMemory>
    ensures { IfOk result (λ c. c ≡ counted call.now) }
{
    let mut after = copy_call(alloc, call)?;
    after.sequence = number_after(call.sequence);
    Ok(after)
}

/// There are no facilities for a call, for this cause: result code 4 (RFC 2661 section 4.4.2).
fn no_facilities(cause: Cause) -> Reason
    ensures { result ≡ reason cause 4 None }
{
    Reason {
        cause,
        code: 4,
        error: None,
    }
}

/// The session of one more call that the peer asks for: the next id, where the tunnel has room for a call and an id is left, else
/// the cause.
pub fn session_left(are_too_many: bool, next: Result<u32, IdError>) -> Result<u16, Reason>
    requires { IfOk next (λ id. (0 < id) × (id ≤ 65535)) }
    ensures value { result ≡ (if are_too_many then Err (reason causes.Calls 4 None) else left_of next) }
    ensures some { IfOk result (λ session. 0 < session) }
{
    if are_too_many {
        return Err(no_facilities(Cause::Calls));
    }
    match next {
        Ok(id) => Ok(id as u16),
        Err(_) => Err(no_facilities(Cause::Ids)),
    }
}

pub fn is_request(action: CallAction) -> bool
    ensures { result ≡ is_request action }
{
    matches!(action, CallAction::SendIcrq)
}

pub fn is_reply(action: CallAction) -> bool
    ensures { result ≡ is_reply action }
{
    matches!(action, CallAction::SendIcrp)
}

pub fn is_connection(action: CallAction) -> bool
    ensures { result ≡ is_connection action }
{
    matches!(action, CallAction::SendIccn)
}

pub fn is_clean_up(action: CallAction) -> bool
    ensures { result ≡ is_clean_up action }
{
    matches!(action, CallAction::CleanUp)
}

/// Whether frames of the network pass in a call that is established: at a LAC all of them, at an LNS once LCP was open.
pub fn is_passing(link: &Option<Link>) -> bool
    ensures { result ≡ is_passing link.now }
{
    match link {
        None => true,
        Some(link) => link.is_open(),
    }
}

/// The request for a call of a LAC.
pub fn request_of(alloc: Global, session: u16, subscriber: &[u8; 6]) -> Result<Message, NoMemory>
    ensures value { IfOk result (λ m. m ≡ request_of session subscriber.now) }
    ensures written { IfOk result IsWritten }
    ensures short { IfOk result (λ m. IfSome (hidden_of m) (λ number. length number ≤ 990)) }
{
    twelve_digits();
    Ok(Message::Icrq {
        session,
        serial: u32::from(session),
        calling: Some(calling_number(alloc, subscriber)?),
    })
}
