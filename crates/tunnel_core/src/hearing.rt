//! Control messages of a tunnel.

ghost use Rattle.std.specs.Prelude.{◌≡◌, ℕ, ◌≤◌, false, length, Ok, OnOk};
ghost use Rattle.control_message.specs.declared.message.Message.TheVariants.{Sccrq, Sccrp, Scccn};
ghost use Rattle.l2tp_header.specs.Reading.{header_of};
ghost use Rattle.message_reading.specs.Few.{HasFew};
ghost use Rattle.end_model.specs.Hearing.{connects, takes, about_call, in_call, in_query, heeds_answer, hears, hears_said, hears_next, hears_letter, is_duplicate, in_tunnel, first_said, mode_why, ignores_all, hears_control, hears_datagram};
ghost use Rattle.end_model.specs.Sending.{settles};
ghost use Rattle.end_model.specs.Asking.{session_named};
ghost use Rattle.end_model.specs.Connecting.{ends_named};
ghost use Rattle.end_model.specs.Querying.{told_at};

use crate::faulty::hear_fault;
use control_message::{Message, Opening};
use end_model::{Config, Mode, Move, Role};
use l2tp_datagram::{Body, Datagram};
use l2tp_header::Header;
use message_reading::{
    Reason, Said, connected_event, connected_reason, event_by, no_outgoing, not_asked,
    opening_reason, out_of_order, read_body,
};
use recv_window::Class;
use send_window::Letters;
use session_looks::header_why;
use tunnel_calls::TunnelCalls;
use tunnel_fsm::{TunnelAction, TunnelEvent, TunnelState, advance};
use tunnel_rules::{may_take, same_state};
use tunnel_timers::{is_closed, is_current};
use tunnel_turn::asking::take_request;
use tunnel_turn::calls::{take_connection, take_end, take_reply};
use tunnel_turn::openings::{accept, confirm, connect};
use tunnel_turn::querying::{answer_query, hear, take_answer};
use tunnel_turn::refusing::refuse;
use tunnel_turn::ringing::request_all;
use tunnel_turn::stopping::{close_tunnel, reject, take_stop};
use tunnel_turn::told::Told;
use tunnel_turn::turn::Turn;
use wire_base::{NoMemory, Pair, Why};

/// Takes the SCCRP, and asks for each call that waits for the tunnel.
#[tactic(auto, unfolding(end_model::specs::Hearing::connects))]
fn connect_all(
    turn: &mut Turn,
    role: Role,
    config: &Config,
    calls: &TunnelCalls,
    told: &Told,
    next: TunnelState,
) -> Result<(), NoMemory>
    ensures { OnOk result (turn.new ≡ connects role config.now calls.now.entries told.now next turn.old) }
{
    if !turn.has_room() {
        return turn.drop_with(Why::Queue);
    }
    let sessions = calls.ids(turn.alloc)?;
    connect(turn, config, told, next)?;
    request_all(turn, role, config, sessions.as_slice(), calls)
}

/// Does what the table says on a letter about the tunnel, which tells this of the peer; where its row closes the tunnel, it is for this reason. A tunnel of which the peer's id is known is closed first, and then takes
/// the letter as a closed one does.
#[tactic(auto, unfolding(end_model::specs::Hearing::takes, end_model::specs::Hearing::takes_by))]
pub(crate) fn take_letter(
    turn: &mut Turn,
    role: Role,
    config: &Config,
    calls: &TunnelCalls,
    reason: &Reason,
    event: TunnelEvent,
    told: &Told,
) -> Result<(), NoMemory>
    ensures { OnOk result (turn.new ≡ takes role config.now calls.now.entries reason.now event told.now turn.old) }
{
    let (next, action) = advance(turn.control.state, event);
    match action {
        TunnelAction::SendScccn => connect_all(turn, role, config, calls, told, next),
        TunnelAction::SendStopCcn => {
            if turn.control.state == TunnelState::WaitCtlReply {
                return reject(turn, reason, calls, told.remote, next);
            }
            let known = turn.control.remote;
            close_tunnel(turn, reason, calls, known, next)?;
            turn.take_plain()
        }
        TunnelAction::CleanUp => take_stop(turn, calls, next),
        TunnelAction::Nothing => {
            if same_state(next, turn.control.state) {
                turn.take_plain()
            } else {
                confirm(turn, next)
            }
        }
        _ => turn.take_plain(),
    }
}

/// Takes the CDN for a call that the header names by its session, or, where that is 0, by the one that the peer assigned.
#[tactic(auto, unfolding(end_model::specs::Connecting::ends_named))]
fn hear_end_of(
    turn: &mut Turn,
    role: Role,
    calls: &TunnelCalls,
    session: u16,
    remote: u16,
) -> Result<(), NoMemory>
    ensures { OnOk result (turn.new ≡ ends_named role calls.now.entries (session_named calls.now.entries session remote) turn.old) }
{
    let named = calls.session_named(turn.alloc, session, remote)?;
    take_end(turn, role, named, calls.get(named))
}

/// A letter about a call.
#[tactic(auto, unfolding(end_model::specs::Hearing::about_call))]
fn hear_about_call(
    turn: &mut Turn,
    role: Role,
    calls: &TunnelCalls,
    session: u16,
    message: &Message,
) -> Result<(), NoMemory>
    ensures { OnOk result (turn.new ≡ about_call role calls.now.entries session message.now turn.old) }
{
    let call = calls.get(u32::from(session));
    match message {
        Message::Icrq {
            session: remote,
            ..
        } => take_request(turn, role, calls, session, *remote),
        Message::Icrp { session: remote } => take_reply(turn, role, session, *remote, call),
        Message::Iccn { sequenced, .. } => take_connection(turn, role, *sequenced, session, call),
        Message::Cdn {
            session: remote,
            ..
        } => hear_end_of(turn, role, calls, session, *remote),
        Message::Ocrq { session: remote } => refuse(turn, &no_outgoing(), *remote),
        _ => turn.take_plain(),
    }
}

/// A letter about a call: only an open tunnel carries calls.
#[tactic(auto, unfolding(end_model::specs::Hearing::in_call))]
fn hear_in_call(
    turn: &mut Turn,
    role: Role,
    calls: &TunnelCalls,
    session: u16,
    message: &Message,
) -> Result<(), NoMemory>
    ensures { OnOk result (turn.new ≡ in_call role calls.now.entries session message.now turn.old) }
{
    if turn.control.state != TunnelState::Established {
        return turn.ignore(Why::Session);
    }
    hear_about_call(turn, role, calls, session, message)
}

/// An SCCRQ in a tunnel, which asked nothing that it could answer.
#[tactic(auto, unfolding(end_model::specs::Hearing::hears))]
fn hear_sccrq(
    turn: &mut Turn,
    role: Role,
    config: &Config,
    calls: &TunnelCalls,
    opening: &Opening,
) -> Result<(), NoMemory>
    ensures { (session : ℕ) → OnOk result (turn.new ≡ hears role config.now calls.now.entries session (Sccrq opening.now) turn.old) }
{
    let secret = &config.secret;
    let reason = opening_reason(secret, &None, opening);
    let (good, bad) = (TunnelEvent::SccrqAcc, TunnelEvent::SccrqNotAcc);
    let event = event_by(good, bad, secret, &None, opening);
    let none = None;
    let told = Told::id(&none, 0);
    take_letter(turn, role, config, calls, &reason, event, &told)
}

/// An SCCRP, which answers what the tunnel asked.
#[tactic(auto, unfolding(end_model::specs::Hearing::hears))]
fn hear_sccrp(
    turn: &mut Turn,
    role: Role,
    config: &Config,
    calls: &TunnelCalls,
    opening: &Opening,
) -> Result<(), NoMemory>
    ensures { (session : ℕ) → OnOk result (turn.new ≡ hears role config.now calls.now.entries session (Sccrp opening.now) turn.old) }
{
    let secret = &config.secret;
    let asked = turn.control.challenge;
    let reason = opening_reason(secret, &asked, opening);
    let (good, bad) = (TunnelEvent::SccrpAcc, TunnelEvent::SccrpNotAcc);
    let event = event_by(good, bad, secret, &asked, opening);
    let told = Told::by(opening);
    take_letter(turn, role, config, calls, &reason, event, &told)
}

/// An SCCCN, which answers what the tunnel asked.
#[tactic(auto, unfolding(end_model::specs::Hearing::hears))]
fn hear_scccn(
    turn: &mut Turn,
    role: Role,
    config: &Config,
    calls: &TunnelCalls,
    response: &Option<[u8; 16]>,
) -> Result<(), NoMemory>
    ensures { (session : ℕ) → OnOk result (turn.new ≡ hears role config.now calls.now.entries session (Scccn response.now) turn.old) }
{
    let secret = &config.secret;
    let asked = turn.control.challenge;
    let reason = connected_reason(secret, &asked, response);
    let event = connected_event(secret, &asked, response);
    let none = None;
    let told = Told::id(&none, 0);
    take_letter(turn, role, config, calls, &reason, event, &told)
}

/// A query of the peer for sessions: only an open tunnel has any.
#[tactic(auto, unfolding(end_model::specs::Hearing::in_query))]
fn hear_query(turn: &mut Turn, calls: &TunnelCalls, sessions: &[Pair]) -> Result<(), NoMemory>
    requires few { length sessions.now ≤ 4094 }
    ensures { OnOk result (turn.new ≡ in_query calls.now.entries sessions.now turn.old) }
{
    if turn.control.state != TunnelState::Established {
        return turn.take_plain();
    }
    answer_query(turn, calls, sessions)
}

/// The answer to a query. One that wasn't asked for closes the tunnel.
#[tactic(auto, unfolding(end_model::specs::Hearing::heeds_answer))]
fn hear_answer(
    turn: &mut Turn,
    role: Role,
    config: &Config,
    calls: &TunnelCalls,
    answers: &[Pair],
) -> Result<(), NoMemory>
    ensures { OnOk result (turn.new ≡ heeds_answer role config.now calls.now.entries answers.now (told_at turn.old.control.state turn.old.query answers.now) turn.old) }
{
    if let Some(heard) = hear(turn, answers)? {
        return take_answer(turn, calls, answers, heard);
    }
    let reason = not_asked();
    let event = TunnelEvent::AdminClose;
    let none = None;
    let told = Told::id(&none, 0);
    take_letter(turn, role, config, calls, &reason, event, &told)
}

/// The next letter of the peer.
#[tactic(auto, unfolding(end_model::specs::Hearing::hears))]
fn hear_letter(
    turn: &mut Turn,
    role: Role,
    config: &Config,
    calls: &TunnelCalls,
    session: u16,
    message: &Message,
) -> Result<(), NoMemory>
    requires few { HasFew (Ok message.now) }
    ensures { OnOk result (turn.new ≡ hears role config.now calls.now.entries session message.now turn.old) }
{
    match message {
        Message::Sccrq(opening) => hear_sccrq(turn, role, config, calls, opening),
        Message::Sccrp(opening) => hear_sccrp(turn, role, config, calls, opening),
        Message::Scccn { response } => hear_scccn(turn, role, config, calls, response),
        Message::StopCcn { .. } => {
            let reason = out_of_order();
            let event = TunnelEvent::StopCcnCame;
            let none = None;
            let told = Told::id(&none, 0);
            take_letter(turn, role, config, calls, &reason, event, &told)
        }
        Message::Hello | Message::Ocrp | Message::Occn | Message::Wen | Message::Sli =>
            turn.take_plain(),
        Message::Fsq(sessions) => hear_query(turn, calls, sessions.as_slice()),
        Message::Fsr(answers) => hear_answer(turn, role, config, calls, answers.as_slice()),
        _ => hear_in_call(turn, role, calls, session, message),
    }
}

#[tactic(auto, unfolding(end_model::specs::Hearing::hears_said))]
fn hear_said(
    turn: &mut Turn,
    role: Role,
    config: &Config,
    calls: &TunnelCalls,
    session: u16,
    said: &Said,
) -> Result<(), NoMemory>
    requires few { HasFew said.now.message }
    ensures { OnOk result (turn.new ≡ hears_said role config.now calls.now.entries session said.now.fault said.now.closing said.now.message turn.old) }
{
    match &said.message {
        Ok(message) => hear_letter(turn, role, config, calls, session, message),
        Err(why) => hear_fault(turn, role, config, calls, session, said, *why),
    }
}

/// The next letter, which a closed tunnel takes without doing anything.
#[tactic(auto, unfolding(end_model::specs::Hearing::hears_next))]
fn hear_next(
    turn: &mut Turn,
    role: Role,
    config: &Config,
    calls: &TunnelCalls,
    session: u16,
    body: &Body<'_>,
) -> Result<(), NoMemory>
    ensures { OnOk result (turn.new ≡ hears_next role config.now calls.now.entries session body.now turn.old) }
{
    if is_closed(turn.control.state) {
        return turn.take_plain();
    }
    let said = read_body(turn.alloc, body)?;
    hear_said(turn, role, config, calls, session, &said)
}

/// A message of the class that its Ns has: the next letter is taken, where there is room for what it may cause; one that is
/// ahead of it isn't, nor one that came before.
#[tactic(auto, unfolding(end_model::specs::Hearing::hears_letter))]
fn hear_class(
    turn: &mut Turn,
    role: Role,
    config: &Config,
    calls: &TunnelCalls,
    session: u16,
    body: &Body<'_>,
    class: Option<Class>,
) -> Result<(), NoMemory>
    ensures { OnOk result (turn.new ≡ hears_letter role config.now calls.now.entries session body.now class turn.old) }
{
    match class {
        Some(Class::Next) => {
            if !may_take(&turn.control, calls) {
                return turn.drop_with(Why::Queue);
            }
            hear_next(turn, role, config, calls, session, body)
        }
        Some(Class::Ahead { .. }) => turn.drop_with(Why::Ahead),
        Some(Class::Duplicate) | None => Ok(()),
    }
}

/// A message in the tunnel, of the class that its Ns has; what came before is acknowledged again.
#[tactic(auto, unfolding(end_model::specs::Hearing::in_tunnel))]
fn hear_in_tunnel(
    turn: &mut Turn,
    role: Role,
    config: &Config,
    letters: &Letters,
    calls: &TunnelCalls,
    session: u16,
    body: &Body<'_>,
    class: Option<Class>,
) -> Result<(), NoMemory>
    ensures { OnOk result (turn.new ≡ in_tunnel role config.now letters.now.letters calls.now.entries session body.now class turn.old) }
{
    hear_class(turn, role, config, calls, session, body, class)?;
    turn.settle(is_duplicate(class), letters)
}

/// The first message of a tunnel that is new.
#[tactic(auto, unfolding(end_model::specs::Hearing::first_said))]
fn hear_first(
    turn: &mut Turn,
    role: Role,
    config: &Config,
    said: &Result<Message, Why>,
) -> Result<(), NoMemory>
    ensures { OnOk result (turn.new ≡ first_said role config.now said.now turn.old) }
{
    match said {
        Ok(Message::Sccrq(opening)) => accept(turn, role, config, &Told::by(opening)),
        _ => turn.drop_with(Why::Tunnel),
    }
}

/// The first step of a tunnel that is new, by what its peer's first message says.
pub(crate) fn hear_opening(
    turn: &mut Turn,
    role: Role,
    config: &Config,
    letters: &Letters,
    said: &Result<Message, Why>,
) -> Result<(), NoMemory>
    ensures { OnOk result (turn.new ≡ settles false letters.now.letters (first_said role config.now said.now turn.old)) }
{
    hear_first(turn, role, config, said)?;
    turn.settle(false, letters)
}

/// Why a tunnel in a mode in which nothing is taken drops a message.
fn mode_why(mode: Mode) -> Why
    ensures { result ≡ mode_why mode }
{
    match mode {
        Mode::Restored => Why::Restored,
        Mode::Current | Mode::Frozen => Why::Frozen,
    }
}

/// A tunnel that is frozen or restored hears that its peer is there, and looks at no message.
#[tactic(auto, unfolding(end_model::specs::Hearing::ignores_all))]
fn ignore_all(turn: &mut Turn) -> Result<(), NoMemory>
    ensures { OnOk result (turn.new ≡ ignores_all turn.old) }
{
    let why = mode_why(turn.mode);
    turn.control.heard = turn.moment;
    turn.did(Move::Ignored {
        tunnel: turn.control.local,
    })?;
    turn.drop_with(why)
}

/// A control message for the tunnel: its Nr is read first.
#[tactic(auto, unfolding(end_model::specs::Hearing::hears_control))]
fn hear_control(
    turn: &mut Turn,
    role: Role,
    config: &Config,
    letters: &Letters,
    calls: &TunnelCalls,
    header: &Header,
    body: &Body<'_>,
) -> Result<(), NoMemory>
    ensures { OnOk result (turn.new ≡ hears_control role config.now letters.now.letters calls.now.entries header.now body.now turn.old) }
{
    if turn.control.state == TunnelState::Idle {
        let said = read_body(turn.alloc, body)?;
        return hear_opening(turn, role, config, letters, &said.message);
    }
    if !is_current(turn.mode) {
        return ignore_all(turn);
    }
    let ns = header.ns.unwrap_or(0);
    let class = turn.control.channel.classify(ns, body.is_empty());
    turn.read_nr(header.nr.unwrap_or(0))?;
    hear_in_tunnel(
        turn,
        role,
        config,
        letters,
        calls,
        header.session,
        body,
        class,
    )
}

#[tactic(auto, unfolding(end_model::specs::Hearing::hears_datagram))]
pub(crate) fn hear_datagram(
    turn: &mut Turn,
    role: Role,
    config: &Config,
    letters: &Letters,
    calls: &TunnelCalls,
    datagram: &Datagram,
) -> Result<(), NoMemory>
    ensures { OnOk result (turn.new ≡ hears_datagram role config.now letters.now.letters calls.now.entries datagram.now (header_of datagram.now) turn.old) }
{
    match datagram.header() {
        Err(error) => turn.drop_with(header_why(error)),
        Ok(header) => {
            if !header.control {
                return turn.drop_with(Why::Session);
            }
            let body = datagram.body(&header);
            hear_control(turn, role, config, letters, calls, &header, &body)
        }
    }
}

fn is_duplicate(class: Option<Class>) -> bool
    ensures { result ≡ is_duplicate class }
{
    matches!(class, Some(Class::Duplicate))
}
