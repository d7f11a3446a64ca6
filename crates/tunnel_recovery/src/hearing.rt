//! Control messages of a recovery tunnel.

ghost use Rattle.std.specs.Prelude.{◌≡◌, Some, IfOk, OnOk, option_copied};
ghost use Rattle.recovery_tunnel.specs.declared.progress.Progress.TheVariants as told;
ghost use Rattle.recovery_tunnel.specs.declared.either.Recovering.TheVariants.{ByAttempt, ByAnswer};
ghost use Rattle.end_model.specs.Reading.{message_in};
ghost use Rattle.end_model.specs.Recovering.{with_recovery, resets, resets_by, goes, begins_to_ask, follows, told_by, after_message, cause_by, told_by_fault, after_fault, heeds, hears_class, is_acknowledged, settles_on, is_over_now, without_recovery, ends_attempt, hears_read, hears_recovery};

use crate::sending::{acknowledge, let_go};
use control_message::{Message, Suggested};
use end_model::{Config, Move, Out, ResetAnswering, ResetAttempting};
use l2tp_datagram::Body;
use l2tp_header::Header;
use message_reading::{CallFault, TunnelFault, read_body};
use recovery_tunnel::{Answer, Attempt, Progress, Recovering};
use recv_window::Class;
use send_window::Letters;
use session_query::Query;
use tunnel_calls::TunnelCalls;
use tunnel_turn::querying::ask_next;
use tunnel_turn::stopping::clear;
use tunnel_turn::turn::{Given, Turn};
use wire_base::{Bytes, Cause, NoMemory, Why};

/// The tunnel's channel begins anew, without a letter. The calls that are established are those to ask for.
#[tactic(auto, unfolding(end_model::specs::Recovering::resets), using(crate::proofs::Numbers::on_wire_is))]
fn reset(
    turn: &mut Turn,
    letters: &Letters,
    calls: &TunnelCalls,
    send_from: u16,
    expect: u16,
    mark: u32,
) -> Result<(), NoMemory>
    ensures { OnOk result (turn.new ≡ resets send_from expect mark letters.now.letters calls.now.entries turn.old) }
{
    turn.query = Query::start(calls.established()?)?;
    turn.control.channel.reset_to(send_from, expect);
    turn.control.mark = mark;
    turn.given = Given::new(turn.alloc);
    turn.acked = letters.len();
    Ok(())
}

/// The tunnel is reset by its end that attempts the recovery, to the numbers that the other one suggested with its draw number.
#[tactic(auto, unfolding(end_model::specs::Recovering::resets_by, end_model::specs::Recovering::resets, end_model::specs::Turn::with_move))]
fn reset_attempting(
    turn: &mut Turn,
    letters: &Letters,
    calls: &TunnelCalls,
    attempt: &Attempt,
    suggested: Suggested,
    draw: u32,
) -> Result<(), NoMemory>
    ensures { OnOk result (turn.new ≡ resets_by letters.now.letters calls.now.entries suggested draw (ByAttempt attempt.now) turn.old) }
{
    let control = turn.control;
    let mark = control.mark.max(draw);
    reset(turn, letters, calls, suggested.ns, suggested.nr, mark)?;
    turn.did(Move::ResetAttempting(ResetAttempting {
        tunnel: control.local,
        peer: control.peer,
        remote: control.remote,
        attempt: attempt.local(),
        answer: attempt.remote(),
        draw,
        send_from: suggested.ns,
        expect: suggested.nr,
        marked: control.mark < draw,
    }))
}

/// The tunnel is reset by its end that answers, to the numbers that it suggested itself.
#[tactic(auto, unfolding(end_model::specs::Recovering::resets_by, end_model::specs::Recovering::resets, end_model::specs::Turn::with_move))]
fn reset_answering(
    turn: &mut Turn,
    letters: &Letters,
    calls: &TunnelCalls,
    answer: &Answer,
    suggested: Suggested,
    draw: u32,
) -> Result<(), NoMemory>
    ensures { OnOk result (turn.new ≡ resets_by letters.now.letters calls.now.entries suggested draw (ByAnswer answer.now) turn.old) }
{
    let control = turn.control;
    reset(
        turn,
        letters,
        calls,
        suggested.nr,
        suggested.ns,
        control.mark,
    )?;
    turn.did(Move::ResetAnswering(ResetAnswering {
        tunnel: control.local,
        peer: control.peer,
        remote: control.remote,
        answer: answer.local(),
        attempt: answer.remote(),
        send_from: suggested.nr,
        expect: suggested.ns,
    }))
}

/// The tunnel is reset to what was suggested, by the end of the recovery tunnel that it is.
fn reset_by(
    turn: &mut Turn,
    letters: &Letters,
    calls: &TunnelCalls,
    recovery: &Recovering,
    suggested: Suggested,
    draw: u32,
) -> Result<(), NoMemory>
    ensures { OnOk result (turn.new ≡ resets_by letters.now.letters calls.now.entries suggested draw recovery.now turn.old) }
{
    match recovery {
        Recovering::ByAttempt(attempt) => {
            reset_attempting(turn, letters, calls, attempt, suggested, draw)
        }
        Recovering::ByAnswer(answer) => {
            reset_answering(turn, letters, calls, answer, suggested, draw)
        }
    }
}

/// What came is refused: the other end is told why, and the tunnel is cleared.
#[tactic(auto, unfolding(end_model::specs::Recovering::follows), using(crate::proofs::Heard::clears_behind))]
fn give_up(
    turn: &mut Turn,
    letters: &Letters,
    calls: &TunnelCalls,
    cause: Cause,
    recovery: &mut Recovering,
) -> Result<(), NoMemory>
    ensures { OnOk result (with_recovery recovery.new turn.new ≡ follows letters.now.letters calls.now.entries (told.Given cause) recovery.old turn.old) }
{
    turn.output(Out::Cause { cause })?;
    let_go(turn, recovery)?;
    clear(turn, calls)
}

/// The tunnel is reset, the letter of the recovery tunnel goes, and then the tunnel begins to ask for its sessions.
#[tactic(auto, using(crate::proofs::Heard::asks_behind))]
fn go_on(
    turn: &mut Turn,
    letters: &Letters,
    calls: &TunnelCalls,
    suggested: Suggested,
    draw: u32,
    recovery: &mut Recovering,
) -> Result<(), NoMemory>
    ensures { OnOk result (with_recovery recovery.new turn.new ≡ begins_to_ask letters.now.letters (goes recovery.old (resets_by letters.now.letters calls.now.entries suggested draw recovery.old turn.old))) }
{
    reset_by(turn, letters, calls, recovery, suggested, draw)?;
    let_go(turn, recovery)?;
    ask_next(turn, letters)
}

/// What becomes of the tunnel.
#[tactic(auto, unfolding(end_model::specs::Recovering::follows))]
fn follow(
    turn: &mut Turn,
    letters: &Letters,
    calls: &TunnelCalls,
    progress: Progress,
    recovery: &mut Recovering,
) -> Result<(), NoMemory>
    ensures { OnOk result (with_recovery recovery.new turn.new ≡ follows letters.now.letters calls.now.entries progress recovery.old turn.old) }
{
    match progress {
        Progress::Waiting => let_go(turn, recovery),
        Progress::Reset {
            suggested,
            peer_draw,
        } => {
            let draw = peer_draw.unwrap_or(0);
            go_on(turn, letters, calls, suggested, draw, recovery)
        }
        Progress::Given { cause } => give_up(turn, letters, calls, cause, recovery),
        Progress::Cleared => clear(turn, calls),
    }
}

/// The secret of an end, lent.
fn secret_of(secret: &Option<Bytes>) -> Option<&[u8]>
    ensures { option_copied result ≡ secret.now }
{
    match secret {
        None => None,
        Some(secret) => Some(secret.as_slice()),
    }
}

/// The next letter is a message.
fn heed_message(
    turn: &mut Turn,
    config: &Config,
    letters: &Letters,
    calls: &TunnelCalls,
    message: &Message,
    recovery: &mut Recovering,
) -> Result<(), NoMemory>
    ensures { OnOk result (with_recovery recovery.new turn.new ≡ follows letters.now.letters calls.now.entries (told_by config.now.secret message.now recovery.old) (after_message config.now.secret turn.old.on.moment message.now recovery.old) turn.old) }
{
    let secret = secret_of(&config.secret);
    let progress = recovery.on_message(turn.alloc, message, secret, turn.moment)?;
    follow(turn, letters, calls, progress, recovery)
}

/// The cause of a fault.
fn cause_by(closing: &Option<TunnelFault>, fault: &Option<CallFault>) -> Option<Cause>
    ensures { result ≡ cause_by closing.now fault.now }
{
    match (closing, fault) {
        (Some(closing), _) => Some(closing.cause),
        (None, Some(fault)) => Some(fault.cause),
        (None, None) => None,
    }
}

/// The next letter can't be taken as a message, for this cause, where there is one.
fn heed_fault(
    turn: &mut Turn,
    letters: &Letters,
    calls: &TunnelCalls,
    cause: Option<Cause>,
    recovery: &mut Recovering,
) -> Result<(), NoMemory>
    ensures { OnOk result (with_recovery recovery.new turn.new ≡ follows letters.now.letters calls.now.entries (told_by_fault cause recovery.old) (after_fault cause recovery.old) turn.old) }
{
    let Some(cause) = cause else {
        return follow(turn, letters, calls, Progress::Waiting, recovery);
    };
    let progress = recovery.on_fault(turn.alloc, cause)?;
    follow(turn, letters, calls, progress, recovery)
}

/// The next letter is heeded, which has this body.
#[tactic(auto, unfolding(end_model::specs::Recovering::heeds))]
fn heed(
    turn: &mut Turn,
    config: &Config,
    letters: &Letters,
    calls: &TunnelCalls,
    body: &Body<'_>,
    recovery: &mut Recovering,
) -> Result<(), NoMemory>
    ensures { OnOk result (with_recovery recovery.new turn.new ≡ heeds config.now letters.now.letters calls.now.entries body.now (message_in body.now) recovery.old turn.old) }
{
    let said = read_body(turn.alloc, body)?;
    match &said.message {
        Ok(message) => heed_message(turn, config, letters, calls, message, recovery),
        Err(_) => {
            let cause = cause_by(&said.closing, &said.fault);
            heed_fault(turn, letters, calls, cause, recovery)
        }
    }
}

/// A message that is the next one, or not.
#[tactic(auto, unfolding(end_model::specs::Recovering::hears_class))]
fn hear_class(
    turn: &mut Turn,
    config: &Config,
    letters: &Letters,
    calls: &TunnelCalls,
    body: &Body<'_>,
    class: Option<Class>,
    recovery: &mut Recovering,
) -> Result<(), NoMemory>
    ensures { OnOk result (with_recovery recovery.new turn.new ≡ hears_class config.now letters.now.letters calls.now.entries body.now class recovery.old turn.old) }
{
    match class {
        Some(Class::Next) => {
            recovery.take();
            heed(turn, config, letters, calls, body, recovery)
        }
        Some(Class::Ahead { .. }) => {
            turn.drop_with(Why::Ahead)?;
            let_go(turn, recovery)
        }
        Some(Class::Duplicate) | None => let_go(turn, recovery),
    }
}

/// Whether an acknowledgement alone is sent: where a message came again, and where one was taken and no letter went that says so.
fn is_acknowledged(class: Option<Class>, before: usize, after: usize) -> bool
    ensures { result ≡ is_acknowledged class before after }
{
    match class {
        Some(Class::Next) => after == before,
        Some(Class::Duplicate) => true,
        Some(Class::Ahead { .. }) | None => false,
    }
}

/// What was taken is acknowledged. So many letters were on the wire before.
#[tactic(auto, unfolding(end_model::specs::Recovering::settles_on))]
fn settle(
    turn: &mut Turn,
    class: Option<Class>,
    before: usize,
    recovery: &Recovering,
) -> Result<(), NoMemory>
    ensures { OnOk result (with_recovery recovery.now turn.new ≡ settles_on class before (Some recovery.now) turn.old) }
{
    if is_acknowledged(class, before, recovery.outstanding()) {
        return acknowledge(turn, recovery);
    }
    Ok(())
}

/// The recovery tunnel is gone.
#[tactic(auto, unfolding(end_model::specs::Recovering::without_recovery))]
pub(crate) fn end(turn: &mut Turn) -> Result<Option<Recovering>, NoMemory>
    ensures { IfOk result (λ left. record { turn = turn.new; recovery = left } ≡ without_recovery turn.old) }
{
    turn.did(Move::RecoveryEnded {
        tunnel: turn.control.local,
    })?;
    Ok(None)
}

/// Whether an attempt is over, as its SCCCN is acknowledged.
fn is_over_now(cleared: bool, recovery: &Recovering) -> bool
    ensures { result ≡ is_over_now cleared recovery.now }
{
    match recovery {
        Recovering::ByAttempt(attempt) => !cleared && attempt.over(0),
        Recovering::ByAnswer(_) => false,
    }
}

/// An attempt that is over is gone.
#[tactic(auto, unfolding(end_model::specs::Recovering::ends_attempt))]
fn end_attempt(turn: &mut Turn, recovery: Recovering) -> Result<Option<Recovering>, NoMemory>
    ensures { IfOk result (λ left. record { turn = turn.new; recovery = left } ≡ ends_attempt (Some recovery) turn.old) }
{
    if is_over_now(turn.cleared, &recovery) {
        return end(turn);
    }
    Ok(Some(recovery))
}

/// A message whose Nr was read.
#[tactic(auto, using(crate::proofs::Heard::heard_through))]
fn hear_read(
    turn: &mut Turn,
    config: &Config,
    letters: &Letters,
    calls: &TunnelCalls,
    body: &Body<'_>,
    class: Option<Class>,
    recovery: Recovering,
) -> Result<Option<Recovering>, NoMemory>
    ensures { IfOk result (λ left. record { turn = turn.new; recovery = left } ≡ hears_read config.now letters.now.letters calls.now.entries body.now class recovery turn.old) }
{
    let mut heard = recovery;
    let before = heard.outstanding();
    turn.did(Move::RecoveryWentOn {
        tunnel: turn.control.local,
    })?;
    hear_class(turn, config, letters, calls, body, class, &mut heard)?;
    settle(turn, class, before, &heard)?;
    end_attempt(turn, heard)
}

/// Hears a control message for the recovery tunnel, with this header and this body, and gives back the recovery tunnel, where it isn't
/// gone.
#[tactic(auto, unfolding(end_model::specs::Recovering::hears_recovery), using(crate::proofs::Heard::class_same))]
pub fn hear(
    turn: &mut Turn,
    config: &Config,
    letters: &Letters,
    calls: &TunnelCalls,
    header: &Header,
    body: &Body<'_>,
    recovery: Recovering,
) -> Result<Option<Recovering>, NoMemory>
    ensures { IfOk result (λ left. record { turn = turn.new; recovery = left } ≡ hears_recovery config.now letters.now.letters calls.now.entries header.now body.now (Some recovery) turn.old) }
{
    let mut heard = recovery;
    let (ns, nr) = (header.ns.unwrap_or(0), header.nr.unwrap_or(0));
    let class = heard.receive(ns, nr, body.is_empty(), turn.moment);
    hear_read(turn, config, letters, calls, body, class, heard)
}
