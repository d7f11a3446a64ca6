//! A recovery tunnel whose end answers the attempt of the other one (RFC 4951 section 4.3).

ghost use Rattle.std.specs.Prelude.{◌≡◌, ◌<◌, nat_lt, IfOk, OnOk, if◌then◌else◌};
ghost use Rattle.std.specs.Option.{option_copied};
ghost use Rattle.id_source.specs.Spaces.{after_id};
ghost use Rattle.end_model.specs.declared.moves.Move.TheVariants as move;
ghost use Rattle.end_model.specs.Turn.{with_move, ends_call};
ghost use Rattle.end_model.specs.Recovering.{with_recovery, is_unfinished, ends_unfinished, suggested_by, frozen_control, asked_in, answer_window, answer_to, froze};

use crate::sending::{draw_both, let_go};
use control_message::{Opening, Suggested};
use end_model::{Call, Config, Control, Froze, Move, Role};
use message_reading::reply_by;
use recovery_tunnel::{Answer, Recovering};
use tunnel_calls::TunnelCalls;
use tunnel_rules::{challenge_by, opening_of};
use tunnel_timers::is_up;
use tunnel_turn::turn::Turn;
use wire_base::NoMemory;

/// What counts as the peer's receive window, in letters, as long as it isn't known (RFC 2661 section 4.4.3).
const WINDOW: u16 = 4;

/// Whether a call isn't established.
fn is_unfinished(call: Option<&Call>) -> bool
    ensures { result ≡ is_unfinished (option_copied call.entry) }
{
    match call {
        None => false,
        Some(call) => !is_up(call.state),
    }
}

/// A call that isn't established ends, and the peer isn't told.
fn end_if_unfinished(turn: &mut Turn, session: u32, call: Option<&Call>) -> Result<(), NoMemory>
    ensures { OnOk result (turn.new ≡ (if is_unfinished (option_copied call.entry) then ends_call session turn.old else turn.old)) }
{
    if is_unfinished(call) {
        return turn.end_call(session);
    }
    Ok(())
}

/// Those of these calls that aren't established end.
#[tactic(auto, unfolding(end_model::specs::Recovering::ends_unfinished))]
fn end_unfinished(turn: &mut Turn, calls: &TunnelCalls, sessions: &[u32]) -> Result<(), NoMemory>
    ensures { OnOk result (turn.new ≡ ends_unfinished sessions.now calls.now.entries turn.old) }
{
    for session in sessions {
        end_if_unfinished(turn, *session, calls.get(*session))?;
    }
    Ok(())
}

/// The numbers that the tunnel's channel is to go on with: of the letter that it expects, and of the one that it would send next.
fn suggested_by(control: &Control) -> Suggested
    ensures { result ≡ suggested_by control.now }
{
    let (next, expected) = control.channel.wire(control.channel.next_unsent());
    Suggested {
        ns: expected,
        nr: next,
    }
}

/// The draw number by which a peer asks for the recovery, 0 where it tells none.
fn asked_in(opening: &Opening) -> u32
    ensures { result ≡ asked_in opening.now }
{
    opening.attempt.unwrap_or(0)
}

/// The channel is frozen, and the tunnel's mark is the greatest draw number that was answered.
fn freeze_channel(control: &mut Control, asked: u32)
    ensures { control.new ≡ frozen_control asked control.old }
{
    control.channel.freeze();
    control.mark = control.mark.max(asked);
}

/// The window of the peer, in letters; 0 is none.
fn answer_window(opening: &Opening) -> u16
    ensures value { result ≡ answer_window opening.now.window }
    ensures some { 0 < result }
{
    if opening.window == 0 {
        WINDOW
    } else {
        opening.window
    }
}

/// An answer to a peer's opening, over a recovery tunnel with this id and this draw number.
#[tactic(auto, using(crate::proofs::Written::reply_written))]
fn new_answer(
    turn: &Turn,
    role: Role,
    config: &Config,
    opening: &Opening,
    suggested: Suggested,
    local: u16,
    draw: u32,
) -> Result<Answer, NoMemory>
    requires { 0 < local }
    ensures { IfOk result (λ answer. answer ≡ answer_to role config.now opening.now suggested local draw turn.now) }
{
    let challenge = challenge_by(config, &turn.block);
    let response = reply_by(&config.secret, &opening.challenge);
    let reply = opening_of(turn.alloc, role, config, challenge, response, local)?;
    Answer::start(
        turn.alloc,
        local,
        opening.tunnel,
        suggested,
        reply,
        answer_window(opening),
        draw,
        turn.moment,
    )
}

/// The tunnel is frozen, and tells so; the id and the draw number of its answer are drawn.
#[tactic(auto, unfolding(end_model::specs::Turn::with_move))]
fn freeze_tunnel(
    turn: &mut Turn,
    opening: &Opening,
    suggested: Suggested,
    local: u16,
    draw: u32,
) -> Result<(), NoMemory>
    ensures { OnOk result (turn.new ≡ with_move (move.Froze (record { tunnel = turn.old.control.local; peer = turn.old.control.peer; remote = turn.old.control.remote; attempt = opening.now.tunnel; answer = local; asked = asked_in opening.now; draw = draw; expect = suggested.ns; send_from = suggested.nr; marked = nat_lt turn.old.control.mark (asked_in opening.now) })) (record turn.old { control = frozen_control (asked_in opening.now) turn.old.control; ids = record turn.old.ids { tunnels = after_id turn.old.ids.tunnels; recoveries = after_id turn.old.ids.recoveries } })) }
{
    let control = turn.control;
    let asked = asked_in(opening);
    freeze_channel(&mut turn.control, asked);
    draw_both(turn);
    turn.did(Move::Froze(Froze {
        tunnel: control.local,
        peer: control.peer,
        remote: control.remote,
        attempt: opening.tunnel,
        answer: local,
        asked,
        draw,
        expect: suggested.ns,
        send_from: suggested.nr,
        marked: control.mark < asked,
    }))
}

/// A peer's attempt at the recovery of the tunnel is answered, over a recovery tunnel with this id, which isn't 0, and this draw number:
/// both are drawn in this step. The tunnel's channel is frozen, its calls that aren't established end, and the SCCRP goes out that
/// suggests how it is to go on.
#[tactic(auto, unfolding(end_model::specs::Recovering::froze))]
pub fn freeze(
    turn: &mut Turn,
    role: Role,
    config: &Config,
    calls: &TunnelCalls,
    opening: &Opening,
    local: u16,
    draw: u32,
) -> Result<Recovering, NoMemory>
    requires { 0 < local }
    ensures { IfOk result (λ recovery. with_recovery recovery turn.new ≡ froze role config.now calls.now.entries opening.now local draw turn.old) }
{
    let suggested = suggested_by(&turn.control);
    let answer = new_answer(turn, role, config, opening, suggested, local, draw)?;
    freeze_tunnel(turn, opening, suggested, local, draw)?;
    let sessions = calls.ids(turn.alloc)?;
    end_unfinished(turn, calls, sessions.as_slice())?;
    let mut recovery = Recovering::ByAnswer(answer);
    let_go(turn, &mut recovery)?;
    Ok(recovery)
}
