//! What is due in a tunnel as time passes (RFC 2661 sections 5.8 and 6.5).

ghost use Rattle.std.specs.Prelude.{◌≡◌, OnOk, IsTrue, true, IfSome};
ghost use Rattle.std.specs.Option.{option_copied};
ghost use Rattle.id_table.specs.Ids.{ids_of};
ghost use Rattle.end_model.specs.Channels.{has_room};
ghost use Rattle.end_model.specs.Stopping.{clears};
ghost use Rattle.end_model.specs.Ticking.{greeted, greets, limits_at, limits_all, goes_quietly, ticks};
ghost use Rattle.tunnel_calls.specs.Replays.{replays};

use crate::closing::end_by;
use crate::links::tick_link;
use crate::stopping::clear;
use crate::turn::Turn;
use call_fsm::CallEvent;
use control_channel::Tick;
use control_message::Message;
use due_laws::early_ticks_do_nothing;
use end_model::{Call, Greeted, Move, Role};
use send_window::Letters;
use tunnel_calls::TunnelCalls;
use tunnel_rules::call_row;
use tunnel_timers::{PATIENCE, is_at_its_end, is_open, is_over, is_quiet, is_set_up};
use wire_base::{Cause, NoMemory};

/// The result code of a CDN for a call that took too long to be set up (RFC 2661 section 4.4.2).
const TOO_LONG: u16 = 10;

/// A quiet tunnel says that it is there, by a HELLO.
#[tactic(auto, unfolding(end_model::specs::Ticking::greeted))]
fn greet_now(turn: &mut Turn, letters: &Letters) -> Result<(), NoMemory>
    requires { IsTrue (has_room turn.old.control) }
    ensures { OnOk result (turn.new ≡ greeted letters.now.letters turn.old) }
{
    let given = turn.next_place();
    let tunnel = turn.control.local;
    turn.did(Move::Greeted(Greeted { tunnel, given }))?;
    turn.give(0, &Message::Hello)?;
    turn.settle(false, letters)
}

/// A tunnel of which nothing waits, and which heard nothing for a while, says that it is there.
#[tactic(auto, unfolding(end_model::specs::Ticking::greets))]
fn greet(turn: &mut Turn, letters: &Letters) -> Result<(), NoMemory>
    ensures { OnOk result (turn.new ≡ greets letters.now.letters turn.old) }
{
    if is_quiet(turn.moment, turn.mode, &turn.control) {
        return greet_now(turn, letters);
    }
    Ok(())
}

/// A call ends where it took too long to be set up; the LCP end of another has its timer.
#[tactic(auto, unfolding(end_model::specs::Ticking::limits_at))]
fn limit_at(
    turn: &mut Turn,
    role: Role,
    letters: &Letters,
    id: u32,
    call: Option<&Call>,
) -> Result<(), NoMemory>
    requires replays { IfSome (option_copied call) (λ c. replays c ≡ true) }
    ensures { OnOk result (turn.new ≡ limits_at role letters.now.letters id (option_copied call.entry) turn.old) }
{
    let Some(call) = call else {
        return Ok(());
    };
    let Ok(session) = u16::try_from(id) else {
        return Ok(());
    };
    if !is_set_up(call.state) || !is_over(PATIENCE, turn.moment, call.since) {
        return tick_link(turn, role, letters, session, call);
    }
    let (_, action) = call_row(role, call.state, CallEvent::Close);
    end_by(turn, Cause::Setup, TOO_LONG, None, session, call, action)?;
    turn.settle(false, letters)
}

/// Each of these calls ends where it took too long to be set up; in the others time passes for their LCP ends.
#[tactic(auto, unfolding(end_model::specs::Ticking::limits_all))]
fn limit_all(
    turn: &mut Turn,
    role: Role,
    letters: &Letters,
    sessions: &[u32],
    calls: &TunnelCalls,
) -> Result<(), NoMemory>
    ensures { OnOk result (turn.new ≡ limits_all role letters.now.letters sessions.now calls.now.entries turn.old) }
{
    for session in sessions {
        limit_at(turn, role, letters, *session, calls.get(*session))?;
    }
    Ok(())
}

/// What is due for the calls. They are looked at only where something may be.
fn limit_due(
    turn: &mut Turn,
    role: Role,
    letters: &Letters,
    calls: &TunnelCalls,
) -> Result<(), NoMemory>
    ensures { OnOk result (turn.new ≡ limits_all role letters.now.letters (ids_of calls.now.entries) calls.now.entries turn.old) }
{
    early_ticks_do_nothing();
    if turn.moment < calls.due() {
        return Ok(());
    }
    let sessions = calls.ids(turn.alloc)?;
    limit_all(turn, role, letters, sessions.as_slice(), calls)
}

/// What is due in a tunnel whose channel hasn't failed.
#[tactic(auto, unfolding(end_model::specs::Ticking::goes_quietly))]
fn go_quietly(
    turn: &mut Turn,
    role: Role,
    letters: &Letters,
    calls: &TunnelCalls,
) -> Result<(), NoMemory>
    ensures { OnOk result (turn.new ≡ goes_quietly role letters.now.letters calls.now.entries turn.old) }
{
    greet(turn, letters)?;
    limit_due(turn, role, letters, calls)
}

/// Time has passed. Each part prints and sends its own before the next.
#[tactic(auto, unfolding(end_model::specs::Ticking::ticks, end_model::specs::Ticking::ticks_by))]
pub fn tick(
    turn: &mut Turn,
    role: Role,
    letters: &Letters,
    calls: &TunnelCalls,
) -> Result<(), NoMemory>
    ensures { OnOk result (turn.new ≡ ticks role letters.now.letters calls.now.entries turn.old) }
{
    if is_at_its_end(turn.moment, &turn.control) {
        return clear(turn, calls);
    }
    let mut channel = turn.control.channel;
    match channel.tick(turn.moment) {
        Tick::Quiet => go_quietly(turn, role, letters, calls),
        Tick::Again { number } => {
            turn.repeat(letters, channel, number)?;
            go_quietly(turn, role, letters, calls)
        }
        Tick::Failed { .. } => clear(turn, calls),
    }
}
