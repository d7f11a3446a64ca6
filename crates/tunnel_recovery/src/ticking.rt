//! What is due in a recovery tunnel as time passes.

ghost use Rattle.std.specs.Prelude.{◌≡◌, Some, IfOk, OnOk};
ghost use Rattle.id_table.specs.Ids.{ids_of};
ghost use Rattle.control_channel.specs.Channel.{answer_to_tick};
ghost use Rattle.recovery_tunnel.specs.Connections.{is_lost};
ghost use Rattle.end_model.specs.Events.{with_calls};
ghost use Rattle.end_model.specs.Stopping.{clears};
ghost use Rattle.end_model.specs.Tunnels.{connection_of};
ghost use Rattle.end_model.specs.Recovering.{repeats_on, is_kept_long, ticks_on, recovery_ticks};

use crate::hearing::end;
use crate::left::sessions_left;
use crate::sending::send_letter;
use control_channel::Tick;
use end_model::Move;
use recovery_tunnel::{Progress, Recovering};
use tunnel_calls::TunnelCalls;
use tunnel_timers::is_open;
use tunnel_turn::turn::Turn;
use wire_base::NoMemory;

/// The oldest letter that isn't acknowledged goes again, where that is due.
#[tactic(auto, unfolding(end_model::specs::Recovering::repeats_on))]
fn repeat(turn: &mut Turn, recovery: &Recovering) -> Result<(), NoMemory>
    ensures { OnOk result (turn.new ≡ repeats_on (answer_to_tick (connection_of recovery.now).channel turn.old.on.moment) recovery.now turn.old) }
{
    match recovery.answer_to_tick(turn.moment) {
        Tick::Again { number } => {
            turn.did(Move::RecoveryWentOn {
                tunnel: turn.control.local,
            })?;
            send_letter(turn, recovery, number)
        }
        Tick::Quiet | Tick::Failed { .. } => Ok(()),
    }
}

/// Whether the tunnel is to be cleared: the channel of the recovery tunnel has failed, or 60 seconds passed without a reset.
fn is_lost(moment: u64, recovery: &Recovering) -> bool
    ensures { result ≡ is_lost moment (connection_of recovery.now) }
{
    matches!(recovery.on_tick(moment), Progress::Cleared)
}

/// Whether an answer is over, which was kept for 31 seconds after its reset.
fn is_kept_long(moment: u64, recovery: &Recovering) -> bool
    ensures { result ≡ is_kept_long moment recovery.now }
{
    match recovery {
        Recovering::ByAttempt(_) => false,
        Recovering::ByAnswer(answer) => answer.over(moment),
    }
}

/// The tunnel is removed with the calls that the step left, without a message.
#[tactic(auto, unfolding(end_model::specs::Stopping::clears))]
fn clear_left(turn: &mut Turn, calls: &TunnelCalls) -> Result<(), NoMemory>
    ensures { OnOk result (turn.new ≡ clears (with_calls turn.old.changed calls.now.entries) turn.old) }
{
    let sessions = sessions_left(turn.alloc, turn.changed.as_slice(), calls)?;
    turn.did(Move::Cleared {
        tunnel: turn.control.local,
        booked: is_open(turn.control.state),
    })?;
    turn.end_all(sessions.as_slice())?;
    turn.cleared = true;
    Ok(())
}

/// Time has passed for the recovery tunnel of a tunnel that isn't removed.
#[tactic(auto, unfolding(end_model::specs::Recovering::ticks_on))]
fn tick_on(
    turn: &mut Turn,
    calls: &TunnelCalls,
    recovery: Recovering,
) -> Result<Option<Recovering>, NoMemory>
    ensures { IfOk result (λ left. record { turn = turn.new; recovery = left } ≡ ticks_on calls.now.entries recovery turn.old) }
{
    let moment = turn.moment;
    repeat(turn, &recovery)?;
    if is_lost(moment, &recovery) {
        clear_left(turn, calls)?;
        return Ok(Some(recovery));
    }
    if is_kept_long(moment, &recovery) {
        return end(turn);
    }
    let mut ticked = recovery;
    ticked.tick(moment);
    Ok(Some(ticked))
}

/// Time has passed, behind all else of its tunnel, which had these calls before the step. Gives back the recovery tunnel, where it isn't
/// gone.
#[tactic(auto, unfolding(end_model::specs::Recovering::recovery_ticks))]
pub fn tick(
    turn: &mut Turn,
    calls: &TunnelCalls,
    recovery: Recovering,
) -> Result<Option<Recovering>, NoMemory>
    ensures { IfOk result (λ left. record { turn = turn.new; recovery = left } ≡ recovery_ticks calls.now.entries (Some recovery) turn.old) }
{
    if turn.cleared {
        return Ok(Some(recovery));
    }
    tick_on(turn, calls, recovery)
}
