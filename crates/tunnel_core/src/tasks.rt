//! What a tunnel does in a step, by what that is about.

ghost use Rattle.std.specs.Prelude.{◌≡◌, Some, unwrap_or, IfOk};
ghost use Rattle.std.specs.Option.{option_copied};
ghost use Rattle.end_model.specs.Tunnels.{Tunnel, new_tunnel};
ghost use Rattle.end_model.specs.Recovering.{recovery_ticks, recovering_turns, hears_recovery};
ghost use Rattle.end_model.specs.Starting.{restores};
ghost use Rattle.tunnel_core.specs.Cores.{beside, task_turn, HasId};

use crate::becoming::Becomes;
use crate::events::run;
use crate::task::Task;
use due_laws::early_ticks_do_nothing;
use end_model::{Config, Event, Role};
use l2tp_datagram::Body;
use l2tp_header::Header;
use recovery_tunnel::Recovering;
use send_window::Letters;
use tunnel_calls::TunnelCalls;
use tunnel_recovery::answering::freeze;
use tunnel_recovery::hearing::hear;
use tunnel_recovery::restoring::restore;
use tunnel_recovery::ticking::tick;
use tunnel_timers::recovery_due;
use tunnel_turn::turn::Turn;
use wire_base::{NoMemory, Why};

/// Time passes for the recovery tunnel, where something is due for it.
#[tactic(auto, using(crate::proofs::Due::stays_early), unfolding(end_model::specs::Recovering::recovery_ticks))]
fn tick_recovery(
    turn: &mut Turn,
    calls: &TunnelCalls,
    recovery: &Recovering,
) -> Result<Option<Becomes>, NoMemory>
    ensures { IfOk result (λ after. beside (unwrap_or after (Some recovery.now)) turn.new ≡ recovery_ticks calls.now.entries (Some recovery.now) turn.old) }
{
    early_ticks_do_nothing();
    if turn.moment < recovery_due(Some(recovery)) {
        return Ok(None);
    }
    let after = tick(turn, calls, recovery.copy(turn.alloc)?)?;
    Ok(Some(Becomes::new(turn.alloc, after)?))
}

/// An event; time passes for the recovery tunnel behind all else.
#[tactic(auto, unfolding(end_model::specs::Recovering::recovering_turns, end_model::specs::Recovering::recovery_ticks))]
fn run_event(
    turn: &mut Turn,
    role: Role,
    config: &Config,
    letters: &Letters,
    calls: &TunnelCalls,
    recovery: Option<&Recovering>,
    event: &Event,
) -> Result<Option<Becomes>, NoMemory>
    ensures { (t : Tunnel) → t.letters ≡ letters.now.letters → t.calls ≡ calls.now.entries → t.recovery ≡ option_copied recovery.entry → IfOk result (λ after. beside (unwrap_or after t.recovery) turn.new ≡ recovering_turns role config.now t event.now turn.old) }
{
    run(turn, role, config, letters, calls, event)?;
    match (event, recovery) {
        (Event::Tick, Some(recovery)) => tick_recovery(turn, calls, recovery),
        _ => Ok(None),
    }
}

/// A control message for the recovery tunnel.
#[tactic(auto, unfolding(end_model::specs::Recovering::hears_recovery))]
fn hear_recovery(
    turn: &mut Turn,
    config: &Config,
    letters: &Letters,
    calls: &TunnelCalls,
    recovery: Option<&Recovering>,
    header: &Header,
    body: &Body<'_>,
) -> Result<Option<Becomes>, NoMemory>
    ensures { IfOk result (λ after. beside (unwrap_or after (option_copied recovery.entry)) turn.new ≡ hears_recovery config.now letters.now.letters calls.now.entries header.now body.now (option_copied recovery.entry) turn.old) }
{
    let Some(recovery) = recovery else {
        turn.drop_with(Why::Tunnel)?;
        return Ok(None);
    };
    let copy = recovery.copy(turn.alloc)?;
    let after = hear(turn, config, letters, calls, header, body, copy)?;
    Ok(Some(Becomes::new(turn.alloc, after)?))
}

/// What a tunnel with these letters and calls, and with this recovery tunnel, does in a step about this; an id that was drawn for it isn't 0.
pub(crate) fn run_task(
    turn: &mut Turn,
    role: Role,
    config: &Config,
    letters: &Letters,
    calls: &TunnelCalls,
    recovery: Option<&Recovering>,
    task: &Task<'_>,
) -> Result<Option<Becomes>, NoMemory>
    requires { HasId task.now }
    ensures { (t : Tunnel) → t.letters ≡ letters.now.letters → t.calls ≡ calls.now.entries → t.recovery ≡ option_copied recovery.entry → IfOk result (λ after. beside (unwrap_or after t.recovery) turn.new ≡ task_turn role config.now t task.now turn.old) }
{
    match task {
        Task::Event(event) => run_event(turn, role, config, letters, calls, recovery, event),
        Task::Recovery { header, body } => {
            hear_recovery(turn, config, letters, calls, recovery, header, body)
        }
        Task::Freeze {
            opening,
            local,
            draw,
        } => {
            let answer = freeze(turn, role, config, calls, opening, *local, *draw)?;
            Ok(Some(Becomes::new(turn.alloc, Some(answer))?))
        }
        Task::Restore {
            tunnel,
            calls: kept,
            local,
            draw,
        } => {
            let attempt = restore(turn, role, config, kept, tunnel, *local, *draw)?;
            Ok(Some(Becomes::new(turn.alloc, Some(attempt))?))
        }
    }
}
