//! When a tick next does something for a tunnel's channel, for a call, and for a recovery tunnel, in milliseconds. The last moment of 64
//! bits stands for one that never comes too.

ghost use Rattle.std.specs.Prelude.{◌≡◌, option_copied};
ghost use Rattle.tunnel_timers.specs.Due.{bound_of, due_after, removal_due, repetition_due, hello_due, channel_due, setup_due, link_due, call_due, window_due, reset_due, connection_due, over_due, recovery_due};
ghost use Rattle.recovery_tunnel.specs.Either.{connection_of, channel_of};

use crate::limits::{
    KEPT_AFTER_RESET, KEPT_CLOSED, PATIENCE, is_being_set_up, is_closed, is_current, is_open,
    is_set_up, is_up,
};
use call_link::Link;
use control_channel::ChannelNumbers;
use end_model::{Call, Control, Mode};
use recovery_tunnel::Recovering;

/// When a limit is over which began at a moment, where it runs.
fn due_after(runs: bool, limit: u64, since: u64) -> u64
    ensures { result ≡ bound_of (due_after runs limit since) }
{
    if runs {
        since.saturating_add(limit)
    } else {
        u64::MAX
    }
}

/// When a tunnel is removed that is closed, or isn't set up in time.
#[tactic(auto, using(crate::specs::Bounds::bound_earlier_is))]
fn removal_due(control: &Control) -> u64
    ensures { result ≡ bound_of (removal_due control.now) }
{
    let closed = due_after(is_closed(control.state), KEPT_CLOSED, control.closed);
    let made = due_after(is_being_set_up(control.state), PATIENCE, control.made);
    closed.min(made)
}

/// When the oldest letter on the wire goes out again, or its channel has failed.
#[tactic(auto, using(crate::specs::Bounds::repetition_is))]
fn repetition_due(channel: &ChannelNumbers) -> u64
    ensures { result ≡ bound_of (repetition_due channel.now) }
{
    channel.due().unwrap_or(u64::MAX)
}

/// When a tunnel of which nothing waits says that it is there. One that is frozen or restored says nothing.
fn hello_due(mode: Mode, control: &Control) -> u64
    ensures { result ≡ bound_of (hello_due mode control.now) }
{
    let carries = is_open(control.state) && is_current(mode);
    let waits = carries && control.channel.queued() == 0;
    due_after(waits, PATIENCE, control.heard)
}

/// When something is due in a tunnel apart from its calls and its recovery tunnel: it is removed, a letter is repeated, or it says that it
/// is there.
#[tactic(auto, using(crate::specs::Bounds::bound_earlier_is))]
pub fn channel_due(mode: Mode, control: &Control) -> u64
    ensures { result ≡ bound_of (channel_due mode control.now) }
{
    let repeated = repetition_due(&control.channel);
    removal_due(control).min(repeated.min(hello_due(mode, control)))
}

/// When a call ends that isn't set up in time.
fn setup_due(session: u32, call: &Call) -> u64
    ensures { result ≡ bound_of (setup_due session call.now) }
{
    let runs = session < 65_536 && is_set_up(call.state);
    due_after(runs, PATIENCE, call.since)
}

/// When the timer of a call's link runs out.
fn link_due(session: u32, call: &Call, link: Option<&Link>) -> u64
    ensures { result ≡ bound_of (link_due session call.now (option_copied link.entry)) }
{
    let Some(link) = link else {
        return u64::MAX;
    };
    if session >= 65_536 || !is_up(call.state) {
        return u64::MAX;
    }
    link.due().unwrap_or(u64::MAX)
}

/// When something is due for the call of a session: it isn't set up in time, or the timer of its link runs out.
#[tactic(auto, using(crate::specs::Bounds::bound_earlier_is))]
pub fn call_due(session: u32, call: &Call) -> u64
    ensures { result ≡ bound_of (call_due session call.now) }
{
    setup_due(session, call).min(link_due(session, call, call.link.as_ref()))
}

/// When the oldest letter of a recovery tunnel on the wire goes out again, or its channel has failed.
#[tactic(auto, using(crate::specs::Bounds::repetition_is))]
fn recovery_repetition_due(recovery: &Recovering) -> u64
    ensures { result ≡ bound_of (window_due (channel_of recovery.now).frozen (channel_of recovery.now).outbox.window) }
{
    recovery.repetition_due().unwrap_or(u64::MAX)
}

/// When a tunnel is cleared as its reset took too long.
fn reset_due(recovery: &Recovering) -> u64
    ensures { result ≡ bound_of (reset_due (connection_of recovery.now)) }
{
    due_after(recovery.reset_at().is_none(), PATIENCE, recovery.since())
}

/// When either end of a recovery tunnel has something to do.
#[tactic(auto, using(crate::specs::Bounds::bound_earlier_is))]
fn connection_due(recovery: &Recovering) -> u64
    ensures { result ≡ bound_of (connection_due (connection_of recovery.now)) }
{
    recovery_repetition_due(recovery).min(reset_due(recovery))
}

/// When an answer is over; an attempt waits for its acknowledgement alone.
fn over_due(recovery: &Recovering) -> u64
    ensures { result ≡ bound_of (over_due recovery.now) }
{
    match (recovery, recovery.reset_at()) {
        (Recovering::ByAnswer(_), Some(at)) => at.saturating_add(KEPT_AFTER_RESET),
        _ => u64::MAX,
    }
}

/// When something is due for the recovery tunnel of a tunnel, where there is one: a letter is repeated, the tunnel is cleared, or an
/// answer is over.
#[tactic(auto, using(crate::specs::Bounds::bound_earlier_is))]
pub fn recovery_due(recovery: Option<&Recovering>) -> u64
    ensures { result ≡ bound_of (recovery_due (option_copied recovery.entry)) }
{
    match recovery {
        None => u64::MAX,
        Some(recovery) => connection_due(recovery).min(over_due(recovery)),
    }
}
