//! The limits, and the states in which they run. Moments and limits are in milliseconds.

ghost use Rattle.std.specs.Prelude.{◌≡◌, ◌==◌, ◌&&◌};
ghost use Rattle.end_model.specs.Calls.{is_up, is_set_up};
ghost use Rattle.end_model.specs.Moments.{patience, is_over, is_open, is_closed, is_being_set_up, is_at_its_end};
ghost use Rattle.end_model.specs.Tunnels.{is_current};
ghost use Rattle.tunnel_fsm.specs.Rows.{state_number};

use call_fsm::CallState;
use end_model::{Control, Mode};
use tunnel_fsm::TunnelState;

/// How long a tunnel or a call may take to be set up, and how long a tunnel may be quiet, in milliseconds.
pub const PATIENCE: u64 = 60_000;

/// How long a closed tunnel is kept, in milliseconds: as long as its peer may repeat what it sent.
pub(crate) const KEPT_CLOSED: u64 = 31_000;

/// How long an answer to a recovery is kept after its reset, in milliseconds.
pub(crate) const KEPT_AFTER_RESET: u64 = 31_000;

/// Whether so much time has passed since a moment; where the present one is below it, none has.
pub fn is_over(limit: u64, moment: u64, since: u64) -> bool
    ensures { result ≡ is_over limit moment since }
{
    moment.saturating_sub(since) >= limit
}

pub(crate) fn is_being_set_up(state: TunnelState) -> bool
    ensures { result ≡ is_being_set_up state }
{
    matches!(state, TunnelState::WaitCtlReply | TunnelState::WaitCtlConn)
}

/// Whether a tunnel is open: it carries calls, and a checkpoint has it.
pub fn is_open(state: TunnelState) -> bool
    ensures { result ≡ is_open state }
{
    matches!(state, TunnelState::Established)
}

/// Whether a tunnel is closed: it takes letters without doing anything.
pub fn is_closed(state: TunnelState) -> bool
    ensures { result ≡ is_closed state }
{
    matches!(state, TunnelState::Closed)
}

/// Whether a tunnel carries control messages: it is neither frozen nor restored.
pub fn is_current(mode: Mode) -> bool
    ensures { result ≡ is_current mode }
{
    matches!(mode, Mode::Current)
}

/// Whether a tunnel took as long as one may to be set up, or was closed as long as one is kept.
pub fn is_at_its_end(moment: u64, control: &Control) -> bool
    ensures { result ≡ is_at_its_end moment control.now }
{
    is_closed(control.state) && is_over(KEPT_CLOSED, moment, control.closed)
        || is_being_set_up(control.state) && is_over(PATIENCE, moment, control.made)
}

/// Whether a tunnel is open and carries control messages, nothing of it waits, and it heard nothing for a while.
pub fn is_quiet(moment: u64, mode: Mode, control: &Control) -> bool
    ensures { result ≡ (state_number control.now.state == 3 && is_current mode && control.now.channel.window.queued == 0 && is_over patience moment control.now.heard) }
{
    let is_open = control.state == TunnelState::Established;
    let carries = is_open && is_current(mode);
    carries && control.channel.queued() == 0 && is_over(PATIENCE, moment, control.heard)
}

/// Whether a call is established.
pub fn is_up(state: CallState) -> bool
    ensures { result ≡ is_up state }
{
    matches!(state, CallState::Established)
}

/// Whether a call is being set up.
pub fn is_set_up(state: CallState) -> bool
    ensures { result ≡ is_set_up state }
{
    matches!(
        state,
        CallState::WaitTunnel | CallState::WaitReply | CallState::WaitConnect
    )
}
