//! When a tunnel takes a letter, and which states are the same.

ghost use Rattle.std.specs.Prelude.{◌≡◌, ◌==◌};
ghost use Rattle.end_model.specs.Channels.{may_take};
ghost use Rattle.tunnel_fsm.specs.Rows.{state_number};

use end_model::Control;
use send_window::LIMIT;
use tunnel_calls::TunnelCalls;
use tunnel_fsm::TunnelState;

/// Whether the next message of the peer, or a call that rings, may be taken: there is room for the letters that the calls owe,
/// and for four more.
pub fn may_take(control: &Control, calls: &TunnelCalls) -> bool
    ensures { result ≡ may_take control.now calls.now.entries }
{
    control.channel.queued() as u128 + calls.owed() + 4 <= LIMIT as u128
}

/// Whether two states of a tunnel (RFC 2661 section 7.2) are the same.
pub fn same_state(one: TunnelState, other: TunnelState) -> bool
    ensures { result ≡ (state_number one == state_number other) }
{
    matches!(
        (one, other),
        (TunnelState::Idle, TunnelState::Idle)
            | (TunnelState::WaitCtlReply, TunnelState::WaitCtlReply)
            | (TunnelState::WaitCtlConn, TunnelState::WaitCtlConn)
            | (TunnelState::Established, TunnelState::Established)
            | (TunnelState::Closed, TunnelState::Closed)
    )
}
