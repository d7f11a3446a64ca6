//! The labels by which the indexes find tunnels.

ghost use Rattle.std.specs.Prelude.{◌≡◌, ◌<◌, IfSome};
ghost use Rattle.tunnel_fsm.specs.Rows.{state_number};
ghost use Rattle.tunnel_listing.specs.Labels.{remote_label, state_label, number_by, remote_in, state_in, line_in, answer_in, label_at, IsSmall};

use crate::listed::Listed;
use end_model::Mode;
use tunnel_fsm::TunnelState;

/// The number of a tunnel that is frozen or restored, in place of that of its state.
pub(crate) const RECOVERING: u8 = 5;

/// The label of a peer with an id that it assigned.
pub(crate) fn remote_label(peer: u32, remote: u16) -> u64
    ensures { result ≡ remote_label peer remote }
{
    u64::from(peer) * 65_536 + u64::from(remote)
}

pub(crate) fn number_of(state: TunnelState) -> u8
    ensures value { result ≡ state_number state }
    ensures small { result < 8 }
{
    match state {
        TunnelState::Idle => 0,
        TunnelState::WaitCtlReply => 1,
        TunnelState::WaitCtlConn => 2,
        TunnelState::Established => 3,
        TunnelState::Closed => 4,
    }
}

/// The label of a peer with the number of a state.
pub(crate) fn state_label(peer: u32, number: u8) -> u64
    ensures { result ≡ state_label peer number }
{
    u64::from(peer) * 8 + u64::from(number)
}

fn number_by(mode: Mode, state: TunnelState) -> u8
    ensures { result ≡ number_by mode state }
{
    match mode {
        Mode::Current => number_of(state),
        Mode::Frozen | Mode::Restored => RECOVERING,
    }
}

fn answer_of(listed: &Listed) -> Option<u64>
    ensures { result ≡ answer_in listed.now }
{
    match listed.answered {
        None => None,
        Some(remote) => Some(remote_label(listed.peer, remote)),
    }
}

fn line_of(listed: &Listed) -> Option<u64>
    ensures { result ≡ line_in listed.now }
{
    match listed.line {
        None => None,
        Some(line) => Some(u64::from(line)),
    }
}

/// The labels of a tunnel that may be there, one by one.
pub(crate) fn remote_at(listed: &Option<Listed>) -> Option<u64>
    ensures { result ≡ label_at remote_in listed.now }
{
    match listed {
        None => None,
        Some(listed) => Some(remote_label(listed.peer, listed.remote)),
    }
}

pub(crate) fn state_at(listed: &Option<Listed>) -> Option<u64>
    ensures { result ≡ label_at state_in listed.now }
{
    match listed {
        None => None,
        Some(listed) => Some(state_label(listed.peer, number_by(listed.mode, listed.state))),
    }
}

pub(crate) fn line_at(listed: &Option<Listed>) -> Option<u64>
    ensures { result ≡ label_at line_in listed.now }
{
    match listed {
        None => None,
        Some(listed) => line_of(listed),
    }
}

pub(crate) fn answer_at(listed: &Option<Listed>) -> Option<u64>
    ensures { result ≡ label_at answer_in listed.now }
{
    match listed {
        None => None,
        Some(listed) => answer_of(listed),
    }
}

fn has_small_answer(answered: Option<u16>)
    ensures { IfSome answered (λ remote. remote < 65536) }
{
    if let Some(remote) = answered {
        let _remote = remote;
    }
}

/// Each id that a peer assigned has 16 bits.
pub(crate) fn is_small(listed: &Option<Listed>)
    ensures { IfSome listed.now IsSmall }
{
    if let Some(listed) = listed {
        let _remote = listed.remote;
        has_small_answer(listed.answered);
    }
}
