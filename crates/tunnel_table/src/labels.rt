//! What a tunnel is found by.

ghost use Rattle.std.specs.Prelude.{◌≡◌, ◌<◌, Some, IfSome, IsTrue};
ghost use Rattle.std.specs.Option.{option_copied};
ghost use Rattle.end_model.specs.Tunnels.{connection_of, mode_of};
ghost use Rattle.tunnel_fsm.specs.Rows.{state_number};
ghost use Rattle.tunnel_core.specs.Cores.{tunnel_of, made_of, recovery_after};
ghost use Rattle.tunnel_table.specs.Labels.{remote_label, state_label, number_by, answer_label, answer_by, line_by, labels_by, labels_of, remote_in, state_in, line_in, answer_in, label_in, IsSmallBy, IsSmall, StaysLabelled};

use end_model::{Control, Mode};
use recovery_tunnel::Recovering;
use tunnel_core::{Planned, TunnelCore};
use tunnel_fsm::TunnelState;

/// The number of a tunnel that is frozen or restored, in place of that of its state.
pub(crate) const RECOVERING: u8 = 5;

/// The labels of a tunnel.
#[derive(Clone, Copy)]
pub struct Labels {
    /// Its peer with the id that it assigned.
    pub remote: u64,
    /// Its peer with its state, or where it is frozen or restored with that.
    pub state: u64,
    /// The local id of its recovery tunnel.
    pub line: Option<u64>,
    /// Its peer with the id of the attempt that it answers.
    pub answer: Option<u64>,
}

/// The label of a peer with an id that it assigned.
pub(crate) fn remote_label(peer: u32, remote: u16) -> u64
    ensures { result ≡ remote_label peer remote }
{
    u64::from(peer) * 65_536 + u64::from(remote)
}

pub(crate) fn number_of(state: TunnelState) -> u8
    ensures value { result ≡ state_number state }
    ensures small { result < 8 }
{
    match state {
        TunnelState::Idle => 0,
        TunnelState::WaitCtlReply => 1,
        TunnelState::WaitCtlConn => 2,
        TunnelState::Established => 3,
        TunnelState::Closed => 4,
    }
}

/// The label of a peer with the number of a state.
pub(crate) fn state_label(peer: u32, number: u8) -> u64
    ensures { result ≡ state_label peer number }
{
    u64::from(peer) * 8 + u64::from(number)
}

fn number_by(mode: Mode, state: TunnelState) -> u8
    ensures { result ≡ number_by mode state }
{
    match mode {
        Mode::Current => number_of(state),
        Mode::Frozen | Mode::Restored => RECOVERING,
    }
}

/// The mode of a tunnel that has this recovery tunnel.
fn mode_of(recovery: Option<&Recovering>) -> Mode
    ensures { result ≡ mode_of (option_copied recovery.entry) }
{
    let Some(recovery) = recovery else {
        return Mode::Current;
    };
    if recovery.is_reset() {
        return Mode::Current;
    }
    match recovery {
        Recovering::ByAttempt(_) => Mode::Restored,
        Recovering::ByAnswer(_) => Mode::Frozen,
    }
}

fn line_of(recovery: Option<&Recovering>) -> Option<u64>
    ensures value { result ≡ line_by (option_copied recovery.entry) }
{
    Some(u64::from(recovery?.local()))
}

fn answer_of(peer: u32, recovery: &Recovering) -> Option<u64>
    ensures { result ≡ answer_label peer recovery.now }
{
    match recovery {
        Recovering::ByAttempt(_) => None,
        Recovering::ByAnswer(answer) => Some(remote_label(peer, answer.remote())),
    }
}

fn answer_by(peer: u32, recovery: Option<&Recovering>) -> Option<u64>
    ensures { result ≡ answer_by peer (option_copied recovery.entry) }
{
    match recovery {
        None => None,
        Some(recovery) => answer_of(peer, recovery),
    }
}

/// The id that the other end of a recovery tunnel assigned has 16 bits.
fn has_small_remote(recovery: Option<&Recovering>)
    ensures { IfSome (option_copied recovery.entry) (λ r. (connection_of r).remote < 65536) }
{
    if let Some(recovery) = recovery {
        let _remote = recovery.remote();
    }
}

/// The labels of a tunnel with this control part and this recovery tunnel.
fn labels_by(control: &Control, recovery: Option<&Recovering>) -> Labels
    ensures value { result ≡ labels_by control.now (option_copied recovery.entry) }
    ensures small { IsSmallBy control.now (option_copied recovery.entry) }
{
    has_small_remote(recovery);
    Labels {
        remote: remote_label(control.peer, control.remote),
        state: state_label(control.peer, number_by(mode_of(recovery), control.state)),
        line: line_of(recovery),
        answer: answer_by(control.peer, recovery),
    }
}

/// The labels of a tunnel.
pub(crate) fn labels_of(core: &TunnelCore) -> Labels
    ensures value { result ≡ labels_of (tunnel_of core.now) }
    ensures small { IsSmall (tunnel_of core.now) }
{
    labels_by(core.control(), core.recovery())
}

/// The labels that a tunnel has after what is planned for it.
pub(crate) fn labels_after(core: &TunnelCore, planned: &Planned) -> Labels
    ensures value { result ≡ labels_of (made_of planned.now (tunnel_of core.now)) }
    ensures small { IsSmall (made_of planned.now (tunnel_of core.now)) }
{
    let recovery = match planned.recovery() {
        None => core.recovery(),
        Some(after) => after,
    };
    labels_by(planned.control(), recovery)
}

/// Whether what is planned for a tunnel changes none of what its labels are made of.
pub(crate) fn stays_labelled(core: &TunnelCore, planned: &Planned) -> bool
    ensures { IsTrue result → StaysLabelled planned.now (tunnel_of core.now) }
{
    let (before, after) = (core.control(), planned.control());
    if planned.recovery().is_some() {
        return false;
    }
    before.peer == after.peer
        && before.remote == after.remote
        && number_of(before.state) == number_of(after.state)
}

/// The labels of a tunnel that may be there, one by one.
pub(crate) fn remote_in(labels: &Option<Labels>) -> Option<u64>
    ensures { result ≡ label_in remote_in labels.now }
{
    Some(labels.as_ref()?.remote)
}

pub(crate) fn state_in(labels: &Option<Labels>) -> Option<u64>
    ensures { result ≡ label_in state_in labels.now }
{
    Some(labels.as_ref()?.state)
}

pub(crate) fn line_in(labels: &Option<Labels>) -> Option<u64>
    ensures { result ≡ label_in line_in labels.now }
{
    labels.as_ref()?.line
}

pub(crate) fn answer_in(labels: &Option<Labels>) -> Option<u64>
    ensures { result ≡ label_in answer_in labels.now }
{
    labels.as_ref()?.answer
}

/// Whether a tunnel is found as before, so that it keeps its keys.
pub(crate) fn are_same(before: &Labels, after: &Labels) -> bool
    ensures { IsTrue result → before.now ≡ after.now }
{
    before.remote == after.remote
        && before.state == after.state
        && before.line == after.line
        && before.answer == after.answer
}
