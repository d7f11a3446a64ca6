//! Tunnels that are closed (RFC 2661 sections 4.4.2, 5.7 and 7.2): by this end, which tells its peer, and by the peer.

ghost use Rattle.std.specs.Prelude.{◌≡◌, false, OnOk, IsTrue};
ghost use Rattle.end_model.specs.Channels.{has_room};
ghost use Rattle.end_model.specs.Sending.{settles};
ghost use Rattle.end_model.specs.Stopping.{shuts, closed_told, closes_tunnel, rejected, rejects, closed_by, clears, shuts_by};
ghost use Rattle.tunnel_fsm.specs.Rows.{rows, row_of};
ghost use Rattle.tunnel_fsm.specs.declared.table.TunnelEvent.TheVariants as event;

use crate::turn::Turn;
use control_message::Message;
use end_model::{Closed, ClosedBy, Move, Out, Rejected};
use message_reading::Reason;
use send_window::Letters;
use tunnel_calls::TunnelCalls;
use tunnel_fsm::{TunnelAction, TunnelEvent, TunnelState, advance};
use tunnel_timers::{is_current, is_open};
use wire_base::{Cause, NoMemory, Why};

/// The result code of a StopCCN that clears a control connection for no fault (RFC 2661 section 4.4.2).
const GENERAL_REQUEST: u16 = 1;

/// The tunnel goes to this state, its peer has this id, and its calls end with it.
#[tactic(auto, unfolding(end_model::specs::Stopping::shuts))]
fn shut(
    turn: &mut Turn,
    calls: &TunnelCalls,
    remote: u16,
    next: TunnelState,
) -> Result<(), NoMemory>
    ensures value { OnOk result (turn.new ≡ shuts calls.now.entries remote next turn.old) }
    ensures channel { turn.new.control.channel ≡ turn.old.control.channel }
{
    let sessions = calls.ids(turn.alloc)?;
    turn.control.remote = remote;
    turn.control.state = next;
    turn.control.closed = turn.moment;
    turn.end_all(sessions.as_slice())
}

/// Closes the tunnel, and tells the peer by a StopCCN, which goes to the id that it assigned.
#[tactic(auto, unfolding(end_model::specs::Stopping::closed_told))]
fn close_and_tell(
    turn: &mut Turn,
    reason: &Reason,
    calls: &TunnelCalls,
    remote: u16,
    next: TunnelState,
) -> Result<(), NoMemory>
    requires { IsTrue (has_room turn.old.control) }
    ensures { OnOk result (turn.new ≡ closed_told reason.now calls.now.entries remote next turn.old) }
{
    let given = turn.next_place();
    let tunnel = turn.control.local;
    let booked = is_open(turn.control.state);
    turn.output(Out::Cause {
        cause: reason.cause,
    })?;
    shut(turn, calls, remote, next)?;
    turn.did(Move::Closed(Closed {
        tunnel,
        remote,
        booked,
        result: reason.code,
        error: reason.error,
        given,
    }))?;
    turn.give(
        0,
        &Message::StopCcn {
            tunnel,
            result: reason.code,
            error: reason.error,
        },
    )
}

/// Closes the tunnel, where there is room for the StopCCN that tells the peer.
#[tactic(auto, unfolding(end_model::specs::Stopping::closes_tunnel))]
pub fn close_tunnel(
    turn: &mut Turn,
    reason: &Reason,
    calls: &TunnelCalls,
    remote: u16,
    next: TunnelState,
) -> Result<(), NoMemory>
    ensures { OnOk result (turn.new ≡ closes_tunnel reason.now calls.now.entries remote next turn.old) }
{
    if !turn.has_room() {
        return turn.drop_with(Why::Queue);
    }
    close_and_tell(turn, reason, calls, remote, next)
}

/// Takes the letter that closes the tunnel, and tells the peer by a StopCCN, which goes to the id that the letter tells.
#[tactic(auto, unfolding(end_model::specs::Stopping::rejected))]
fn reject_and_tell(
    turn: &mut Turn,
    reason: &Reason,
    calls: &TunnelCalls,
    remote: u16,
    next: TunnelState,
) -> Result<(), NoMemory>
    requires { IsTrue (has_room turn.old.control) }
    ensures { OnOk result (turn.new ≡ rejected reason.now calls.now.entries remote next turn.old) }
{
    let (taken, given) = (turn.taken_place(), turn.next_place());
    let tunnel = turn.control.local;
    turn.output(Out::Cause {
        cause: reason.cause,
    })?;
    turn.take();
    shut(turn, calls, remote, next)?;
    turn.did(Move::Rejected(Rejected {
        tunnel,
        remote,
        result: reason.code,
        error: reason.error,
        taken,
        given,
    }))?;
    turn.give(
        0,
        &Message::StopCcn {
            tunnel,
            result: reason.code,
            error: reason.error,
        },
    )
}

/// Takes a letter that closes a tunnel which waits for its SCCRP, where there is room for the StopCCN; else it will come again.
#[tactic(auto, unfolding(end_model::specs::Stopping::rejects))]
pub fn reject(
    turn: &mut Turn,
    reason: &Reason,
    calls: &TunnelCalls,
    remote: u16,
    next: TunnelState,
) -> Result<(), NoMemory>
    ensures { OnOk result (turn.new ≡ rejects reason.now calls.now.entries remote next turn.old) }
{
    if !turn.has_room() {
        return turn.drop_with(Why::Queue);
    }
    reject_and_tell(turn, reason, calls, remote, next)
}

/// Takes the StopCCN of the peer, which closes the tunnel.
#[tactic(auto, unfolding(end_model::specs::Stopping::closed_by))]
pub fn take_stop(turn: &mut Turn, calls: &TunnelCalls, next: TunnelState) -> Result<(), NoMemory>
    ensures { OnOk result (turn.new ≡ closed_by calls.now.entries next turn.old) }
{
    let taken = turn.taken_place();
    let tunnel = turn.control.local;
    let remote = turn.control.remote;
    let booked = is_open(turn.control.state);
    turn.take();
    shut(turn, calls, remote, next)?;
    turn.did(Move::ClosedBy(ClosedBy {
        tunnel,
        booked,
        taken,
    }))
}

/// The tunnel is removed with its calls, without a message.
#[tactic(auto, unfolding(end_model::specs::Stopping::clears))]
pub fn clear(turn: &mut Turn, calls: &TunnelCalls) -> Result<(), NoMemory>
    ensures { OnOk result (turn.new ≡ clears calls.now.entries turn.old) }
{
    let sessions = calls.ids(turn.alloc)?;
    turn.did(Move::Cleared {
        tunnel: turn.control.local,
        booked: is_open(turn.control.state),
    })?;
    turn.end_all(sessions.as_slice())?;
    turn.cleared = true;
    Ok(())
}

/// Closes the tunnel for administrative reasons, where its table's row says so.
#[tactic(auto, unfolding(end_model::specs::Stopping::shuts_by))]
fn close_by_operator(turn: &mut Turn, calls: &TunnelCalls) -> Result<(), NoMemory>
    ensures { OnOk result (turn.new ≡ shuts_by calls.now.entries (row_of rows turn.old.control.state event.AdminClose) turn.old) }
{
    let reason = Reason {
        cause: Cause::Operator,
        code: GENERAL_REQUEST,
        error: None,
    };
    let (next, action) = advance(turn.control.state, TunnelEvent::AdminClose);
    match action {
        TunnelAction::SendStopCcn if !is_current(turn.mode) => clear(turn, calls),
        TunnelAction::SendStopCcn => {
            let remote = turn.control.remote;
            close_tunnel(turn, &reason, calls, remote, next)
        }
        _ => Ok(()),
    }
}

/// The tunnel is closed for administrative reasons.
pub fn close_now(turn: &mut Turn, letters: &Letters, calls: &TunnelCalls) -> Result<(), NoMemory>
    ensures { OnOk result (turn.new ≡ settles false letters.now.letters (shuts_by calls.now.entries (row_of rows turn.old.control.state event.AdminClose) turn.old)) }
{
    close_by_operator(turn, calls)?;
    turn.settle(false, letters)
}
