//! Frames of calls, which go to the tunnel's peer.

ghost use Rattle.std.specs.Prelude.{◌≡◌, OnOk, true, IfSome};
ghost use Rattle.std.specs.Option.{option_copied};
ghost use Rattle.end_model.specs.Frames.{sends_frame, counts, carried, carries};
ghost use Rattle.tunnel_calls.specs.Replays.{replays};

use crate::turn::Turn;
use end_model::{Call, Counted, FrameSent, Move, Origin, Out};
use l2tp_header::write_data;
use tunnel_rules::{counted, is_passing, number_of};
use tunnel_timers::is_up;
use wire_base::{Bytes, NoMemory, Why};

/// How many bytes a PPP frame has at least and at most, with its protocol field.
const SHORTEST_FRAME: usize = 2;

const LONGEST_FRAME: usize = 1494;

/// A frame of a call goes to the tunnel's peer, by its number where the call's data messages have one.
#[tactic(auto, unfolding(end_model::specs::Frames::sends_frame))]
fn give_frame(turn: &mut Turn, session: u16, frame: &[u8], call: &Call) -> Result<(), NoMemory>
    ensures { OnOk result (turn.new ≡ sends_frame session frame.now call.now turn.old) }
{
    let peer = turn.control.peer;
    let number = number_of(call.sequence);
    let mut bytes = Bytes::new(turn.alloc);
    write_data(&mut bytes, turn.control.remote, call.remote, number, frame)?;
    turn.did(Move::FrameSent(FrameSent {
        tunnel: turn.control.local,
        peer,
        session,
        remote: call.remote,
        number,
        frame: Bytes::from_slice(turn.alloc, frame)?,
    }))?;
    turn.output(Out::Send {
        peer,
        bytes,
        origin: Origin::Data { session },
    })
}

/// The call, of which a data message was sent, has the next number where its data messages have one.
#[tactic(auto, unfolding(tunnel_calls::specs::Replays::replays, end_model::specs::Frames::counts))]
fn count(turn: &mut Turn, session: u16, call: &Call) -> Result<(), NoMemory>
    requires replays { replays call.now ≡ true }
    ensures { OnOk result (turn.new ≡ counts session call.now call.now.sequence turn.old) }
{
    if call.sequence.is_none() {
        return Ok(());
    }
    let tunnel = turn.control.local;
    turn.change(session, counted(turn.alloc, call)?)?;
    turn.did(Move::Counted(Counted { tunnel, session }))
}

/// Sends a frame of a call to the tunnel's peer, and counts it.
#[tactic(auto, unfolding(end_model::specs::Frames::carried))]
pub fn send_frame(turn: &mut Turn, session: u16, frame: &[u8], call: &Call) -> Result<(), NoMemory>
    requires replays { replays call.now ≡ true }
    ensures { OnOk result (turn.new ≡ carried session frame.now call.now turn.old) }
{
    give_frame(turn, session, frame, call)?;
    count(turn, session, call)
}

/// A frame is given for a call, from its protocol field on.
#[tactic(auto, unfolding(end_model::specs::Frames::carries))]
pub fn carry(
    turn: &mut Turn,
    session: u16,
    frame: &[u8],
    call: Option<&Call>,
) -> Result<(), NoMemory>
    requires replays { IfSome (option_copied call) (λ c. replays c ≡ true) }
    ensures { OnOk result (turn.new ≡ carries session frame.now (option_copied call.entry) turn.old) }
{
    let Some(call) = call else {
        return turn.drop_with(Why::Call);
    };
    if !is_up(call.state) || !is_passing(&call.link) {
        return turn.drop_with(Why::Closed);
    }
    if frame.len() < SHORTEST_FRAME {
        return turn.drop_with(Why::Short);
    }
    if frame.len() > LONGEST_FRAME {
        return turn.drop_with(Why::Long);
    }
    send_frame(turn, session, frame, call)
}
