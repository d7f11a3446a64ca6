//! What a recovery tunnel sends (RFC 2661 section 5.8).

ghost use Rattle.std.specs.Prelude.{◌≡◌, ◌≤◌, length, OnOk, IfOk};
ghost use Rattle.id_source.specs.Spaces.{after_id};
ghost use Rattle.send_window.specs.Window.{Holds};
ghost use Rattle.send_window.specs.Outbox.{letter_at};
ghost use Rattle.recovery_tunnel.specs.Either.{connection_of, channel_of};
ghost use Rattle.end_model.specs.Turn.{with_output};
ghost use Rattle.end_model.specs.Recovering.{with_recovery, recovery_sends, recovery_letter, goes, acknowledges_on};
ghost use Rattle.tunnel_recovery.specs.Going.{WentBy};

use end_model::{Origin, Out};
use l2tp_header::write_control;
use recovery_tunnel::Recovering;
use tunnel_turn::turn::Turn;
use wire_base::{Bytes, NoMemory};

/// How many bytes of pairs a message has room for.
const ROOM: usize = 65_523;

/// How many letters a recovery tunnel is given at most.
const MOST: u8 = 3;

/// A tunnel id and the number of a recovery are drawn.
pub(crate) fn draw_both(turn: &mut Turn)
    ensures { turn.new ≡ record turn.old { ids = record turn.old.ids { tunnels = after_id turn.old.ids.tunnels; recoveries = after_id turn.old.ids.recoveries } } }
{
    let _tunnel = turn.tunnels.take();
    let _number = turn.recoveries.take();
}

/// Sends a message of the recovery tunnel to the peer of its tunnel.
fn send(
    turn: &mut Turn,
    recovery: &Recovering,
    session: u16,
    number: u64,
    empty: bool,
    pairs: &[u8],
) -> Result<(), NoMemory>
    requires { length pairs.now ≤ 65523 }
    ensures { OnOk result (turn.new ≡ with_output (recovery_sends turn.old.control.peer (connection_of recovery.now) session number empty pairs.now) turn.old) }
{
    let (ns, nr) = recovery.wire(number);
    let mut bytes = Bytes::new(turn.alloc);
    write_control(&mut bytes, recovery.remote(), session, ns, nr, pairs)?;
    turn.output(Out::Send {
        peer: turn.control.peer,
        bytes,
        origin: Origin::Recovery {
            tunnel: recovery.local(),
            number,
            empty,
        },
    })
}

/// Sends the letter with a number.
#[tactic(auto, unfolding(end_model::specs::Recovering::recovery_letter))]
pub(crate) fn send_letter(
    turn: &mut Turn,
    recovery: &Recovering,
    number: u64,
) -> Result<(), NoMemory>
    requires { Holds (channel_of recovery.now).outbox.window number }
    ensures { OnOk result (turn.new ≡ recovery_letter (connection_of recovery.now) number (letter_at (channel_of recovery.now).outbox number) turn.old) }
{
    let letter = recovery.letter(number);
    if letter.avps.len() > ROOM {
        return Ok(());
    }
    let pairs = letter.avps.as_slice();
    send(turn, recovery, letter.session, number, false, pairs)
}

/// Sends the next letter that its window lets go, where there is one.
#[tactic(auto, using(crate::proofs::Going::went, crate::proofs::Going::none_went))]
fn let_one_go(turn: &mut Turn, recovery: &mut Recovering) -> Result<bool, NoMemory>
    ensures { IfOk result (λ went. WentBy went recovery.old turn.old recovery.new turn.new) }
{
    let Some(number) = recovery.pump(turn.moment) else {
        return Ok(false);
    };
    send_letter(turn, recovery, number)?;
    Ok(true)
}

/// Sends what its window lets go.
#[tactic(auto, using(crate::proofs::Going::all_are, crate::proofs::Going::no_more, crate::proofs::Going::none_left, crate::proofs::Going::one_more))]
pub(crate) fn let_go(turn: &mut Turn, recovery: &mut Recovering) -> Result<(), NoMemory>
    ensures { OnOk result (with_recovery recovery.new turn.new ≡ goes recovery.old turn.old) }
{
    let mut most = MOST;
    while most > 0 {
        if !let_one_go(turn, recovery)? {
            return Ok(());
        }
        most -= 1;
    }
    Ok(())
}

/// Acknowledges what was taken, by a message without a body.
#[tactic(auto, unfolding(end_model::specs::Recovering::acknowledges_on))]
pub(crate) fn acknowledge(turn: &mut Turn, recovery: &Recovering) -> Result<(), NoMemory>
    ensures { OnOk result (with_recovery recovery.now turn.new ≡ acknowledges_on recovery.now turn.old) }
{
    send(turn, recovery, 0, recovery.next_unsent(), true, &[])
}
