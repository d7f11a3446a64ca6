//! Frames and outputs go to the ports.

ghost use Rattle.std.specs.Prelude.{◌≡◌, [], ◌∷◌, OnOk, OnErr, IfErr};
ghost use Rattle.end_model.specs.declared.out.Out.TheVariants as outs;
ghost use Rattle.port_events.specs.Giving.{Blames, IsAround};
ghost use Rattle.held_ports.specs.Around.{Gives};
ghost use Rattle.node_run.specs.Outs.{to_host, handed_up};
ghost use Rattle.pool_giving.specs.Hosts.{turn_out, turn_outs, IsFront, IsOfPort};

use crate::frames::FrameRoom;
use crate::hosts::Hosts;
use end_model::Out;
use held_ports::Ports;
use port_events::TurnFault;
use wire_base::Side;

/// A frame to the subscriber of a call goes to the Ethernet port, and to none where there is no subscriber, or the frame has more than the
/// 65,535 bytes that LENGTH counts.
fn give_to_host<Stop, P: Ports>(
    ports: &mut P,
    room: &mut FrameRoom,
    node: u8,
    host: Option<[u8; 6]>,
    session: u16,
    frame: &[u8],
) -> Result<(), TurnFault<Stop>>
    ensures ok { OnOk result (Gives (to_host node session frame.now host ∷ []) (P.around ports.old) (P.around ports.new)) }
    ensures err { OnErr result (Gives [] (P.around ports.old) (P.around ports.new)) }
    ensures around { IfErr result IsAround }
    ensures cause { Blames (P.counts ports.old).link (P.counts ports.new).link (P.counts ports.old).ether (P.counts ports.new).ether (P.counts ports.old).up (P.counts ports.new).up result }
{
    let Some(host) = host else {
        return Ok(());
    };
    if frame.len() > 65_535 {
        return Ok(());
    }
    match room.write(node, &host, session, frame) {
        Ok(()) => ports.send_frame(room.as_slice()),
        Err(_) => Err(TurnFault::NoMemory),
    }
}

/// A PPP frame of a call, from its protocol field on, that is handed up goes to the port of its side: to the call's subscriber, or to the
/// network. An LCP packet goes to none. It takes memory only where the room for a frame to a subscriber grows.
pub fn give_frame<Stop, P: Ports>(
    ports: &mut P,
    room: &mut FrameRoom,
    node: u8,
    host: Option<[u8; 6]>,
    session: u16,
    side: Side,
    frame: &[u8],
) -> Result<(), TurnFault<Stop>>
    ensures ok { OnOk result (Gives (handed_up node session side frame.now host ∷ []) (P.around ports.old) (P.around ports.new)) }
    ensures err { OnErr result (Gives [] (P.around ports.old) (P.around ports.new)) }
    ensures around { IfErr result IsAround }
    ensures cause { Blames (P.counts ports.old).link (P.counts ports.new).link (P.counts ports.old).ether (P.counts ports.new).ether (P.counts ports.old).up (P.counts ports.new).up result }
{
    match side {
        Side::Sub => give_to_host(ports, room, node, host, session, frame),
        Side::Net => ports.send_up(session, frame),
        Side::Lcp => Ok(()),
    }
}

/// The host of a call that ended is told, if it has one.
fn give_farewell<Stop, P: Ports>(
    ports: &mut P,
    hosts: &Hosts,
    session: u32,
) -> Result<(), TurnFault<Stop>>
    ensures ok { OnOk result (Gives (turn_out hosts.now (outs.Gone session) ∷ []) (P.around ports.old) (P.around ports.new)) }
    ensures err { OnErr result (Gives [] (P.around ports.old) (P.around ports.new)) }
    ensures port { IfErr result IsOfPort }
    ensures cause { Blames (P.counts ports.old).link (P.counts ports.new).link (P.counts ports.old).ether (P.counts ports.new).ether (P.counts ports.old).up (P.counts ports.new).up result }
{
    match hosts.padt(session) {
        Some(frame) => ports.send_frame(&frame),
        None => Ok(()),
    }
}

/// An output of a turn goes to its port.
fn give_out<Stop, P: Ports>(ports: &mut P, hosts: &Hosts, out: &Out) -> Result<(), TurnFault<Stop>>
    ensures ok { OnOk result (Gives (turn_out hosts.now out.now ∷ []) (P.around ports.old) (P.around ports.new)) }
    ensures err { OnErr result (Gives [] (P.around ports.old) (P.around ports.new)) }
    ensures port { IfErr result IsOfPort }
    ensures cause { Blames (P.counts ports.old).link (P.counts ports.new).link (P.counts ports.old).ether (P.counts ports.new).ether (P.counts ports.old).up (P.counts ports.new).up result }
{
    match out {
        Out::Send { peer, bytes, .. } => ports.send(*peer, bytes.as_slice()),
        Out::Up {
            session,
            side: Side::Net,
            frame,
        } => ports.send_up(*session, frame.as_slice()),
        Out::Gone { session } => give_farewell(ports, hosts, *session),
        Out::Up { .. } | Out::Drop { .. } | Out::Cause { .. } => Ok(()),
    }
}

/// What a turn gives goes to the ports, in order: all of it, or what stands before the first output at which its port failed. It takes no
/// memory.
#[tactic(auto, using(crate::proofs::Outputs::gives_more, crate::proofs::Outputs::gives_front))]
pub fn give_turn<Stop, P: Ports>(
    ports: &mut P,
    hosts: &Hosts,
    given: &[Out],
) -> Result<(), TurnFault<Stop>>
    ensures ok { OnOk result (Gives (turn_outs hosts.now given.now) (P.around ports.old) (P.around ports.new)) }
    ensures err { OnErr result (IsFront (turn_outs hosts.now given.now) (P.around ports.old) (P.around ports.new)) }
    ensures port { IfErr result IsOfPort }
    ensures cause { Blames (P.counts ports.old).link (P.counts ports.new).link (P.counts ports.old).ether (P.counts ports.new).ether (P.counts ports.old).up (P.counts ports.new).up result }
{
    for out in given {
        give_out(ports, hosts, out)?;
    }
    Ok(())
}
