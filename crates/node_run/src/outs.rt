//! What an end gives goes to the node's ports.

ghost use Rattle.std.specs.Prelude.{◌≡◌, ◌++◌, map, IfOk};
ghost use Rattle.end_model.specs.Access.{farewell};
ghost use Rattle.node_run.specs.Outs.{session_frame, by_ether, to_host, handed_up, lac_out, replied, lns_out};

use end_model::mac_of;
use port_events::{Out, Outputs};
use pppoe_wire::{Pppoe, write_frame};
use std::alloc::Global;
use stored_ends::{Given, Lac, LacGiven};
use wire_base::{Bytes, NoMemory, Sequence, Side};

/// The PPPoE session frame (RFC 2516 section 6) of a PPP frame, from its protocol field on, to a host. None where the frame has more
/// than the 65,535 bytes that LENGTH counts.
fn session_frame(
    alloc: Global,
    node: u8,
    host: [u8; 6],
    session: u16,
    frame: Bytes,
) -> Result<Option<Bytes>, NoMemory>
    ensures { IfOk result (λ bytes. bytes ≡ session_frame node session frame host) }
{
    if frame.len() > 65_535 {
        return Ok(None);
    }
    let end = 20 + frame.len();
    let frame = Pppoe {
        dst: host,
        src: mac_of(node),
        session_stage: true,
        code: 0,
        session,
        start: 20,
        end,
        payload: frame,
    };
    Ok(Some(write_frame(alloc, &frame)?))
}

/// A frame goes to the Ethernet port, where there is one.
fn by_ether(frame: Option<Bytes>) -> Out
    ensures { result ≡ by_ether frame }
{
    match frame {
        Some(bytes) => Out::Ether { bytes },
        None => Out::Drop,
    }
}

/// A frame that is handed up goes to the host of its session, if it has one.
fn to_host(
    alloc: Global,
    node: u8,
    session: u16,
    frame: Bytes,
    host: Option<[u8; 6]>,
) -> Result<Out, NoMemory>
    ensures { IfOk result (λ out. out ≡ to_host node session frame host) }
{
    match host {
        None => Ok(Out::Drop),
        Some(host) => {
            let frame = session_frame(alloc, node, host, session, frame)?;
            Ok(by_ether(frame))
        }
    }
}

/// A frame that is handed up goes to its side.
fn handed_up(
    alloc: Global,
    node: u8,
    session: u16,
    side: Side,
    frame: Bytes,
    host: Option<[u8; 6]>,
) -> Result<Out, NoMemory>
    ensures { IfOk result (λ out. out ≡ handed_up node session side frame host) }
{
    match side {
        Side::Sub => to_host(alloc, node, session, frame, host),
        Side::Net => Ok(Out::Up { session, frame }),
        Side::Lcp => Ok(Out::Drop),
    }
}

/// The PADT that tells the host of a call that it ended, if it has one.
fn told_gone(alloc: Global, lac: &Lac, session: u32) -> Result<Out, NoMemory>
    ensures { IfOk result (λ out. out ≡ by_ether (farewell lac.now.end.config.number lac.now.access session)) }
{
    match lac.padt(session) {
        None => Ok(Out::Drop),
        Some(frame) => Ok(Out::Ether {
            bytes: Bytes::from_slice(alloc, &frame)?,
        }),
    }
}

/// What a LAC gives.
fn lac_out(alloc: Global, lac: &Lac, out: end_model::Out) -> Result<Out, NoMemory>
    ensures { IfOk result (λ going. going ≡ lac_out lac.now out) }
{
    match out {
        end_model::Out::Send { peer, bytes, .. } => Ok(Out::Send { peer, bytes }),
        end_model::Out::Up {
            session,
            side,
            frame,
        } => {
            let host = lac.subscriber(session);
            handed_up(alloc, lac.end().number(), session, side, frame, host)
        }
        end_model::Out::Gone { session } => told_gone(alloc, lac, session),
        end_model::Out::Drop { .. } | end_model::Out::Cause { .. } => Ok(Out::Drop),
    }
}

/// The frame that answers a host is sent behind all outputs, where there is one.
fn with_reply(mut outs: Outputs, reply: Option<Bytes>) -> Result<Outputs, NoMemory>
    ensures { IfOk result (λ all. all ≡ outs ++ replied reply) }
{
    match reply {
        None => Ok(outs),
        Some(bytes) => {
            outs.push(Out::Ether { bytes })?;
            Ok(outs)
        }
    }
}

/// The outputs of a LAC's step, in order.
fn lac_outputs(
    alloc: Global,
    lac: &Lac,
    outputs: Sequence<end_model::Out>,
) -> Result<Outputs, NoMemory>
    ensures { IfOk result (λ outs. outs ≡ map (lac_out lac.now) outputs) }
{
    let mut outs = Outputs::new(alloc);
    for out in outputs.into_vec() {
        let out = lac_out(alloc, lac, out)?;
        outs.push(out)?;
    }
    Ok(outs)
}

/// All that a step of a LAC gives, in order.
pub(crate) fn lac_outs(alloc: Global, lac: &Lac, given: LacGiven) -> Result<Outputs, NoMemory>
    ensures { IfOk result (λ outs. outs ≡ map (lac_out lac.now) given.outputs ++ replied given.reply) }
{
    let LacGiven { outputs, reply, .. } = given;
    let outs = lac_outputs(alloc, lac, outputs)?;
    with_reply(outs, reply)
}

/// What an LNS gives. It takes no memory.
fn lns_out(out: end_model::Out) -> Out
    ensures { result ≡ lns_out out }
{
    match out {
        end_model::Out::Send { peer, bytes, .. } => Out::Send { peer, bytes },
        end_model::Out::Up {
            session,
            side: Side::Net,
            frame,
        } => Out::Up { session, frame },
        _ => Out::Drop,
    }
}

/// All that a step of an LNS gives, in order.
pub(crate) fn lns_outs(alloc: Global, given: Given) -> Result<Outputs, NoMemory>
    ensures { IfOk result (λ outs. outs ≡ map lns_out given.outputs) }
{
    let mut outs = Outputs::new(alloc);
    for out in given.outputs.into_vec() {
        outs.push(lns_out(out))?;
    }
    Ok(outs)
}
