//! The ends of the spaces of ids, and the limits of a tunnel on calls and on letters.

use bench_examples::Bench;
use end_model::{Event, address_of};
use l2tp_datagram::Datagram;
use l2tp_header::write_control;
use std::alloc::Global;
use std::test::Fail;
use wire_base::{Bytes, NoMemory, put_u16};

/// The pairs of an SCCRQ of a tunnel 1234, and of an SCCCN.
const SCCRQ: &str = "800800000000000180080000000201\
    00800a0000000300000001800a000000076973703980080000000912348008\
    0000000a0010";

const SCCCN: &str = "8008000000000003";

/// The pairs of an ICRQ before and behind the session id that it tells, and of a CDN that tells session 0201.
const ICRQ: [&str; 2] = ["800800000000000a80080000000e", "800a0000000f00000001"];

const CDN: &str = "800800000000000e800800000001000380080000000e0201";

/// The peer's side of a tunnel: which numbers it sends next, and how many letters it acknowledges.
#[derive(Drop)]
struct Peer {
    tunnel: u16,
    ns: u16,
    nr: u16,
}

impl Peer {
    /// A control message of these pairs, with the numbers that are next.
    fn message(&mut self, alloc: Global, session: u16, pairs: &[u8]) -> Result<Bytes, NoMemory> {
        let mut bytes = Bytes::new(alloc);
        if pairs.len() <= 65_523 {
            write_control(&mut bytes, self.tunnel, session, self.ns, self.nr, pairs)?;
        }
        self.ns = self.ns.wrapping_add(1);
        Ok(bytes)
    }

    fn say(&mut self, alloc: Global, session: u16, digits: &str) -> Result<Bytes, Fail> {
        let pairs = hex::decode(alloc, digits).map_err(|_| "hex digits")?;
        Ok(self.message(alloc, session, pairs.as_slice())?)
    }

    /// A request for a call of this session of the peer's.
    fn ask(&mut self, alloc: Global, remote: u16) -> Result<Bytes, Fail> {
        let front = hex::decode(alloc, ICRQ[0]).map_err(|_| "hex digits")?;
        let back = hex::decode(alloc, ICRQ[1]).map_err(|_| "hex digits")?;
        let mut pairs = Bytes::from_slice(alloc, front.as_slice())?;
        put_u16(&mut pairs, remote)?;
        pairs.push_slice(back.as_slice())?;
        Ok(self.message(alloc, 0, pairs.as_slice())?)
    }
}

/// The lines of what the LNS gives for a datagram of the LAC 9.
fn hear(alloc: Global, bench: &mut Bench, datagram: &Bytes) -> Result<Bytes, NoMemory> {
    let event = Event::Datagram {
        peer: address_of(9),
        datagram: Datagram::read(alloc, Bytes::from_slice(alloc, datagram.as_slice())?),
    };
    bench.give(alloc, &event)
}

/// An LNS with an open tunnel 1.
fn open_lns(alloc: Global) -> Result<(Bench, Peer), Fail> {
    let mut bench = Bench::lns(alloc)?;
    let mut peer = Peer {
        tunnel: 0,
        ns: 0,
        nr: 0,
    };
    let opening = peer.say(alloc, 0, SCCRQ)?;
    hear(alloc, &mut bench, &opening)?;
    peer.tunnel = 1;
    peer.nr = 1;
    let connected = peer.say(alloc, 0, SCCCN)?;
    hear(alloc, &mut bench, &connected)?;
    Ok((bench, peer))
}

/// Whether the end gives these lines for an event of words.
fn gives(alloc: Global, bench: &mut Bench, words: &str, told: &[u8]) -> Result<bool, Fail> {
    let text = bench.run(alloc, words)?;
    Ok(text.as_slice() == told)
}

/// Whether it gives these lines for a datagram.
fn answers(
    alloc: Global,
    bench: &mut Bench,
    datagram: &Bytes,
    told: &[u8],
) -> Result<bool, NoMemory> {
    let text = hear(alloc, bench, datagram)?;
    Ok(text.as_slice() == told)
}

/// Runs two rows, one after the other, again and again.
fn often(
    alloc: Global,
    bench: &mut Bench,
    times: u32,
    first: &str,
    second: &str,
) -> Result<(), Fail> {
    for _ in 0..times {
        bench.run(alloc, first)?;
        bench.run(alloc, second)?;
    }
    Ok(())
}

/// An LNS that is asked again and again for a tunnel, each of which isn't connected within a minute, has no id left in the end.
fn tunnel_ids_end(alloc: Global, bench: &mut Bench) -> Result<bool, Fail> {
    let mut peer = Peer {
        tunnel: 0,
        ns: 0,
        nr: 0,
    };
    let opening = peer.say(alloc, 0, SCCRQ)?;
    for _ in 0..65_535 {
        hear(alloc, bench, &opening)?;
        bench.run(alloc, "tick 60000")?;
    }
    Ok(answers(
        alloc,
        bench,
        &opening,
        b"cause ids\n\
          send 9 c8020026123400000000000180080000000000048008000000090000800a0000000100020004\n",
    )?)
}

#[test]
fn tunnel_ids_come_to_their_end(rt: HostRuntime) -> Result<(), Fail> {
    let mut bench = Bench::lns(rt.alloc())?;
    assert!(rt; tunnel_ids_end(rt.alloc(), &mut bench)?);
    Ok(())
}

/// So it is with a LAC whose LNS never answers.
fn ids_of_an_opener_end(alloc: Global, bench: &mut Bench) -> Result<bool, Fail> {
    often(alloc, bench, 65_535, "open", "tick 60000")?;
    let opens_none = gives(alloc, bench, "open", b"cause ids\n")?;
    let rings_for_none = gives(alloc, bench, "ring", b"cause ids\n")?;
    Ok(opens_none && rings_for_none)
}

#[test]
fn ids_of_an_opener_come_to_their_end(rt: HostRuntime) -> Result<(), Fail> {
    let mut bench = Bench::lac(rt.alloc())?;
    assert!(rt; ids_of_an_opener_end(rt.alloc(), &mut bench)?);
    Ok(())
}

/// A call that is asked for and ended at once.
fn call_that_ends(
    alloc: Global,
    bench: &mut Bench,
    peer: &mut Peer,
    session: u16,
) -> Result<(), Fail> {
    let request = peer.ask(alloc, 0x0201)?;
    hear(alloc, bench, &request)?;
    let end = peer.say(alloc, session, CDN)?;
    hear(alloc, bench, &end)?;
    Ok(())
}

/// 131,070 letters are taken, and 65,535 given, until no session id is left.
fn session_ids_end(alloc: Global, bench: &mut Bench, peer: &mut Peer) -> Result<bool, Fail> {
    for session in 1..65_535_u16 {
        call_that_ends(alloc, bench, peer, session)?;
        peer.nr = peer.nr.wrapping_add(1);
    }
    let request = peer.ask(alloc, 0x0202)?;
    Ok(answers(
        alloc,
        bench,
        &request,
        b"cause ids\n\
          send 9 c802002412340202ffffffff800800000000000e800800000001000480080000000e0000\n",
    )?)
}

#[test]
fn session_ids_come_to_their_end(rt: HostRuntime) -> Result<(), Fail> {
    let (mut bench, mut peer) = open_lns(rt.alloc())?;
    assert!(rt; session_ids_end(rt.alloc(), &mut bench, &mut peer)?);
    Ok(())
}

/// Whether a call that is asked for is replied to.
fn is_replied_to(
    alloc: Global,
    bench: &mut Bench,
    peer: &mut Peer,
    remote: u16,
) -> Result<bool, Fail> {
    let request = peer.ask(alloc, remote)?;
    let reply = hear(alloc, bench, &request)?;
    peer.nr = peer.nr.wrapping_add(1);
    Ok(reply.as_slice().get(..5) == Some(b"send ".as_slice()))
}

/// 4,096 calls are replied to, and the next is refused.
fn calls_are_few(alloc: Global, bench: &mut Bench, peer: &mut Peer) -> Result<bool, Fail> {
    for remote in 1..4097_u16 {
        if !is_replied_to(alloc, bench, peer, remote)? {
            return Ok(false);
        }
    }
    let request = peer.ask(alloc, 0x7000)?;
    Ok(answers(
        alloc,
        bench,
        &request,
        b"cause calls\n\
          send 9 c80200241234700010011003800800000000000e800800000001000480080000000e0000\n",
    )?)
}

#[test]
fn a_tunnel_has_as_many_calls_as_it_may(rt: HostRuntime) -> Result<(), Fail> {
    let (mut bench, mut peer) = open_lns(rt.alloc())?;
    assert!(rt; calls_are_few(rt.alloc(), &mut bench, &mut peer)?);
    Ok(())
}

/// None of the letters is acknowledged but the first. 8,187 letters are held, and with four more there is room; then 8,188 are, and
/// one is owed.
fn room_ends(alloc: Global, bench: &mut Bench, peer: &mut Peer) -> Result<bool, Fail> {
    for session in 1..8188_u16 {
        call_that_ends(alloc, bench, peer, session)?;
    }
    let request = peer.ask(alloc, 0x0201)?;
    let acknowledged = answers(alloc, bench, &request, b"send 9 c802000c1234000000033ff9\n")?;
    let end = peer.say(alloc, 8188, CDN)?;
    let dropped = answers(alloc, bench, &end, b"drop queue\n")?;
    Ok(acknowledged && dropped)
}

#[test]
fn a_tunnel_takes_no_more_than_it_has_room_for(rt: HostRuntime) -> Result<(), Fail> {
    let (mut bench, mut peer) = open_lns(rt.alloc())?;
    assert!(rt; room_ends(rt.alloc(), &mut bench, &mut peer)?);
    Ok(())
}

/// Whether an SCCRQ is sent for these words.
fn sends_an_opening(alloc: Global, bench: &mut Bench, words: &str) -> Result<bool, Fail> {
    let opening = bench.run(alloc, words)?;
    Ok(opening.as_slice().get(..7) == Some(b"send 7 ".as_slice()))
}

/// 1,024 tunnels are opened.
fn open_all(alloc: Global, bench: &mut Bench) -> Result<bool, Fail> {
    for _ in 0..1024 {
        if !sends_an_opening(alloc, bench, "open")? {
            return Ok(false);
        }
    }
    Ok(true)
}

/// They are closed, and a ring waits for none of them then; closed ones count, as long as they are there.
fn close_all(alloc: Global, bench: &mut Bench) -> Result<bool, Fail> {
    for tunnel in 1..1025_u16 {
        bench.give(alloc, &Event::CloseTunnel { tunnel })?;
    }
    let rings = gives(alloc, bench, "ring", b"cause tunnels\n")?;
    let opens = gives(alloc, bench, "open", b"cause tunnels\n")?;
    Ok(rings && opens)
}

/// A ring waits for a tunnel that is to open, as long as there is one.
fn tunnels_are_few(alloc: Global, bench: &mut Bench) -> Result<bool, Fail> {
    let are_opened = open_all(alloc, bench)?;
    let opens = gives(alloc, bench, "open", b"cause tunnels\n")?;
    let waits = gives(alloc, bench, "ring", b"")?;
    let are_closed = close_all(alloc, bench)?;
    Ok(are_opened && opens && waits && are_closed)
}

#[test]
fn an_opener_has_as_many_tunnels_as_it_may(rt: HostRuntime) -> Result<(), Fail> {
    let mut bench = Bench::lac(rt.alloc())?;
    assert!(rt; tunnels_are_few(rt.alloc(), &mut bench)?);
    // the closed ones are removed
    bench.run(rt.alloc(), "tick 31000")?;
    assert!(rt; sends_an_opening(rt.alloc(), &mut bench, "ring")?);
    Ok(())
}
