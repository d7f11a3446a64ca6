use end_model::{Config, Event, Out, address_of};
use l2tp_datagram::Datagram;
use lac_core::Lac;
use lns_core::Lns;
use std::alloc::Global;
use std::test::Fail;
use step_ledger::Unkept;
use tunnel_core::Outputs;
use wire_base::{Bytes, Cause, NoMemory, Why, put_u16};

/// The network of the peers, 192.168.0.0. Each peer's last two bytes are the id that it assigns to its tunnel.
const PEERS: u32 = 0xc0a8_0000;

/// An SCCRQ before the tunnel id that it assigns, and behind it.
const SCCRQ: [&[u8]; 2] = [
    b"\xc8\x02\0\x4c\0\0\0\0\0\0\0\0\x80\x08\0\0\0\0\0\x01\x80\x08\0\0\0\x02\x01\0\
\x80\x0a\0\0\0\x03\0\0\0\x03\x80\x0a\0\0\0\x07lac1\x80\x08\0\0\0\x09",
    b"\x80\x08\0\0\0\x0a\0\x08\0\x0c\0\0\0\x4c\0\x03\0\0\x75\x30",
];

/// The SCCRP of the LNS 2 before the peer's tunnel id, between that and its own, and behind both.
const SCCRP: [&[u8]; 3] = [
    b"\xc8\x02\0\x4c",
    b"\0\0\0\0\0\x01\x80\x08\0\0\0\0\0\x02\x80\x08\0\0\0\x02\x01\0\
\x80\x0a\0\0\0\x03\0\0\0\x03\x80\x0a\0\0\0\x07lns2\x80\x08\0\0\0\x09",
    b"\x80\x08\0\0\0\x0a\0\x08\0\x0c\0\0\0\x4c\0\x03\0\0\x75\x30",
];

/// What declines an SCCRQ whose tunnel would be one too many, before the peer's tunnel id and behind it: a StopCCN of no tunnel, with
/// the result 2 and the error 4.
const DECLINED: [&[u8]; 2] = [
    b"\xc8\x02\0\x26",
    b"\0\0\0\0\0\x01\x80\x08\0\0\0\0\0\x04\x80\x08\0\0\0\x09\0\0\x80\x0a\0\0\0\x01\0\x02\0\x04",
];

/// The key of the LAC's cookies.
const KEY: [u8; 16] = [9; 16];

/// A PADI before its station and behind it: from 02:00:aa:00 and two bytes more, for any service, with a Host-Uniq.
const PADI: [&[u8]; 2] = [
    b"\xff\xff\xff\xff\xff\xff\x02\0\xaa\0",
    b"\x88\x63\x11\x09\0\0\0\x0a\x01\x01\0\0\x01\x03\0\x02\xbe\xef",
];

/// The PADO of the LAC 1 before its station, between that and the cookie, and behind both.
const PADO: [&[u8]; 3] = [
    b"\x02\0\xaa\0",
    b"\x02\0\0\0\0\x01\x88\x63\x11\x07\0\0\0\x26\x01\x01\0\0\x01\x02\0\x04lac1\x01\x04\0\x10",
    b"\x01\x03\0\x02\xbe\xef",
];

/// The cookies of the first and of the last station, MD5 over the key and the station's address by another program.
const COOKIES: [&[u8; 16]; 2] = [
    b"\x92\x43\x3c\xec\x44\x1e\x07\x5c\x1c\x78\xfd\xab\xb9\x14\xf8\xe6",
    b"\xc3\x4f\x87\xfb\xd8\x90\x22\xf6\x0c\x83\x3f\xa0\x2a\xae\x6e\x23",
];

// Functions without clauses: a test that calls them is proved at little cost.

/// The pieces of bytes with a number of two bytes between one and the next.
fn pieced(alloc: Global, front: &[u8], number: u16, back: &[u8]) -> Result<Bytes, NoMemory> {
    let mut bytes = Bytes::from_slice(alloc, front)?;
    put_u16(&mut bytes, number)?;
    bytes.push_slice(back)?;
    Ok(bytes)
}

/// The address of the peer that assigns this id.
fn peer_of(id: u16) -> u32 {
    PEERS.saturating_add(u32::from(id))
}

/// The SCCRQ of that peer.
fn asked(alloc: Global, id: u16) -> Option<Event> {
    let bytes = pieced(alloc, SCCRQ[0], id, SCCRQ[1]).ok()?;
    Some(Event::Datagram {
        peer: peer_of(id),
        datagram: Datagram::read(alloc, bytes),
    })
}

/// What the LNS gives for an event.
fn given(lns: &mut Lns, moment: u64, event: &Event) -> Option<Outputs> {
    match lns.step(&mut Unkept, moment, [7; 16], event) {
        Ok(given) => Some(given.outputs),
        Err(_) => None,
    }
}

/// What it gives for the SCCRQ of the peer that assigns this id.
fn answered(alloc: Global, lns: &mut Lns, moment: u64, id: u16) -> Option<Outputs> {
    let event = asked(alloc, id)?;
    given(lns, moment, &event)
}

/// The SCCRP to that peer, of the tunnel with this id at the LNS.
fn accepted(alloc: Global, remote: u16, local: u16) -> Result<Bytes, NoMemory> {
    let mut bytes = pieced(alloc, SCCRP[0], remote, SCCRP[1])?;
    put_u16(&mut bytes, local)?;
    bytes.push_slice(SCCRP[2])?;
    Ok(bytes)
}

/// It is answered by that SCCRP, and nothing else.
fn is_accepted(alloc: Global, outputs: &[Out], remote: u16, local: u16) -> bool {
    let Ok(wanted) = accepted(alloc, remote, local) else {
        return false;
    };
    match outputs {
        [Out::Send { peer, bytes, .. }] => {
            *peer == peer_of(remote) && bytes.as_slice() == wanted.as_slice()
        }
        _ => false,
    }
}

/// It is refused with the cause `tunnels`, and the peer is told.
fn is_refused(alloc: Global, outputs: &[Out], remote: u16) -> bool {
    let Ok(wanted) = pieced(alloc, DECLINED[0], remote, DECLINED[1]) else {
        return false;
    };
    match outputs {
        [
            Out::Cause {
                cause: Cause::Tunnels,
            },
            Out::Send { peer, bytes, .. },
        ] => *peer == peer_of(remote) && bytes.as_slice() == wanted.as_slice(),
        _ => false,
    }
}

/// The peer that assigns this id gets the tunnel with this id at the LNS.
fn opens(alloc: Global, lns: &mut Lns, moment: u64, remote: u16, local: u16) -> bool {
    match answered(alloc, lns, moment, remote) {
        Some(outputs) => is_accepted(alloc, outputs.as_slice(), remote, local),
        None => false,
    }
}

/// It gets none, since there are as many as there may be.
fn refuses(alloc: Global, lns: &mut Lns, moment: u64, remote: u16) -> bool {
    match answered(alloc, lns, moment, remote) {
        Some(outputs) => is_refused(alloc, outputs.as_slice(), remote),
        None => false,
    }
}

/// The peers that assign the ids from 1 to 1,024 get tunnels with the same ids, one in each millisecond from the first one on.
fn opens_all(alloc: Global, lns: &mut Lns) -> bool {
    for id in 1..1025_u16 {
        if !opens(alloc, lns, u64::from(id), id, id) {
            return false;
        }
    }
    true
}

/// Time passes to this moment, and this is the least tunnel that is there then.
fn ticks_to(lns: &mut Lns, moment: u64, least: u32) -> bool {
    if given(lns, moment, &Event::Tick).is_none() {
        return false;
    }
    lns.end().tunnel(least.saturating_sub(1)).is_none() && lns.end().tunnel(least).is_some()
}

/// An LNS 2 without a tunnel.
fn new_lns(alloc: Global) -> Option<Box<Lns>> {
    let config = Config::new(2, address_of(2), 0, None, false);
    Box::new(alloc, Lns::new(alloc, config)).ok()
}

/// A LAC 1 without a tunnel.
fn new_lac(alloc: Global) -> Option<Box<Lac>> {
    let config = Config::new(1, address_of(1), address_of(2), None, false);
    Box::new(alloc, Lac::new(alloc, config, KEY)).ok()
}

/// The LAC gives this for a frame, and nothing else.
fn reply(lac: &mut Lac, bytes: Bytes) -> Option<Bytes> {
    let event = Event::Frame { bytes };
    match lac.step(&mut Unkept, 5, [7; 16], &event) {
        Ok(given) if given.outputs.len() == 0 => given.reply,
        _ => None,
    }
}

/// The cookie of a PADO that is right but for it.
fn cookie_in(alloc: Global, pado: &[u8], station: u16) -> Option<Bytes> {
    let front = pieced(alloc, PADO[0], station, PADO[1]).ok()?;
    let rest = pado.strip_prefix(front.as_slice())?;
    let cookie = rest.strip_suffix(PADO[2])?;
    Bytes::from_slice(alloc, cookie).ok()
}

/// The cookie that a station gets for its PADI.
fn cookie_of(alloc: Global, lac: &mut Lac, station: u16) -> Option<Bytes> {
    let padi = pieced(alloc, PADI[0], station, PADI[1]).ok()?;
    let pado = reply(lac, padi)?;
    cookie_in(alloc, pado.as_slice(), station)
}

/// So many stations get a PADO each.
fn answers_all(alloc: Global, lac: &mut Lac, stations: u16) -> bool {
    for station in 0..stations {
        match cookie_of(alloc, lac, station) {
            Some(cookie) if cookie.len() == 16 => (),
            _ => return false,
        }
    }
    true
}

/// A station gets this cookie.
fn has_cookie(alloc: Global, lac: &mut Lac, station: u16, wanted: &[u8; 16]) -> bool {
    match cookie_of(alloc, lac, station) {
        Some(cookie) => cookie.as_slice() == wanted.as_slice(),
        None => false,
    }
}

/// The LAC has no tunnel and no call, and the ids that are drawn next are the first ones.
fn has_nothing(alloc: Global, lac: &Lac) -> bool {
    let Ok(rows) = lac.tunnel_rows(alloc) else {
        return false;
    };
    rows.len() == 0
        && lac.end().next_session() == Some(1)
        && lac.fits(&Event::Hang { session: 1 }) == Some(Why::Call)
}

#[test]
fn one_peer_too_many_gets_a_tunnel_once_the_first_one_is_gone(rt: HostRuntime) -> Result<(), Fail> {
    let alloc = rt.alloc();
    let Some(mut lns) = new_lns(alloc) else {
        assert!(rt; false, "there is no LNS");
        return Ok(());
    };
    assert!(rt; opens_all(alloc, &mut lns));
    assert!(rt; refuses(alloc, &mut lns, 2_000, 1025));
    // the first tunnel was opened at 1, and isn't set up within 60,000 milliseconds
    assert!(rt; ticks_to(&mut lns, 60_000, 1));
    assert!(rt; refuses(alloc, &mut lns, 60_000, 1025));
    assert!(rt; ticks_to(&mut lns, 60_001, 2));
    assert!(rt; opens(alloc, &mut lns, 60_001, 1025, 1025));
    assert!(rt; refuses(alloc, &mut lns, 60_001, 1026));
    Ok(())
}

#[test]
fn ten_thousand_stations_are_answered_and_none_is_kept(rt: HostRuntime) -> Result<(), Fail> {
    let alloc = rt.alloc();
    let Some(mut lac) = new_lac(alloc) else {
        assert!(rt; false, "there is no LAC");
        return Ok(());
    };
    assert!(rt; answers_all(alloc, &mut lac, 10_000));
    assert!(rt; has_cookie(alloc, &mut lac, 0, COOKIES[0]));
    assert!(rt; has_cookie(alloc, &mut lac, 9_999, COOKIES[1]));
    assert!(rt; has_nothing(alloc, &lac));
    Ok(())
}
