use port_traits::{Arrived, Clock, Link};
use real_ports::{RestingClock, StdClock, UdpLink, Watch};
use std::net::{Net, UdpSocket};
use std::time::Duration;
use std::{io, thread};
use wire_base::Failed;

const FIRST: u32 = 0x7f00_0001;

const SECOND: u32 = 0x7f00_0002;

/// An address of the loopback where nobody listens.
const NOBODY: u32 = 0x7f00_0003;

fn arrived(peer: u32, len: usize) -> Result<Option<Arrived>, Failed> {
    Ok(Some(Arrived { peer, len }))
}

/// The link gives this of a datagram, or nothing, or a fault.
fn gives<L: Link>(link: &mut L, expected: Result<Option<Arrived>, Failed>) -> bool {
    let mut buf = [0u8; 2048];
    link.recv(&mut buf) == expected
}

/// The link gives these bytes, from a peer.
fn gives_bytes<L: Link>(link: &mut L, peer: u32, bytes: &[u8]) -> bool {
    let mut buf = [0u8; 2048];
    link.recv(&mut buf) == arrived(peer, bytes.len()) && buf.get(..bytes.len()) == Some(bytes)
}

fn sends<L: Link>(link: &mut L, peer: u32, bytes: &[u8]) -> bool {
    link.send(peer, bytes) == Ok(())
}

// What owns a link has no way out but its end: it tells what holds, and the test asserts all of it.

/// A datagram crosses, and one that is longer than a buffer is cut.
fn crosses<R: Net>(system: &R) -> [bool; 5] {
    let mut first = UdpLink::new(system, FIRST, 17_021);
    let mut second = UdpLink::new(system, SECOND, 17_021);
    [
        gives(&mut second, Ok(None)),
        sends(&mut first, SECOND, b"hello"),
        gives_bytes(&mut second, FIRST, b"hello"),
        sends(&mut first, SECOND, &[7u8; 3000]),
        gives(&mut second, arrived(FIRST, 2048)),
    ]
}

#[test]
fn a_datagram_crosses(rt: HostRuntime) {
    assert!(rt; crosses(&rt) == [true; 5]);
}

/// To where nobody listens, longer than a datagram may be, and to a broadcast address.
fn is_lost<R: Net>(system: &R) -> [bool; 5] {
    let mut link = UdpLink::new(system, FIRST, 17_022);
    [
        sends(&mut link, NOBODY, b"x"),
        sends(&mut link, NOBODY, b"x"),
        sends(&mut link, SECOND, &[0u8; 65_508]),
        sends(&mut link, 0xffff_ffff, b"x"),
        gives(&mut link, Ok(None)),
    ]
}

#[test]
fn what_cannot_be_sent_is_lost(rt: HostRuntime) {
    assert!(rt; is_lost(&rt) == [true; 5]);
}

/// 65 datagrams of one byte go to the link at port 17023, from another port.
fn send_from_another_port<R: Net>(system: &R) -> io::Result<()> {
    let other = UdpSocket::bind(system, "127.0.0.1:17024")?;
    for _ in 0..65 {
        let _ = other.send_to(b"x", "127.0.0.2:17023")?;
    }
    Ok(())
}

/// 64 are passed over, and at the next call the last one.
fn passes_over<R: Net>(system: &R) -> [bool; 5] {
    let mut link = UdpLink::new(system, SECOND, 17_023);
    let mut friend = UdpLink::new(system, FIRST, 17_023);
    [
        gives(&mut link, Ok(None)),
        send_from_another_port(system).is_ok(),
        sends(&mut friend, SECOND, b"y"),
        gives(&mut link, Ok(None)),
        gives(&mut link, arrived(FIRST, 1)),
    ]
}

#[test]
fn another_port_is_passed_over(rt: HostRuntime) {
    assert!(rt; passes_over(&rt) == [true; 5]);
}

/// The second link to an address gives a fault, and takes nothing.
fn is_in_use<R: Net>(system: &R) -> [bool; 3] {
    let mut link = UdpLink::new(system, SECOND, 17_025);
    let mut again = UdpLink::new(system, SECOND, 17_025);
    [
        gives(&mut link, Ok(None)),
        gives(&mut again, Err(Failed)),
        again.send(FIRST, b"x") == Err(Failed),
    ]
}

#[test]
fn an_address_in_use_is_a_fault(rt: HostRuntime) {
    assert!(rt; is_in_use(&rt) == [true; 3]);
}

#[test]
fn the_clock_goes_on(rt: HostRuntime) {
    let mut clock = StdClock::new(&rt);
    let before = clock.now();
    thread::sleep(&rt, Duration::from_millis(20));
    let after = clock.now();
    assert!(rt; after >= before && after - before >= 19);
}

/// How long a clock rests, in milliseconds, that may rest for 50.
fn rests<C: Clock + Drop>(clock: C, watch: &Watch) -> u64 {
    let mut clock = RestingClock::new(clock, watch, 50);
    let before = clock.now();
    clock.now().saturating_sub(before)
}

#[test]
fn a_clock_rests_until_something_comes(rt: HostRuntime) {
    let watch = Watch::new();
    let mut link = watch.link(UdpLink::new(&rt, SECOND, 17_026));
    let mut friend = UdpLink::new(&rt, FIRST, 17_026);
    assert!(rt; gives(&mut link, Ok(None)));
    assert!(rt; rests(StdClock::new(&rt), &watch) >= 49);
    // not at all where a datagram waits
    assert!(rt; sends(&mut friend, SECOND, b"x"));
    assert!(rt; rests(StdClock::new(&rt), &watch) < 49);
    assert!(rt; gives(&mut link, arrived(FIRST, 1)));
}
