use crate::judging::bytes_of;
use memory_ports::{MemoryEther, MemoryLink, MemoryUplink, SteadyEther, SteadyLink, SteadyUplink};
use port_traits::{
    Datagram, Datagrams, Ether, Fails, Frames, Link, LowerFrame, LowerFrames, Uplink,
};
use std::alloc::Global;

/// One datagram of 3,000 bytes.
fn datagrams(alloc: Global) -> Datagrams {
    let mut waiting = Datagrams::new(alloc);
    let bytes = bytes_of(alloc, &[7u8; 3000]);
    let _pushed = waiting.push(Datagram { peer: 9, bytes });
    waiting
}

/// One frame of 3 bytes.
fn frames(alloc: Global) -> Frames {
    let mut waiting = Frames::new(alloc);
    let _pushed = waiting.push(bytes_of(alloc, b"abc"));
    waiting
}

/// One network frame of 3 bytes.
fn lower_frames(alloc: Global) -> LowerFrames {
    let mut waiting = LowerFrames::new(alloc);
    let frame = bytes_of(alloc, b"abc");
    let _pushed = waiting.push(LowerFrame {
        session: 258,
        frame,
    });
    waiting
}

/// That the call of this number fails.
fn fails_at(alloc: Global, call: u64) -> Fails {
    match Fails::from_slice(alloc, &[call]) {
        Ok(fails) => fails,
        Err(_) => Fails::new(alloc),
    }
}

/// Which of three calls of a link fail: two that take, and one that sends.
fn calls_of_link<L: Link>(link: &mut L) -> [bool; 3] {
    let mut buf = [0u8; 2048];
    [
        link.recv(&mut buf).is_err(),
        link.recv(&mut buf).is_err(),
        link.send(9, b"x").is_err(),
    ]
}

fn calls_of_ether<E: Ether>(ether: &mut E) -> [bool; 3] {
    let mut buf = [0u8; 2048];
    [
        ether.recv(&mut buf).is_err(),
        ether.recv(&mut buf).is_err(),
        ether.send(b"x").is_err(),
    ]
}

fn calls_of_uplink<U: Uplink>(up: &mut U) -> [bool; 3] {
    let mut buf = [0u8; 2048];
    [
        up.recv(&mut buf).is_err(),
        up.recv(&mut buf).is_err(),
        up.send(258, b"x").is_err(),
    ]
}

/// Which calls of a link fail where the call of this number does.
fn link_failing(alloc: Global, call: u64) -> [bool; 3] {
    let mut link = MemoryLink::new(alloc, datagrams(alloc), fails_at(alloc, call));
    calls_of_link(&mut link)
}

fn ether_failing(alloc: Global, call: u64) -> [bool; 3] {
    let mut ether = MemoryEther::new(alloc, frames(alloc), fails_at(alloc, call));
    calls_of_ether(&mut ether)
}

fn uplink_failing(alloc: Global, call: u64) -> [bool; 3] {
    let mut up = MemoryUplink::new(alloc, lower_frames(alloc), fails_at(alloc, call));
    calls_of_uplink(&mut up)
}

/// Which of three calls are to fail where the call of this number is.
fn expected(call: u64) -> [bool; 3] {
    [call == 1, call == 2, call == 3]
}

#[test]
fn each_call_fails_in_turn(rt: HostRuntime) {
    let alloc = rt.alloc();
    for call in 1..5u64 {
        assert!(rt; link_failing(alloc, call) == expected(call));
        assert!(rt; ether_failing(alloc, call) == expected(call));
        assert!(rt; uplink_failing(alloc, call) == expected(call));
    }
}

/// How many datagrams a steady link was given.
fn given_to_link(alloc: Global) -> Option<usize> {
    let mut link = SteadyLink::new(alloc, datagrams(alloc));
    let _ = calls_of_link(&mut link);
    Some(link.given()?.len())
}

fn given_to_ether(alloc: Global) -> Option<usize> {
    let mut ether = SteadyEther::new(alloc, frames(alloc));
    let _ = calls_of_ether(&mut ether);
    Some(ether.given()?.len())
}

fn given_to_uplink(alloc: Global) -> Option<usize> {
    let mut up = SteadyUplink::new(alloc, lower_frames(alloc));
    let _ = calls_of_uplink(&mut up);
    Some(up.given()?.len())
}

#[test]
fn steady_ports_keep_what_they_are_given(rt: HostRuntime) {
    let alloc = rt.alloc();
    assert!(rt; given_to_link(alloc) == Some(1));
    assert!(rt; given_to_ether(alloc) == Some(1));
    assert!(rt; given_to_uplink(alloc) == Some(1));
}

/// Which calls of missing ports fail.
fn calls_of_none() -> [[bool; 3]; 2] {
    let mut ether: Option<MemoryEther> = None;
    let mut up: Option<MemoryUplink> = None;
    [calls_of_ether(&mut ether), calls_of_uplink(&mut up)]
}

#[test]
fn a_missing_port_keeps_nothing(rt: HostRuntime) {
    assert!(rt; calls_of_none() == [[false; 3]; 2]);
}
