use crate::judging::bytes_of;
use block_source::seeded;
use memory_ports::{ManualClock, MemoryEther, MemoryLink, MemoryUplink, Moments};
use port_events::{Echo, TurnFault};
use port_traits::{Datagram, Datagrams, Fails, Frames};
use port_turn::serve;
use std::alloc::Global;
use wire_base::NoMemory;

/// Three datagrams, from peers 1 to 3.
fn datagrams(alloc: Global) -> Datagrams {
    let mut waiting = Datagrams::new(alloc);
    for peer in 1..4u32 {
        let bytes = bytes_of(alloc, &[7]);
        let _pushed = waiting.push(Datagram { peer, bytes });
    }
    waiting
}

/// That the call of this number fails; no call has the number 0.
fn fails_at(alloc: Global, call: u64) -> Fails {
    match Fails::from_slice(alloc, &[call]) {
        Ok(fails) => fails,
        Err(_) => Fails::new(alloc),
    }
}

/// A clock that stands still.
fn clock(alloc: Global) -> ManualClock {
    match Moments::from_slice(alloc, &[5]) {
        Ok(moments) => ManualClock::new(moments),
        Err(_) => ManualClock::new(Moments::new(alloc)),
    }
}

/// What failed, if anything did.
fn name_of(fault: Option<TurnFault<NoMemory>>) -> &'static str {
    match fault {
        None => "nothing",
        Some(TurnFault::LinkFault) => "link",
        Some(TurnFault::EtherFault) => "ether",
        Some(TurnFault::UplinkFault) => "uplink",
        Some(TurnFault::NoMemory) => "memory",
        Some(TurnFault::Stopped { .. }) => "end",
    }
}

/// What failed in two turns over these ports.
fn two_turns(alloc: Global, link: &mut MemoryLink, ether: &mut MemoryEther) -> &'static str {
    let mut clock = clock(alloc);
    let mut up: Option<MemoryUplink> = None;
    let mut rng = seeded([1u8; 32]);
    let mut end = Echo::new(alloc);
    let served = serve(
        alloc, &mut end, link, ether, &mut up, &mut clock, &mut rng, 2,
    );
    name_of(served.err())
}

/// Two turns over a link with three datagrams, where this call of the link and this one of the Ethernet port fail: what failed,
/// and how many datagrams were given.
fn run(alloc: Global, link_call: u64, ether_call: u64) -> (&'static str, usize) {
    let mut link = MemoryLink::new(alloc, datagrams(alloc), fails_at(alloc, link_call));
    let mut ether = MemoryEther::new(alloc, Frames::new(alloc), fails_at(alloc, ether_call));
    let failed = two_turns(alloc, &mut link, &mut ether);
    (failed, link.given().len())
}

/// The calls that fail of the link and of the Ethernet port, what failed, and how many datagrams were given.
const RUNS: [(u64, u64, &str, usize); 7] = [
    // two of three are answered in two turns
    (0, 0, "nothing", 2),
    // the link's calls are recv, send, recv, send
    (1, 0, "link", 0),
    (2, 0, "link", 0),
    (3, 0, "link", 1),
    (4, 0, "link", 1),
    // where the Ethernet port fails, the datagram before it was answered
    (0, 1, "ether", 1),
    (0, 2, "ether", 2),
];

#[test]
fn what_came_goes_out_before_the_next(rt: HostRuntime) {
    for (link, ether, failed, given) in &RUNS {
        assert!(rt; run(rt.alloc(), *link, *ether) == (*failed, *given));
    }
}
