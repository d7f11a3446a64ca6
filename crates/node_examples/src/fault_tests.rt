//! Every call of every port and of the disk fails in turn: the node ends with that fault, and what it gave to each port, and what its disk
//! holds, is a front of what it gives where none fails.

use crate::node_tests::{Failing, Surroundings, around_disk, fails_at, run_line};
use disk_core::{Fails, MemoryDisk};
use memory_ports::{MemoryEther, MemoryLink, MemoryUplink};
use node_top::NodeExit;
use port_traits::{Datagram, Datagrams, Frames, LowerFrame, LowerFrames};
use std::alloc::Global;
use std::test::Fail;
use wire_base::Bytes;

/// The words of the LAC 1 whose LNS is at 127.0.0.2, and of the LNS 2, but for their turns.
const WORDS: [&str; 2] = [
    "node --role lac --number 1 --listen 127.0.0.1 --peer 127.0.0.2 --store s --turns",
    "node --role lns --number 2 --listen 127.0.0.2 --store s --turns",
];

/// What waits at the link of the LAC: the SCCRP of the LNS, whose tunnel is 7; its acknowledgement; its ICRP, whose session is 40; two data
/// messages of that call; and its CDN, with the result 3.
const TO_LAC: [&[u8]; 6] = [
    b"\xc8\x02\0\x4c\0\x01\0\0\0\0\0\x01\x80\x08\0\0\0\0\0\x02\x80\x08\0\0\0\x02\x01\0\x80\x0a\0\0\0\
\x03\0\0\0\x03\x80\x0a\0\0\0\x07\x6c\x6e\x73\x32\x80\x08\0\0\0\x09\0\x07\x80\x08\0\0\0\x0a\0\x08\
\0\x0c\0\0\0\x4c\0\x03\0\0\x75\x30",
    b"\xc8\x02\0\x0c\0\x01\0\0\0\x01\0\x02",
    b"\xc8\x02\0\x1c\0\x01\0\x01\0\x01\0\x03\x80\x08\0\0\0\0\0\x0b\x80\x08\0\0\0\x0e\0\x28",
    b"\0\x02\0\x01\0\x01\xff\x03\xc0\x21\x01\x01\0\x04",
    b"\0\x02\0\x01\0\x01\xff\x03\0\x21\xaa",
    b"\xc8\x02\0\x24\0\x01\0\x01\0\x02\0\x04\x80\x08\0\0\0\0\0\x0e\x80\x08\0\0\0\x01\0\x03\x80\x08\0\0\
\0\x0e\0\x28",
];

/// What waits at its Ethernet port: a PADI of the host 02:00:00:00:aa:01; its PADR, with the cookie, MD5 over the first 16 bytes of the
/// generator's stream and its address, by another program; and three of its session frames, the first one of LCP.
const OF_HOST: [&[u8]; 5] = [
    b"\xff\xff\xff\xff\xff\xff\x02\0\0\0\xaa\x01\x88\x63\x11\x09\0\0\0\x0a\x01\x01\0\0\x01\x03\0\x02\
\xbe\xef",
    b"\x02\0\0\0\0\x01\x02\0\0\0\xaa\x01\x88\x63\x11\x19\0\0\0\x1e\x01\x01\0\0\x01\x04\0\x10\x97\xd7\
\xd0\x95\x41\x31\x1c\x0a\x42\x7d\xc9\x26\xcf\xfc\x86\x3b\x01\x03\0\x02\xbe\xef",
    b"\x02\0\0\0\0\x01\x02\0\0\0\xaa\x01\x88\x64\x11\0\0\x01\0\x06\xc0\x21\x01\x01\0\x04",
    b"\x02\0\0\0\0\x01\x02\0\0\0\xaa\x01\x88\x64\x11\0\0\x01\0\x04\0\x21\xbb\x01",
    b"\x02\0\0\0\0\x01\x02\0\0\0\xaa\x01\x88\x64\x11\0\0\x01\0\x04\0\x21\xbb\x02",
];

/// What waits at the link of the LNS: of the LAC at 127.0.0.1 the SCCRQ for its tunnel 7, SCCCN, ICRQ for its session 40, and ICCN; in data
/// messages of that call an acknowledgement of the LNS's LCP request, a request without options, and three IP packets.
const TO_LNS: [&[u8]; 9] = [
    b"\xc8\x02\0\x4c\0\0\0\0\0\0\0\0\x80\x08\0\0\0\0\0\x01\x80\x08\0\0\0\x02\x01\0\x80\x0a\0\0\0\x03\0\
\0\0\x03\x80\x0a\0\0\0\x07\x6c\x61\x63\x31\x80\x08\0\0\0\x09\0\x07\x80\x08\0\0\0\x0a\0\x08\0\x0c\
\0\0\0\x4c\0\x03\0\0\x75\x30",
    b"\xc8\x02\0\x14\0\x01\0\0\0\x01\0\x01\x80\x08\0\0\0\0\0\x03",
    b"\xc8\x02\0\x26\0\x01\0\0\0\x02\0\x01\x80\x08\0\0\0\0\0\x0a\x80\x08\0\0\0\x0e\0\x28\x80\x0a\0\0\0\
\x0f\0\0\0\x01",
    b"\xc8\x02\0\x28\0\x01\0\x01\0\x03\0\x02\x80\x08\0\0\0\0\0\x0c\x80\x0a\0\0\0\x18\0\0\xfa\0\x80\x0a\
\0\0\0\x13\0\0\0\x01",
    b"\0\x02\0\x01\0\x01\xff\x03\xc0\x21\x02\x01\0\x04",
    b"\0\x02\0\x01\0\x01\xff\x03\xc0\x21\x01\x01\0\x04",
    b"\0\x02\0\x01\0\x01\xff\x03\0\x21\xaa\x01",
    b"\0\x02\0\x01\0\x01\xff\x03\0\x21\xaa\x02",
    b"\0\x02\0\x01\0\x01\xff\x03\0\x21\xaa\x03",
];

/// What waits at the uplink of the LNS: six frames of a session that isn't there, and then three of its call.
const OF_NETWORK: [u16; 9] = [9, 9, 9, 9, 9, 9, 1, 1, 1];

/// The store that this leaves, worked out from the format: kind 2 and number 2, the ceiling of its tunnel ids, its tunnel 1, the ceiling of
/// its session ids, and its call 1.
const STORED: &[u8] =
    b"\x4f\x4c\x32\x54\x50\x43\x4b\x50\x31\x02\x02\0\0\0\0\0\0\0\0\0\0\0\0\0\0\0\0\0\0\0\0\x43\x4f\x01\
\x01\0\0\0\x40\0\0\0\0\0\0\0\0\0\0\0\0\0\0\0\0\0\0\0\0\0\0\0\0\0\x4f\x02\0\x01\0\x07\x7f\0\0\x01\
\0\x08\0\x03\0\0\0\0\0\0\0\0\0\0\0\0\0\0\0\0\0\0\x4f\x01\x02\0\0\0\x40\0\0\0\0\0\0\0\0\0\0\0\0\0\
\0\0\0\0\0\0\0\0\0\0\0\0\x4f\x04\0\x01\0\x01\0\x28\0\0\0\0\0\0\0\0\0\0\0\0\0\0\0\0\0\0\0\0\0\0\0\
\0\x43";

/// A run of a node: of the LAC, which opens a tunnel; of the LNS; and of the LNS that starts again over its store.
#[derive(Clone, Copy)]
enum Scene {
    Lac,
    Lns,
    StartedAgain,
}

/// What may fail.
#[derive(Clone, Copy)]
enum Port {
    Link,
    Ether,
    Uplink,
    Store,
    Output,
}

/// How a run ended of which a call fails: as if none did, since there is no such call; as is due; or otherwise.
enum Ended {
    Well,
    AsIsDue,
    Wrongly,
}

// Functions without clauses: a test that calls them is proved at little cost.

/// The words of a run, and its turns.
fn words_of(scene: Scene) -> (&'static str, &'static str) {
    match scene {
        Scene::Lac => (WORDS[0], "6 --open"),
        Scene::Lns => (WORDS[1], "9"),
        Scene::StartedAgain => (WORDS[1], "3"),
    }
}

/// Datagrams of a peer.
fn datagrams(alloc: Global, peer: u32, all: &[&[u8]]) -> Option<Datagrams> {
    let mut waiting = Datagrams::new(alloc);
    for bytes in all {
        let bytes = Bytes::from_slice(alloc, bytes).ok()?;
        waiting.push(Datagram { peer, bytes }).ok()?;
    }
    Some(waiting)
}

fn at_link(alloc: Global, scene: Scene) -> Option<Datagrams> {
    match scene {
        Scene::Lac => datagrams(alloc, 0x7f00_0002, &TO_LAC),
        Scene::Lns => datagrams(alloc, 0x7f00_0001, &TO_LNS),
        Scene::StartedAgain => Some(Datagrams::new(alloc)),
    }
}

fn at_ether(alloc: Global, scene: Scene) -> Option<Frames> {
    let mut waiting = Frames::new(alloc);
    if matches!(scene, Scene::Lac) {
        for bytes in OF_HOST {
            waiting.push(Bytes::from_slice(alloc, bytes).ok()?).ok()?;
        }
    }
    Some(waiting)
}

fn at_uplink(alloc: Global, scene: Scene) -> Option<LowerFrames> {
    let mut waiting = LowerFrames::new(alloc);
    if matches!(scene, Scene::Lns) {
        for session in OF_NETWORK {
            let frame = Bytes::from_slice(alloc, b"\0\x21\xcc").ok()?;
            waiting.push(LowerFrame { session, frame }).ok()?;
        }
    }
    Some(waiting)
}

/// The disk of a run, of which this call fails.
fn disk_of(alloc: Global, scene: Scene, call: u64) -> Option<MemoryDisk> {
    let image = if matches!(scene, Scene::StartedAgain) {
        STORED
    } else {
        b"".as_slice()
    };
    let image = Bytes::from_slice(alloc, image).ok()?;
    let fails = Fails::from_slice(alloc, &[call]).ok()?;
    MemoryDisk::new(alloc, image, fails).ok()
}

/// What is around the node of a run, of which these calls fail.
fn around(alloc: Global, scene: Scene, failing: Failing) -> Option<Box<Surroundings>> {
    let datagrams = at_link(alloc, scene)?;
    let frames = at_ether(alloc, scene)?;
    let lower = at_uplink(alloc, scene)?;
    let disk = disk_of(alloc, scene, failing.3)?;
    let mut around = Box::new(alloc, around_disk(alloc, disk, failing)).ok()?;
    around.link = MemoryLink::new(alloc, datagrams, fails_at(alloc, failing.0));
    around.ether = MemoryEther::new(alloc, frames, fails_at(alloc, failing.1));
    around.up = MemoryUplink::new(alloc, lower, fails_at(alloc, failing.2));
    Some(around)
}

/// The run of which these calls fail: how it ends, and what is around the node then.
fn ran(alloc: Global, scene: Scene, failing: Failing) -> Option<(NodeExit, Box<Surroundings>)> {
    let mut around = around(alloc, scene, failing)?;
    let (line, turns) = words_of(scene);
    let exit = run_line(alloc, line, turns, &mut around);
    Some((exit, around))
}

/// That this call of a port fails, and no other.
fn only(port: Port, call: u64) -> Failing {
    match port {
        Port::Link => (call, 0, 0, 0, 0),
        Port::Ether => (0, call, 0, 0, 0),
        Port::Uplink => (0, 0, call, 0, 0),
        Port::Store => (0, 0, 0, call, 0),
        Port::Output => (0, 0, 0, 0, call),
    }
}

/// How a run ends of which a call of the port fails, and what it writes then.
fn due(port: Port) -> (NodeExit, &'static [u8]) {
    match port {
        Port::Link => (NodeExit::LinkFault, b"link fault\n"),
        Port::Ether => (NodeExit::EtherFault, b"ether fault\n"),
        Port::Uplink => (NodeExit::UplinkFault, b"uplink fault\n"),
        Port::Store => (NodeExit::StoreFault, b"store fault\n"),
        Port::Output => (NodeExit::WriteFault, b""),
    }
}

/// The first ones of these datagrams are those.
fn begins_with_datagrams(whole: &[Datagram], front: &[Datagram]) -> bool {
    if front.len() > whole.len() {
        return false;
    }
    for (is, wanted) in front.iter().zip(whole) {
        if is.peer != wanted.peer || is.bytes.as_slice() != wanted.bytes.as_slice() {
            return false;
        }
    }
    true
}

/// The first ones of these frames are those.
fn begins_with_frames(whole: &[Bytes], front: &[Bytes]) -> bool {
    if front.len() > whole.len() {
        return false;
    }
    for (is, wanted) in front.iter().zip(whole) {
        if is.as_slice() != wanted.as_slice() {
            return false;
        }
    }
    true
}

/// The first ones of these frames of the network are those.
fn begins_with_lower(whole: &[LowerFrame], front: &[LowerFrame]) -> bool {
    if front.len() > whole.len() {
        return false;
    }
    for (is, wanted) in front.iter().zip(whole) {
        if is.session != wanted.session || is.frame.as_slice() != wanted.frame.as_slice() {
            return false;
        }
    }
    true
}

/// Where the records of a file end: at its first gate that isn't open. Of one whose first gate isn't open, at its beginning.
fn end_of_records(file: &[u8]) -> usize {
    if file.first() != Some(&b'O') {
        return 0;
    }
    let mut end = 32usize;
    for _ in 0..20 {
        if file.get(end) == Some(&b'O') {
            end = end.saturating_add(32);
        }
    }
    end
}

/// The records of a file are the first ones of those of another.
fn begins_with_records(whole: &[u8], file: &[u8]) -> bool {
    match file.get(..end_of_records(file)) {
        Some(records) => whole.starts_with(records),
        None => false,
    }
}

/// What a node gave to each port, and what its disk holds, is a front of what is so of another.
fn begins_with(whole: &Surroundings, around: &Surroundings) -> bool {
    begins_with_datagrams(whole.link.given(), around.link.given())
        && begins_with_frames(whole.ether.given(), around.ether.given())
        && begins_with_lower(whole.up.given(), around.up.given())
        && begins_with_records(whole.disk.bytes(), around.disk.bytes())
}

/// How a run ended that ends well where no call fails, and then is that.
fn judged(port: Port, exit: NodeExit, around: &Surroundings, whole: &Surroundings) -> Ended {
    let (wanted, text) = due(port);
    if exit == NodeExit::Ok {
        return Ended::Well;
    }
    if exit == wanted && around.sink.taken() == text && begins_with(whole, around) {
        Ended::AsIsDue
    } else {
        Ended::Wrongly
    }
}

/// How a run ends of which this call of a port fails.
fn ends_when(alloc: Global, scene: Scene, port: Port, call: u64, whole: &Surroundings) -> Ended {
    match ran(alloc, scene, only(port, call)) {
        None => Ended::Wrongly,
        Some((exit, around)) => judged(port, exit, &around, whole),
    }
}

/// How many calls of a port there are, each of which ends the run as is due where it fails. None where one doesn't.
fn calls_failing(alloc: Global, scene: Scene, port: Port, whole: &Surroundings) -> Option<u64> {
    for call in 1..200_u64 {
        match ends_when(alloc, scene, port, call, whole) {
            Ended::Well => return Some(call.saturating_sub(1)),
            Ended::AsIsDue => (),
            Ended::Wrongly => return None,
        }
    }
    None
}

/// A run ends well where no call fails: what is around its node then.
fn whole_run(alloc: Global, scene: Scene) -> Option<Box<Surroundings>> {
    match ran(alloc, scene, only(Port::Link, 0)) {
        Some((NodeExit::Ok, around)) => Some(around),
        _ => None,
    }
}

/// Of each of the ports there are so many calls, each of which ends the run as is due where it fails.
fn fails_so_often(alloc: Global, scene: Scene, counts: [(Port, u64); 5]) -> bool {
    let Some(whole) = whole_run(alloc, scene) else {
        return false;
    };
    for (port, calls) in counts {
        if calls_failing(alloc, scene, port, &whole) != Some(calls) {
            return false;
        }
    }
    true
}

/// Where no call fails, the run writes this, gives so many datagrams, Ethernet frames and frames of the network, and leaves this file, if
/// one is told.
fn gives(
    alloc: Global,
    scene: Scene,
    text: &[u8],
    given: (usize, usize, usize),
    file: Option<&[u8]>,
) -> bool {
    let Some(around) = whole_run(alloc, scene) else {
        return false;
    };
    let is_left = match file {
        Some(file) => around.disk.bytes() == file,
        None => true,
    };
    let are = (
        around.link.given().len(),
        around.ether.given().len(),
        around.up.given().len(),
    );
    around.sink.taken() == text && are == given && is_left
}

#[test]
fn each_port_is_used_more_than_three_times_each_way(rt: HostRuntime) -> Result<(), Fail> {
    let alloc = rt.alloc();
    let lac = b"turns 6\ntaken 11\nsent 8\n";
    assert!(rt; gives(alloc, Scene::Lac, lac, (8, 5, 0), None));
    let lns = b"turns 9\ntaken 18\nsent 9\n";
    assert!(rt; gives(alloc, Scene::Lns, lns, (9, 0, 3), Some(STORED)));
    let again = b"turns 3\ntaken 0\nsent 2\n";
    assert!(rt; gives(alloc, Scene::StartedAgain, again, (2, 0, 0), None));
    Ok(())
}

#[test]
fn each_call_that_fails_ends_a_lac(rt: HostRuntime) -> Result<(), Fail> {
    let counts = [
        (Port::Link, 14),
        (Port::Ether, 11),
        (Port::Uplink, 6),
        (Port::Store, 26),
        (Port::Output, 1),
    ];
    assert!(rt; fails_so_often(rt.alloc(), Scene::Lac, counts));
    Ok(())
}

#[test]
fn each_call_that_fails_ends_an_lns(rt: HostRuntime) -> Result<(), Fail> {
    let counts = [
        (Port::Link, 18),
        (Port::Ether, 9),
        (Port::Uplink, 12),
        (Port::Store, 22),
        (Port::Output, 1),
    ];
    assert!(rt; fails_so_often(rt.alloc(), Scene::Lns, counts));
    Ok(())
}

#[test]
fn each_call_that_fails_ends_an_lns_that_starts_again(rt: HostRuntime) -> Result<(), Fail> {
    let counts = [
        (Port::Link, 5),
        (Port::Ether, 3),
        (Port::Uplink, 3),
        (Port::Store, 15),
        (Port::Output, 1),
    ];
    assert!(rt; fails_so_often(rt.alloc(), Scene::StartedAgain, counts));
    Ok(())
}
