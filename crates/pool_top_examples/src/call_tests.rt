//! What pools take, send and write.

use crate::gates::{InOrder, Open, Pairs};
use crate::pools::{NONE, Ran, around, datagrams, disk_of, frames, run, run_over};
use disk_core::SteadyDisk;
use memory_ports::{SteadyEther, SteadyLink, SteadyUplink};
use node_top::NodeExit;
use port_traits::{Fails, Frames, LowerFrames, MemorySink};
use session_workers::Gate;
use std::alloc::Global;
use std::process::Abort;
use std::sync::Wait;
use std::test::Fail;
use std::thread::Threads;
use wire_base::Bytes;

/// The words of the LNS 2, but for its turns, and of the LAC 1 whose LNS is at 127.0.0.2, and at 10.0.0.2.
const LNS: &str = "pool --role lns --number 2 --listen 127.0.0.2 --store s --turns 1";

const LNS_FOR_TWO: &str = "pool --role lns --number 2 --listen 127.0.0.2 --store s --turns 2";

const LNS_BY_ONE: &str =
    "pool --role lns --number 2 --listen 127.0.0.2 --store s --turns 5 --workers 1";

const LAC: &str =
    "pool --role lac --number 1 --listen 127.0.0.1 --peer 127.0.0.2 --store s --turns 1 --open";

const KEPT_LAC: &str =
    "pool --role lac --number 1 --listen 127.0.0.1 --peer 10.0.0.2 --store s --turns 1";

/// The SCCRQ of the LAC 1 for its tunnel 1, as an encoder of its own has it; and the SCCRP of the LNS 2, whose tunnel is 1 too.
pub(crate) const SCCRQ: &[u8] = b"\xc8\x02\0\x4c\0\0\0\0\0\0\0\0\
\x80\x08\0\0\0\0\0\x01\x80\x08\0\0\0\x02\x01\0\x80\x0a\0\0\0\x03\0\0\0\x03\x80\x0a\0\0\0\x07lac1\
\x80\x08\0\0\0\x09\0\x01\x80\x08\0\0\0\x0a\0\x08\0\x0c\0\0\0\x4c\0\x03\0\0\x75\x30";

pub(crate) const SCCRP: &[u8] = b"\xc8\x02\0\x4c\0\x01\0\0\0\0\0\x01\
\x80\x08\0\0\0\0\0\x02\x80\x08\0\0\0\x02\x01\0\x80\x0a\0\0\0\x03\0\0\0\x03\x80\x0a\0\0\0\x07lns2\
\x80\x08\0\0\0\x09\0\x01\x80\x08\0\0\0\x0a\0\x08\0\x0c\0\0\0\x4c\0\x03\0\0\x75\x30";

/// What the LAC sends then: SCCCN, the ICRQ for its session 1 with the calling number of the port 1, ICCN; and in the call an LCP request
/// with a magic number, and its acknowledgement.
pub(crate) const SCCCN: &[u8] = b"\xc8\x02\0\x14\0\x01\0\0\0\x01\0\x01\x80\x08\0\0\0\0\0\x03";

pub(crate) const ICRQ: &[u8] =
    b"\xc8\x02\0\x38\0\x01\0\0\0\x02\0\x01\x80\x08\0\0\0\0\0\x0a\x80\x08\0\0\0\x0e\0\x01\
\x80\x0a\0\0\0\x0f\0\0\0\x01\x80\x12\0\0\0\x16ffff00000001";

pub(crate) const ICCN: &[u8] = b"\xc8\x02\0\x28\0\x01\0\x01\0\x03\0\x02\x80\x08\0\0\0\0\0\x0c\
\x80\x0a\0\0\0\x18\x05\xf5\xe1\0\x80\x0a\0\0\0\x13\0\0\0\x01";

const REQUEST: &[u8] = b"\0\x02\0\x01\0\x01\xff\x03\xc0\x21\x01\x01\0\x0a\x05\x06\x11\x22\x33\x44";

const ACKNOWLEDGEMENT: &[u8] =
    b"\0\x02\0\x01\0\x01\xff\x03\xc0\x21\x02\x01\0\x0a\x05\x06\x11\x22\x33\x44";

pub(crate) const LAC_ADDRESS: u32 = 0x0a00_0001;

const LNS_ADDRESS: u32 = 0x0a00_0002;

const LOCAL_LNS: u32 = 0x7f00_0002;

/// A PADI of the host 02:00:00:00:aa:01; and the PADO that answers it, before and behind the 16 bytes of its cookie (RFC 2516 section 5).
const PADI: &[u8] = b"\xff\xff\xff\xff\xff\xff\x02\0\0\0\xaa\x01\x88\x63\x11\x09\0\0\0\x0a\
\x01\x01\0\0\x01\x03\0\x02\xbe\xef";

const PADO_FRONT: &[u8] = b"\x02\0\0\0\xaa\x01\x02\0\0\0\0\x01\x88\x63\x11\x07\0\0\0\x26\
\x01\x01\0\0\x01\x02\0\x04lac1\x01\x04\0\x10";

const PADO_END: &[u8] = b"\x01\x03\0\x02\xbe\xef";

/// The store of the LAC 1, worked out from the format: the ceilings of its tunnel ids and its session ids, its tunnel 1 to the LNS at
/// 10.0.0.2, which has it as tunnel 1, and its call 1, which the LNS has as session 1, of the port 1.
const KEPT: &[u8] = b"OL2TPCKP1\x01\x01\0\0\0\0\0\0\0\0\0\0\0\0\0\0\0\0\0\0\0\0C\
O\x01\x01\0\0\0\x40\0\0\0\0\0\0\0\0\0\0\0\0\0\0\0\0\0\0\0\0\0\0\0\0\0\
O\x01\x02\0\0\0\x40\0\0\0\0\0\0\0\0\0\0\0\0\0\0\0\0\0\0\0\0\0\0\0\0\0\
O\x02\0\x01\0\x01\x0a\0\0\x02\0\x08\0\x03\0\0\0\0\0\0\0\0\0\0\0\0\0\0\0\0\0\0\
O\x04\0\x01\0\x01\0\x01\xff\xff\0\0\0\x01\0\0\0\0\0\0\0\0\0\0\0\0\0\0\0\0\0\0\
C";

/// The same, but that the call is of the host 02:00:00:00:aa:01.
const KEPT_HOST: &[u8] = b"OL2TPCKP1\x01\x01\0\0\0\0\0\0\0\0\0\0\0\0\0\0\0\0\0\0\0\0C\
O\x01\x01\0\0\0\x40\0\0\0\0\0\0\0\0\0\0\0\0\0\0\0\0\0\0\0\0\0\0\0\0\0\
O\x01\x02\0\0\0\x40\0\0\0\0\0\0\0\0\0\0\0\0\0\0\0\0\0\0\0\0\0\0\0\0\0\
O\x02\0\x01\0\x01\x0a\0\0\x02\0\x08\0\x03\0\0\0\0\0\0\0\0\0\0\0\0\0\0\0\0\0\0\
O\x04\0\x01\0\x01\0\x01\x02\0\0\0\xaa\x01\0\0\0\0\0\0\0\0\0\0\0\0\0\0\0\0\0\0\
C";

/// An IP packet in the call, as the LNS sends it and as the LAC does; for the port, in a PPPoE session frame; and from the host.
const PACKET: &[u8] = b"\0\x02\0\x01\0\x01\xff\x03\0\x21\xaa";

const TO_PORT: &[u8] = b"\xff\xff\0\0\0\x01\x02\0\0\0\0\x01\x88\x64\x11\0\0\x01\0\x03\0\x21\xaa";

const OF_HOST: &[u8] = b"\x02\0\0\0\0\x01\x02\0\0\0\xaa\x01\x88\x64\x11\0\0\x01\0\x03\0\x21\xaa";

// Functions without clauses: a test that calls them is proved at little cost.

/// The pool of a line over this image, for which these datagrams of a peer and these frames wait.
fn ran<W: Threads + Wait + Sync, G: Gate + Sync>(
    rt: &W,
    alloc: Global,
    line: &str,
    image: &[u8],
    peer: u32,
    at_link: &[&[u8]],
    at_ether: &[&[u8]],
    gate: &G,
) -> Option<Ran> {
    let disk = disk_of(alloc, image, 0)?;
    let around = around(
        alloc,
        datagrams(alloc, peer, at_link)?,
        frames(alloc, at_ether)?,
        NONE,
    )?;
    run(rt, alloc, line, disk, around, gate)
}

/// What the pool of a line writes over ports that don't fail, for which two datagrams of one byte wait.
fn written<W: Threads + Wait + Sync>(rt: &W, alloc: Global, line: &str) -> Option<MemorySink> {
    let link = SteadyLink::new(alloc, datagrams(alloc, LAC_ADDRESS, &[b"\0", b"\0"])?);
    let ether = SteadyEther::new(alloc, Frames::new(alloc));
    let up = SteadyUplink::new(alloc, LowerFrames::new(alloc));
    let disk = SteadyDisk::new(alloc, Bytes::new(alloc)).ok()?;
    let mut sink = MemorySink::new(alloc, Fails::new(alloc));
    let pooled = run_over(rt, alloc, line, link, ether, up, disk, &mut sink, &Open)?;
    if pooled.exit == NodeExit::Ok {
        Some(sink)
    } else {
        None
    }
}

#[test]
fn what_is_no_message_is_dropped(rt: HostRuntime) -> Result<(), Fail> {
    let Some(sink) = written(&rt, rt.alloc(), LNS_FOR_TWO) else {
        assert!(rt; false, "it didn't run");
        return Ok(());
    };
    assert!(rt; sink.taken() == b"taken 2\nup 0\ndropped 2\n".as_slice());
    Ok(())
}

#[test]
fn an_lns_answers_an_sccrq(rt: HostRuntime) -> Result<(), Fail> {
    let Some(ran) = ran(&rt, rt.alloc(), LNS, b"", LAC_ADDRESS, &[SCCRQ], &[], &Open) else {
        assert!(rt; false, "it didn't run");
        return Ok(());
    };
    assert!(rt; ran.wrote(b"taken 1\nup 0\ndropped 0\n"));
    assert!(rt; ran.sent(LAC_ADDRESS, SCCRP) == 1);
    assert!(rt; ran.around.ports.link.given().len() == 1);
    Ok(())
}

// Each datagram is begun once the one before is done, by whichever thread.
#[test]
fn an_lns_sets_up_a_call_and_answers_its_lcp_request(rt: HostRuntime) -> Result<(), Fail> {
    let gate = InOrder::new();
    let all = [SCCRQ, SCCCN, ICRQ, ICCN, REQUEST];
    let Some(ran) = ran(
        &rt,
        rt.alloc(),
        LNS_BY_ONE,
        b"",
        LAC_ADDRESS,
        &all,
        &[],
        &gate,
    ) else {
        assert!(rt; false, "it didn't run");
        return Ok(());
    };
    assert!(rt; gate.late() == 0);
    assert!(rt; ran.wrote(b"taken 5\nup 1\ndropped 0\n"));
    assert!(rt; ran.sent(LAC_ADDRESS, ACKNOWLEDGEMENT) == 1);
    assert!(rt; ran.sent(LAC_ADDRESS, SCCRP) == 1);
    assert!(rt; ran.around.ports.up.given().is_empty());
    Ok(())
}

#[test]
fn a_letter_is_sent_again_once_its_time_has_passed(rt: HostRuntime) -> Result<(), Fail> {
    let Some(ran) = ran(&rt, rt.alloc(), LAC, b"", LOCAL_LNS, &[], &[], &Open) else {
        assert!(rt; false, "it didn't run");
        return Ok(());
    };
    assert!(rt; ran.wrote(b"taken 0\nup 0\ndropped 0\n"));
    assert!(rt; ran.sent(LOCAL_LNS, SCCRQ) == 2);
    assert!(rt; ran.around.ports.link.given().len() == 2);
    assert!(rt; ran.around.ports.ether.given().is_empty());
    Ok(())
}

/// One PADO went out, and nothing else to the port.
fn gave_a_pado(ran: &Ran) -> bool {
    match ran.around.ports.ether.given() {
        [pado] => {
            let bytes = pado.as_slice();
            bytes.len() == PADO_FRONT.len() + 16 + PADO_END.len()
                && bytes.starts_with(PADO_FRONT)
                && bytes.ends_with(PADO_END)
        }
        _ => false,
    }
}

#[test]
fn a_lac_offers_itself_to_a_host(rt: HostRuntime) -> Result<(), Fail> {
    let Some(ran) = ran(&rt, rt.alloc(), LAC, b"", LOCAL_LNS, &[], &[PADI], &Open) else {
        assert!(rt; false, "it didn't run");
        return Ok(());
    };
    assert!(rt; ran.wrote(b"taken 0\nup 0\ndropped 0\n"));
    assert!(rt; gave_a_pado(&ran));
    assert!(rt; ran.sent(LOCAL_LNS, SCCRQ) == 2);
    Ok(())
}

#[test]
fn frames_of_a_call_that_was_kept_go_to_its_port(rt: HostRuntime) -> Result<(), Fail> {
    let Some(ran) = ran(
        &rt,
        rt.alloc(),
        KEPT_LAC,
        KEPT,
        LNS_ADDRESS,
        &[PACKET],
        &[],
        &Open,
    ) else {
        assert!(rt; false, "it didn't run");
        return Ok(());
    };
    assert!(rt; ran.wrote(b"taken 1\nup 1\ndropped 0\n"));
    assert!(rt; ran.gave(TO_PORT) == 1);
    assert!(rt; ran.around.ports.ether.given().len() == 1);
    Ok(())
}

// The same packet from another address is none of the call's.
#[test]
fn frames_of_another_peer_go_nowhere(rt: HostRuntime) -> Result<(), Fail> {
    let Some(ran) = ran(
        &rt,
        rt.alloc(),
        KEPT_LAC,
        KEPT,
        LAC_ADDRESS,
        &[PACKET],
        &[],
        &Open,
    ) else {
        assert!(rt; false, "it didn't run");
        return Ok(());
    };
    assert!(rt; ran.wrote(b"taken 1\nup 0\ndropped 1\n"));
    assert!(rt; ran.around.ports.ether.given().is_empty());
    Ok(())
}

#[test]
fn frames_of_a_host_go_to_the_lns(rt: HostRuntime) -> Result<(), Fail> {
    let Some(ran) = ran(
        &rt,
        rt.alloc(),
        KEPT_LAC,
        KEPT_HOST,
        LNS_ADDRESS,
        &[],
        &[OF_HOST],
        &Open,
    ) else {
        assert!(rt; false, "it didn't run");
        return Ok(());
    };
    assert!(rt; ran.wrote(b"taken 0\nup 0\ndropped 0\n"));
    assert!(rt; ran.sent(LNS_ADDRESS, PACKET) == 1);
    Ok(())
}

// The first datagram waits for the second, so two threads are at work.
#[test]
fn a_datagram_may_wait_for_the_one_behind_it(rt: HostRuntime) -> Result<(), Fail> {
    let gate = Pairs::new();
    let all: [&[u8]; 2] = [b"\0", b"\0"];
    let Some(ran) = ran(
        &rt,
        rt.alloc(),
        LNS_FOR_TWO,
        b"",
        LAC_ADDRESS,
        &all,
        &[],
        &gate,
    ) else {
        assert!(rt; false, "it didn't run");
        return Ok(());
    };
    assert!(rt; gate.met() == 1);
    assert!(rt; ran.exit == NodeExit::Ok);
    Ok(())
}

#[test]
fn words_without_a_plan_touch_nothing(rt: HostRuntime) -> Result<(), Fail> {
    let alloc = rt.alloc();
    let lac = "pool --role lac --number 1 --listen 127.0.0.1 --store s --turns 1 --open";
    let Some(refused) = ran(&rt, alloc, lac, b"", LNS_ADDRESS, &[PACKET], &[], &Open) else {
        assert!(rt; false, "it didn't run");
        return Ok(());
    };
    assert!(rt; refused.exit == NodeExit::Usage);
    assert!(rt; refused.around.sink.taken() == b"usage: l2tp pool\n".as_slice());
    assert!(rt; refused.disk.bytes().is_empty());
    let version = "pool --role lac --version";
    let Some(told) = ran(&rt, alloc, version, b"", LNS_ADDRESS, &[PACKET], &[], &Open) else {
        assert!(rt; false, "it didn't run");
        return Ok(());
    };
    assert!(rt; told.wrote(b"l2tp 0\n"));
    assert!(rt; told.disk.bytes().is_empty());
    Ok(())
}
