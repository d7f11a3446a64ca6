//! Pools that end early.

use crate::call_tests::{ICCN, ICRQ, LAC_ADDRESS, SCCCN, SCCRP, SCCRQ};
use crate::gates::{InOrder, Open};
use crate::pools::{Failing, NONE, Ran, around, datagrams, disk_of, frames, run};
use disk_core::{Fails, MemoryDisk};
use node_top::NodeExit;
use port_traits::{Datagrams, Frames};
use std::alloc::Global;
use std::process::Abort;
use std::sync::Wait;
use std::test::Fail;
use std::thread::Threads;
use wire_base::{Bytes, NoMemory};

/// The words of the LNS 2, which makes as many turns as there are messages, and of the LAC 1, which opens a tunnel.
const LNS: &str = "pool --role lns --number 2 --listen 127.0.0.2 --store s --turns 4 --workers 1";

const LAC: &str =
    "pool --role lac --number 1 --listen 127.0.0.1 --peer 127.0.0.2 --store s --turns 2 --open";

// Functions without clauses: a test that calls them is proved at little cost.

/// The LNS to which a LAC opens a tunnel with a call, message after message, where this call of its disk fails.
fn served<W: Threads + Wait + Sync>(rt: &W, alloc: Global, call: u64) -> Option<Ran> {
    let gate = InOrder::new();
    let waiting = datagrams(alloc, LAC_ADDRESS, &[SCCRQ, SCCCN, ICRQ, ICCN])?;
    let around = around(alloc, waiting, Frames::new(alloc), NONE)?;
    run(rt, alloc, LNS, disk_of(alloc, b"", call)?, around, &gate)
}

/// How many of its answers went out before this call of its disk: a new file takes six calls, and each commit four. The SCCRP waits for the
/// first commit, and the tunnel's stands in the second one.
fn answers_before(call: u64) -> usize {
    if call > 10 { 1 } else { 0 }
}

#[test]
fn a_fault_of_the_disk_ends_a_pool_at_each_call(rt: HostRuntime) -> Result<(), Fail> {
    for call in 1..=12 {
        let Some(ran) = served(&rt, rt.alloc(), call) else {
            assert!(rt; false, "it didn't run");
            return Ok(());
        };
        assert!(rt;
            ran.told(NodeExit::StoreFault, b"store fault\n"),
            "call {call}"
        );
        assert!(rt; ran.exit.status() == 9, "call {call}");
        assert!(rt;
            ran.sent(LAC_ADDRESS, SCCRP) == answers_before(call),
            "call {call}"
        );
        assert!(rt;
            ran.around.ports.link.given().len() == answers_before(call),
            "call {call}"
        );
    }
    Ok(())
}

#[test]
fn without_a_fault_it_makes_all_turns(rt: HostRuntime) -> Result<(), Fail> {
    let Some(ran) = served(&rt, rt.alloc(), 0) else {
        assert!(rt; false, "it didn't run");
        return Ok(());
    };
    assert!(rt; ran.wrote(b"taken 4\nup 0\ndropped 0\n"));
    // an SCCRP, the acknowledgement of the SCCCN, an ICRP, and an LCP request with the acknowledgement of the ICCN
    assert!(rt; ran.around.ports.link.given().len() == 5);
    assert!(rt; ran.disk.bytes().len() == 161);
    Ok(())
}

/// The LAC, which opens a tunnel, where these calls fail, and this one of its disk.
fn opened<W: Threads + Wait + Sync>(
    rt: &W,
    alloc: Global,
    disk: MemoryDisk,
    failing: Failing,
) -> Option<Ran> {
    let around = around(alloc, Datagrams::new(alloc), frames(alloc, &[])?, failing)?;
    run(rt, alloc, LAC, disk, around, &Open)
}

/// How the LAC ends where these calls fail, and what it writes and logs.
fn ends<W: Threads + Wait + Sync>(
    rt: &W,
    alloc: Global,
    failing: Failing,
    exit: NodeExit,
    text: &[u8],
) -> bool {
    let Some(disk) = disk_of(alloc, b"", 0) else {
        return false;
    };
    match opened(rt, alloc, disk, failing) {
        None => false,
        Some(ran) => ran.told(exit, text),
    }
}

#[test]
fn each_fault_of_a_port_is_told_as_its_own(rt: HostRuntime) -> Result<(), Fail> {
    let alloc = rt.alloc();
    for call in 1..=2 {
        assert!(rt;
            ends(
                &rt,
                alloc,
                (call, 0, 0, 0),
                NodeExit::LinkFault,
                b"link fault\n"
            )
        );
        assert!(rt;
            ends(
                &rt,
                alloc,
                (0, call, 0, 0),
                NodeExit::EtherFault,
                b"ether fault\n"
            )
        );
        assert!(rt;
            ends(
                &rt,
                alloc,
                (0, 0, call, 0),
                NodeExit::UplinkFault,
                b"uplink fault\n"
            )
        );
    }
    let Some(disk) = disk_of(alloc, b"", 0) else {
        assert!(rt; false, "there is no disk");
        return Ok(());
    };
    let Some(ran) = opened(&rt, alloc, disk, (0, 0, 0, 1)) else {
        assert!(rt; false, "it didn't run");
        return Ok(());
    };
    assert!(rt; ran.exit == NodeExit::WriteFault);
    assert!(rt; ran.around.sink.taken().is_empty());
    Ok(())
}

/// A journal of the LAC 1 that has all the records that an area can have: rising ceilings of the numbers of recoveries.
fn full_journal(alloc: Global) -> Result<Bytes, NoMemory> {
    let mut image = Bytes::from_slice(alloc, b"OL2TPCKP1\x01\x01")?;
    image.push_slice(&[0; 20])?;
    image.push_slice(b"C")?;
    for number in 1..=1_048_576u32 {
        image.push_slice(b"O\x01\x03")?;
        image.push_slice(&number.to_be_bytes())?;
        image.push_slice(&[0; 25])?;
    }
    image.push_slice(b"C")?;
    Ok(image)
}

#[test]
fn a_full_store_ends_a_pool(rt: HostRuntime) -> Result<(), Fail> {
    let alloc = rt.alloc();
    let disk = MemoryDisk::new(alloc, full_journal(alloc)?, Fails::new(alloc))?;
    let Some(ran) = opened(&rt, alloc, disk, NONE) else {
        assert!(rt; false, "it didn't run");
        return Ok(());
    };
    let full = NodeExit::StoreFull { records: 1_048_576 };
    assert!(rt; ran.told(full, b"store full: 1048576\n"));
    assert!(rt; ran.exit.status() == 13);
    assert!(rt; ran.around.ports.link.given().is_empty());
    Ok(())
}
