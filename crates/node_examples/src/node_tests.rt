use block_source::seeded;
use disk_core::{Fails, MemoryDisk};
use memory_ports::{ManualClock, MemoryEther, MemoryLink, MemoryUplink, Moments};
use node_top::{NodeExit, node_top};
use port_traits::{Datagram, Datagrams, Fails as PortFails, Frames, LowerFrames, MemorySink};
use std::alloc::Global;
use std::test::Fail;
use wire_base::Bytes;

/// The words of the LAC 1 whose LNS is at 127.0.0.2, but for its turns.
const LAC: &str =
    "node --role lac --number 1 --listen 127.0.0.1 --peer 127.0.0.2 --store s --turns";

/// The SCCRQ of the LAC 1 for its tunnel 1, as an encoder of its own has it.
const SCCRQ: &[u8; 76] = b"\xc8\x02\0\x4c\0\0\0\0\0\0\0\0\
\x80\x08\0\0\0\0\0\x01\x80\x08\0\0\0\x02\x01\0\x80\x0a\0\0\0\x03\0\0\0\x03\x80\x0a\0\0\0\x07lac1\
\x80\x08\0\0\0\x09\0\x01\x80\x08\0\0\0\x0a\0\x08\0\x0c\0\0\0\x4c\0\x03\0\0\x75\x30";

/// The store of the LAC 1 that was just made, worked out from the format: kind 1 and number 1, and no record.
const NEW_STORE: &[u8; 33] = b"OL2TPCKP1\x01\x01\0\0\0\0\0\0\0\0\0\0\0\0\0\0\0\0\0\0\0\0CC";

/// The same, and that its tunnel ids have the ceiling 64, which was committed before the tunnel was opened.
const OPENED_STORE: &[u8; 65] = b"OL2TPCKP1\x01\x01\0\0\0\0\0\0\0\0\0\0\0\0\0\0\0\0\0\0\0\0C\
O\x01\x01\0\0\0\x40\0\0\0\0\0\0\0\0\0\0\0\0\0\0\0\0\0\0\0\0\0\0\0\0\0C";

/// The words of the LNS 2, which makes as many turns as there are messages.
const LNS: &str = "node --role lns --number 2 --listen 127.0.0.2 --store s --turns";

/// What a LAC at 127.0.0.1 sends: SCCRQ for its tunnel 7, SCCCN, ICRQ for its session 40, ICCN, CDN with the result 3, and StopCCN with
/// the result 1; the LNS has tunnel 1 and session 1 for these. A datagram that is no message comes between them.
const MESSAGES: [&[u8]; 7] = [
    b"\xc8\x02\0\x40\0\0\0\0\0\0\0\0\x80\x08\0\0\0\0\0\x01\x80\x08\0\0\0\x02\x01\0\
\x80\x0a\0\0\0\x03\0\0\0\x01\x80\x0a\0\0\0\x07lac1\x80\x08\0\0\0\x09\0\x07\x80\x08\0\0\0\x0a\0\x08",
    b"\xc8\x02\0\x14\0\x01\0\0\0\x01\0\x01\x80\x08\0\0\0\0\0\x03",
    b"\xc8\x02\0\x26\0\x01\0\0\0\x02\0\x01\x80\x08\0\0\0\0\0\x0a\x80\x08\0\0\0\x0e\0\x28\
\x80\x0a\0\0\0\x0f\0\0\0\x01",
    b"no message",
    b"\xc8\x02\0\x28\0\x01\0\x01\0\x03\0\x02\x80\x08\0\0\0\0\0\x0c\x80\x0a\0\0\0\x18\0\0\0\0\
\x80\x0a\0\0\0\x13\0\0\0\x01",
    b"\xc8\x02\0\x24\0\x01\0\x01\0\x04\0\x02\x80\x08\0\0\0\0\0\x0e\x80\x08\0\0\0\x01\0\x03\
\x80\x08\0\0\0\x0e\0\x28",
    b"\xc8\x02\0\x24\0\x01\0\0\0\x05\0\x02\x80\x08\0\0\0\0\0\x04\x80\x08\0\0\0\x09\0\x07\
\x80\x08\0\0\0\x01\0\x01",
];

/// The lines of the LNS that has them.
const LINES: &[u8] = b"tunnel 1 up peer 127.0.0.1 remote 7\n\
call 1 up tunnel 1 remote 40\ncall 1 gone tunnel 1 by peer\ntunnel 1 closed by peer\n";

/// What a LAC that recovers its channels sends, at 127.0.0.1: SCCRQ for its tunnel 7, and SCCCN.
const OPENING: [&[u8]; 2] = [
    b"\xc8\x02\0\x4c\0\0\0\0\0\0\0\0\x80\x08\0\0\0\0\0\x01\x80\x08\0\0\0\x02\x01\0\
\x80\x0a\0\0\0\x03\0\0\0\x01\x80\x0a\0\0\0\x07lac1\x80\x08\0\0\0\x09\0\x07\x80\x08\0\0\0\x0a\0\x08\
\0\x0c\0\0\0\x4c\0\x03\0\0\x75\x30",
    b"\xc8\x02\0\x14\0\x01\0\0\0\x01\0\x01\x80\x08\0\0\0\0\0\x03",
];

/// The SCCRQ of the LNS that was down, by its recovery tunnel 65: it asks for the tunnel that is 1 here and 7 at the LAC, and its draw
/// number is 1.
const ATTEMPT: &[u8; 102] = b"\xc8\x02\0\x66\0\0\0\0\0\0\0\0\
\x80\x08\0\0\0\0\0\x01\x80\x08\0\0\0\x02\x01\0\x80\x0a\0\0\0\x03\0\0\0\x03\x80\x0a\0\0\0\x07lns2\
\x80\x08\0\0\0\x09\0\x41\x80\x08\0\0\0\x0a\0\x08\0\x0c\0\0\0\x4c\0\x03\0\0\x75\x30\
\x80\x10\0\0\0\x4d\0\0\0\0\0\x01\0\0\0\x07\0\x0a\xff\xff\0\x01\0\0\0\x01";

/// The SCCRP of the LAC, by its recovery tunnel 9: it expects the letter 1 next and would send the letter 2, and its draw number is 5.
const ANSWER: &[u8] = b"\xc8\x02\0\x62\0\x41\0\0\0\0\0\x01\
\x80\x08\0\0\0\0\0\x02\x80\x08\0\0\0\x02\x01\0\x80\x0a\0\0\0\x03\0\0\0\x01\x80\x0a\0\0\0\x07lac1\
\x80\x08\0\0\0\x09\0\x09\x80\x08\0\0\0\x0a\0\x08\0\x0c\0\0\0\x4c\0\x03\0\0\x75\x30\
\x80\x0c\0\0\0\x4e\0\0\0\x01\0\x02\0\x0a\xff\xff\0\x01\0\0\0\x05";

/// The SCCCN to it.
const CONFIRMATION: &[u8] = b"\xc8\x02\0\x14\0\x09\0\0\0\x01\0\x01\x80\x08\0\0\0\0\0\x03";

/// What the LNS keeps then, worked out from the format: the ceiling of its tunnel ids and the tunnel; by the start the ceilings of its
/// tunnel ids and of its draw numbers; and as its mark the LAC's draw number.
const RECOVERED_STORE: &[u8; 193] = b"OL2TPCKP1\x02\x02\0\0\0\0\0\0\0\0\0\0\0\0\0\0\0\0\0\0\0\0C\
O\x01\x01\0\0\0\x40\0\0\0\0\0\0\0\0\0\0\0\0\0\0\0\0\0\0\0\0\0\0\0\0\0\
O\x02\0\x01\0\x07\x7f\0\0\x01\0\x08\0\x03\0\0\0\0\0\0\0\0\0\0\0\0\0\0\0\0\0\0\
O\x01\x01\0\0\0\x80\0\0\0\0\0\0\0\0\0\0\0\0\0\0\0\0\0\0\0\0\0\0\0\0\0\
O\x01\x03\0\0\0\x40\0\0\0\0\0\0\0\0\0\0\0\0\0\0\0\0\0\0\0\0\0\0\0\0\0\
O\x06\0\x01\0\0\0\x05\0\0\0\0\0\0\0\0\0\0\0\0\0\0\0\0\0\0\0\0\0\0\0\0\
C";

/// What is around a node, with nothing waiting.
#[derive(Drop)]
pub(crate) struct Surroundings {
    pub(crate) link: MemoryLink,
    pub(crate) ether: MemoryEther,
    pub(crate) up: MemoryUplink,
    pub(crate) disk: MemoryDisk,
    pub(crate) clock: ManualClock,
    pub(crate) sink: MemorySink,
    pub(crate) log: MemorySink,
}

// Functions without clauses: a test that calls them is proved at little cost.

/// Which calls fail, counted from 1: of the link, the Ethernet port, the uplink, the disk and the sink. 0 is none.
pub(crate) type Failing = (u64, u64, u64, u64, u64);

const NONE: Failing = (0, 0, 0, 0, 0);

/// That this call of a port fails, as far as there is memory to say so.
pub(crate) fn fails_at(alloc: Global, call: u64) -> PortFails {
    match PortFails::from_slice(alloc, &[call]) {
        Ok(fails) => fails,
        Err(_) => PortFails::new(alloc),
    }
}

/// An empty disk of which this call fails.
fn disk_that_fails(alloc: Global, call: u64) -> Option<MemoryDisk> {
    let fails = Fails::from_slice(alloc, &[call]).ok()?;
    MemoryDisk::new(alloc, Bytes::new(alloc), fails).ok()
}

/// A clock that stands still.
fn clock(alloc: Global) -> ManualClock {
    match Moments::from_slice(alloc, &[5]) {
        Ok(moments) => ManualClock::new(moments),
        Err(_) => ManualClock::new(Moments::new(alloc)),
    }
}

/// All that is around a node with this disk.
pub(crate) fn around_disk(alloc: Global, disk: MemoryDisk, failing: Failing) -> Surroundings {
    let (link, ether, up, _, sink) = failing;
    Surroundings {
        link: MemoryLink::new(alloc, Datagrams::new(alloc), fails_at(alloc, link)),
        ether: MemoryEther::new(alloc, Frames::new(alloc), fails_at(alloc, ether)),
        up: MemoryUplink::new(alloc, LowerFrames::new(alloc), fails_at(alloc, up)),
        disk,
        clock: clock(alloc),
        sink: MemorySink::new(alloc, fails_at(alloc, sink)),
        log: MemorySink::new(alloc, fails_at(alloc, 0)),
    }
}

fn around(alloc: Global, failing: Failing) -> Option<Box<Surroundings>> {
    let disk = disk_that_fails(alloc, failing.3)?;
    Box::new(alloc, around_disk(alloc, disk, failing)).ok()
}

/// Appends the words of a line.
fn push_words(alloc: Global, words: &mut Vec<String>, line: &str) -> Option<()> {
    for word in line.split(' ') {
        words.push(String::from_str(alloc, word).ok()?).ok()?;
    }
    Some(())
}

/// The words of a line, and behind them these.
fn words_of(alloc: Global, line: &str, more: &str) -> Vec<String> {
    let mut words: Vec<String> = Vec::new(alloc);
    if push_words(alloc, &mut words, line).is_some() {
        let _pushed = push_words(alloc, &mut words, more);
    }
    words
}

/// Runs the node of these words.
fn run(alloc: Global, words: &[String], around: &mut Surroundings) -> NodeExit {
    let mut generator = seeded([7u8; 32]);
    node_top(
        alloc,
        words,
        b"l2tp 0\n",
        &mut around.link,
        &mut around.ether,
        &mut around.up,
        &mut around.disk,
        &mut around.clock,
        &mut generator,
        &mut around.sink,
        &mut around.log,
    )
}

/// Runs the node of a line with these words behind it.
pub(crate) fn run_line(
    alloc: Global,
    line: &str,
    more: &str,
    around: &mut Surroundings,
) -> NodeExit {
    let words = words_of(alloc, line, more);
    run(alloc, words.as_slice(), around)
}

/// The node of these words, where these calls fail: how it ends, and what is around it then.
fn ran(
    alloc: Global,
    line: &str,
    more: &str,
    failing: Failing,
) -> Option<(NodeExit, Box<Surroundings>)> {
    let mut around = around(alloc, failing)?;
    let exit = run_line(alloc, line, more, &mut around);
    Some((exit, around))
}

/// It ends so, the sink has this text, the disk this file, and the log nothing.
fn ends(alloc: Global, line: &str, more: &str, exit: NodeExit, text: &[u8], file: &[u8]) -> bool {
    match ran(alloc, line, more, NONE) {
        None => false,
        Some((ended, around)) => {
            ended == exit
                && around.sink.taken() == text
                && around.disk.bytes() == file
                && around.log.taken().is_empty()
        }
    }
}

/// Where these calls fail, it ends so, and the sink and the log have this text.
fn fails(alloc: Global, more: &str, failing: Failing, exit: NodeExit, text: &[u8]) -> bool {
    match ran(alloc, LAC, more, failing) {
        None => false,
        Some((ended, around)) => {
            ended == exit && around.sink.taken() == text && around.log.taken() == text
        }
    }
}

/// It sends this datagram to this peer, and nothing else to any port.
fn sends(alloc: Global, more: &str, peer: u32, bytes: &[u8]) -> bool {
    let Some((_, around)) = ran(alloc, LAC, more, NONE) else {
        return false;
    };
    let sent = match around.link.given() {
        [given] => given.peer == peer && given.bytes.as_slice() == bytes,
        _ => false,
    };
    sent && around.ether.given().is_empty() && around.up.given().is_empty()
}

#[test]
fn a_node_opens_a_tunnel_over_a_new_store(rt: HostRuntime) -> Result<(), Fail> {
    let alloc = rt.alloc();
    assert!(rt; sends(alloc, "1 --open", 0x7f00_0002, SCCRQ));
    assert!(rt;
        ends(
            alloc,
            LAC,
            "1 --open",
            NodeExit::Ok,
            b"turns 1\ntaken 0\nsent 1\n",
            OPENED_STORE
        )
    );
    assert!(rt;
        ends(
            alloc,
            LAC,
            "0",
            NodeExit::Ok,
            b"turns 0\ntaken 0\nsent 0\n",
            NEW_STORE
        )
    );
    assert!(rt;
        ends(
            alloc,
            LAC,
            "3",
            NodeExit::Ok,
            b"turns 3\ntaken 0\nsent 0\n",
            NEW_STORE
        )
    );
    Ok(())
}

#[test]
fn words_without_a_plan_touch_nothing(rt: HostRuntime) -> Result<(), Fail> {
    let alloc = rt.alloc();
    let lac = "node --role lac --number 1 --listen 127.0.0.1 --store s --turns";
    assert!(rt;
        ends(
            alloc,
            lac,
            "1 --open",
            NodeExit::Usage,
            b"usage: l2tp node\n",
            b""
        )
    );
    assert!(rt; ends(alloc, LAC, "1 --version", NodeExit::Ok, b"l2tp 0\n", b""));
    Ok(())
}

#[test]
fn each_fault_is_told_as_its_own(rt: HostRuntime) -> Result<(), Fail> {
    let alloc = rt.alloc();
    let open = "2 --open";
    assert!(rt;
        fails(
            alloc,
            open,
            (1, 0, 0, 0, 0),
            NodeExit::LinkFault,
            b"link fault\n"
        )
    );
    assert!(rt;
        fails(
            alloc,
            open,
            (2, 0, 0, 0, 0),
            NodeExit::LinkFault,
            b"link fault\n"
        )
    );
    assert!(rt;
        fails(
            alloc,
            open,
            (0, 1, 0, 0, 0),
            NodeExit::EtherFault,
            b"ether fault\n"
        )
    );
    assert!(rt;
        fails(
            alloc,
            open,
            (0, 2, 0, 0, 0),
            NodeExit::EtherFault,
            b"ether fault\n"
        )
    );
    assert!(rt;
        fails(
            alloc,
            open,
            (0, 0, 1, 0, 0),
            NodeExit::UplinkFault,
            b"uplink fault\n"
        )
    );
    assert!(rt;
        fails(
            alloc,
            open,
            (0, 0, 2, 0, 0),
            NodeExit::UplinkFault,
            b"uplink fault\n"
        )
    );
    for call in 1..=10 {
        assert!(rt;
            fails(
                alloc,
                open,
                (0, 0, 0, call, 0),
                NodeExit::StoreFault,
                b"store fault\n"
            ),
            "call {call}"
        );
    }
    assert!(rt; fails(alloc, open, (0, 0, 0, 0, 1), NodeExit::WriteFault, b""));
    Ok(())
}

/// Messages of the LAC as they wait at the LNS.
fn messages(alloc: Global, all: &[&[u8]]) -> Option<Datagrams> {
    let mut waiting = Datagrams::new(alloc);
    for bytes in all {
        let bytes = Bytes::from_slice(alloc, bytes).ok()?;
        let peer = 0x7f00_0001;
        waiting.push(Datagram { peer, bytes }).ok()?;
    }
    Some(waiting)
}

/// The LNS that has the messages and a log of which this call fails: how it ends, and what is around it then.
fn served(alloc: Global, log_fails: u64) -> Option<(NodeExit, Box<Surroundings>)> {
    let mut around = around(alloc, NONE)?;
    around.link = MemoryLink::new(alloc, messages(alloc, &MESSAGES)?, fails_at(alloc, 0));
    around.log = MemorySink::new(alloc, fails_at(alloc, log_fails));
    let exit = run_line(alloc, LNS, "7", &mut around);
    Some((exit, around))
}

/// The log has these lines then, and the rest is as that of a log that doesn't fail.
fn logs(alloc: Global, log_fails: u64, lines: &[u8]) -> bool {
    let (Some((exit, around)), Some((whole, other))) = (served(alloc, log_fails), served(alloc, 0))
    else {
        return false;
    };
    exit == NodeExit::Ok
        && whole == NodeExit::Ok
        && around.log.taken() == lines
        && around.sink.taken() == other.sink.taken()
        && around.disk.bytes() == other.disk.bytes()
        && around.link.given().len() == other.link.given().len()
}

#[test]
fn an_operator_reads_of_tunnels_and_calls(rt: HostRuntime) -> Result<(), Fail> {
    let alloc = rt.alloc();
    assert!(rt; logs(alloc, 0, LINES));
    assert!(rt; logs(alloc, 1, &LINES[36..]));
    Ok(())
}

/// The LNS over this disk, for which these messages wait, and which makes so many turns: how it ends, and what is around it then.
fn served_over(
    alloc: Global,
    disk: MemoryDisk,
    all: &[&[u8]],
    turns: &str,
) -> Option<(NodeExit, Box<Surroundings>)> {
    let mut around = Box::new(alloc, around_disk(alloc, disk, NONE)).ok()?;
    around.link = MemoryLink::new(alloc, messages(alloc, all)?, fails_at(alloc, 0));
    let exit = run_line(alloc, LNS, turns, &mut around);
    Some((exit, around))
}

/// The LNS that had the first messages is down, and starts again over its store with the others: how it ends, and what is around it then.
fn started_again(
    alloc: Global,
    before: &[&[u8]],
    behind: &[&[u8]],
) -> Option<(NodeExit, Box<Surroundings>)> {
    let disk = disk_that_fails(alloc, 0)?;
    let (exit, around) = served_over(alloc, disk, before, "2")?;
    if exit != NodeExit::Ok {
        return None;
    }
    let mut disk = Box::into_inner(around).disk;
    disk.after_crash(false);
    served_over(alloc, disk, behind, "1")
}

/// It sends these datagrams to the LAC, and nothing else.
fn gives(around: &Surroundings, wanted: &[&[u8]]) -> bool {
    let given = around.link.given();
    if given.len() != wanted.len() {
        return false;
    }
    for (is, bytes) in given.iter().zip(wanted) {
        if is.peer != 0x7f00_0001 || is.bytes.as_slice() != *bytes {
            return false;
        }
    }
    true
}

fn has_disk(around: &Surroundings, file: &[u8]) -> bool {
    around.disk.bytes() == file
}

fn logged(around: &Surroundings, lines: &[u8]) -> bool {
    around.log.taken() == lines
}

fn wrote(around: &Surroundings, text: &[u8]) -> bool {
    around.sink.taken() == text
}

#[test]
fn a_node_that_starts_again_recovers_its_tunnel_where_its_peer_can(
    rt: HostRuntime,
) -> Result<(), Fail> {
    let alloc = rt.alloc();
    let Some((exit, around)) = started_again(alloc, &OPENING, &[ANSWER]) else {
        assert!(rt; false, "it didn't run");
        return Ok(());
    };
    assert!(rt; exit == NodeExit::Ok);
    assert!(rt; gives(&around, &[ATTEMPT, CONFIRMATION]));
    assert!(rt; has_disk(&around, RECOVERED_STORE));
    assert!(rt;
        logged(
            &around,
            b"tunnel 1 restored peer 127.0.0.1 remote 7\ntunnel 1 recovered\n"
        )
    );
    assert!(rt; wrote(&around, b"turns 1\ntaken 1\nsent 2\n"));
    Ok(())
}

#[test]
fn a_node_that_starts_again_gives_its_tunnel_up_where_its_peer_can_not(
    rt: HostRuntime,
) -> Result<(), Fail> {
    let alloc = rt.alloc();
    let Some((exit, around)) = started_again(alloc, &MESSAGES[..2], &[]) else {
        assert!(rt; false, "it didn't run");
        return Ok(());
    };
    assert!(rt; exit == NodeExit::Ok);
    assert!(rt; gives(&around, &[]));
    assert!(rt; logged(&around, b"tunnel 1 lost\n"));
    assert!(rt; wrote(&around, b"turns 1\ntaken 0\nsent 0\n"));
    Ok(())
}
