use block_source::seeded;
use disk_core::{Fails, MemoryDisk};
use end_model::Config;
use memory_ports::{ManualClock, MemoryEther, MemoryUplink, Moments};
use node_run::{Counts, NodeEnd, node_serve, node_turn};
use port_traits::{Fails as PortFails, Frames, Link, LowerFrames, MemorySink};
use rand_chacha::ChaCha20Rng;
use real_ports::UdpLink;
use std::alloc::Global;
use std::marker::Model;
use std::net::Net;
use std::test::Fail;
use wire_base::Bytes;

/// The addresses of the LAC and of the LNS, and the port of both.
const LAC: u32 = 0x7f00_0001;

const LNS: u32 = 0x7f00_0002;

const PORT: u16 = 17_041;

/// A node with all that is around it but its link, which makes turns as long as none ended early.
#[derive(Drop)]
struct Node {
    runs: bool,
    end: NodeEnd,
    disk: MemoryDisk,
    ether: MemoryEther,
    up: MemoryUplink,
    clock: ManualClock,
    generator: ChaCha20Rng,
    counts: Counts,
    log: MemorySink,
}

impl Model for Node {
    ghost use Rattle.std.specs.Prelude.{◌≡◌, Bool, true, false};
    ghost use Rattle.node_run.specs.Steps.{store_of, IsReady};

    ghost Value = { Bool };

    ghost view = { λ n. n.runs };

    ghost invariant = { λ n. (n.runs ≡ true → (store_of n.end).journal.halted ≡ false) × IsReady (λ d. d.store.prepared_to) (λ d. d.store.prepared_calls) n.end n.disk };
}

/// The LAC 3 of an LNS, or an LNS 7 without one.
fn config(lac: bool) -> Config {
    if lac {
        Config::new(3, LAC, LNS, None, false)
    } else {
        Config::new(7, LNS, 0, None, false)
    }
}

/// A clock that stands still.
fn clock(alloc: Global) -> ManualClock {
    match Moments::from_slice(alloc, &[5]) {
        Ok(moments) => ManualClock::new(moments),
        Err(_) => ManualClock::new(Moments::new(alloc)),
    }
}

/// A node over a new store, with a generator of its own.
fn new_node(alloc: Global, lac: bool) -> Option<Box<Node>> {
    let mut disk = MemoryDisk::new(alloc, Bytes::new(alloc), Fails::new(alloc)).ok()?;
    let mut log = MemorySink::new(alloc, PortFails::new(alloc));
    let opened = NodeEnd::open(alloc, &mut disk, &mut log, lac, config(lac), 5, [9; 16]);
    let Ok((end, _)) = opened else {
        return None;
    };
    let node = Node {
        runs: true,
        end,
        disk,
        ether: MemoryEther::new(alloc, Frames::new(alloc), PortFails::new(alloc)),
        up: MemoryUplink::new(alloc, LowerFrames::new(alloc), PortFails::new(alloc)),
        clock: clock(alloc),
        generator: seeded([if lac { 11 } else { 13 }; 32]),
        counts: Counts {
            turns: 0,
            taken: 0,
            sent: 0,
        },
        log,
    };
    Box::new(alloc, node).ok()
}

/// A node opens a tunnel over its link, or makes a turn; nothing once one of these ended early.
fn go<L: Link>(alloc: Global, node: &mut Node, link: &mut L, opens: bool) -> bool {
    if !node.runs {
        return false;
    }
    let made = if opens {
        node_serve(
            alloc,
            &mut node.end,
            link,
            &mut node.ether,
            &mut node.up,
            &mut node.disk,
            &mut node.clock,
            &mut node.generator,
            0,
            true,
            &mut node.counts,
            &mut node.log,
        )
    } else {
        node_turn(
            alloc,
            &mut node.end,
            link,
            &mut node.ether,
            &mut node.up,
            &mut node.disk,
            &mut node.clock,
            &mut node.generator,
            &mut node.counts,
            &mut node.log,
        )
    };
    node.runs = made.is_ok();
    node.runs
}

/// Whether both nodes' logs have lines.
fn have_lines(lac: &Node, lns: &Node) -> bool {
    !lac.log.taken().is_empty() && !lns.log.taken().is_empty()
}

/// The LAC opens a tunnel over a UDP socket of the loopback, and both make turns, one after the other, until both logs have lines, but no
/// more than this often. Whether each turn was made, and the logs have lines.
fn alternate<R: Net + Copy>(
    alloc: Global,
    system: R,
    most: u32,
    lac: &mut Node,
    lns: &mut Node,
) -> bool {
    let mut near = UdpLink::new(system, LAC, PORT);
    let mut far = UdpLink::new(system, LNS, PORT);
    // the LNS is there before the LAC opens
    let mut made = go(alloc, lns, &mut far, false) && go(alloc, lac, &mut near, true);
    for _ in 0..most {
        if !made || have_lines(lac, lns) {
            break;
        }
        made = go(alloc, lns, &mut far, false) && go(alloc, lac, &mut near, false);
    }
    made && have_lines(lac, lns)
}

/// That a node's log has this line alone.
fn tells(node: &Node, line: &[u8]) -> bool {
    node.log.taken() == line
}

#[test]
fn a_lac_and_an_lns_establish_a_tunnel(rt: HostRuntime) -> Result<(), Fail> {
    let alloc = rt.alloc();
    let (Some(mut lac), Some(mut lns)) = (new_node(alloc, true), new_node(alloc, false)) else {
        assert!(rt; false, "the nodes aren't open");
        return Ok(());
    };
    assert!(rt; alternate(alloc, &rt, 100_000, &mut lac, &mut lns));
    assert!(rt; tells(&lac, b"tunnel 1 up peer 127.0.0.2 remote 1\n"));
    assert!(rt; tells(&lns, b"tunnel 1 up peer 127.0.0.1 remote 1\n"));
    Ok(())
}
