//! Pools over ports in memory.

use block_source::seeded;
use disk_core::{Disk, Fails, MemoryDisk};
use held_ports::NodePorts;
use memory_ports::{ManualClock, MemoryEther, MemoryLink, MemoryUplink, Moments};
use node_top::NodeExit;
use pool_top::{Pooled, pool_top};
use port_traits::{
    Datagram, Datagrams, Ether, Fails as PortFails, Frames, Link, LowerFrames, MemorySink, Uplink,
};
use rand_chacha::ChaCha20Rng;
use session_workers::Gate;
use std::alloc::Global;
use std::sync::Wait;
use std::thread::Threads;
use wire_base::Bytes;

/// Ports in memory, with a clock that is set and a generator with a seed.
pub type MemoryPorts = NodePorts<MemoryLink, MemoryEther, MemoryUplink, ManualClock, ChaCha20Rng>;

/// What is around a pool but its disk.
#[derive(Drop)]
pub struct Surroundings {
    pub ports: MemoryPorts,
    pub sink: MemorySink,
    pub log: MemorySink,
}

/// How a pool ended, its disk, and what is around it then.
#[derive(Drop)]
pub struct Ran {
    pub exit: NodeExit,
    pub disk: MemoryDisk,
    pub around: Box<Surroundings>,
}

// Functions without clauses: a test that calls them is proved at little cost.

fn no_fails(alloc: Global) -> PortFails {
    PortFails::new(alloc)
}

/// Which calls fail, counted from 1: of the link, the Ethernet port, the uplink and the sink. 0 is none.
pub type Failing = (u64, u64, u64, u64);

pub const NONE: Failing = (0, 0, 0, 0);

/// That this call of a port fails, as far as there is memory to say so.
fn fails_at(alloc: Global, call: u64) -> PortFails {
    match PortFails::from_slice(alloc, &[call]) {
        Ok(fails) => fails,
        Err(_) => no_fails(alloc),
    }
}

/// A disk with this image, of which this call fails, counted from 1; 0 is none.
pub fn disk_of(alloc: Global, image: &[u8], call: u64) -> Option<MemoryDisk> {
    let image = Bytes::from_slice(alloc, image).ok()?;
    let fails = Fails::from_slice(alloc, &[call]).ok()?;
    MemoryDisk::new(alloc, image, fails).ok()
}

/// A clock that gives 0 twice, and then stands at 1,000.
fn clock(alloc: Global) -> ManualClock {
    match Moments::from_slice(alloc, &[0, 0, 1_000]) {
        Ok(moments) => ManualClock::new(moments),
        Err(_) => ManualClock::new(Moments::new(alloc)),
    }
}

/// Datagrams of a peer.
pub fn datagrams(alloc: Global, peer: u32, all: &[&[u8]]) -> Option<Datagrams> {
    let mut waiting = Datagrams::new(alloc);
    for bytes in all {
        let bytes = Bytes::from_slice(alloc, bytes).ok()?;
        waiting.push(Datagram { peer, bytes }).ok()?;
    }
    Some(waiting)
}

/// Ethernet frames.
pub fn frames(alloc: Global, all: &[&[u8]]) -> Option<Frames> {
    let mut waiting = Frames::new(alloc);
    for bytes in all {
        waiting.push(Bytes::from_slice(alloc, bytes).ok()?).ok()?;
    }
    Some(waiting)
}

/// What is around a pool for which these datagrams and frames wait, where these calls fail.
pub fn around(
    alloc: Global,
    datagrams: Datagrams,
    frames: Frames,
    failing: Failing,
) -> Option<Box<Surroundings>> {
    let (link, ether, up, sink) = failing;
    Box::new(
        alloc,
        Surroundings {
            ports: NodePorts {
                alloc,
                link: MemoryLink::new(alloc, datagrams, fails_at(alloc, link)),
                ether: MemoryEther::new(alloc, frames, fails_at(alloc, ether)),
                up: MemoryUplink::new(alloc, LowerFrames::new(alloc), fails_at(alloc, up)),
                clock: clock(alloc),
                rng: seeded([7u8; 32]),
            },
            sink: MemorySink::new(alloc, fails_at(alloc, sink)),
            log: MemorySink::new(alloc, no_fails(alloc)),
        },
    )
    .ok()
}

/// The words of a line.
fn words_of(alloc: Global, line: &str) -> Option<Vec<String>> {
    let mut words: Vec<String> = Vec::new(alloc);
    for word in line.split(' ') {
        words.push(String::from_str(alloc, word).ok()?).ok()?;
    }
    Some(words)
}

/// Runs the pool of a line over these ports.
pub fn run_over<
    W: Threads + Wait + Sync,
    L: Link + Drop,
    E: Ether + Drop,
    U: Uplink + Drop,
    D: Disk + Send + Drop,
    G: Gate + Sync,
>(
    rt: &W,
    alloc: Global,
    line: &str,
    link: L,
    ether: E,
    up: U,
    disk: D,
    sink: &mut MemorySink,
    gate: &G,
) -> Option<Pooled<D>> {
    let words = words_of(alloc, line)?;
    let mut ports = NodePorts {
        alloc,
        link,
        ether,
        up,
        clock: clock(alloc),
        rng: seeded([7u8; 32]),
    };
    let mut log = MemorySink::new(alloc, no_fails(alloc));
    Some(pool_top(
        rt,
        alloc,
        words.as_slice(),
        b"l2tp 0\n",
        &mut ports,
        disk,
        sink,
        &mut log,
        gate,
    ))
}

/// Runs the pool of a line.
pub fn run<W: Threads + Wait + Sync, G: Gate + Sync>(
    rt: &W,
    alloc: Global,
    line: &str,
    disk: MemoryDisk,
    around: Box<Surroundings>,
    gate: &G,
) -> Option<Ran> {
    let mut around = around;
    let words = words_of(alloc, line)?;
    let Surroundings { ports, sink, log } = &mut *around;
    let pooled = pool_top(
        rt,
        alloc,
        words.as_slice(),
        b"l2tp 0\n",
        ports,
        disk,
        sink,
        log,
        gate,
    );
    Some(Ran {
        exit: pooled.exit,
        disk: pooled.disk,
        around,
    })
}

impl Ran {
    /// It ended so, and wrote this, and its log has the same.
    pub fn told(&self, exit: NodeExit, text: &[u8]) -> bool {
        self.exit == exit && self.around.sink.taken() == text && self.around.log.taken() == text
    }

    /// It made all its turns, and wrote this.
    pub fn wrote(&self, text: &[u8]) -> bool {
        self.exit == NodeExit::Ok && self.around.sink.taken() == text
    }

    /// How often the link was given this for this peer.
    pub fn sent(&self, peer: u32, bytes: &[u8]) -> usize {
        let mut count = 0usize;
        for given in self.around.ports.link.given() {
            if given.peer == peer && given.bytes.as_slice() == bytes {
                count = count.saturating_add(1);
            }
        }
        count
    }

    /// How often the Ethernet port was given this.
    pub fn gave(&self, bytes: &[u8]) -> usize {
        let mut count = 0usize;
        for given in self.around.ports.ether.given() {
            if given.as_slice() == bytes {
                count = count.saturating_add(1);
            }
        }
        count
    }
}
