//! A node, or a pool, over the system's ports and a file.

use crate::texts::VERSION;
use block_source::{generator_of_file, seeded};
use file_disk::FileDisk;
use held_ports::NodePorts;
use node_top::{NodeExit, node_top};
use node_words::{Plan, read_plan};
use pool_top::pool_top;
use port_traits::{Sink, StdSink, write_all};
use rand_chacha::ChaCha20Rng;
use real_ports::{RestingClock, StdClock, UdpLink, Watch, Watched};
use session_workers::Gate;
use std::alloc::Global;
use std::io;
use std::net::Net;
use std::sync::Wait;
use std::thread::Threads;
use stream_ports::{UnixEther, UnixUplink};
use wire_base::NoMemory;

/// Which command runs the end.
#[derive(Clone, Copy)]
pub(crate) enum Command {
    /// The calling thread alone.
    Node,
    /// With workers beside it.
    Pool,
}

/// For how many milliseconds a node may rest where nothing came.
const REST: i32 = 10;

/// And the calling thread of a pool, which gives what its workers finish to the ports when it wakes.
const POOL_REST: i32 = 1;

/// Holds no worker.
struct NoGate;

impl Gate for NoGate {
    fn before(&self, _number: u64) {}

    fn after(&self, _number: u64) {}
}

/// The status where the seed can't be read.
const SEED_FAULT: u8 = 14;

/// The Ethernet port at a path, where there is one.
fn ether_at<'a, R: Net + Drop>(
    alloc: Global,
    system: R,
    watch: &'a Watch,
    path: Option<String>,
) -> Result<Option<Watched<'a, UnixEther<R>>>, NoMemory> {
    match path {
        None => Ok(None),
        Some(path) => {
            let port = UnixEther::new(alloc, system, path)?;
            Ok(Some(watch.ether(port)))
        }
    }
}

/// The uplink at a path, where there is one.
fn uplink_at<'a, R: Net + Drop>(
    alloc: Global,
    system: R,
    watch: &'a Watch,
    path: Option<String>,
) -> Result<Option<Watched<'a, UnixUplink<R>>>, NoMemory> {
    match path {
        None => Ok(None),
        Some(path) => {
            let port = UnixUplink::new(alloc, system, path)?;
            Ok(Some(watch.uplink(port)))
        }
    }
}

/// The system's error of the last fault of the Ethernet port, where there was one.
fn ether_error<R: Net + Drop>(ether: &Option<Watched<'_, UnixEther<R>>>) -> Option<io::Error> {
    match ether {
        Some(watched) => watched.port().last_error(),
        None => None,
    }
}

/// The system's error of the last fault of the uplink, where there was one.
fn uplink_error<R: Net + Drop>(uplink: &Option<Watched<'_, UnixUplink<R>>>) -> Option<io::Error> {
    match uplink {
        Some(watched) => watched.port().last_error(),
        None => None,
    }
}

/// Tells a log, in a line, the system's words for what failed. The line is left out where the log fails, or memory is wanting for it.
fn tell_error<K: Sink>(alloc: Global, log: &mut K, error: io::Error) {
    if let Ok(line) = format!(in alloc; "system error: {error}\n") {
        let _written = write_all(log, line.as_bytes());
    }
}

/// Where the real objects are.
#[derive(Drop)]
struct Places {
    listen: u32,
    port: u16,
    store: String,
    ether: Option<String>,
    uplink: Option<String>,
}

/// Tells a log the system's words for the fault that ended a run, where there was one.
fn tell_last<K: Sink>(alloc: Global, log: &mut K, error: Option<io::Error>) {
    if let Some(error) = error {
        tell_error(alloc, log, error);
    }
}

/// Runs the words of a node over the objects at these places. Each is opened at its first call, so that words without a plan touch none. The
/// first fault of one of them ends the run, so at most one has an error of the system to tell.
fn run_node(rt: &HostRuntime, words: &[String], places: Places, generator: ChaCha20Rng) -> u8 {
    let alloc = rt.alloc();
    let watch = Watch::new();
    let Ok(mut ether) = ether_at(alloc, rt, &watch, places.ether) else {
        return NodeExit::NoMemory.status();
    };
    let Ok(mut uplink) = uplink_at(alloc, rt, &watch, places.uplink) else {
        return NodeExit::NoMemory.status();
    };
    let mut link = watch.link(UdpLink::new(rt, places.listen, places.port));
    let mut disk = FileDisk::new(rt, places.store);
    let mut clock = RestingClock::new(StdClock::new(rt), &watch, REST);
    let mut generator = generator;
    let mut sink = StdSink::new(rt.stdout());
    let mut log = StdSink::new(rt.stderr());
    let exit = node_top(
        alloc,
        words,
        VERSION,
        &mut link,
        &mut ether,
        &mut uplink,
        &mut disk,
        &mut clock,
        &mut generator,
        &mut sink,
        &mut log,
    );
    let error = disk.last_error().or(link.port().last_error());
    let error = error.or(ether_error(&ether)).or(uplink_error(&uplink));
    tell_last(alloc, &mut log, error);
    exit.status()
}

/// Runs the words of a pool over the objects at these places, which are opened and tell their errors as a node's.
fn run_pool<T: Threads + Wait + Sync>(
    rt: &HostRuntime,
    threads: &T,
    words: &[String],
    places: Places,
    generator: ChaCha20Rng,
) -> u8 {
    let alloc = rt.alloc();
    let watch = Watch::new();
    let Ok(ether) = ether_at(alloc, rt, &watch, places.ether) else {
        return NodeExit::NoMemory.status();
    };
    let Ok(up) = uplink_at(alloc, rt, &watch, places.uplink) else {
        return NodeExit::NoMemory.status();
    };
    let mut ports = NodePorts {
        alloc,
        link: watch.link(UdpLink::new(rt, places.listen, places.port)),
        ether,
        up,
        clock: RestingClock::new(StdClock::new(rt), &watch, POOL_REST),
        rng: generator,
    };
    let disk = FileDisk::new(rt, places.store);
    let mut sink = StdSink::new(rt.stdout());
    let mut log = StdSink::new(rt.stderr());
    let pooled = pool_top(
        threads, alloc, words, VERSION, &mut ports, disk, &mut sink, &mut log, &NoGate,
    );
    let error = pooled.disk.last_error().or(ports.link.port().last_error());
    let error = error
        .or(ether_error(&ports.ether))
        .or(uplink_error(&ports.up));
    tell_last(alloc, &mut log, error);
    pooled.exit.status()
}

/// Runs the words over the objects at these places.
fn run_over<T: Threads + Wait + Sync>(
    rt: &HostRuntime,
    threads: &T,
    command: Command,
    words: &[String],
    places: Places,
    generator: ChaCha20Rng,
) -> u8 {
    match command {
        Command::Node => run_node(rt, words, places, generator),
        Command::Pool => run_pool(rt, threads, words, places, generator),
    }
}

/// The line of a seed that can't be read.
const SEED_FAULT_TEXT: &[u8] = b"seed fault\n";

/// Tells that the seed can't be read; and the log why.
fn tell_seed_fault(rt: &HostRuntime, error: io::Error) -> u8 {
    let mut log = StdSink::new(rt.stderr());
    let _written = write_all(&mut log, SEED_FAULT_TEXT);
    tell_error(rt.alloc(), &mut log, error);
    let mut sink = StdSink::new(rt.stdout());
    match write_all(&mut sink, SEED_FAULT_TEXT) {
        Ok(()) => SEED_FAULT,
        Err(_) => NodeExit::WriteFault.status(),
    }
}

/// Runs the plan of the words, with a generator that is seeded by 32 bytes of the plan's file.
fn run_plan<T: Threads + Wait + Sync>(
    rt: &HostRuntime,
    threads: &T,
    command: Command,
    words: &[String],
    plan: Plan,
) -> u8 {
    let seed = match &plan.seed {
        Some(path) => path.as_str(),
        None => "/dev/urandom",
    };
    match generator_of_file(rt, seed) {
        Err(error) => tell_seed_fault(rt, error),
        Ok(generator) => {
            let places = Places {
                listen: plan.listen,
                port: plan.port,
                store: plan.store,
                ether: plan.ether,
                uplink: plan.uplink,
            };
            run_over(rt, threads, command, words, places, generator)
        }
    }
}

/// Answers words that are no plan, over objects that aren't used.
fn answer<T: Threads + Wait + Sync>(
    rt: &HostRuntime,
    threads: &T,
    command: Command,
    words: &[String],
) -> u8 {
    let places = Places {
        listen: 0,
        port: 0,
        store: String::new(rt.alloc()),
        ether: None,
        uplink: None,
    };
    run_over(rt, threads, command, words, places, seeded([0u8; 32]))
}

/// Runs the node, or the pool, that the words ask for, and gives the status of the process. The workers of a pool are made by `threads`.
pub(crate) fn run_command<T: Threads + Wait + Sync>(
    rt: &HostRuntime,
    threads: &T,
    command: Command,
    words: &[String],
) -> u8 {
    match read_plan(rt.alloc(), words) {
        Ok(plan) => run_plan(rt, threads, command, words, plan),
        Err(_) => answer(rt, threads, command, words),
    }
}
