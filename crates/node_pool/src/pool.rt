//! The call that runs a pool.

ghost use Rattle.std.specs.Prelude.{◌≡◌, ℕ, Bool, [], false, Some, None};
ghost use Rattle.checkpoint_journal.specs.State.{HasRoom};
ghost use Rattle.end_store.specs.Stored.{IsKept};
ghost use Rattle.held_ports.specs.Around.{Around, PortCounts};
ghost use Rattle.session_workers.specs.Items.{all_parts};
ghost use Rattle.session_workers.specs.Passes.{items_of, finished_of, known_of, took_of, made_of, got_of, IsPassIn, IsOpener};
ghost use Rattle.worker_pool.specs.Tallies.{tally_of};
ghost use Rattle.pool_serving.specs.Faults.{AreBlamed};
ghost use Rattle.node_run.specs.declared.faults.NodeFault.TheVariants as node;
ghost use Rattle.node_run.specs.Steps.{store_of, IsReady};
ghost use Rattle.node_pool.specs.Exits.{PoolBlames, with_disk};
ghost use Rattle.node_pool.specs.Pools.{RanPool};

use crate::ending::pool_fault;
use crate::kept::kept_tunnels;
use disk_core::Disk;
use end_model::Role;
use held_ports::Ports;
use lac_core::LacAccess;
use locked_tunnels::KeptTunnel;
use node_run::{NodeEnd, NodeFault};
use pool_giving::Hosts;
use pool_serving::{Desk, LentGate, PoolFault, PoolServing};
use port_events::TurnFault;
use pppoe_session::Table;
use session_workers::{Gate, Pass, Shared, open_shared};
use shared_parts::{Begun, DiskHub, LacShared, LnsHub, lac_parts, lns_parts};
use std::alloc::Global;
use std::marker::Brand;
use std::sync::Wait;
use std::thread::Threads;
use step_hub::Hub;
use stored_ends::{StoredLac, StoredLns};
use worker_pool::{Tally, open_pool, pool_run};

/// What a pool leaves: why it ended early, what became of the datagrams, and its disk.
#[derive(Drop)]
pub struct PoolEnd<D> {
    pub fault: Option<NodeFault>,
    pub tally: Tally,
    pub disk: D,
}

/// What a run over a hub leaves: why it stopped, what became of the datagrams, and the hub.
#[derive(Drop)]
struct HubRan<H: Hub> {
    fault: Option<PoolFault>,
    tally: Tally,
    hub: H,
}

/// Runs a pool over queues that were just opened, and gives the hub back.
fn run_opened<'a, W: Threads + Wait + Sync, P: Ports, H: Hub + Send, F: Gate, G: Gate + Sync>(
    rt: &W,
    shared: Shared<H>,
    pass: Pass,
    workers: u32,
    gate: &G,
    serving: &mut PoolServing<'a, P, F>,
) -> HubRan<H>
    requires of { IsPassIn shared pass × IsOpener pass }
    requires none { (known_of pass ≡ []) × (took_of pass ≡ []) × (made_of pass ≡ []) × (got_of pass ≡ []) }
    requires all { ((items_of pass).parts ≡ all_parts) × ((finished_of pass).parts ≡ all_parts) }
    requires first { (serving.old.fault ≡ None) × (serving.old.desk.now.puts ≡ 0) }
    ensures fault { result.fault ≡ serving.new.fault }
    ensures ran { RanPool serving.new.fault serving.old.opens serving.old.turns result.tally (P.around serving.old.ports.now) (P.around serving.new.ports.now) }
    ensures blamed { AreBlamed (P.counts serving.old.ports.now) (P.counts serving.new.ports.now) serving.new.fault }
    ensures lent { (serving.new.ports.ghost_name ≡ serving.old.ports.ghost_name) × (serving.new.desk.ghost_name ≡ serving.old.desk.ghost_name) }
{
    let opened = open_pool(shared, pass);
    let (pool, mut pass) = opened;
    let tally = pool_run(rt, &pool, &mut pass, workers, gate, serving);
    HubRan {
        fault: serving.fault,
        tally,
        hub: pool.into_shared().into_hub(),
    }
}

/// Runs a pool over queues that were just opened, with a desk of an end of this kind and these hosts.
fn run_desk<W: Threads + Wait + Sync, P: Ports, H: Hub + Send, F: Gate, G: Gate + Sync>(
    rt: &W,
    shared: Shared<H>,
    pass: Pass,
    workers: u32,
    desk: &mut Desk<F>,
    gate: &G,
    turns: u64,
    opens: bool,
    ports: &mut P,
) -> HubRan<H>
    requires of { IsPassIn shared pass × IsOpener pass }
    requires none { (known_of pass ≡ []) × (took_of pass ≡ []) × (made_of pass ≡ []) × (got_of pass ≡ []) }
    requires all { ((items_of pass).parts ≡ all_parts) × ((finished_of pass).parts ≡ all_parts) }
    requires first { desk.old.puts ≡ 0 }
    ensures ran { RanPool result.fault opens turns result.tally (P.around ports.old) (P.around ports.new) }
    ensures blamed { AreBlamed (P.counts ports.old) (P.counts ports.new) result.fault }
{
    let mut serving = PoolServing {
        ports,
        desk,
        turns,
        opens,
        fault: None,
    };
    run_opened(rt, shared, pass, workers, gate, &mut serving)
}

/// Runs a pool over a hub, and gives the hub back, of which nothing is known but what its type keeps.
fn run_hub<W: Threads + Wait + Sync, P: Ports, H: Hub + Send, G: Gate + Sync>(
    rt: &W,
    alloc: Global,
    role: Role,
    lns: u32,
    kept: Vec<KeptTunnel>,
    hub: H,
    hosts: Hosts,
    workers: u32,
    gate: &G,
    turns: u64,
    opens: bool,
    ports: &mut P,
) -> HubRan<H>
    ensures ran { RanPool result.fault opens turns result.tally (P.around ports.old) (P.around ports.new) }
    ensures blamed { AreBlamed (P.counts ports.old) (P.counts ports.new) result.fault }
{
    match open_shared(alloc, role, lns, kept, hub) {
        Ok((shared, pass)) => {
            let mut desk = Desk::new(alloc, role, hosts, LentGate { gate });
            run_desk(
                rt, shared, pass, workers, &mut desk, gate, turns, opens, ports,
            )
        }
        Err(hub) => {
            let tally = no_tally();
            HubRan {
                fault: Some(TurnFault::NoMemory),
                tally,
                hub,
            }
        }
    }
}

/// Nothing was taken.
fn no_tally() -> Tally
    ensures { result ≡ tally_of [] }
{
    Tally {
        taken: 0,
        up: 0,
        dropped: 0,
    }
}

/// What an LNS knows of hosts: it has none.
fn no_hosts(alloc: Global) -> LacAccess {
    LacAccess {
        key: [0; 16],
        hosts: Table::new(alloc),
        kept: Table::new(alloc),
    }
}

/// A run that ended before anything was taken, for want of memory.
fn no_memory<D>(disk: D) -> PoolEnd<D>
    ensures ran { (opens : Bool) (turns : ℕ) (a : Around) → RanPool result.fault opens turns result.tally a a }
    ensures same { result ≡ record { fault = Some node.NoMemory; tally = tally_of []; disk = disk } }
{
    let tally = no_tally();
    PoolEnd {
        fault: Some(NodeFault::NoMemory),
        tally,
        disk,
    }
}

/// What a run over a hub on a disk leaves, once the disk is out of the hub.
fn end_hub<D: Disk, N: Begun>(ran: HubRan<DiskHub<D, N>>) -> PoolEnd<D>
    ensures ran { (opens : Bool) (turns : ℕ) (old new : Around) → RanPool ran.fault opens turns ran.tally old new → RanPool result.fault opens turns result.tally old new }
    ensures cause { (disk : ℕ) (old new : PortCounts) → disk ≡ N.begun → AreBlamed old new ran.fault → PoolBlames (with_disk disk old) (with_disk (D.faults result.disk) new) (D.holds result.disk) result.fault }
{
    let HubRan { fault, tally, hub } = ran;
    let ended = hub.end();
    let (stop, disk) = ended;
    let why = pool_fault(fault, stop);
    PoolEnd {
        fault: why,
        tally,
        disk,
    }
}

/// Runs a pool of a LAC.
fn lac_pool<
    W: Threads + Wait + Sync,
    P: Ports,
    D: Disk + Send + Drop,
    G: Gate + Sync,
    N: Begun + Send,
>(
    rt: &W,
    alloc: Global,
    lac: StoredLac,
    disk: D,
    workers: u32,
    gate: &G,
    turns: u64,
    opens: bool,
    ports: &mut P,
) -> PoolEnd<D>
    requires begun { D.faults disk ≡ N.begun }
    requires running { lac.store.journal.halted ≡ false }
    requires room { HasRoom D.reach D.calls_left lac.store.journal disk }
    requires stored { IsKept lac.store (D.holds disk) }
    ensures ran { RanPool result.fault opens turns result.tally (P.around ports.old) (P.around ports.new) }
    ensures cause { PoolBlames (with_disk (D.faults disk) (P.counts ports.old)) (with_disk (D.faults result.disk) (P.counts ports.new)) (D.holds result.disk) result.fault }
{
    let Ok((cores, shared)) = lac_parts(alloc, lac) else {
        return no_memory(disk);
    };
    let Ok(kept) = kept_tunnels(alloc, Role::Lac, cores) else {
        return no_memory(disk);
    };
    let (number, lns) = (shared.shared.config().number, shared.shared.config().lns);
    let LacShared { shared, access } = shared;
    let hub: DiskHub<D, N> = DiskHub::new(shared, disk);
    let hosts = Hosts::new(alloc, number, access);
    let ran = run_hub(
        rt,
        alloc,
        Role::Lac,
        lns,
        kept,
        hub,
        hosts,
        workers,
        gate,
        turns,
        opens,
        ports,
    );
    end_hub(ran)
}

/// Runs a pool of an LNS, which has no hosts.
fn lns_pool<
    W: Threads + Wait + Sync,
    P: Ports,
    D: Disk + Send + Drop,
    G: Gate + Sync,
    N: Begun + Send,
>(
    rt: &W,
    alloc: Global,
    lns: StoredLns,
    disk: D,
    workers: u32,
    gate: &G,
    turns: u64,
    opens: bool,
    ports: &mut P,
) -> PoolEnd<D>
    requires begun { D.faults disk ≡ N.begun }
    requires running { lns.store.journal.halted ≡ false }
    requires room { HasRoom D.reach D.calls_left lns.store.journal disk }
    requires stored { IsKept lns.store (D.holds disk) }
    ensures ran { RanPool result.fault opens turns result.tally (P.around ports.old) (P.around ports.new) }
    ensures cause { PoolBlames (with_disk (D.faults disk) (P.counts ports.old)) (with_disk (D.faults result.disk) (P.counts ports.new)) (D.holds result.disk) result.fault }
{
    let Ok((cores, shared)) = lns_parts(alloc, lns) else {
        return no_memory(disk);
    };
    let Ok(kept) = kept_tunnels(alloc, Role::Lns, cores) else {
        return no_memory(disk);
    };
    let number = shared.config().number;
    let hub: LnsHub<D, N> = LnsHub::new(shared, disk);
    let hosts = Hosts::new(alloc, number, no_hosts(alloc));
    let ran = run_hub(
        rt,
        alloc,
        Role::Lns,
        0,
        kept,
        hub,
        hosts,
        workers,
        gate,
        turns,
        opens,
        ports,
    );
    end_hub(ran)
}

/// Runs a pool: a LAC or an LNS that was opened over its disk and has made no step since, with so many workers beside the calling thread.
/// It opens a tunnel first, where `opens` says so, at a moment of its own, and then makes so many turns. A turn reads the clock, takes a
/// datagram, an Ethernet frame and a network frame, each where one waits, and lets time pass. A datagram is put for a worker, and each other
/// event is a turn of the tunnel that it is for; what is finished is collected in every turn and goes to the ports. Where no thread can be
/// made, the calling thread does the work.
///
/// It ends early with `LinkFault`, `EtherFault` or `UplinkFault` only where the count of that port rose, and then nothing more goes to any
/// port; with `StoreFault` only where the disk's count rose; with `StoreFull` only where the journal on the disk has so many records and
/// those of a turn passed the limit; and with `NoMemory`. Then nothing more is taken and put, and what was put is finished. The disk comes back with it.
pub fn node_pool<W: Threads + Wait + Sync, P: Ports, D: Disk + Send + Drop, G: Gate + Sync>(
    rt: &W,
    alloc: Global,
    end: NodeEnd,
    ports: &mut P,
    disk: D,
    workers: u32,
    turns: u64,
    opens: bool,
    gate: &G,
) -> PoolEnd<D>
    requires running { (store_of end).journal.halted ≡ false }
    requires room { IsReady D.reach D.calls_left end disk }
    requires stored { IsKept (store_of end) (D.holds disk) }
    ensures ran { RanPool result.fault opens turns result.tally (P.around ports.old) (P.around ports.new) }
    ensures cause { PoolBlames (with_disk (D.faults disk) (P.counts ports.old)) (with_disk (D.faults result.disk) (P.counts ports.new)) (D.holds result.disk) result.fault }
{
    // what the disk had counted before is the name of its hub
    match end {
        NodeEnd::Lac(lac) => lac_pool::<W, P, D, G, Brand>(
            rt, alloc, lac, disk, workers, gate, turns, opens, ports,
        ),
        NodeEnd::Lns(lns) => lns_pool::<W, P, D, G, Brand>(
            rt, alloc, lns, disk, workers, gate, turns, opens, ports,
        ),
    }
}
