//! The run of a plan.

ghost use Rattle.std.specs.Prelude.{◌≡◌, false};
ghost use Rattle.port_events.specs.Feeding.{given};
ghost use Rattle.port_turn.specs.Turns.{waits, asked};
ghost use Rattle.end_store.specs.Stored.{IsKept};
ghost use Rattle.held_ports.specs.Around.{around};
ghost use Rattle.node_words.specs.Plans.{planned};
ghost use Rattle.node_run.specs.Faults.{faults};
ghost use Rattle.node_run.specs.Logs.{sunk, Grows};
ghost use Rattle.node_run.specs.Steps.{store_of, IsReady};
ghost use Rattle.pool_top.specs.Runs.{answer_of, RunBlames, RanFrom, RanTo};

use block_source::next_block;
use disk_core::Disk;
use held_ports::NodePorts;
use node_pool::{PoolEnd, node_pool};
use node_run::{NodeEnd, NodeFault, NodeStop, logs_grow};
use node_top::{NodeExit, config_of, of_giving, of_opening, of_serving};
use node_words::Plan;
use port_events::{Outputs, give_all};
use port_traits::{Clock, Ether, Link, Sink, Uplink};
use rand_core::Rng;
use session_workers::Gate;
use std::alloc::Global;
use std::sync::Wait;
use std::thread::Threads;
use worker_pool::Tally;

/// What the run of a plan leaves: what it comes to, and its disk.
#[derive(Drop)]
pub(crate) struct PlanRan<D> {
    pub(crate) ran: Result<Tally, NodeExit>,
    pub(crate) disk: D,
}

/// What a pool leaves that ended so.
fn answer_of(fault: Option<NodeFault>, tally: Tally) -> Result<Tally, NodeExit>
    ensures { result ≡ answer_of fault tally }
{
    match fault {
        None => Ok(tally),
        Some(fault) => Err(of_serving(fault)),
    }
}

/// What the start of an end gives goes out, and then a pool of it makes its turns.
fn give_and_run<
    W: Threads + Wait + Sync,
    L: Link,
    E: Ether,
    U: Uplink,
    D: Disk + Send + Drop,
    C: Clock,
    R: Rng,
    G: Gate + Sync,
>(
    rt: &W,
    alloc: Global,
    end: NodeEnd,
    outs: &Outputs,
    ports: &mut NodePorts<L, E, U, C, R>,
    disk: D,
    workers: u32,
    turns: u64,
    opens: bool,
    gate: &G,
) -> PlanRan<D>
    requires running { (store_of end).journal.halted ≡ false }
    requires room { IsReady D.reach D.calls_left end disk }
    requires stored { IsKept (store_of end) (D.holds disk) }
    ensures ran { RanFrom opens turns outs.now result.ran (D.holds result.disk) (around (R.stream ports.old.rng) (C.gives ports.old.clock) (given (L.given ports.old.link) (E.given ports.old.ether) (U.given ports.old.up)) (waits (L.waiting ports.old.link) (E.waiting ports.old.ether) (U.waiting ports.old.up)) (asked (L.asked ports.old.link) (E.asked ports.old.ether) (U.asked ports.old.up))) (around (R.stream ports.new.rng) (C.gives ports.new.clock) (given (L.given ports.new.link) (E.given ports.new.ether) (U.given ports.new.up)) (waits (L.waiting ports.new.link) (E.waiting ports.new.ether) (U.waiting ports.new.up)) (asked (L.asked ports.new.link) (E.asked ports.new.ether) (U.asked ports.new.up))) }
    ensures cause { RunBlames (faults (D.faults disk) (L.faults ports.old.link) (E.faults ports.old.ether) (U.faults ports.old.up)) (faults (D.faults result.disk) (L.faults ports.new.link) (E.faults ports.new.ether) (U.faults ports.new.up)) result.ran }
{
    match give_all::<NodeStop, L, E, U>(outs, &mut ports.link, &mut ports.ether, &mut ports.up) {
        Err(fault) => {
            let exit = of_giving(fault);
            PlanRan {
                ran: Err(exit),
                disk,
            }
        }
        Ok(()) => {
            let ended = node_pool(rt, alloc, end, ports, disk, workers, turns, opens, gate);
            let PoolEnd { fault, tally, disk } = ended;
            let ran = answer_of(fault, tally);
            PlanRan { ran, disk }
        }
    }
}

/// Runs a plan: reads the clock once, opens the end of the plan over the disk, at that moment and with the generator's first block, lets
/// what its start gives go out, and runs a pool of it, which opens a tunnel where the plan says so, and makes the plan's turns.
pub(crate) fn run<
    W: Threads + Wait + Sync,
    L: Link,
    E: Ether,
    U: Uplink,
    D: Disk + Send + Drop,
    C: Clock,
    R: Rng,
    O: Sink,
    G: Gate + Sync,
>(
    rt: &W,
    alloc: Global,
    plan: Plan,
    ports: &mut NodePorts<L, E, U, C, R>,
    disk: D,
    log: &mut O,
    gate: &G,
) -> PlanRan<D>
    ensures ran { RanTo D.holds D.reach D.calls_left D.faults (planned plan) result.ran disk result.disk (sunk (O.faults log.old) (O.taken log.old)) (sunk (O.faults log.new) (O.taken log.new)) (around (R.stream ports.old.rng) (C.gives ports.old.clock) (given (L.given ports.old.link) (E.given ports.old.ether) (U.given ports.old.up)) (waits (L.waiting ports.old.link) (E.waiting ports.old.ether) (U.waiting ports.old.up)) (asked (L.asked ports.old.link) (E.asked ports.old.ether) (U.asked ports.old.up))) (around (R.stream ports.new.rng) (C.gives ports.new.clock) (given (L.given ports.new.link) (E.given ports.new.ether) (U.given ports.new.up)) (waits (L.waiting ports.new.link) (E.waiting ports.new.ether) (U.waiting ports.new.up)) (asked (L.asked ports.new.link) (E.asked ports.new.ether) (U.asked ports.new.up))) }
    ensures grows { Grows (sunk (O.faults log.old) (O.taken log.old)) (sunk (O.faults log.new) (O.taken log.new)) }
    ensures cause { RunBlames (faults (D.faults disk) (L.faults ports.old.link) (E.faults ports.old.ether) (U.faults ports.old.up)) (faults (D.faults result.disk) (L.faults ports.new.link) (E.faults ports.new.ether) (U.faults ports.new.up)) result.ran }
{
    let mut disk = disk;
    let moment = ports.clock.now();
    let block = next_block(&mut ports.rng);
    let (lac, workers, turns, opens) = (plan.lac, plan.workers, plan.turns, plan.opens);
    match NodeEnd::open(alloc, &mut disk, log, lac, config_of(plan), moment, block) {
        Err(why) => {
            let exit = of_opening(why);
            PlanRan {
                ran: Err(exit),
                disk,
            }
        }
        Ok((end, outs)) => give_and_run(
            rt, alloc, end, &outs, ports, disk, workers, turns, opens, gate,
        ),
    }
}
