//! The call that runs a pool.

ghost use Rattle.std.specs.Prelude.{◌≡◌, None, map, string_bytes};
ghost use Rattle.port_events.specs.Feeding.{given};
ghost use Rattle.port_turn.specs.Turns.{waits, asked};
ghost use Rattle.held_ports.specs.Around.{around};
ghost use Rattle.node_run.specs.Faults.{faults};
ghost use Rattle.node_run.specs.Logs.{sunk};
ghost use Rattle.node_words.specs.Helps.{asked_text, pool_help_text};
ghost use Rattle.node_words.specs.Plans.{plan_of};
ghost use Rattle.node_top.specs.Ends.{EndsLog};
ghost use Rattle.pool_top.specs.Runs.{RanTo};
ghost use Rattle.pool_top.specs.Ends.{Finishes, PoolEnds};

use crate::running::{PlanRan, run};
use crate::telling::tally_text;
use disk_core::Disk;
use held_ports::NodePorts;
use node_run::{write_lines, write_lost};
use node_top::{NodeExit, exit_text, tell};
use node_words::{PlanError, asks_for_help, asks_for_version, pool_help, read_plan};
use port_traits::{Clock, Ether, Link, Sink, Uplink};
use rand_core::Rng;
use session_workers::Gate;
use std::alloc::Global;
use std::sync::Wait;
use std::thread::Threads;
use worker_pool::Tally;

/// How `pool` is used.
const USAGE: &[u8] = b"usage: l2tp pool\n";

/// How a pool ended, and its disk.
#[derive(Drop)]
pub struct Pooled<D> {
    pub exit: NodeExit,
    pub disk: D,
}

/// Writes what a run comes to. Where it ended early the log has the line that tells why, too.
fn finish<K: Sink, O: Sink>(
    alloc: Global,
    sink: &mut K,
    log: &mut O,
    ran: Result<Tally, NodeExit>,
) -> NodeExit
    ensures report { Finishes ran result (sunk (K.faults sink.old) (K.taken sink.old)) (sunk (K.faults sink.new) (K.taken sink.new)) }
    ensures log { EndsLog ran (sunk (O.faults log.old) (O.taken log.old)) (sunk (O.faults log.new) (O.taken log.new)) }
{
    match ran {
        Ok(tally) => match tally_text(alloc, tally) {
            Ok(text) => tell(sink, text.as_slice(), NodeExit::Ok),
            Err(_) => NodeExit::NoMemory,
        },
        Err(exit) => match exit_text(alloc, exit) {
            Ok(text) => {
                write_lines(log, text.as_slice());
                tell(sink, text.as_slice(), exit)
            }
            Err(_) => {
                write_lost(log);
                NodeExit::NoMemory
            }
        },
    }
}

/// Runs the plan of words that ask for no text, or writes how the command is used.
fn run_words<
    W: Threads + Wait + Sync,
    L: Link,
    E: Ether,
    U: Uplink,
    D: Disk + Send + Drop,
    C: Clock,
    R: Rng,
    K: Sink,
    O: Sink,
    G: Gate + Sync,
>(
    rt: &W,
    alloc: Global,
    words: &[String],
    ports: &mut NodePorts<L, E, U, C, R>,
    disk: D,
    sink: &mut K,
    log: &mut O,
    gate: &G,
) -> Pooled<D>
    ensures { PoolEnds (λ p ran left. RanTo D.holds D.reach D.calls_left D.faults p ran disk result.disk (sunk (O.faults log.old) (O.taken log.old)) left (around (R.stream ports.old.rng) (C.gives ports.old.clock) (given (L.given ports.old.link) (E.given ports.old.ether) (U.given ports.old.up)) (waits (L.waiting ports.old.link) (E.waiting ports.old.ether) (U.waiting ports.old.up)) (asked (L.asked ports.old.link) (E.asked ports.old.ether) (U.asked ports.old.up))) (around (R.stream ports.new.rng) (C.gives ports.new.clock) (given (L.given ports.new.link) (E.given ports.new.ether) (U.given ports.new.up)) (waits (L.waiting ports.new.link) (E.waiting ports.new.ether) (U.waiting ports.new.up)) (asked (L.asked ports.new.link) (E.asked ports.new.ether) (U.asked ports.new.up)))) None (plan_of (map string_bytes words.now)) result.exit disk result.disk (sunk (K.faults sink.old) (K.taken sink.old)) (sunk (K.faults sink.new) (K.taken sink.new)) (sunk (O.faults log.old) (O.taken log.old)) (sunk (O.faults log.new) (O.taken log.new)) (faults (D.faults disk) (L.faults ports.old.link) (E.faults ports.old.ether) (U.faults ports.old.up)) (faults (D.faults result.disk) (L.faults ports.new.link) (E.faults ports.new.ether) (U.faults ports.new.up)) }
{
    match read_plan(alloc, words) {
        Ok(plan) => {
            let PlanRan { ran, disk } = run(rt, alloc, plan, ports, disk, log, gate);
            let exit = finish(alloc, sink, log, ran);
            Pooled { exit, disk }
        }
        Err(PlanError::Usage) => {
            let exit = tell(sink, USAGE, NodeExit::Usage);
            Pooled { exit, disk }
        }
        Err(PlanError::NoMemory) => Pooled {
            exit: NodeExit::NoMemory,
            disk,
        },
    }
}

/// Runs the pool that the words ask for, of which the first is `pool`: over a link, an Ethernet port and an uplink, a clock and a generator
/// of random bytes, which it is lent as one value, and the disk of its store; an operator reads its log. With `--help` or `--version` among the words behind the first its
/// help, or this version, is written, and nothing else. Words that are no plan have how the command is used written. The disk comes back in
/// each case; it stands behind a lock while the workers run.
///
/// A pool reads the clock once and opens its end over the disk, at that moment and with the generator's first 16 bytes; what the start
/// gives goes out. It opens a tunnel where `--open` says so, and makes so many turns, with so many workers beside the calling thread, each
/// in a thread of its own. At their end it writes how many datagrams were taken, of how many a frame went up, and how many were dropped, in
/// three lines: what all threads counted together, the calling thread's own among it. Where it ends early it writes a line that tells why;
/// each fault is told only where the count of that object rose, and where a port failed the disk may have failed too.
///
/// The log has a line for each tunnel and each call that comes up or ends in the start, and, last, why the pool ended early. It has no say in
/// what the pool does or answers, also where it fails or memory is wanting for its lines.
pub fn pool_top<
    W: Threads + Wait + Sync,
    L: Link,
    E: Ether,
    U: Uplink,
    D: Disk + Send + Drop,
    C: Clock,
    R: Rng,
    K: Sink,
    O: Sink,
    G: Gate + Sync,
>(
    rt: &W,
    alloc: Global,
    words: &[String],
    version: &[u8],
    ports: &mut NodePorts<L, E, U, C, R>,
    disk: D,
    sink: &mut K,
    log: &mut O,
    gate: &G,
) -> Pooled<D>
    ensures { PoolEnds (λ p ran left. RanTo D.holds D.reach D.calls_left D.faults p ran disk result.disk (sunk (O.faults log.old) (O.taken log.old)) left (around (R.stream ports.old.rng) (C.gives ports.old.clock) (given (L.given ports.old.link) (E.given ports.old.ether) (U.given ports.old.up)) (waits (L.waiting ports.old.link) (E.waiting ports.old.ether) (U.waiting ports.old.up)) (asked (L.asked ports.old.link) (E.asked ports.old.ether) (U.asked ports.old.up))) (around (R.stream ports.new.rng) (C.gives ports.new.clock) (given (L.given ports.new.link) (E.given ports.new.ether) (U.given ports.new.up)) (waits (L.waiting ports.new.link) (E.waiting ports.new.ether) (U.waiting ports.new.up)) (asked (L.asked ports.new.link) (E.asked ports.new.ether) (U.asked ports.new.up)))) (asked_text pool_help_text version.now words.now) (plan_of (map string_bytes words.now)) result.exit disk result.disk (sunk (K.faults sink.old) (K.taken sink.old)) (sunk (K.faults sink.new) (K.taken sink.new)) (sunk (O.faults log.old) (O.taken log.old)) (sunk (O.faults log.new) (O.taken log.new)) (faults (D.faults disk) (L.faults ports.old.link) (E.faults ports.old.ether) (U.faults ports.old.up)) (faults (D.faults result.disk) (L.faults ports.new.link) (E.faults ports.new.ether) (U.faults ports.new.up)) }
{
    if asks_for_help(words) {
        let exit = tell(sink, pool_help(), NodeExit::Ok);
        return Pooled { exit, disk };
    }
    if asks_for_version(words) {
        let exit = tell(sink, version, NodeExit::Ok);
        return Pooled { exit, disk };
    }
    run_words(rt, alloc, words, ports, disk, sink, log, gate)
}
