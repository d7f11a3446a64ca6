//! The call that runs a node.

ghost use Rattle.std.specs.Prelude.{None, map, string_bytes};
ghost use Rattle.port_events.specs.Feeding.{given};
ghost use Rattle.port_turn.specs.Turns.{waits, asked};
ghost use Rattle.held_ports.specs.Around.{around};
ghost use Rattle.node_run.specs.Faults.{faults};
ghost use Rattle.node_run.specs.Logs.{sunk};
ghost use Rattle.node_words.specs.Helps.{asked_text, node_help_text};
ghost use Rattle.node_words.specs.Plans.{plan_of};
ghost use Rattle.node_top.specs.Runs.{RanTo};
ghost use Rattle.node_top.specs.Ends.{Tells, Finishes, EndsLog, NodeEnds};

use crate::exit::NodeExit;
use crate::running::run;
use crate::telling::{counts_text, exit_text};
use disk_core::Disk;
use node_run::{Counts, write_lines, write_lost};
use node_words::{PlanError, asks_for_help, asks_for_version, node_help, read_plan};
use port_traits::{Clock, Ether, Link, Sink, Uplink, write_all};
use rand_core::Rng;
use std::alloc::Global;

/// How `node` is used.
const USAGE: &[u8] = b"usage: l2tp node\n";

/// Writes a text, and gives the exit that goes with it, or a write fault.
pub fn tell<K: Sink>(sink: &mut K, text: &[u8], exit: NodeExit) -> NodeExit
    ensures { Tells result exit text.now (sunk (K.faults sink.old) (K.taken sink.old)) (sunk (K.faults sink.new) (K.taken sink.new)) }
{
    match write_all(sink, text) {
        Ok(()) => exit,
        Err(_) => NodeExit::WriteFault,
    }
}

/// Writes what a run comes to. Where it ended early the log has the line that tells why, too.
fn finish<K: Sink, O: Sink>(
    alloc: Global,
    sink: &mut K,
    log: &mut O,
    ran: Result<Counts, NodeExit>,
) -> NodeExit
    ensures report { Finishes ran result (sunk (K.faults sink.old) (K.taken sink.old)) (sunk (K.faults sink.new) (K.taken sink.new)) }
    ensures log { EndsLog ran (sunk (O.faults log.old) (O.taken log.old)) (sunk (O.faults log.new) (O.taken log.new)) }
{
    match ran {
        Ok(counts) => match counts_text(alloc, counts) {
            Ok(text) => tell(sink, text.as_slice(), NodeExit::Ok),
            Err(_) => NodeExit::NoMemory,
        },
        Err(exit) => match exit_text(alloc, exit) {
            Ok(text) => {
                write_lines(log, text.as_slice());
                tell(sink, text.as_slice(), exit)
            }
            Err(_) => {
                write_lost(log);
                NodeExit::NoMemory
            }
        },
    }
}

/// Runs the plan of words that ask for no text, or writes how the command is used.
fn run_words<L: Link, E: Ether, U: Uplink, D: Disk, C: Clock, R: Rng, K: Sink, O: Sink>(
    alloc: Global,
    words: &[String],
    link: &mut L,
    ether: &mut E,
    up: &mut U,
    disk: &mut D,
    clock: &mut C,
    rng: &mut R,
    sink: &mut K,
    log: &mut O,
) -> NodeExit
    ensures { NodeEnds (λ p ran left. RanTo D.holds D.reach D.calls_left D.faults p ran disk.old disk.new (sunk (O.faults log.old) (O.taken log.old)) left (around (R.stream rng.old) (C.gives clock.old) (given (L.given link.old) (E.given ether.old) (U.given up.old)) (waits (L.waiting link.old) (E.waiting ether.old) (U.waiting up.old)) (asked (L.asked link.old) (E.asked ether.old) (U.asked up.old))) (around (R.stream rng.new) (C.gives clock.new) (given (L.given link.new) (E.given ether.new) (U.given up.new)) (waits (L.waiting link.new) (E.waiting ether.new) (U.waiting up.new)) (asked (L.asked link.new) (E.asked ether.new) (U.asked up.new)))) None (plan_of (map string_bytes words.now)) result (sunk (K.faults sink.old) (K.taken sink.old)) (sunk (K.faults sink.new) (K.taken sink.new)) (sunk (O.faults log.old) (O.taken log.old)) (sunk (O.faults log.new) (O.taken log.new)) (faults (D.faults disk.old) (L.faults link.old) (E.faults ether.old) (U.faults up.old)) (faults (D.faults disk.new) (L.faults link.new) (E.faults ether.new) (U.faults up.new)) }
{
    match read_plan(alloc, words) {
        Ok(plan) => {
            let ran = run(alloc, plan, link, ether, up, disk, clock, rng, log);
            finish(alloc, sink, log, ran)
        }
        Err(PlanError::Usage) => tell(sink, USAGE, NodeExit::Usage),
        Err(PlanError::NoMemory) => NodeExit::NoMemory,
    }
}

/// Runs the node that the words ask for, of which the first is `node`: over a link, an Ethernet port and an uplink, the disk of its store,
/// a clock, and a generator of random bytes; an operator reads its log. With `--help` or `--version` among the words behind the first its
/// help, or this version, is written, and nothing else. Words that are no plan have how the command is used written.
///
/// A node reads the clock once and opens its end over the disk, at that moment and with the generator's first 16 bytes; what the start
/// gives goes out. It opens a tunnel where `--open` says so, and makes so many turns. At their end it writes how many turns it made, how
/// many datagrams, frames and network frames it took and how many datagrams it sent, from the start on, in three lines. Where it ends early
/// it writes a line that tells why; each fault is told only where the count of that object rose. How far it came is said too: whether its
/// end was opened, which steps were made and are out whole, and of the last one how much went out and at which output a port failed, or
/// that it wasn't made, and why.
///
/// The log has a line for each tunnel and each call that comes up or ends, and, last, why the node ended early. It has no say in what the
/// node does or answers, also where it fails or memory is wanting for its lines.
pub fn node_top<L: Link, E: Ether, U: Uplink, D: Disk, C: Clock, R: Rng, K: Sink, O: Sink>(
    alloc: Global,
    words: &[String],
    version: &[u8],
    link: &mut L,
    ether: &mut E,
    up: &mut U,
    disk: &mut D,
    clock: &mut C,
    rng: &mut R,
    sink: &mut K,
    log: &mut O,
) -> NodeExit
    ensures { NodeEnds (λ p ran left. RanTo D.holds D.reach D.calls_left D.faults p ran disk.old disk.new (sunk (O.faults log.old) (O.taken log.old)) left (around (R.stream rng.old) (C.gives clock.old) (given (L.given link.old) (E.given ether.old) (U.given up.old)) (waits (L.waiting link.old) (E.waiting ether.old) (U.waiting up.old)) (asked (L.asked link.old) (E.asked ether.old) (U.asked up.old))) (around (R.stream rng.new) (C.gives clock.new) (given (L.given link.new) (E.given ether.new) (U.given up.new)) (waits (L.waiting link.new) (E.waiting ether.new) (U.waiting up.new)) (asked (L.asked link.new) (E.asked ether.new) (U.asked up.new)))) (asked_text node_help_text version.now words.now) (plan_of (map string_bytes words.now)) result (sunk (K.faults sink.old) (K.taken sink.old)) (sunk (K.faults sink.new) (K.taken sink.new)) (sunk (O.faults log.old) (O.taken log.old)) (sunk (O.faults log.new) (O.taken log.new)) (faults (D.faults disk.old) (L.faults link.old) (E.faults ether.old) (U.faults up.old)) (faults (D.faults disk.new) (L.faults link.new) (E.faults ether.new) (U.faults up.new)) }
{
    if asks_for_help(words) {
        return tell(sink, node_help(), NodeExit::Ok);
    }
    if asks_for_version(words) {
        return tell(sink, version, NodeExit::Ok);
    }
    run_words(alloc, words, link, ether, up, disk, clock, rng, sink, log)
}
