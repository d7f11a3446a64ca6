//! The run of a plan.

ghost use Rattle.std.specs.Prelude.{◌≡◌, false, OnOk, IfErr};
ghost use Rattle.port_events.specs.Feeding.{given};
ghost use Rattle.port_turn.specs.Turns.{waits, asked};
ghost use Rattle.port_turn.specs.Runs.{node};
ghost use Rattle.held_ports.specs.Around.{around};
ghost use Rattle.node_words.specs.Plans.{planned};
ghost use Rattle.node_run.specs.Faults.{faults};
ghost use Rattle.node_run.specs.Logs.{sunk, Grows};
ghost use Rattle.node_run.specs.Steps.{running, store_of, IsReady, NodeSteps, NodeStops};
ghost use Rattle.node_top.specs.Runs.{config_of, of_opening, of_turn, of_serving, started_counts, RunBlames, RanTo, GivesAndServes, ServesShort};

use crate::exit::NodeExit;
use block_source::next_block;
use disk_core::Disk;
use end_model::Config;
use node_run::{
    Counts, NodeEnd, NodeFault, NodeStop, NodeUnopened, OpenStop, logs_grow, node_serve,
};
use node_words::Plan;
use port_events::{Outputs, TurnFault, give_all};
use port_traits::{Clock, Ether, Link, Sink, Uplink};
use rand_core::Rng;
use std::alloc::Global;

/// The configuration that a plan asks for.
pub fn config_of(plan: Plan) -> Config
    ensures { result ≡ config_of (planned plan) }
{
    Config::new(
        plan.number,
        plan.listen,
        plan.peer.unwrap_or(0),
        plan.secret,
        plan.hide,
    )
}

/// How a node ends whose end wasn't opened.
pub fn of_opening(why: NodeUnopened) -> NodeExit
    ensures { result ≡ of_opening why }
{
    match why {
        NodeUnopened::Shut {
            stop: OpenStop::NotJournal { at },
        } => NodeExit::NotJournal { at },
        NodeUnopened::Shut {
            stop: OpenStop::StoreFault,
        } => NodeExit::StoreFault,
        NodeUnopened::Shut {
            stop: OpenStop::StoreFull { records },
        } => NodeExit::StoreFull { records },
        NodeUnopened::Shut {
            stop: OpenStop::NoMemory,
        }
        | NodeUnopened::Unsent => NodeExit::NoMemory,
    }
}

/// How a node ends of whose start not all goes out.
pub fn of_giving(fault: TurnFault<NodeStop>) -> NodeExit
    ensures { result ≡ of_turn fault }
{
    match fault {
        TurnFault::LinkFault => NodeExit::LinkFault,
        TurnFault::EtherFault => NodeExit::EtherFault,
        TurnFault::UplinkFault => NodeExit::UplinkFault,
        TurnFault::NoMemory | TurnFault::Stopped { .. } => NodeExit::NoMemory,
    }
}

/// How a node ends of which a turn ended early.
pub fn of_serving(fault: NodeFault) -> NodeExit
    ensures { result ≡ of_serving fault }
{
    match fault {
        NodeFault::StoreFault => NodeExit::StoreFault,
        NodeFault::LinkFault => NodeExit::LinkFault,
        NodeFault::EtherFault => NodeExit::EtherFault,
        NodeFault::UplinkFault => NodeExit::UplinkFault,
        NodeFault::StoreFull { records } => NodeExit::StoreFull { records },
        NodeFault::NoMemory => NodeExit::NoMemory,
    }
}

/// What a node counts whose start gives this, before it opens a tunnel or makes a turn.
fn started_counts(outs: &Outputs) -> Counts
    ensures { result ≡ started_counts outs.now }
{
    let none = Counts {
        turns: 0,
        taken: 0,
        sent: 0,
    };
    none.with_sent(outs.as_slice())
}

/// What the start of an end gives goes out, and then the node makes its turns.
fn give_and_serve<L: Link, E: Ether, U: Uplink, D: Disk, C: Clock, R: Rng, O: Sink>(
    alloc: Global,
    end: &mut NodeEnd,
    outs: &Outputs,
    link: &mut L,
    ether: &mut E,
    up: &mut U,
    disk: &mut D,
    clock: &mut C,
    rng: &mut R,
    turns: u64,
    opens: bool,
    counts: &mut Counts,
    log: &mut O,
) -> Result<(), NodeExit>
    requires running { (store_of end.old).journal.halted ≡ false }
    requires room { IsReady D.reach D.calls_left end.old disk.old }
    ensures served { OnOk result (GivesAndServes (NodeSteps D.holds D.reach D.calls_left D.faults) opens turns outs.now (node (R.stream rng.old) (C.gives clock.old) (running end.old disk.old counts.old (sunk (O.faults log.old) (O.taken log.old))) (given (L.given link.old) (E.given ether.old) (U.given up.old)) (waits (L.waiting link.old) (E.waiting ether.old) (U.waiting up.old)) (asked (L.asked link.old) (E.asked ether.old) (U.asked up.old))) (node (R.stream rng.new) (C.gives clock.new) (running end.new disk.new counts.new (sunk (O.faults log.new) (O.taken log.new))) (given (L.given link.new) (E.given ether.new) (U.given up.new)) (waits (L.waiting link.new) (E.waiting ether.new) (U.waiting up.new)) (asked (L.asked link.new) (E.asked ether.new) (U.asked up.new)))) }
    ensures short { IfErr result (λ exit. ServesShort (NodeSteps D.holds D.reach D.calls_left D.faults) (NodeStops D.holds D.reach D.calls_left D.faults) exit opens outs.now (node (R.stream rng.old) (C.gives clock.old) (running end.old disk.old counts.old (sunk (O.faults log.old) (O.taken log.old))) (given (L.given link.old) (E.given ether.old) (U.given up.old)) (waits (L.waiting link.old) (E.waiting ether.old) (U.waiting up.old)) (asked (L.asked link.old) (E.asked ether.old) (U.asked up.old))) (running end.new disk.new counts.new (sunk (O.faults log.new) (O.taken log.new))) (given (L.given link.new) (E.given ether.new) (U.given up.new)) (waits (L.waiting link.new) (E.waiting ether.new) (U.waiting up.new)) (asked (L.asked link.new) (E.asked ether.new) (U.asked up.new))) }
    ensures grows { Grows (sunk (O.faults log.old) (O.taken log.old)) (sunk (O.faults log.new) (O.taken log.new)) }
    ensures cause { RunBlames (faults (D.faults disk.old) (L.faults link.old) (E.faults ether.old) (U.faults up.old)) (faults (D.faults disk.new) (L.faults link.new) (E.faults ether.new) (U.faults up.new)) result }
{
    logs_grow();
    match give_all(outs, link, ether, up) {
        Err(fault) => Err(of_giving(fault)),
        Ok(()) => match node_serve(
            alloc, end, link, ether, up, disk, clock, rng, turns, opens, counts, log,
        ) {
            Err(fault) => Err(of_serving(fault)),
            Ok(()) => Ok(()),
        },
    }
}

/// Runs a plan: reads the clock once, opens the end of the plan over the disk, at that moment and with the generator's first block, lets
/// what its start gives go out, opens a tunnel where the plan says so, and makes the plan's turns. It gives the counts of all that.
pub(crate) fn run<L: Link, E: Ether, U: Uplink, D: Disk, C: Clock, R: Rng, O: Sink>(
    alloc: Global,
    plan: Plan,
    link: &mut L,
    ether: &mut E,
    up: &mut U,
    disk: &mut D,
    clock: &mut C,
    rng: &mut R,
    log: &mut O,
) -> Result<Counts, NodeExit>
    ensures ran { RanTo D.holds D.reach D.calls_left D.faults (planned plan) result disk.old disk.new (sunk (O.faults log.old) (O.taken log.old)) (sunk (O.faults log.new) (O.taken log.new)) (around (R.stream rng.old) (C.gives clock.old) (given (L.given link.old) (E.given ether.old) (U.given up.old)) (waits (L.waiting link.old) (E.waiting ether.old) (U.waiting up.old)) (asked (L.asked link.old) (E.asked ether.old) (U.asked up.old))) (around (R.stream rng.new) (C.gives clock.new) (given (L.given link.new) (E.given ether.new) (U.given up.new)) (waits (L.waiting link.new) (E.waiting ether.new) (U.waiting up.new)) (asked (L.asked link.new) (E.asked ether.new) (U.asked up.new))) }
    ensures grows { Grows (sunk (O.faults log.old) (O.taken log.old)) (sunk (O.faults log.new) (O.taken log.new)) }
    ensures cause { RunBlames (faults (D.faults disk.old) (L.faults link.old) (E.faults ether.old) (U.faults up.old)) (faults (D.faults disk.new) (L.faults link.new) (E.faults ether.new) (U.faults up.new)) result }
{
    logs_grow();
    let moment = clock.now();
    let block = next_block(rng);
    let lac = plan.lac;
    let turns = plan.turns;
    let opens = plan.opens;
    match NodeEnd::open(alloc, disk, log, lac, config_of(plan), moment, block) {
        Err(why) => Err(of_opening(why)),
        Ok((end, outs)) => {
            let mut end = end;
            let mut counts = started_counts(&outs);
            match give_and_serve(
                alloc,
                &mut end,
                &outs,
                link,
                ether,
                up,
                disk,
                clock,
                rng,
                turns,
                opens,
                &mut counts,
                log,
            ) {
                Err(exit) => Err(exit),
                Ok(()) => Ok(counts),
            }
        }
    }
}
