//! A node's turns.

ghost use Rattle.std.specs.Prelude.{◌≡◌, true, false, option_map, OnOk, IfErr, IfSome};
ghost use Rattle.port_traits.specs.Packets.{moment, passed};
ghost use Rattle.port_events.specs.declared.giving.TurnFault.{TurnFault};
ghost use Rattle.port_events.specs.Feeding.{given};
ghost use Rattle.port_events.specs.Giving.{Blames};
ghost use Rattle.port_turn.specs.Turns.{Turn, waits, asked, Turned, Broke};
ghost use Rattle.port_turn.specs.Runs.{node, OpeningStopped};
ghost use Rattle.node_run.specs.declared.end.NodeStop.{NodeStop};
ghost use Rattle.node_run.specs.Faults.{node_fault, faults, NodeBlames, told};
ghost use Rattle.node_run.specs.Logs.{sunk, Grows};
ghost use Rattle.node_run.specs.Serves.{Begins, Serves, EndsShort};
ghost use Rattle.node_run.specs.Steps.{store_of, running, IsReady, NodeSteps, NodeStops};

use crate::end::{NodeEnd, NodeStop};
use crate::faults::{NodeFault, node_fault};
use crate::lending::{Counts, Lent};
use disk_core::Disk;
use port_events::{EndStep, TurnFault};
use port_traits::{Clock, Ether, Link, Sink, Uplink};
use port_turn::{open, serve, turn};
use rand_core::Rng;
use std::alloc::Global;

/// The answer of a turn, in the words of a node.
fn told(made: Result<(), TurnFault<NodeStop>>) -> Result<(), NodeFault>
    ensures { result ≡ told made }
{
    match made {
        Ok(()) => Ok(()),
        Err(fault) => Err(node_fault(fault)),
    }
}

/// A turn of a node: reads the clock, takes a datagram, an Ethernet frame and a network frame, each where one waits, and gives a tick. Each
/// is a step of the end with the generator's next block; what the step leaves is on the disk before anything of it goes out, and all of it
/// is out before the next port is asked. The log is told of each step that was made, before anything of it goes out. The disk is as the last
/// call on the end left it, and no earlier step answered a fault of the store.
///
/// It ends early with `StoreFault`, `LinkFault`, `EtherFault` or `UplinkFault` only where the count of that object rose; with `StoreFull`
/// where the records of a step pass the limit; and with `NoMemory`. What it did until then stays done.
pub fn node_turn<L: Link, E: Ether, U: Uplink, D: Disk, C: Clock, R: Rng, K: Sink>(
    alloc: Global,
    end: &mut NodeEnd,
    link: &mut L,
    ether: &mut E,
    up: &mut U,
    disk: &mut D,
    clock: &mut C,
    rng: &mut R,
    counts: &mut Counts,
    log: &mut K,
) -> Result<(), NodeFault>
    requires running { (store_of end.old).journal.halted ≡ false }
    requires room { IsReady D.reach D.calls_left end.old disk.old }
    ensures running { OnOk result ((store_of end.new).journal.halted ≡ false) }
    ensures room { IsReady D.reach D.calls_left end.new disk.new }
    ensures whole { OnOk result ((t : Turn) × Turned (NodeSteps D.holds D.reach D.calls_left D.faults) (R.stream rng.old) (R.stream rng.new) (running end.old disk.old counts.old (sunk (K.faults log.old) (K.taken log.old))) (running end.new disk.new counts.new (sunk (K.faults log.new) (K.taken log.new))) (given (L.given link.old) (E.given ether.old) (U.given up.old)) (given (L.given link.new) (E.given ether.new) (U.given up.new)) (waits (L.waiting link.old) (E.waiting ether.old) (U.waiting up.old)) (waits (L.waiting link.new) (E.waiting ether.new) (U.waiting up.new)) (asked (L.asked link.old) (E.asked ether.old) (U.asked up.old)) (asked (L.asked link.new) (E.asked ether.new) (U.asked up.new)) t × IfSome (C.gives clock.old) (λ moments. t.now ≡ moment moments)) }
    ensures clock { C.gives clock.new ≡ option_map passed (C.gives clock.old) }
    ensures broke { IfErr result (λ fault. (why : TurnFault NodeStop) × (fault ≡ node_fault why) × Broke (NodeSteps D.holds D.reach D.calls_left D.faults) (NodeStops D.holds D.reach D.calls_left D.faults) why (C.gives clock.old) (R.stream rng.old) (running end.old disk.old counts.old (sunk (K.faults log.old) (K.taken log.old))) (running end.new disk.new counts.new (sunk (K.faults log.new) (K.taken log.new))) (given (L.given link.old) (E.given ether.old) (U.given up.old)) (given (L.given link.new) (E.given ether.new) (U.given up.new)) (waits (L.waiting link.old) (E.waiting ether.old) (U.waiting up.old)) (waits (L.waiting link.new) (E.waiting ether.new) (U.waiting up.new)) (asked (L.asked link.old) (E.asked ether.old) (U.asked up.old)) (asked (L.asked link.new) (E.asked ether.new) (U.asked up.new))) }
    ensures log { Grows (sunk (K.faults log.old) (K.taken log.old)) (sunk (K.faults log.new) (K.taken log.new)) }
    ensures cause { NodeBlames (faults (D.faults disk.old) (L.faults link.old) (E.faults ether.old) (U.faults up.old)) (faults (D.faults disk.new) (L.faults link.new) (E.faults ether.new) (U.faults up.new)) result }
{
    let mut lent = Lent {
        alloc,
        end,
        disk,
        counts,
        log,
    };
    told(turn(alloc, &mut lent, link, ether, up, clock, rng))
}

/// Opens a tunnel, where one is to be.
fn begin<S: EndStep, L: Link, E: Ether, U: Uplink, C: Clock, R: Rng>(
    end: &mut S,
    link: &mut L,
    ether: &mut E,
    up: &mut U,
    clock: &mut C,
    rng: &mut R,
    opens: bool,
) -> Result<(), TurnFault<S::Stop>>
    requires ready { S.ready end.old }
    ensures ready { S.ready end.new }
    ensures ok { OnOk result (Begins S.steps opens (node (R.stream rng.old) (C.gives clock.old) end.old (given (L.given link.old) (E.given ether.old) (U.given up.old)) (waits (L.waiting link.old) (E.waiting ether.old) (U.waiting up.old)) (asked (L.asked link.old) (E.asked ether.old) (U.asked up.old))) (node (R.stream rng.new) (C.gives clock.new) end.new (given (L.given link.new) (E.given ether.new) (U.given up.new)) (waits (L.waiting link.new) (E.waiting ether.new) (U.waiting up.new)) (asked (L.asked link.new) (E.asked ether.new) (U.asked up.new)))) }
    ensures err { IfErr result (λ fault. (opens ≡ true) × OpeningStopped S.steps S.stops fault (node (R.stream rng.old) (C.gives clock.old) end.old (given (L.given link.old) (E.given ether.old) (U.given up.old)) (waits (L.waiting link.old) (E.waiting ether.old) (U.waiting up.old)) (asked (L.asked link.old) (E.asked ether.old) (U.asked up.old))) end.new (given (L.given link.new) (E.given ether.new) (U.given up.new)) (waits (L.waiting link.new) (E.waiting ether.new) (U.waiting up.new)) (asked (L.asked link.new) (E.asked ether.new) (U.asked up.new))) }
    ensures cause { Blames (L.faults link.old) (L.faults link.new) (E.faults ether.old) (E.faults ether.new) (U.faults up.old) (U.faults up.new) result }
{
    if opens {
        open(end, link, ether, up, clock, rng)
    } else {
        Ok(())
    }
}

/// Opens a tunnel, where one is to be, and makes so many turns.
fn serve_opened<S: EndStep, L: Link, E: Ether, U: Uplink, C: Clock, R: Rng>(
    alloc: Global,
    end: &mut S,
    link: &mut L,
    ether: &mut E,
    up: &mut U,
    clock: &mut C,
    rng: &mut R,
    turns: u64,
    opens: bool,
) -> Result<(), TurnFault<S::Stop>>
    requires ready { S.ready end.old }
    ensures ready { S.ready end.new }
    ensures ok { OnOk result (Serves S.steps opens turns (node (R.stream rng.old) (C.gives clock.old) end.old (given (L.given link.old) (E.given ether.old) (U.given up.old)) (waits (L.waiting link.old) (E.waiting ether.old) (U.waiting up.old)) (asked (L.asked link.old) (E.asked ether.old) (U.asked up.old))) (node (R.stream rng.new) (C.gives clock.new) end.new (given (L.given link.new) (E.given ether.new) (U.given up.new)) (waits (L.waiting link.new) (E.waiting ether.new) (U.waiting up.new)) (asked (L.asked link.new) (E.asked ether.new) (U.asked up.new)))) }
    ensures err { IfErr result (λ fault. EndsShort S.steps S.stops fault opens (node (R.stream rng.old) (C.gives clock.old) end.old (given (L.given link.old) (E.given ether.old) (U.given up.old)) (waits (L.waiting link.old) (E.waiting ether.old) (U.waiting up.old)) (asked (L.asked link.old) (E.asked ether.old) (U.asked up.old))) end.new (given (L.given link.new) (E.given ether.new) (U.given up.new)) (waits (L.waiting link.new) (E.waiting ether.new) (U.waiting up.new)) (asked (L.asked link.new) (E.asked ether.new) (U.asked up.new))) }
    ensures cause { Blames (L.faults link.old) (L.faults link.new) (E.faults ether.old) (E.faults ether.new) (U.faults up.old) (U.faults up.new) result }
{
    begin(end, link, ether, up, clock, rng, opens)?;
    serve(alloc, end, link, ether, up, clock, rng, turns)
}

/// A node's run: it opens a tunnel first, where `opens` says so, at a moment of its own, and then makes so many turns, one like
/// `node_turn` after the other. It ends early as a turn does.
pub fn node_serve<L: Link, E: Ether, U: Uplink, D: Disk, C: Clock, R: Rng, K: Sink>(
    alloc: Global,
    end: &mut NodeEnd,
    link: &mut L,
    ether: &mut E,
    up: &mut U,
    disk: &mut D,
    clock: &mut C,
    rng: &mut R,
    turns: u64,
    opens: bool,
    counts: &mut Counts,
    log: &mut K,
) -> Result<(), NodeFault>
    requires running { (store_of end.old).journal.halted ≡ false }
    requires room { IsReady D.reach D.calls_left end.old disk.old }
    ensures running { OnOk result ((store_of end.new).journal.halted ≡ false) }
    ensures room { IsReady D.reach D.calls_left end.new disk.new }
    ensures whole { OnOk result (Serves (NodeSteps D.holds D.reach D.calls_left D.faults) opens turns (node (R.stream rng.old) (C.gives clock.old) (running end.old disk.old counts.old (sunk (K.faults log.old) (K.taken log.old))) (given (L.given link.old) (E.given ether.old) (U.given up.old)) (waits (L.waiting link.old) (E.waiting ether.old) (U.waiting up.old)) (asked (L.asked link.old) (E.asked ether.old) (U.asked up.old))) (node (R.stream rng.new) (C.gives clock.new) (running end.new disk.new counts.new (sunk (K.faults log.new) (K.taken log.new))) (given (L.given link.new) (E.given ether.new) (U.given up.new)) (waits (L.waiting link.new) (E.waiting ether.new) (U.waiting up.new)) (asked (L.asked link.new) (E.asked ether.new) (U.asked up.new)))) }
    ensures short { IfErr result (λ fault. (why : TurnFault NodeStop) × (fault ≡ node_fault why) × EndsShort (NodeSteps D.holds D.reach D.calls_left D.faults) (NodeStops D.holds D.reach D.calls_left D.faults) why opens (node (R.stream rng.old) (C.gives clock.old) (running end.old disk.old counts.old (sunk (K.faults log.old) (K.taken log.old))) (given (L.given link.old) (E.given ether.old) (U.given up.old)) (waits (L.waiting link.old) (E.waiting ether.old) (U.waiting up.old)) (asked (L.asked link.old) (E.asked ether.old) (U.asked up.old))) (running end.new disk.new counts.new (sunk (K.faults log.new) (K.taken log.new))) (given (L.given link.new) (E.given ether.new) (U.given up.new)) (waits (L.waiting link.new) (E.waiting ether.new) (U.waiting up.new)) (asked (L.asked link.new) (E.asked ether.new) (U.asked up.new))) }
    ensures log { Grows (sunk (K.faults log.old) (K.taken log.old)) (sunk (K.faults log.new) (K.taken log.new)) }
    ensures cause { NodeBlames (faults (D.faults disk.old) (L.faults link.old) (E.faults ether.old) (U.faults up.old)) (faults (D.faults disk.new) (L.faults link.new) (E.faults ether.new) (U.faults up.new)) result }
{
    let mut lent = Lent {
        alloc,
        end,
        disk,
        counts,
        log,
    };
    told(serve_opened(alloc, &mut lent, link, ether, up, clock, rng, turns, opens))
}
