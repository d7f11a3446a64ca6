//! A node's end.

ghost use Rattle.std.specs.Prelude.{◌≡◌, false, IfOk, OnOk, IfErr};
ghost use Rattle.checkpoint_journal.specs.State.{HasRoom};
ghost use Rattle.stored_ends.specs.Cores.{end_step};
ghost use Rattle.end_model.specs.Access.{serves};
ghost use Rattle.end_model.specs.End.{step};
ghost use Rattle.node_run.specs.Logs.{sunk, Noted};
ghost use Rattle.node_run.specs.Outs.{lac_outs, lns_outs};
ghost use Rattle.node_run.specs.declared.end.NodeEnd.TheVariants as ends;
ghost use Rattle.node_run.specs.Events.{event_of};
ghost use Rattle.node_run.specs.Steps.{IsReady, Makes, Halts, HaltNoted, outs_of, lines_by, lines_of, store_of};

use crate::events::event_of;
use crate::logs::note_step;
use crate::outs;
use disk_core::Disk;
use end_model::Event;
use end_store::StoreStop;
use port_events::Outputs;
use port_traits::Sink;
use std::alloc::Global;
use stored_ends::{StoredLac, StoredLns};

/// An end of a node: a LAC or an LNS, with its store.
#[derive(Drop)]
pub enum NodeEnd {
    Lac(StoredLac),
    Lns(StoredLns),
}

/// Why nothing of a step goes out.
#[derive(Clone, Copy, PartialEq, Eq)]
pub enum NodeStop {
    /// The step wasn't made, and this is what the store says.
    Store { stop: StoreStop },
    /// The step was made, and memory was wanting for what it gives.
    Unsent,
}

/// A step of a LAC.
fn lac_step<D: Disk, K: Sink>(
    alloc: Global,
    lac: &mut StoredLac,
    disk: &mut D,
    log: &mut K,
    moment: u64,
    block: [u8; 16],
    event: &Event,
) -> Result<Outputs, NodeStop>
    requires room { IsReady D.reach D.calls_left (ends.Lac lac.old) disk.old }
    ensures room { IsReady D.reach D.calls_left (ends.Lac lac.new) disk.new }
    ensures made { IfOk result (λ outs. Makes D.holds D.reach D.calls_left D.faults disk.old disk.new moment block event.now (ends.Lac lac.old) (ends.Lac lac.new)) }
    ensures outs { IfOk result (λ outs. outs ≡ lac_outs (serves lac.old.lac moment block event.now)) }
    ensures noted { OnOk result (Noted (lines_by (end_step (serves lac.old.lac moment block event.now))) (sunk (K.faults log.old) (K.taken log.old)) (sunk (K.faults log.new) (K.taken log.new))) }
    ensures stopped { IfErr result (λ stop. Halts D.holds D.reach D.calls_left D.faults disk.old disk.new moment block event.now stop (ends.Lac lac.old) (ends.Lac lac.new)) }
    ensures halted { IfErr result (λ stop. HaltNoted stop (lines_by (end_step (serves lac.old.lac moment block event.now))) (sunk (K.faults log.old) (K.taken log.old)) (sunk (K.faults log.new) (K.taken log.new))) }
{
    match lac.step(disk, moment, block, event) {
        Err(stop) => Err(NodeStop::Store { stop }),
        Ok(given) => {
            note_step(alloc, log, given.moves.as_slice(), given.outputs.as_slice());
            match outs::lac_outs(alloc, lac.lac(), given) {
                Err(_) => Err(NodeStop::Unsent),
                Ok(outs) => Ok(outs),
            }
        }
    }
}

/// A step of an LNS.
fn lns_step<D: Disk, K: Sink>(
    alloc: Global,
    lns: &mut StoredLns,
    disk: &mut D,
    log: &mut K,
    moment: u64,
    block: [u8; 16],
    event: &Event,
) -> Result<Outputs, NodeStop>
    requires room { IsReady D.reach D.calls_left (ends.Lns lns.old) disk.old }
    ensures room { IsReady D.reach D.calls_left (ends.Lns lns.new) disk.new }
    ensures made { IfOk result (λ outs. Makes D.holds D.reach D.calls_left D.faults disk.old disk.new moment block event.now (ends.Lns lns.old) (ends.Lns lns.new)) }
    ensures outs { IfOk result (λ outs. outs ≡ lns_outs (step lns.old.lns moment block event.now)) }
    ensures noted { OnOk result (Noted (lines_by (step lns.old.lns moment block event.now)) (sunk (K.faults log.old) (K.taken log.old)) (sunk (K.faults log.new) (K.taken log.new))) }
    ensures stopped { IfErr result (λ stop. Halts D.holds D.reach D.calls_left D.faults disk.old disk.new moment block event.now stop (ends.Lns lns.old) (ends.Lns lns.new)) }
    ensures halted { IfErr result (λ stop. HaltNoted stop (lines_by (step lns.old.lns moment block event.now)) (sunk (K.faults log.old) (K.taken log.old)) (sunk (K.faults log.new) (K.taken log.new))) }
{
    match lns.step(disk, moment, block, event) {
        Err(stop) => Err(NodeStop::Store { stop }),
        Ok(given) => {
            note_step(alloc, log, given.moves.as_slice(), given.outputs.as_slice());
            match outs::lns_outs(alloc, given) {
                Err(_) => Err(NodeStop::Unsent),
                Ok(outs) => Ok(outs),
            }
        }
    }
}

impl NodeEnd {
    /// A step on what waited, at a moment in milliseconds, with a block of random bytes. All that it leaves is on the disk before it is
    /// made. The log is told of it once it is.
    pub(crate) fn step<D: Disk, K: Sink>(
        &mut self,
        alloc: Global,
        disk: &mut D,
        log: &mut K,
        moment: u64,
        block: [u8; 16],
        event: port_events::Event,
    ) -> Result<Outputs, NodeStop>
        requires room { IsReady D.reach D.calls_left self.old disk.old }
        ensures room { IsReady D.reach D.calls_left self.new disk.new }
        ensures made { IfOk result (λ outs. Makes D.holds D.reach D.calls_left D.faults disk.old disk.new moment block (event_of event) self.old self.new) }
        ensures outs { IfOk result (λ outs. outs ≡ outs_of self.old moment block (event_of event)) }
        ensures noted { OnOk result (Noted (lines_of self.old moment block (event_of event)) (sunk (K.faults log.old) (K.taken log.old)) (sunk (K.faults log.new) (K.taken log.new))) }
        ensures stopped { IfErr result (λ stop. Halts D.holds D.reach D.calls_left D.faults disk.old disk.new moment block (event_of event) stop self.old self.new) }
        ensures halted { IfErr result (λ stop. HaltNoted stop (lines_of self.old moment block (event_of event)) (sunk (K.faults log.old) (K.taken log.old)) (sunk (K.faults log.new) (K.taken log.new))) }
    {
        let event = event_of(alloc, event);
        match self {
            NodeEnd::Lac(lac) => lac_step(alloc, lac, disk, log, moment, block, &event),
            NodeEnd::Lns(lns) => lns_step(alloc, lns, disk, log, moment, block, &event),
        }
    }
}
