//! A node's end is opened over its disk.

ghost use Rattle.std.specs.Prelude.{◌≡◌, true, false, IfOk, IfErr};
ghost use Rattle.node_run.specs.Logs.{sunk, Grows};
ghost use Rattle.node_run.specs.Opening.{NodeOpens, StaysShut, OpenBlames, given_of_lac};
ghost use Rattle.node_run.specs.Steps.{IsReady, store_of};
ghost use Rattle.node_run.specs.declared.end.NodeEnd.TheVariants as ends;

use crate::end::NodeEnd;
use crate::logs::note_step;
use crate::outs;
use disk_core::Disk;
use end_model::Config;
use port_events::Outputs;
use port_traits::Sink;
use std::alloc::Global;
use stored_ends::{Given, LacGiven, OpenStop, StoredLac, StoredLns};
use wire_base::NoMemory;

/// Why nothing of a start goes out.
#[derive(Clone, Copy, PartialEq, Eq)]
pub enum NodeUnopened {
    /// The end wasn't opened, and this is why.
    Shut { stop: OpenStop },
    /// It was opened, and memory was wanting for what its start gives.
    Unsent,
}

/// What the start of a LAC gives to its ports.
fn lac_start(alloc: Global, lac: &StoredLac, given: Given) -> Result<Outputs, NoMemory>
    ensures { IfOk result (λ outs. outs ≡ given_of_lac lac.now given) }
{
    let given = LacGiven {
        outputs: given.outputs,
        moves: given.moves,
        reply: None,
    };
    outs::lac_outs(alloc, lac.lac(), given)
}

/// Opens a LAC.
fn open_lac<D: Disk, K: Sink>(
    alloc: Global,
    disk: &mut D,
    log: &mut K,
    config: Config,
    moment: u64,
    block: [u8; 16],
) -> Result<(StoredLac, Outputs), NodeUnopened>
    ensures opened { IfOk result (λ r. NodeOpens D.holds D.reach D.calls_left D.faults true config moment block disk.old disk.new (sunk (K.faults log.old) (K.taken log.old)) (sunk (K.faults log.new) (K.taken log.new)) (ends.Lac r.0) r.1) }
    ensures shut { IfErr result (λ why. StaysShut D.holds D.reach D.calls_left D.faults true config moment block disk.old disk.new (sunk (K.faults log.old) (K.taken log.old)) (sunk (K.faults log.new) (K.taken log.new)) why) }
{
    match StoredLac::open(alloc, disk, config, moment, block, block) {
        Err(stop) => Err(NodeUnopened::Shut { stop }),
        Ok((lac, given)) => {
            note_step(alloc, log, given.moves.as_slice(), given.outputs.as_slice());
            match lac_start(alloc, &lac, given) {
                Err(_) => Err(NodeUnopened::Unsent),
                Ok(outs) => Ok((lac, outs)),
            }
        }
    }
}

/// Opens an LNS.
fn open_lns<D: Disk, K: Sink>(
    alloc: Global,
    disk: &mut D,
    log: &mut K,
    config: Config,
    moment: u64,
    block: [u8; 16],
) -> Result<(StoredLns, Outputs), NodeUnopened>
    ensures opened { IfOk result (λ r. NodeOpens D.holds D.reach D.calls_left D.faults false config moment block disk.old disk.new (sunk (K.faults log.old) (K.taken log.old)) (sunk (K.faults log.new) (K.taken log.new)) (ends.Lns r.0) r.1) }
    ensures shut { IfErr result (λ why. StaysShut D.holds D.reach D.calls_left D.faults false config moment block disk.old disk.new (sunk (K.faults log.old) (K.taken log.old)) (sunk (K.faults log.new) (K.taken log.new)) why) }
{
    match StoredLns::open(alloc, disk, config, moment, block) {
        Err(stop) => Err(NodeUnopened::Shut { stop }),
        Ok((lns, given)) => {
            note_step(alloc, log, given.moves.as_slice(), given.outputs.as_slice());
            match outs::lns_outs(alloc, given) {
                Err(_) => Err(NodeUnopened::Unsent),
                Ok(outs) => Ok((lns, outs)),
            }
        }
    }
}

impl NodeEnd {
    /// Opens a LAC, or an LNS, with this configuration over a disk: its store, and then the end over the store's book, which starts at this
    /// moment in milliseconds with this block of 16 random bytes, with which a LAC makes its cookies too. It gives what the start gives to
    /// the ports: the openings that ask for the recovery of tunnels, LCP's requests, and a PADT to each host whose call is given up. What
    /// the start leaves is on the disk before that. Once the end is open the log is told of the tunnels that come back, or go.
    pub fn open<D: Disk, K: Sink>(
        alloc: Global,
        disk: &mut D,
        log: &mut K,
        lac: bool,
        config: Config,
        moment: u64,
        block: [u8; 16],
    ) -> Result<(NodeEnd, Outputs), NodeUnopened>
        ensures opened { IfOk result (λ r. NodeOpens D.holds D.reach D.calls_left D.faults lac config moment block disk.old disk.new (sunk (K.faults log.old) (K.taken log.old)) (sunk (K.faults log.new) (K.taken log.new)) r.0 r.1) }
        ensures running { IfOk result (λ r. (store_of r.0).journal.halted ≡ false) }
        ensures room { IfOk result (λ r. IsReady D.reach D.calls_left r.0 disk.new) }
        ensures shut { IfErr result (λ why. StaysShut D.holds D.reach D.calls_left D.faults lac config moment block disk.old disk.new (sunk (K.faults log.old) (K.taken log.old)) (sunk (K.faults log.new) (K.taken log.new)) why) }
        ensures log { Grows (sunk (K.faults log.old) (K.taken log.old)) (sunk (K.faults log.new) (K.taken log.new)) }
        ensures cause { OpenBlames (D.faults disk.old) (D.faults disk.new) result }
    {
        if lac {
            let (lac, outs) = open_lac(alloc, disk, log, config, moment, block)?;
            Ok((NodeEnd::Lac(lac), outs))
        } else {
            let (lns, outs) = open_lns(alloc, disk, log, config, moment, block)?;
            Ok((NodeEnd::Lns(lns), outs))
        }
    }
}
