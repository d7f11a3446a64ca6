//! A LAC and an LNS that speak to one another.

use crate::sites::{LacSite, LnsSite, started_lac, started_lns, wanting};
use disk_core::{Disk, MemoryDisk, StopDisk};
use end_model::{Event, Out, address_of};
use end_store::StoreStop;
use l2tp_datagram::Datagram;
use std::alloc::Global;
use std::mem;
use wire_base::{Bytes, Sequence};

/// Datagrams on their way to an end, in order.
type Datagrams = Sequence<Bytes>;

/// Appends what outputs send to a node.
fn push_sent(
    alloc: Global,
    sent: &mut Datagrams,
    outputs: &[Out],
    node: u8,
) -> Result<(), StoreStop> {
    for output in outputs {
        if let Out::Send { peer, bytes, .. } = output {
            if *peer == address_of(node) {
                let copy = Bytes::from_slice(alloc, bytes.as_slice()).map_err(wanting)?;
                sent.push(copy).map_err(wanting)?;
            }
        }
    }
    Ok(())
}

/// That a datagram comes from a node.
fn coming(alloc: Global, node: u8, bytes: &Bytes) -> Result<Event, StoreStop> {
    let bytes = Bytes::from_slice(alloc, bytes.as_slice()).map_err(wanting)?;
    Ok(Event::Datagram {
        peer: address_of(node),
        datagram: Datagram::read(alloc, bytes),
    })
}

/// The LAC 1 and the LNS 2, and what is on its way to each.
#[derive(Drop)]
pub(crate) struct Pair<D: Disk + Drop> {
    alloc: Global,
    pub lac: LacSite<D>,
    pub lns: LnsSite,
    pub to_lac: Datagrams,
    pub to_lns: Datagrams,
}

impl<D: Disk + Drop> Pair<D> {
    fn step_lac(&mut self, event: &Event) -> Result<(), StoreStop> {
        let given = self.lac.step(event)?;
        push_sent(self.alloc, &mut self.to_lns, given.outputs.as_slice(), 2)
    }

    fn step_lns(&mut self, event: &Event) -> Result<(), StoreStop> {
        let given = self.lns.step(event)?;
        push_sent(self.alloc, &mut self.to_lac, given.outputs.as_slice(), 1)
    }

    fn tell_lac(&mut self, bytes: &Bytes) -> Result<(), StoreStop> {
        let event = coming(self.alloc, 2, bytes)?;
        self.step_lac(&event)
    }

    fn tell_lns(&mut self, bytes: &Bytes) -> Result<(), StoreStop> {
        let event = coming(self.alloc, 1, bytes)?;
        self.step_lns(&event)
    }

    fn tell_lac_all(&mut self, datagrams: &[Bytes]) -> Result<(), StoreStop> {
        for bytes in datagrams {
            self.tell_lac(bytes)?;
        }
        Ok(())
    }

    fn tell_lns_all(&mut self, datagrams: &[Bytes]) -> Result<(), StoreStop> {
        for bytes in datagrams {
            self.tell_lns(bytes)?;
        }
        Ok(())
    }

    /// The LNS takes all that is on its way to it, and then the LAC all that is on its way to the LAC.
    fn turn(&mut self) -> Result<(), StoreStop> {
        let to_lns = mem::replace(&mut self.to_lns, Datagrams::new(self.alloc));
        self.tell_lns_all(to_lns.as_slice())?;
        let to_lac = mem::replace(&mut self.to_lac, Datagrams::new(self.alloc));
        self.tell_lac_all(to_lac.as_slice())
    }

    /// The disk of the LAC, and nothing else of the pair.
    pub fn into_lac_disk(self) -> Box<D> {
        self.lac.into_disk()
    }

    /// Whether nothing is on its way any more.
    pub fn is_quiet(&self) -> bool {
        self.to_lac.len() == 0 && self.to_lns.len() == 0
    }

    /// The first port of the LAC rings, and each end takes what the other one sends, at most 16 times.
    pub fn talk(&mut self) -> Result<(), StoreStop> {
        self.step_lac(&Event::Ring { port: 1 })?;
        for _ in 0..16 {
            if self.is_quiet() {
                return Ok(());
            }
            self.turn()?;
        }
        Ok(())
    }
}

/// This LAC, and an LNS that is started over an empty disk.
fn pair_with<D: Disk + Drop>(alloc: Global, lac: LacSite<D>) -> Option<Pair<D>> {
    Some(Pair {
        alloc,
        lac,
        lns: started_lns(alloc)?,
        to_lac: Datagrams::new(alloc),
        to_lns: Datagrams::new(alloc),
    })
}

/// Both ends, started over empty disks.
pub(crate) fn new_pair(alloc: Global) -> Option<Pair<MemoryDisk>> {
    pair_with(alloc, started_lac(alloc)?)
}

/// Both ends, started over empty disks, where that of the LAC stops behind so many calls of the device.
pub(crate) fn stopping_pair(alloc: Global, calls: u64) -> Option<Pair<StopDisk>> {
    pair_with(alloc, started_lac(alloc)?.stopping(alloc, calls)?)
}
