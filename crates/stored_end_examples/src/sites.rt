//! The ends of the tests, each with its store and its disk.

ghost use Rattle.std.specs.Prelude.{◌≡◌, false, IfOk};
ghost use Rattle.checkpoint_journal.specs.State.{HasRoom};

use disk_core::{Disk, Fails, MemoryDisk, StopDisk};
use end_core::Given;
use end_model::{Config, Event, address_of};
use end_store::{Store, StoreStop};
use lac_core::LacGiven;
use std::alloc::Global;
use stored_ends::{StoredLac, StoredLns};
use wire_base::{Bytes, NoMemory};

/// The moment of each step, and its block of random bytes.
const MOMENT: u64 = 1000;

const BLOCK: [u8; 16] = [7; 16];

/// Memory is wanting.
pub(crate) fn wanting(_e: NoMemory) -> StoreStop {
    StoreStop::NoMemory
}

/// An empty disk, in a box, since it is large: a function that owns it inline, with ways out, is dear to prove.
fn empty_disk(alloc: Global) -> Result<Box<MemoryDisk>, NoMemory> {
    let disk = MemoryDisk::new(alloc, Bytes::new(alloc), Fails::new(alloc))?;
    Ok(Box::new(alloc, disk)?)
}

/// What an end of this number is told, without a secret. A LAC is told its LNS.
fn config(number: u8, lns: u32) -> Config {
    Config::new(number, address_of(number), lns, None, false)
}

/// The LAC 1 of a store, whose LNS is the node 2, in a box.
fn boxed_lac(alloc: Global, store: Store) -> Result<Box<StoredLac>, NoMemory>
    ensures { IfOk result (λ lac. lac.value.store ≡ store) }
{
    let config = config(1, address_of(2));
    Ok(Box::new(alloc, StoredLac::over(alloc, config, [0; 16], store))?)
}

/// The LNS 2 of a store, in a box.
fn boxed_lns(alloc: Global, store: Store) -> Result<Box<StoredLns>, NoMemory>
    ensures { IfOk result (λ lns. lns.value.store ≡ store) }
{
    Ok(Box::new(alloc, StoredLns::over(alloc, config(2, 0), store))?)
}

/// A LAC with its store and its disk, where there is the room that the store counts on.
#[derive(Drop)]
pub(crate) struct LacSite<D: Disk + Drop> {
    pub lac: Box<StoredLac>,
    pub disk: Box<D>,
    ghost room: { lac.value.store.journal.halted ≡ false → HasRoom D.reach D.calls_left lac.value.store.journal disk.value },
}

impl<D: Disk + Drop> LacSite<D> {
    /// The LAC over a store that is opened on the disk, before its start.
    pub fn open(alloc: Global, disk: Box<D>) -> Option<LacSite<D>> {
        let mut disk = disk;
        let store = Store::open(alloc, &mut *disk, 1, 1).ok()?;
        let lac = boxed_lac(alloc, store).ok()?;
        Some(LacSite { lac, disk })
    }

    pub fn start(&mut self) -> Result<Given, StoreStop> {
        self.lac.start(&mut *self.disk, MOMENT, BLOCK, [0; 16])
    }

    pub fn starts(&mut self) -> bool {
        self.start().is_ok()
    }

    pub fn step(&mut self, event: &Event) -> Result<LacGiven, StoreStop> {
        self.lac.step(&mut *self.disk, MOMENT, BLOCK, event)
    }

    /// Why a step isn't made, None where it is.
    pub fn stop_of(&mut self, event: &Event) -> Option<StoreStop> {
        self.step(event).err()
    }

    pub fn into_disk(self) -> Box<D> {
        self.disk
    }

    /// How many tunnels the LAC has, and of the first one the ids that the LAC and its peer assigned, 0 as long as none is known.
    pub fn tunnels(&self, alloc: Global) -> Result<(usize, u16, u16), StoreStop> {
        let rows = self.lac.lac().tunnel_rows(alloc).map_err(wanting)?;
        match rows.lend(0) {
            None => Ok((0, 0, 0)),
            Some(row) => Ok((rows.len(), row.local, row.remote)),
        }
    }
}

impl LacSite<MemoryDisk> {
    /// The same LAC, whose disk stops behind so many calls of the device.
    pub fn stopping(self, alloc: Global, calls: u64) -> Option<LacSite<StopDisk>> {
        let disk = StopDisk::new(Box::into_inner(self.disk), calls);
        Some(LacSite {
            lac: self.lac,
            disk: Box::new(alloc, disk).ok()?,
        })
    }
}

/// An LNS with its store and its disk, where there is the room that the store counts on.
#[derive(Drop)]
pub(crate) struct LnsSite {
    pub lns: Box<StoredLns>,
    pub disk: Box<MemoryDisk>,
    ghost room: { lns.value.store.journal.halted ≡ false → HasRoom (λ d. d.store.prepared_to) (λ d. d.store.prepared_calls) lns.value.store.journal disk.value },
}

impl LnsSite {
    /// The LNS over a store that is opened on an empty disk, before its start.
    pub fn open(alloc: Global) -> Option<LnsSite> {
        let mut disk = empty_disk(alloc).ok()?;
        let store = Store::open(alloc, &mut *disk, 2, 2).ok()?;
        let lns = boxed_lns(alloc, store).ok()?;
        Some(LnsSite { lns, disk })
    }

    pub fn starts(&mut self) -> bool {
        self.lns.start(&mut *self.disk, MOMENT, BLOCK).is_ok()
    }

    pub fn step(&mut self, event: &Event) -> Result<Given, StoreStop> {
        self.lns.step(&mut *self.disk, MOMENT, BLOCK, event)
    }
}

/// The LAC, started over an empty disk.
pub(crate) fn started_lac(alloc: Global) -> Option<LacSite<MemoryDisk>> {
    let mut lac = LacSite::open(alloc, empty_disk(alloc).ok()?)?;
    if lac.starts() { Some(lac) } else { None }
}

/// The LNS, started over an empty disk.
pub(crate) fn started_lns(alloc: Global) -> Option<LnsSite> {
    let mut lns = LnsSite::open(alloc)?;
    if lns.starts() { Some(lns) } else { None }
}
