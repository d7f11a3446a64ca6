//! An LNS with its store.

ghost use Rattle.std.specs.Prelude.{◌≡◌, false, IfOk, IfErr};
ghost use Rattle.end_model.specs.Contents.{contents_of};
ghost use Rattle.end_model.specs.End.{step};
ghost use Rattle.end_model.specs.Starting.{bare_end, starts};
ghost use Rattle.end_names.specs.declared.role.Role.TheVariants as roles;
ghost use Rattle.checkpoint_journal.specs.State.{HasRoom};
ghost use Rattle.lac_core.specs.Cores.{GivesStep};
ghost use Rattle.stored_ends.specs.Steps.{StepsOnDisk, OpenStops};
ghost use Rattle.stored_ends.specs.Opening.{OpensLns};

use crate::stops::{OpenStop, stops_of, unopened, unstarted};
use disk_core::Disk;
use end_model::{Config, Event};
use end_store::{OnDisk, Store, StoreStop};
use lac_core::Given;
use lns_core::Lns;
use std::alloc::Global;
use std::marker::Model;

/// An LNS and the store of its records, on a disk that is handed to each call. Between two calls the disk is as the last one left it.
#[derive(Drop)]
pub struct StoredLns {
    lns: Lns,
    store: Store,
}

impl Model for StoredLns {
    ghost use Rattle.stored_ends.specs.Steps.{LnsStored};

    ghost Value = { LnsStored };

    ghost view = { λ s. record { lns = s.lns; store = s.store } };
}

impl StoredLns {
    /// The LNS of a store that was opened, as a fall leaves it: it has no tunnel yet, and draws above the ceilings of the store's book.
    /// `start` is its first step. It takes no memory.
    pub fn over(alloc: Global, config: Config, store: Store) -> StoredLns
        ensures { result ≡ record { lns = bare_end roles.Lns config store.kept; store = store } }
    {
        let mut lns = Lns::new(alloc, config);
        lns.fall(store.book());
        StoredLns { lns, store }
    }

    /// Opens the LNS with this configuration over a disk: its store, and then the LNS over the store's book, which starts at a moment in
    /// milliseconds with a block of random bytes. It gives what the start gave. A file of at most 33 bytes whose first one isn't an open
    /// gate is made new. Whatever comes of it, what may be found on the disk opens with the book from before, or with the first few records
    /// of the start behind it, once the file is made.
    pub fn open<D: Disk>(
        alloc: Global,
        disk: &mut D,
        config: Config,
        moment: u64,
        block: [u8; 16],
    ) -> Result<(StoredLns, Given), OpenStop>
        ensures opened { IfOk result (λ r. OpensLns D.holds D.reach D.calls_left D.faults config moment block disk.old disk.new r.0 r.1) }
        ensures stops { IfErr result (OpenStops D.holds D.reach D.calls_left D.faults 2 config.number (λ k. contents_of (bare_end roles.Lns config k) (starts roles.Lns config k moment block)) disk.old disk.new) }
    {
        let store = match Store::open(alloc, disk, 2, config.number) {
            Ok(store) => store,
            Err(stop) => return Err(unopened(stop)),
        };
        let mut lns = StoredLns::over(alloc, config, store);
        match lns.start(disk, moment, block) {
            Ok(given) => Ok((lns, given)),
            Err(stop) => Err(unstarted(stop)),
        }
    }

    /// The LNS starts over the store's book as `Lns::start` says. What that leaves is on the disk before it is made; where it isn't made,
    /// it is for the causes of `step`.
    pub fn start<D: Disk>(
        &mut self,
        disk: &mut D,
        moment: u64,
        block: [u8; 16],
    ) -> Result<Given, StoreStop>
        requires { self.old.store.journal.halted ≡ false → HasRoom D.reach D.calls_left self.old.store.journal disk.old }
        ensures given { GivesStep result (starts self.old.lns.role self.old.lns.config self.old.store.kept moment block) self.old.lns self.new.lns }
        ensures disk { StepsOnDisk D.holds D.reach D.calls_left D.faults (contents_of self.old.lns (starts self.old.lns.role self.old.lns.config self.old.store.kept moment block)) self.old.store self.new.store disk.old disk.new result }
    {
        if self.store.is_halted() {
            return Err(StoreStop::Halted);
        }
        let mut ledger = OnDisk {
            store: &mut self.store,
            disk,
        };
        stops_of(self.lns.start(&mut ledger, moment, block))
    }

    /// The LNS and its store, each by itself.
    pub fn into_parts(self) -> (Lns, Store)
        ensures lns { result.0 ≡ self.lns }
        ensures store { result.1 ≡ self.store }
    {
        let StoredLns { lns, store } = self;
        (lns, store)
    }

    /// The LNS, with its tunnels.
    pub fn lns(&self) -> &Lns
        ensures { result.now ≡ self.now.lns }
    {
        &self.lns
    }

    /// A step of the LNS on an event, at a moment in milliseconds, with a block of random bytes. What it leaves is on the disk before it
    /// is made. Once the disk failed it answers `Halted` and makes no step, until the store is opened again; else, where it isn't made,
    /// `StoreFull` exactly where its records pass the limit, `StoreFault` only where the disk's count of faults rose, or `NoMemory`; the
    /// LNS is as before then.
    pub fn step<D: Disk>(
        &mut self,
        disk: &mut D,
        moment: u64,
        block: [u8; 16],
        event: &Event,
    ) -> Result<Given, StoreStop>
        requires { self.old.store.journal.halted ≡ false → HasRoom D.reach D.calls_left self.old.store.journal disk.old }
        ensures given { GivesStep result (step self.old.lns moment block event.now) self.old.lns self.new.lns }
        ensures disk { StepsOnDisk D.holds D.reach D.calls_left D.faults (contents_of self.old.lns (step self.old.lns moment block event.now)) self.old.store self.new.store disk.old disk.new result }
    {
        if self.store.is_halted() {
            return Err(StoreStop::Halted);
        }
        let mut ledger = OnDisk {
            store: &mut self.store,
            disk,
        };
        stops_of(self.lns.step(&mut ledger, moment, block, event))
    }
}
