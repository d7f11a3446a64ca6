//! A LAC with its store.

ghost use Rattle.std.specs.Prelude.{◌≡◌, false, IfOk, IfErr};
ghost use Rattle.end_model.specs.Access.{new_access, serves};
ghost use Rattle.end_model.specs.Starting.{bare_end, starts};
ghost use Rattle.end_names.specs.declared.role.Role.TheVariants as roles;
ghost use Rattle.end_model.specs.Contents.{contents_of};
ghost use Rattle.checkpoint_journal.specs.State.{HasRoom};
ghost use Rattle.lac_core.specs.Gives.{GivesServed, GivesStart, end_step, starts_with};
ghost use Rattle.stored_ends.specs.Steps.{StepsOnDisk, OpenStops};
ghost use Rattle.stored_ends.specs.Opening.{OpensLac};

use crate::stops::{OpenStop, stops_of, unopened, unstarted};
use disk_core::Disk;
use end_model::{Config, Event};
use end_store::{OnDisk, Store, StoreStop};
use lac_core::{Given, Lac, LacGiven};
use std::alloc::Global;
use std::marker::Model;

/// A LAC and the store of its records, on a disk that is handed to each call. Between two calls the disk is as the last one left it.
#[derive(Drop)]
pub struct StoredLac {
    lac: Lac,
    store: Store,
}

impl Model for StoredLac {
    ghost use Rattle.stored_ends.specs.Steps.{LacStored};

    ghost Value = { LacStored };

    ghost view = { λ s. record { lac = s.lac; store = s.store } };
}

impl StoredLac {
    /// The LAC of a store that was opened, as a fall leaves it: it has no tunnel and no host yet, draws above the ceilings of the store's
    /// book, and makes its cookies with this key of 16 bytes. `start` is its first step. It takes no memory.
    pub fn over(alloc: Global, config: Config, key: [u8; 16], store: Store) -> StoredLac
        ensures { result ≡ record { lac = record { end = bare_end roles.Lac config store.kept; access = new_access key }; store = store } }
    {
        let mut lac = Lac::new(alloc, config, key);
        lac.fall(key, store.book());
        StoredLac { lac, store }
    }

    /// Opens the LAC with this configuration over a disk: its store, and then the LAC over the store's book, which starts at a moment in
    /// milliseconds with a block of random bytes, and with this key of 16 bytes for its cookies. It gives what the start gave. A file of at
    /// most 33 bytes whose first one isn't an open gate is made new. Whatever comes of it, what may be found on the disk opens with the
    /// book from before, or with the first few records of the start behind it, once the file is made.
    pub fn open<D: Disk>(
        alloc: Global,
        disk: &mut D,
        config: Config,
        moment: u64,
        block: [u8; 16],
        key: [u8; 16],
    ) -> Result<(StoredLac, Given), OpenStop>
        ensures opened { IfOk result (λ r. OpensLac D.holds D.reach D.calls_left D.faults config moment block key disk.old disk.new r.0 r.1) }
        ensures stops { IfErr result (OpenStops D.holds D.reach D.calls_left D.faults 1 config.number (λ k. contents_of (bare_end roles.Lac config k) (starts roles.Lac config k moment block)) disk.old disk.new) }
    {
        let store = match Store::open(alloc, disk, 1, config.number) {
            Ok(store) => store,
            Err(stop) => return Err(unopened(stop)),
        };
        let mut lac = StoredLac::over(alloc, config, key, store);
        match lac.start(disk, moment, block, key) {
            Ok(given) => Ok((lac, given)),
            Err(stop) => Err(unstarted(stop)),
        }
    }

    /// The LAC starts over the store's book as `Lac::start` says. What that leaves is on the disk before it is made; where it isn't made,
    /// it is for the causes of `step`.
    pub fn start<D: Disk>(
        &mut self,
        disk: &mut D,
        moment: u64,
        block: [u8; 16],
        key: [u8; 16],
    ) -> Result<Given, StoreStop>
        requires { self.old.store.journal.halted ≡ false → HasRoom D.reach D.calls_left self.old.store.journal disk.old }
        ensures given { GivesStart result (starts_with self.old.lac key self.old.store.kept moment block) self.old.lac self.new.lac }
        ensures disk { StepsOnDisk D.holds D.reach D.calls_left D.faults (contents_of self.old.lac.end (end_step (starts_with self.old.lac key self.old.store.kept moment block))) self.old.store self.new.store disk.old disk.new result }
    {
        if self.store.is_halted() {
            return Err(StoreStop::Halted);
        }
        let mut ledger = OnDisk {
            store: &mut self.store,
            disk,
        };
        stops_of(self.lac.start(&mut ledger, moment, block, key))
    }

    /// The LAC and its store, each by itself.
    pub fn into_parts(self) -> (Lac, Store)
        ensures lac { result.0 ≡ self.lac }
        ensures store { result.1 ≡ self.store }
    {
        let StoredLac { lac, store } = self;
        (lac, store)
    }

    /// The LAC, with its tunnels and its hosts.
    pub fn lac(&self) -> &Lac
        ensures { result.now ≡ self.now.lac }
    {
        &self.lac
    }

    /// A step of the LAC on an event, at a moment in milliseconds, with a block of random bytes. What it leaves is on the disk before it
    /// is made. Once the disk failed it answers `Halted` and makes no step, until the store is opened again; else, where it isn't made,
    /// `StoreFull` exactly where its records pass the limit, `StoreFault` only where the disk's count of faults rose, or `NoMemory`; the
    /// LAC is as before then.
    pub fn step<D: Disk>(
        &mut self,
        disk: &mut D,
        moment: u64,
        block: [u8; 16],
        event: &Event,
    ) -> Result<LacGiven, StoreStop>
        requires { self.old.store.journal.halted ≡ false → HasRoom D.reach D.calls_left self.old.store.journal disk.old }
        ensures given { GivesServed result (serves self.old.lac moment block event.now) self.old.lac self.new.lac }
        ensures disk { StepsOnDisk D.holds D.reach D.calls_left D.faults (contents_of self.old.lac.end (end_step (serves self.old.lac moment block event.now))) self.old.store self.new.store disk.old disk.new result }
    {
        if self.store.is_halted() {
            return Err(StoreStop::Halted);
        }
        let mut ledger = OnDisk {
            store: &mut self.store,
            disk,
        };
        stops_of(self.lac.step(&mut ledger, moment, block, event))
    }
}
