//! A store and its disk, lent to what commits the records of steps.

ghost use Rattle.end_store.specs.Lent.{HasRoomOnDisk, CommitsOnDisk};

use crate::store::{Store, StoreStop};
use disk_core::Disk;
use session_book::{Book, Record};
use step_ledger::{BookedLedger, Ledger};

/// A store and its disk as a ledger. Both are lent: whoever lent them has them back afterwards, as the last commit left them.
#[derive(Drop)]
pub struct OnDisk<'a, D: Disk> {
    pub store: &'a mut Store,
    pub disk: &'a mut D,
}

/// The records of a step are committed as `Store::commit_step` does it, and it stops for the same causes.
impl<'a, D: Disk> Ledger for OnDisk<'a, D> {
    type Stop = StoreStop;

    ghost can_commit = { HasRoomOnDisk D.reach D.calls_left };

    ghost commits_to = { CommitsOnDisk D.holds D.reach D.calls_left D.faults };

    fn commit(&mut self, records: &[Record]) -> Result<(), StoreStop> {
        self.store.commit_step(self.disk, records)
    }
}

/// It lends the store's book at any time. After a fault that isn't the book of the disk, until the store is opened again.
impl<'a, D: Disk> BookedLedger for OnDisk<'a, D> {
    ghost use Rattle.std.specs.Prelude.{⊤};

    ghost can_lend = { λ _. ⊤ };

    ghost kept = { λ s. s.store.now.kept };

    fn book(&self) -> &Book {
        self.store.book()
    }
}
