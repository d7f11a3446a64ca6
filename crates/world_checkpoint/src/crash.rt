//! Stores that are opened over a disk, and records that are committed to a disk which crashes.

ghost use Rattle.std.specs.Prelude.{◌≤◌, ◌≡◌, length, IfOk, IfSome};
ghost use Rattle.std.specs.List.{AllByRecursion};
ghost use Rattle.step_ledger.specs.Committing.{IsUnmarked};
ghost use Rattle.checkpoint_journal.specs.Format.{opens};
ghost use Rattle.end_store.specs.Stored.{reads};
ghost use Rattle.world_checkpoint.specs.Stores.{IsLive, IsOf, LeavesFirst};

use checkpoint_journal::JournalOpen;
use disk_core::{Crash, Disk};
use end_store::Store;
use session_book::Record;
use std::alloc::Global;
use wire_base::NoMemory as OutOfMemory;

/// The store that opens on this disk, with the disk; None where none opens.
pub(crate) fn store_on<D: Disk + Drop>(
    alloc: Global,
    disk: D,
    kind: u8,
    number: u8,
) -> Result<Option<(Store, D)>, OutOfMemory>
    ensures book { IfSome (D.holds disk) (λ held. IfOk result (λ found. IfSome found (λ p. reads kind number held.bytes ≡ Ok p.0.kept))) }
    ensures count { IfSome (D.holds disk) (λ held. IfOk result (λ found. IfSome found (λ p. IfOk (opens kind number held.bytes) (λ contents. length contents ≡ p.0.journal.records)))) }
    ensures of { IfOk result (λ found. IfSome found (λ p. IsOf kind number p.0)) }
    ensures live { IfOk result (λ found. IfSome found (λ p. IsLive D.holds D.reach D.calls_left p.0 p.1)) }
{
    let mut disk = disk;
    match Store::open(alloc, &mut disk, kind, number) {
        Ok(store) => Ok(Some((store, disk))),
        Err(JournalOpen::NoMemory) => Err(OutOfMemory),
        Err(_) => Ok(None),
    }
}

/// Commits records, and crashes the disk. What it holds then opens with the records from before and the first few of these that are in
/// place. The disk may fail, and stop, at each of its calls; `kept` says whether the crash keeps what isn't synced.
pub(crate) fn commit_and_crash<D: Crash>(
    store: &mut Store,
    disk: &mut D,
    records: &[Record],
    kept: bool,
)
    requires live { IsLive D.Disk.holds D.Disk.reach D.Disk.calls_left store.old disk.old }
    requires spare { (length records.now ≤ store.old.spare) × (length records.now ≤ store.old.journal.spare) }
    requires unmarked { AllByRecursion IsUnmarked records.now }
    ensures { IfSome (D.Disk.holds disk.old) (λ _. IfSome (D.Disk.holds disk.new) (λ held. LeavesFirst records.now store.old held.bytes)) }
{
    let _acknowledged = store.commit(disk, records);
    disk.crash(kept);
}
