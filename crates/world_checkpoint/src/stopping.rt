//! A copy of a store that stops amid the records of a step, and what is left of it.

ghost use Rattle.std.specs.Prelude.{◌≡◌, ◌≤◌, ◌+◌, min, [], length, take, true, if◌then◌else◌, IfOk, IfSome};
ghost use Rattle.std.specs.List.{AllByRecursion};
ghost use Rattle.step_ledger.specs.Committing.{IsUnmarked};
ghost use Rattle.end_store.specs.Records.{fitting};
ghost use Rattle.world_model.specs.World.{kept_by};
ghost use Rattle.world_checkpoint.specs.Stores.{IsOnDisk, IsOnStopDisk, IsAlike, HasRoomForOne, HasMore, CutsLast};

use crate::commits::Armed;
use crate::crash::{commit_and_crash, store_on};
use checkpoint_journal::JournalRoom;
use disk_core::{Fails, MemoryDisk, SteadyDisk, StopDisk};
use end_store::{Store, StoreStop};
use session_book::{Book, Record};
use std::alloc::Global;
use wire_base::{Bytes, NoMemory as OutOfMemory};

/// How many of at most one record are in place behind a book.
#[tactic(auto, unfolding(end_store::specs::Records::fitting))]
fn in_place(book: &Book, last: &[Record]) -> u32
    requires { length last.now ≤ 1 }
    ensures { result ≡ length (fitting book.now.kept last.now) }
{
    match last {
        [next] if book.fits(next) => 1,
        _ => 0,
    }
}

/// How many records there are where the last one, if there is one, is kept, or isn't.
fn due_with(store: &Store, last: &[Record], kept: bool) -> u32
    requires { length last.now ≤ 1 }
    ensures { result ≡ min (store.now.journal.records + (if kept then length (fitting store.now.kept last.now) else 0)) 4294967295 }
{
    if kept {
        store.records().saturating_add(in_place(store.book(), last))
    } else {
        store.records()
    }
}

/// A copy of a store, on a disk of its own, which can stop. None where none opens.
fn copy_of(
    alloc: Global,
    store: &Store,
    disk: &SteadyDisk,
) -> Result<Option<(Store, StopDisk)>, OutOfMemory>
    requires { IsOnDisk store.now disk.now }
    ensures same { IfOk result (λ found. IfSome found (λ p. HasMore [] store.now p.0)) }
    ensures alike { IfOk result (λ found. IfSome found (λ p. IsAlike store.now p.0)) }
    ensures on_disk { IfOk result (λ found. IfSome found (λ p. IsOnStopDisk p.0 p.1)) }
{
    let image = Bytes::from_slice(alloc, disk.bytes())?;
    let copy = MemoryDisk::new(alloc, image, Fails::new(alloc))?;
    store_on(
        alloc,
        StopDisk::new(copy, u64::MAX),
        store.kind(),
        store.number(),
    )
}

/// Commits the records before a stop, and makes room for one more. False where the disk failed, or there is no room.
fn commit_before(
    store: &mut Store,
    disk: &mut StopDisk,
    before: &[Record],
) -> Result<bool, OutOfMemory>
    requires on_disk { IsOnStopDisk store.old disk.old }
    requires unmarked { AllByRecursion IsUnmarked before.now }
    ensures more { IfOk result (λ done. done ≡ true → HasMore before.now store.old store.new) }
    ensures alike { IfOk result (λ done. done ≡ true → IsAlike store.old store.new) }
    ensures room { IfOk result (λ done. done ≡ true → HasRoomForOne store.new) }
    ensures on_disk { IfOk result (λ done. done ≡ true → IsOnStopDisk store.new disk.new) }
{
    match store.commit_step(disk, before) {
        Ok(()) => (),
        Err(StoreStop::NoMemory) => return Err(OutOfMemory),
        Err(_) => return Ok(false),
    }
    match store.prepare(disk, 1) {
        Ok(()) => Ok(true),
        Err(JournalRoom::NoMemory) => Err(OutOfMemory),
        Err(_) => Ok(false),
    }
}

/// Stops at the last record, if there is one: the disk stops at that call of its commit and crashes. What it holds then is opened on a
/// disk of its own; None where that doesn't open with as many records as are due, by whether what isn't synced is kept.
fn stop_at(
    alloc: Global,
    store: &mut Store,
    disk: &mut StopDisk,
    armed: Armed,
    last: &[Record],
) -> Result<Option<(Store, SteadyDisk)>, OutOfMemory>
    requires on_disk { IsOnStopDisk store.old disk.old }
    requires room { HasRoomForOne store.old }
    requires one { length last.now ≤ 1 }
    requires unmarked { AllByRecursion IsUnmarked last.now }
    ensures cut { IfOk result (λ left. IfSome left (λ p. CutsLast armed.stop.kept last.now store.old p.0)) }
    ensures alike { IfOk result (λ left. IfSome left (λ p. IsAlike store.old p.0)) }
    ensures on_disk { IfOk result (λ left. IfSome left (λ p. IsOnDisk p.0 p.1)) }
{
    let due = due_with(store, last, armed.stop.kept);
    let kind = store.kind();
    let number = store.number();
    disk.stop_behind(u64::from(armed.call.saturating_sub(1)));
    commit_and_crash(store, disk, last, armed.stop.kept);
    let image = Bytes::from_slice(alloc, disk.bytes())?;
    let disk = SteadyDisk::new(alloc, image)?;
    match store_on(alloc, disk, kind, number)? {
        Some((left, disk)) if left.records() == due => Ok(Some((left, disk))),
        _ => Ok(None),
    }
}

/// What is left of a copy that stops amid these records.
fn stop_copy(
    alloc: Global,
    store: &mut Store,
    disk: &mut StopDisk,
    armed: Armed,
    records: &[Record],
) -> Result<Option<(Store, SteadyDisk)>, OutOfMemory>
    requires on_disk { IsOnStopDisk store.old disk.old }
    requires reached { armed.stop.commit ≤ length records.now }
    requires unmarked { AllByRecursion IsUnmarked records.now }
    ensures cut { IfOk result (λ left. IfSome left (λ p. HasMore (take (kept_by armed.stop) records.now) store.old p.0)) }
    ensures alike { IfOk result (λ left. IfSome left (λ p. IsAlike store.old p.0)) }
    ensures on_disk { IfOk result (λ left. IfSome left (λ p. IsOnDisk p.0 p.1)) }
{
    let count = usize::from(armed.stop.commit);
    let (reached, _) = records.split_at(count);
    let (before, last) = reached.split_at(count.saturating_sub(1));
    if !commit_before(store, disk, before)? {
        return Ok(None);
    }
    stop_at(alloc, store, disk, armed, last)
}

/// The store that is left of this one where it stops amid these records, with its disk. It is reached on a copy, so that this one is as it
/// was where memory is wanting. None where what is left has another number of records than is due.
pub(crate) fn left_by_stop(
    alloc: Global,
    store: &Store,
    disk: &SteadyDisk,
    armed: Armed,
    records: &[Record],
) -> Result<Option<(Store, SteadyDisk)>, OutOfMemory>
    requires on_disk { IsOnDisk store.now disk.now }
    requires reached { armed.stop.commit ≤ length records.now }
    requires unmarked { AllByRecursion IsUnmarked records.now }
    ensures cut { IfOk result (λ left. IfSome left (λ p. HasMore (take (kept_by armed.stop) records.now) store.now p.0)) }
    ensures alike { IfOk result (λ left. IfSome left (λ p. IsAlike store.now p.0)) }
    ensures on_disk { IfOk result (λ left. IfSome left (λ p. IsOnDisk p.0 p.1)) }
{
    match copy_of(alloc, store, disk)? {
        Some((mut copy, mut copied)) => stop_copy(alloc, &mut copy, &mut copied, armed, records),
        None => Ok(None),
    }
}
