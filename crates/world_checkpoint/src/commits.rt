//! Records that are committed to a store on a disk in memory, all of them or up to a stop.

ghost use Rattle.std.specs.Prelude.{◌≡◌, ◌≤◌, ◌<◌, ◌+◌, ◌↔◌, IsTrue, length, take};
ghost use Rattle.std.specs.List.{AllByRecursion};
ghost use Rattle.step_ledger.specs.Committing.{IsUnmarked};
ghost use Rattle.world_model.specs.World.{kept_by};
ghost use Rattle.world_checkpoint.specs.Stores.{IsOnDisk, IsAlike, CommitsAll, CutsOff};

use crate::stopping::left_by_stop;
use disk_core::SteadyDisk;
use end_store::{Store, StoreStop};
use session_book::Record;
use std::alloc::Global;
use world_model::StopAt;

/// How many records a checkpoint has at most.
const LIMIT: usize = 1_048_576;

/// Why the records of a step weren't committed.
#[derive(Clone, Copy)]
pub enum CommitStop {
    /// There is no room for them: the checkpoint has so many records. It is as before.
    Full { records: u32 },
    /// A stop was reached amid them. The checkpoint has those before it, and the one that it stopped at where that is kept.
    Cut,
    /// Memory was wanting. The checkpoint is as before.
    NoMemory,
    /// A stop was reached amid them, and what the disk then held didn't open with as many records as were due. The checkpoint is as before.
    Differs,
}

/// A stop that is armed, and the call of its commit at which it is reached: 1 to 4, the first write, its sync, the write of the gate, and
/// the sync of that.
#[derive(Clone, Copy)]
pub(crate) struct Armed {
    pub(crate) stop: StopAt,
    pub(crate) call: u8,
}

/// Commits all of these.
pub(crate) fn commit_all(
    store: &mut Store,
    disk: &mut SteadyDisk,
    records: &[Record],
) -> Result<(), CommitStop>
    requires on_disk { IsOnDisk store.old disk.old }
    requires unmarked { AllByRecursion IsUnmarked records.now }
    ensures committed { CommitsAll result records.now store.old store.new }
    ensures alike { IsAlike store.old store.new }
    ensures on_disk { IsOnDisk store.new disk.new }
{
    match store.commit_step(disk, records) {
        Ok(()) => Ok(()),
        Err(StoreStop::StoreFull { records }) => Err(CommitStop::Full { records }),
        Err(StoreStop::NoMemory) => Err(CommitStop::NoMemory),
        // The disk never fails, and so the store isn't halted.
        Err(StoreStop::StoreFault | StoreStop::Halted) => unreachable!(),
    }
}

/// Whether there is no room for these.
fn is_full(store: &Store, records: &[Record]) -> bool
    ensures { IsTrue result ↔ 1048576 < store.now.journal.records + length records.now }
{
    (store.records() as usize).saturating_add(records.len()) > LIMIT
}

/// Commits the records of a step up to a stop that is reached amid them.
pub(crate) fn cut_off(
    alloc: Global,
    store: &mut Store,
    disk: &mut SteadyDisk,
    armed: Armed,
    records: &[Record],
) -> CommitStop
    requires on_disk { IsOnDisk store.old disk.old }
    requires reached { armed.stop.commit ≤ length records.now }
    requires unmarked { AllByRecursion IsUnmarked records.now }
    ensures cut { CutsOff result records.now (take (kept_by armed.stop) records.now) store.old store.new }
    ensures alike { IsAlike store.old store.new }
    ensures on_disk { IsOnDisk store.new disk.new }
{
    if is_full(store, records) {
        return CommitStop::Full {
            records: store.records(),
        };
    }
    match left_by_stop(alloc, store, disk, armed, records) {
        Ok(Some((left, its))) => {
            *store = left;
            *disk = its;
            CommitStop::Cut
        }
        Ok(None) => CommitStop::Differs,
        Err(_) => CommitStop::NoMemory,
    }
}
