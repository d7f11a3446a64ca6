//! A node's checkpoint.

ghost use Rattle.std.specs.Prelude.{◌≡◌, Some, None, IfOk};
ghost use Rattle.std.specs.List.{AllByRecursion};
ghost use Rattle.step_ledger.specs.Committing.{IsUnmarked};
ghost use Rattle.world_model.specs.World.{commits};
ghost use Rattle.world_checkpoint.specs.Stores.{OpensTo, IsOnDisk, IsAlike, seen, stop_of, call_of, new_filed, with_armed, CommitsTo};

use crate::commits::{Armed, CommitStop, commit_all, cut_off};
use disk_core::SteadyDisk;
use end_store::Store;
use session_book::{Book, Record};
use std::alloc::Global;
use std::marker::Model;
use step_ledger::{BookedLedger, Ledger};
use wire_base::{Bytes, NoMemory as OutOfMemory};
use world_model::StopAt;

/// A node's checkpoint: what of it outlives a crash, and the stop that is armed.
#[derive(Drop)]
pub struct Checkpoint {
    alloc: Global,
    store: Store,
    disk: SteadyDisk,
    stop: Option<Armed>,
}

impl Model for Checkpoint {
    ghost use Rattle.world_checkpoint.specs.Stores.{Filed, IsOnDisk, filed};

    ghost Value = { Filed };

    ghost view = { λ c. filed c.stop c.store };

    ghost invariant = { λ c. IsOnDisk c.store c.disk };
}

impl Checkpoint {
    /// A checkpoint without records, and without a stop, on a disk of its own: `kind` is 1 for a LAC's and 2 for an LNS's, `number` is the
    /// node's.
    pub fn new(alloc: Global, kind: u8, number: u8) -> Result<Checkpoint, OutOfMemory>
        ensures { IfOk result (λ c. c ≡ new_filed kind number) }
    {
        let mut disk = SteadyDisk::new(alloc, Bytes::new(alloc))?;
        match Store::open(alloc, &mut disk, kind, number) {
            Ok(store) => Ok(Checkpoint {
                alloc,
                store,
                disk,
                stop: None,
            }),
            Err(_) => Err(OutOfMemory),
        }
    }

    /// What its disk holds. Opened as the journal of its node it has the checkpoint's book.
    pub fn file(&self) -> &[u8]
        ensures { OpensTo self.now.kind self.now.number self.now.known.book result.now }
    {
        self.disk.bytes()
    }

    /// Arms a stop, in place of the one before, which is reached at this call of its commit, 1 to 4.
    pub fn arm(&mut self, stop: StopAt, call: u8)
        ensures { self.new ≡ with_armed (Some stop) (Some call) self.old }
    {
        self.stop = Some(Armed { stop, call });
    }

    /// No stop is armed any more.
    pub fn disarm(&mut self)
        ensures { self.new ≡ with_armed None None self.old }
    {
        self.stop = None;
    }
}

impl Ledger for Checkpoint {
    ghost use Rattle.std.specs.Prelude.{⊤};
    ghost use Rattle.world_checkpoint.specs.Stores.{CommitsFile};

    type Stop = CommitStop;

    ghost can_commit = { λ _. ⊤ };

    ghost commits_to = { CommitsFile };

    /// Commits the records of a step: those that are in place are on the disk then, up to a stop that is armed.
    fn commit(&mut self, records: &[Record]) -> Result<(), CommitStop> {
        commit_by(
            self.alloc,
            &mut self.store,
            &mut self.disk,
            &mut self.stop,
            records,
        )
    }
}

impl BookedLedger for Checkpoint {
    ghost use Rattle.std.specs.Prelude.{⊤};

    ghost can_lend = { λ _. ⊤ };

    ghost kept = { λ c. c.known.book };

    /// The book of all records.
    fn book(&self) -> &Book {
        self.store.book()
    }
}

// Commits the records of a step up to a stop that is armed.
fn commit_by(
    alloc: Global,
    store: &mut Store,
    disk: &mut SteadyDisk,
    stop: &mut Option<Armed>,
    records: &[Record],
) -> Result<(), CommitStop>
    requires on_disk { IsOnDisk store.old disk.old }
    requires unmarked { AllByRecursion IsUnmarked records.now }
    ensures committed { CommitsTo result (commits (seen (stop_of stop.old) store.old) records.now) (seen (stop_of stop.old) store.old) (seen (stop_of stop.new) store.new) }
    ensures call { call_of stop.new ≡ call_of stop.old }
    ensures alike { IsAlike store.old store.new }
    ensures on_disk { IsOnDisk store.new disk.new }
{
    match *stop {
        None => commit_all(store, disk, records),
        Some(armed) => commit_armed(alloc, store, disk, stop, armed, records),
    }
}

// The same where this stop is armed: it is nearer then by as many commits, or reached.
fn commit_armed(
    alloc: Global,
    store: &mut Store,
    disk: &mut SteadyDisk,
    stop: &mut Option<Armed>,
    armed: Armed,
    records: &[Record],
) -> Result<(), CommitStop>
    requires on_disk { IsOnDisk store.old disk.old }
    requires unmarked { AllByRecursion IsUnmarked records.now }
    requires armed { stop.old ≡ Some armed }
    ensures committed { CommitsTo result (commits (seen (stop_of stop.old) store.old) records.now) (seen (stop_of stop.old) store.old) (seen (stop_of stop.new) store.new) }
    ensures call { call_of stop.new ≡ call_of stop.old }
    ensures alike { IsAlike store.old store.new }
    ensures on_disk { IsOnDisk store.new disk.new }
{
    let count = records.len();
    if usize::from(armed.stop.commit) <= count {
        return Err(cut_off(alloc, store, disk, armed, records));
    }
    commit_all(store, disk, records)?;
    *stop = Some(Armed {
        stop: StopAt {
            commit: armed.stop.commit - count as u8,
            kept: armed.stop.kept,
        },
        call: armed.call,
    });
    Ok(())
}
