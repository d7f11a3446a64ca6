//! A store and its disk, lent to code that knows its ledger by the trait alone.

ghost use Rattle.std.specs.Prelude.{◌≡◌, ◌-◌, ℕ, List, length, OnOk, false};
ghost use Rattle.std.specs.List.{AllByRecursion};
ghost use Rattle.checkpoint_journal.specs.State.{HasRoom};
ghost use Rattle.step_ledger.specs.Committing.{IsUnmarked};
ghost use Rattle.end_store.specs.Stored.{prepared, with_records, IsStored, FindsFirst, StepHasCause};

use crate::end_store_tests::{CALL, FILE, SESSION_IDS, TUNNEL, TUNNEL_IDS, has_tunnel, holding};
use disk_core::{Disk, MemoryDisk, StopDisk};
use end_store::{OnDisk, Store, StoreStop};
use session_book::{Book, Record};
use std::alloc::Global;
use std::test::Fail;
use step_ledger::{BookedLedger, Ledger};
use wire_base::{Bytes, NoMemory};

/// Commits the records of a step to any ledger.
fn commit_to<L: Ledger>(ledger: &mut L, records: &[Record]) -> Result<(), L::Stop>
    requires ready { L.can_commit ledger.old }
    requires unmarked { AllByRecursion IsUnmarked records.now }
    ensures { L.commits_to ledger.old records.now result ledger.new }
{
    ledger.commit(records)
}

/// Lends a store and its disk for a step. What is known of the step then is known of both.
fn commit_lent<D: Disk>(
    store: &mut Store,
    disk: &mut D,
    records: &[Record],
) -> Result<(), StoreStop>
    requires room { store.old.journal.halted ≡ false → HasRoom D.reach D.calls_left store.old.journal disk.old }
    requires unmarked { AllByRecursion IsUnmarked records.now }
    ensures room { store.new.journal.halted ≡ false → HasRoom D.reach D.calls_left store.new.journal disk.new }
    ensures state { OnOk result (store.new ≡ with_records (prepared (length records.now) store.old) records.now) }
    ensures cause { StepHasCause records.now store.old store.new (D.faults disk.old) (D.faults disk.new) result }
    ensures crash { (before : List (List ℕ)) → IsStored store.old before (D.holds disk.old)
        → FindsFirst store.old before records.now (store.new.journal.records - store.old.journal.records) (D.holds disk.new) }
{
    let mut ledger = OnDisk { store, disk };
    commit_to(&mut ledger, records)
}

// Functions without clauses: a test that calls them is proved at little cost.

/// The book of the first two, three or four of both ceilings, the tunnel and its call.
fn is_book_of(book: &Book, records: u32) -> bool {
    if records > 2 {
        return has_tunnel(book, records == 4);
    }
    book.ceiling(1) == 64
        && book.ceiling(2) == 64
        && book.tunnels().is_empty()
        && book.calls().is_empty()
}

/// What a ledger answers to both ceilings, to a step without records, and to the tunnel with its call.
type Steps = (
    Result<(), StoreStop>,
    Result<(), StoreStop>,
    Result<(), StoreStop>,
);

/// A new store that is lent: its answers, and whether its book is that of the ceilings before the last step, and of all after it.
fn in_three_steps(alloc: Global, disk: &mut MemoryDisk) -> Option<(Steps, bool, bool)> {
    let mut store = Store::open(alloc, disk, 1, 1).ok()?;
    let mut ledger = OnDisk {
        store: &mut store,
        disk: &mut *disk,
    };
    let ids = commit_to(&mut ledger, &[TUNNEL_IDS, SESSION_IDS]);
    let none = commit_to(&mut ledger, &[]);
    let before = is_book_of(ledger.book(), 2);
    let last = commit_to(
        &mut ledger,
        &[Record::TunnelUp(TUNNEL), Record::CallUp(CALL)],
    );
    let after = is_book_of(store.book(), 4);
    Some(((ids, none, last), before, after))
}

/// The same records, committed without a ledger.
fn in_one_step(alloc: Global, disk: &mut MemoryDisk) -> Option<u32> {
    let mut store = Store::open(alloc, disk, 1, 1).ok()?;
    let records = [
        TUNNEL_IDS,
        SESSION_IDS,
        Record::TunnelUp(TUNNEL),
        Record::CallUp(CALL),
    ];
    store.commit_step(disk, &records).ok()?;
    Some(store.records())
}

/// The file with both ceilings and no more.
fn with_ceilings(alloc: Global) -> Result<Bytes, NoMemory> {
    let mut image = Bytes::from_slice(alloc, &FILE[..96])?;
    image.push_slice(b"C")?;
    Ok(image)
}

/// What a store that is lent answers to the tunnel with its call, and to a step without records behind it; how many records it
/// says that it has then, and its disk.
type Answers = (
    Result<(), StoreStop>,
    Result<(), StoreStop>,
    u32,
    MemoryDisk,
);

/// A store is opened of the disk, which then stops at this call of the device.
fn stopped_at(alloc: Global, disk: MemoryDisk, call: u64) -> Option<Answers> {
    let mut disk = disk;
    let mut store = Store::open(alloc, &mut disk, 1, 1).ok()?;
    let mut stopping = StopDisk::new(disk, call.saturating_sub(1));
    let mut ledger = OnDisk {
        store: &mut store,
        disk: &mut stopping,
    };
    let first = commit_to(
        &mut ledger,
        &[Record::TunnelUp(TUNNEL), Record::CallUp(CALL)],
    );
    let second = commit_lent(&mut store, &mut stopping, &[]);
    Some((first, second, store.records(), stopping.into_disk()))
}

/// The disk stops at this call, and crashes: so many records the store says that it has, and with so many the disk opens.
fn is_left(alloc: Global, call: u64, kept: bool, told: u32, found: u32) -> Result<bool, NoMemory> {
    let disk = holding(alloc, with_ceilings(alloc)?.as_slice())?;
    let Some((first, second, records, mut disk)) = stopped_at(alloc, disk, call) else {
        return Ok(false);
    };
    disk.after_crash(kept);
    let Ok(store) = Store::open(alloc, &mut disk, 1, 1) else {
        return Ok(false);
    };
    Ok(
        first == Err(StoreStop::StoreFault)
            && second == Err(StoreStop::Halted)
            && records == told
            && store.records() == found
            && is_book_of(store.book(), found),
    )
}

/// A disk that stops behind the calls of both records stops neither step.
fn takes_eight_calls(alloc: Global) -> Result<bool, NoMemory> {
    let disk = holding(alloc, with_ceilings(alloc)?.as_slice())?;
    let Some((first, second, records, disk)) = stopped_at(alloc, disk, 9) else {
        return Ok(false);
    };
    Ok(first == Ok(()) && second == Ok(()) && records == 4 && disk.bytes() == FILE)
}

#[test]
fn what_is_lent_is_as_after_a_direct_commit(rt: HostRuntime) -> Result<(), Fail> {
    let mut lent = holding(rt.alloc(), b"")?;
    let done = (Ok(()), Ok(()), Ok(()));
    assert!(rt; in_three_steps(rt.alloc(), &mut lent) == Some((done, true, true)));
    assert!(rt; lent.bytes() == FILE);
    let mut direct = holding(rt.alloc(), b"")?;
    assert!(rt; in_one_step(rt.alloc(), &mut direct) == Some(4));
    assert!(rt; direct.bytes() == lent.bytes());
    lent.after_crash(false);
    assert!(rt; lent.bytes() == FILE);
    Ok(())
}

#[test]
fn a_stop_at_each_call_leaves_the_first_few(rt: HostRuntime) -> Result<(), Fail> {
    for (call, told, lost, kept) in [
        (1, 2, 2, 2),
        (2, 2, 2, 2),
        (3, 2, 2, 3),
        (4, 2, 2, 3),
        (5, 3, 3, 3),
        (6, 3, 3, 3),
        (7, 3, 3, 4),
        (8, 3, 3, 4),
    ] {
        assert!(rt;
            is_left(rt.alloc(), call, false, told, lost)?,
            "call {call}"
        );
        assert!(rt; is_left(rt.alloc(), call, true, told, kept)?, "call {call}");
    }
    Ok(())
}

#[test]
fn two_records_take_eight_calls(rt: HostRuntime) -> Result<(), Fail> {
    assert!(rt; takes_eight_calls(rt.alloc())?);
    Ok(())
}
