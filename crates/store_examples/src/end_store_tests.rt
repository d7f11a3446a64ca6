ghost use Rattle.std.specs.List.{AllByRecursion};
ghost use Rattle.step_ledger.specs.Committing.{IsUnmarked};

use checkpoint_journal::{JournalOpen, JournalRoom, JournalStop};
use disk_core::{Disk, Fails, MemoryDisk, StopDisk};
use end_store::{Store, StoreStop};
use session_book::{Book, BookCall, BookTunnel, Record};
use std::alloc::Global;
use std::test::Fail;
use wire_base::{Bytes, NoMemory};

/// The journal of the LAC with the number 1, with the ceilings of its ids, a tunnel and a call.
pub(crate) const FILE: &[u8] = b"OL2TPCKP1\x01\x01\0\0\0\0\0\0\0\0\0\0\0\0\0\0\0\0\0\0\0\0C\
O\x01\x01\0\0\0\x40\0\0\0\0\0\0\0\0\0\0\0\0\0\0\0\0\0\0\0\0\0\0\0\0\0\
O\x01\x02\0\0\0\x40\0\0\0\0\0\0\0\0\0\0\0\0\0\0\0\0\0\0\0\0\0\0\0\0\0\
O\x02\0\x01\0\x01\x0a\0\0\x02\0\x08\0\x03\0\0\0\0\0\0\0\0\0\0\0\0\0\0\0\0\0\0\
O\x04\0\x01\0\x01\0\x01\xff\xff\0\0\0\x01\0\0\0\0\0\0\0\0\0\0\0\0\0\0\0\0\0\0\
C";

pub(crate) const TUNNEL: BookTunnel = BookTunnel {
    local: 1,
    remote: 1,
    peer: 0x0a00_0002,
    window: 8,
    flags: 3,
    mark: 0,
};

pub(crate) const CALL: BookCall = BookCall {
    local: 1,
    tunnel: 1,
    remote: 1,
    subscriber: [0xff, 0xff, 0, 0, 0, 1],
    sequenced: false,
};

pub(crate) const TUNNEL_IDS: Record = Record::Ceiling {
    space: 1,
    number: 64,
};

pub(crate) const SESSION_IDS: Record = Record::Ceiling {
    space: 2,
    number: 64,
};

// Functions without clauses: a test that calls them is proved at little cost.

pub(crate) fn holding(alloc: Global, image: &[u8]) -> Result<MemoryDisk, NoMemory> {
    MemoryDisk::new(alloc, Bytes::from_slice(alloc, image)?, Fails::new(alloc))
}

/// The book has both ceilings, the tunnel, and the call or none.
pub(crate) fn has_tunnel(book: &Book, with_call: bool) -> bool {
    let calls: &[BookCall] = if with_call { &[CALL] } else { &[] };
    book.ceiling(1) == 64
        && book.ceiling(2) == 64
        && book.tunnels().as_slice() == [TUNNEL].as_slice()
        && book.calls().as_slice() == calls
}

/// The disk opens with both ceilings, the tunnel, and the call or none.
fn opens_with(alloc: Global, disk: &mut MemoryDisk, with_call: bool) -> bool {
    match Store::open(alloc, disk, 1, 1) {
        Ok(store) => {
            store.records() == if with_call { 4 } else { 3 } && has_tunnel(store.book(), with_call)
        }
        Err(_) => false,
    }
}

/// What a store of the disk answers that is to take four records.
fn takes<D: Disk>(
    alloc: Global,
    disk: &mut D,
    records: &[Record; 4],
) -> Option<Result<(), JournalStop>>
    requires { AllByRecursion IsUnmarked records.now }
{
    let mut store = Store::open(alloc, disk, 1, 1).ok()?;
    store.prepare(disk, 4).ok()?;
    Some(store.commit(disk, records))
}

/// The file without its call.
fn without_call(alloc: Global) -> Result<Bytes, NoMemory> {
    let mut image = Bytes::from_slice(alloc, &FILE[..128])?;
    image.push_slice(b"C")?;
    Ok(image)
}

/// What a store answers whose disk stops at this call of the commit of a call, and the disk.
fn stopped_at(
    alloc: Global,
    disk: MemoryDisk,
    call: u64,
) -> Option<(Result<(), JournalStop>, MemoryDisk)> {
    let mut disk = disk;
    let mut store = Store::open(alloc, &mut disk, 1, 1).ok()?;
    store.prepare(&mut disk, 1).ok()?;
    let mut stopping = StopDisk::new(disk, call.saturating_sub(1));
    let answer = store.commit(&mut stopping, &[Record::CallUp(CALL)]);
    Some((answer, stopping.into_disk()))
}

/// The disk stops at this call of the commit of a call, and crashes: what it opens with then.
fn is_left(alloc: Global, call: u64, kept: bool, with_call: bool) -> Result<bool, NoMemory> {
    let disk = MemoryDisk::new(alloc, without_call(alloc)?, Fails::new(alloc))?;
    let Some((answer, mut disk)) = stopped_at(alloc, disk, call) else {
        return Ok(false);
    };
    disk.after_crash(kept);
    Ok(answer == Err(JournalStop::StoreFault) && opens_with(alloc, &mut disk, with_call))
}

/// What a store answers whose disk stops at the second call of a commit: that commit, one behind it, and a wish for room.
fn stopped(
    alloc: Global,
    disk: MemoryDisk,
) -> Option<
    (
        Result<(), JournalStop>,
        Result<(), JournalStop>,
        Result<(), JournalRoom>,
        bool,
    ),
> {
    let mut disk = disk;
    let mut store = Store::open(alloc, &mut disk, 1, 1).ok()?;
    store.prepare(&mut disk, 2).ok()?;
    let mut stopping = StopDisk::new(disk, 1);
    let first = store.commit(&mut stopping, &[TUNNEL_IDS]);
    if first != Err(JournalStop::StoreFault) {
        return None;
    }
    let second = store.commit(&mut stopping, &[]);
    let room = store.prepare(&mut stopping, 0);
    Some((first, second, room, store.is_halted()))
}

/// The image is refused, told by this place, and stays as it is.
fn is_refused(alloc: Global, image: &[u8], at: u64) -> Result<bool, NoMemory> {
    let mut disk = holding(alloc, image)?;
    let answer = Store::open(alloc, &mut disk, 1, 1).err();
    Ok(answer == Some(JournalOpen::NotJournal { at }) && disk.bytes() == image)
}

/// The file with another content behind its four.
fn with_content(alloc: Global, kind: u8) -> Result<Bytes, NoMemory> {
    let mut image = Bytes::from_slice(alloc, &FILE[..160])?;
    image.push_slice(&[b'O', kind])?;
    for _ in 0..30 {
        image.push_slice(b"\0")?;
    }
    image.push_slice(b"C")?;
    Ok(image)
}

/// A journal with so many rising ceilings of the numbers of recoveries.
fn with_ceilings(alloc: Global, count: u32) -> Result<Bytes, NoMemory> {
    let mut image = Bytes::from_slice(alloc, &FILE[..32])?;
    for number in 1..=count {
        image.push_slice(b"O\x01\x03")?;
        image.push_slice(&number.to_be_bytes())?;
        image.push_slice(&[0; 25])?;
    }
    image.push_slice(b"C")?;
    Ok(image)
}

/// The store has this last ceiling and so many records, and room for one more, but not for two.
fn has_one_left(alloc: Global, disk: &mut MemoryDisk, records: u32) -> bool {
    let Ok(mut store) = Store::open(alloc, disk, 1, 1) else {
        return false;
    };
    let two = store.prepare(disk, 2);
    let one = store.prepare(disk, 1);
    store.book().ceiling(3) == records
        && two == Err(JournalRoom::StoreFull { records })
        && one.is_ok()
}

/// What a store answers that has room for one record more: to a step of two, of one, of none, and of one again.
type Steps = (
    Result<(), StoreStop>,
    Result<(), StoreStop>,
    Result<(), StoreStop>,
    Result<(), StoreStop>,
);

fn last_steps(alloc: Global, disk: &mut MemoryDisk) -> Option<Steps> {
    let mut store = Store::open(alloc, disk, 1, 1).ok()?;
    let two = store.commit_step(disk, &[TUNNEL_IDS, SESSION_IDS]);
    let one = store.commit_step(disk, &[SESSION_IDS]);
    let none = store.commit_step(disk, &[]);
    let full = store.commit_step(disk, &[TUNNEL_IDS]);
    if store.book().ceiling(1) != 0 || store.book().ceiling(2) != 64 {
        return None;
    }
    Some((two, one, none, full))
}

#[test]
fn four_records_make_a_file(rt: HostRuntime) -> Result<(), Fail> {
    let mut disk = holding(rt.alloc(), b"")?;
    let records = [
        TUNNEL_IDS,
        SESSION_IDS,
        Record::TunnelUp(TUNNEL),
        Record::CallUp(CALL),
    ];
    assert!(rt; takes(rt.alloc(), &mut disk, &records) == Some(Ok(())));
    assert!(rt; disk.bytes() == FILE && FILE.len() == 161);
    disk.after_crash(false);
    assert!(rt; opens_with(rt.alloc(), &mut disk, true));
    Ok(())
}

#[test]
fn a_stop_at_each_call_leaves_the_record_or_not(rt: HostRuntime) -> Result<(), Fail> {
    for (call, kept, with_call) in [
        (1, false, false),
        (2, false, false),
        (3, false, false),
        (4, false, false),
        (1, true, false),
        (2, true, false),
        (3, true, true),
        (4, true, true),
    ] {
        assert!(rt; is_left(rt.alloc(), call, kept, with_call)?, "call {call}");
    }
    Ok(())
}

#[test]
fn a_fault_halts_the_store(rt: HostRuntime) -> Result<(), Fail> {
    let disk = holding(rt.alloc(), b"")?;
    assert!(rt;
        stopped(rt.alloc(), disk)
            == Some((
                Err(JournalStop::StoreFault),
                Err(JournalStop::Halted),
                Err(JournalRoom::Halted),
                true,
            ))
    );
    Ok(())
}

#[test]
fn a_record_out_of_place_is_left_out(rt: HostRuntime) -> Result<(), Fail> {
    // A call of no tunnel, a ceiling, one that doesn't rise, and a tunnel that isn't there.
    let mut disk = holding(rt.alloc(), b"")?;
    let records = [
        Record::CallUp(CALL),
        TUNNEL_IDS,
        TUNNEL_IDS,
        Record::TunnelDown { local: 1 },
    ];
    assert!(rt; takes(rt.alloc(), &mut disk, &records) == Some(Ok(())));
    assert!(rt; disk.bytes().len() == 65 && disk.bytes().starts_with(&FILE[..64]));
    Ok(())
}

#[test]
fn a_content_out_of_place_is_told_by_its_place(rt: HostRuntime) -> Result<(), Fail> {
    for kind in [0, 7, 9] {
        let image = with_content(rt.alloc(), kind)?;
        assert!(rt;
            is_refused(rt.alloc(), image.as_slice(), 161)?,
            "kind {kind}"
        );
    }
    // the call's content before that of its tunnel
    let mut image = Bytes::from_slice(rt.alloc(), &FILE[..96])?;
    image.push_slice(&FILE[128..])?;
    assert!(rt; is_refused(rt.alloc(), image.as_slice(), 97)?);
    assert!(rt; is_refused(rt.alloc(), &[0; 40], 0)?);
    Ok(())
}

#[test]
fn an_area_has_so_many_records(rt: HostRuntime) -> Result<(), Fail> {
    let image = with_ceilings(rt.alloc(), 1_048_575)?;
    let mut disk = MemoryDisk::new(rt.alloc(), image, Fails::new(rt.alloc()))?;
    assert!(rt; has_one_left(rt.alloc(), &mut disk, 1_048_575));
    Ok(())
}

#[test]
fn a_step_is_committed_whole_or_refused(rt: HostRuntime) -> Result<(), Fail> {
    let image = with_ceilings(rt.alloc(), 1_048_575)?;
    let mut disk = MemoryDisk::new(rt.alloc(), image, Fails::new(rt.alloc()))?;
    assert!(rt;
        last_steps(rt.alloc(), &mut disk)
            == Some((
                Err(StoreStop::StoreFull { records: 1_048_575 }),
                Ok(()),
                Ok(()),
                Err(StoreStop::StoreFull { records: 1_048_576 }),
            ))
    );
    assert!(rt; disk.bytes().len() == 33_554_465);
    Ok(())
}
