use crate::end_store_tests::{CALL, FILE, has_tunnel, holding};
use checkpoint_journal::CompactStop;
use disk_core::{Fails, MemoryDisk, StopDisk};
use end_store::Store;
use session_book::Record;
use std::alloc::Global;
use std::test::Fail;
use wire_base::{Bytes, NoMemory};

/// Where the second area begins.
const SECOND_AREA: usize = 33_554_496;

/// The file with a fifth record: the call went.
fn without_call(alloc: Global) -> Result<Bytes, NoMemory> {
    let mut image = Bytes::from_slice(alloc, &FILE[..160])?;
    image.push_slice(b"O\x05\0\x01")?;
    image.push_slice(&[0; 28])?;
    image.push_slice(b"C")?;
    Ok(image)
}

/// The disk opens with so many records, and they have both ceilings and the tunnel.
fn opens_with(alloc: Global, disk: &mut MemoryDisk, records: u32) -> bool {
    match Store::open(alloc, disk, 1, 1) {
        Ok(store) => store.records() == records && has_tunnel(store.book(), false),
        Err(_) => false,
    }
}

/// What a store answers whose disk lets so many calls of a compaction pass: to that one, and to one behind it.
type Answers = (Result<(), CompactStop>, Result<(), CompactStop>);

fn compacted(alloc: Global, disk: MemoryDisk, passes: u64) -> Option<(Answers, MemoryDisk)> {
    let mut disk = disk;
    let mut store = Store::open(alloc, &mut disk, 1, 1).ok()?;
    let mut stopping = StopDisk::new(disk, passes);
    let first = store.compact(alloc, &mut stopping);
    let second = if first.is_ok() {
        first
    } else {
        store.compact(alloc, &mut stopping)
    };
    Some(((first, second), stopping.into_disk()))
}

/// The disk lets so many calls of a compaction pass, and crashes: it opens with so many records, and with the same book.
fn is_left(alloc: Global, passes: u64, kept: bool, records: u32) -> Result<bool, NoMemory> {
    let disk = MemoryDisk::new(alloc, without_call(alloc)?, Fails::new(alloc))?;
    let Some((answers, mut disk)) = compacted(alloc, disk, passes) else {
        return Ok(false);
    };
    disk.after_crash(kept);
    let expected = if passes == 4 {
        (Ok(()), Ok(()))
    } else {
        (Err(CompactStop::StoreFault), Err(CompactStop::Halted))
    };
    Ok(answers == expected && opens_with(alloc, &mut disk, records))
}

/// How many records a store has: at first, compacted, and with a call that comes up behind that.
fn goes_on(alloc: Global, disk: &mut MemoryDisk) -> Option<[u32; 3]> {
    let mut store = Store::open(alloc, disk, 1, 1).ok()?;
    let five = store.records();
    store.compact(alloc, disk).ok()?;
    let three = store.records();
    store.commit_step(disk, &[Record::CallUp(CALL)]).ok()?;
    if !has_tunnel(store.book(), true) {
        return None;
    }
    Some([five, three, store.records()])
}

#[test]
fn a_compacted_store_goes_on(rt: HostRuntime) -> Result<(), Fail> {
    let image = without_call(rt.alloc())?;
    let mut disk = holding(rt.alloc(), image.as_slice())?;
    assert!(rt; goes_on(rt.alloc(), &mut disk) == Some([5, 3, 4]));
    // the four records of the file, in its second area
    let bytes = disk.bytes();
    assert!(rt; bytes.len() == SECOND_AREA + 129);
    assert!(rt; bytes.starts_with(&FILE[..31]) && bytes.get(31) == Some(&0x4f));
    assert!(rt; bytes.ends_with(&FILE[32..]));
    Ok(())
}

#[test]
fn a_stop_in_a_compaction_leaves_the_book(rt: HostRuntime) -> Result<(), Fail> {
    for (passes, kept, records) in [
        (0, false, 5),
        (1, false, 5),
        (2, false, 5),
        (3, false, 5),
        (4, false, 3),
        (0, true, 5),
        (1, true, 5),
        (2, true, 3),
        (3, true, 3),
        (4, true, 3),
    ] {
        assert!(rt;
            is_left(rt.alloc(), passes, kept, records)?,
            "call {passes}"
        );
    }
    Ok(())
}
