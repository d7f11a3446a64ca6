use crate::judging::{bytes_of, none_is_wrong};
use disk_core::*;
use std::alloc::Global;

const OLD: &[u8] = b"abcd";

const NEW: &[u8] = b"abcd\0\0g";

/// Each call once; whether the calls of the device were answered by anything but a fault.
fn each_call<D: Disk>(disk: &mut D) -> Option<[bool; 5]> {
    if disk.prepare(8, 3).is_err() {
        return None;
    }
    let mut cells = [0u8; 2];
    let len = disk.len().is_ok();
    let read = disk.read(1, &mut cells).is_ok();
    let write = disk.write_at(6, b"gh").is_ok();
    let cut = disk.cut(7).is_ok();
    let sync = disk.sync().is_ok();
    Some([len, read, write, cut, sync])
}

/// A disk with four bytes, of which the call of this number fails.
fn abcd(alloc: Global, call: u64) -> Option<MemoryDisk> {
    let fails = Fails::from_slice(alloc, &[call]).ok()?;
    MemoryDisk::new(alloc, bytes_of(alloc, OLD), fails).ok()
}

/// The disk has these bytes behind a crash, which keeps what isn't synced or loses it.
fn crashes_to(disk: &mut MemoryDisk, kept: bool, left: &[u8]) -> bool {
    disk.after_crash(kept);
    disk.bytes() == left
}

/// A disk whose call of this number fails passes the others, has done what they do, and is left so by a crash.
fn is_left_by_a_fault(alloc: Global, call: u64, left: &[u8]) -> bool {
    match abcd(alloc, call) {
        Some(mut disk) => {
            let passed = each_call(&mut disk);
            passed == Some([call != 1, call != 2, call != 3, call != 4, call != 5])
                && disk.bytes() == NEW
                && crashes_to(&mut disk, false, left)
        }
        None => false,
    }
}

/// A disk that stops after so many calls passes these alone, and is left so by a crash, which keeps what isn't synced or
/// loses it.
fn is_left_by_a_stop(alloc: Global, passes: u64, kept: bool, left: &[u8]) -> bool {
    match abcd(alloc, 0) {
        Some(disk) => {
            let mut stop = StopDisk::new(disk, passes);
            let passed = each_call(&mut stop);
            let mut disk = stop.into_disk();
            passed == Some([passes > 0, passes > 1, passes > 2, passes > 3, passes > 4])
                && crashes_to(&mut disk, kept, left)
        }
        None => false,
    }
}

/// A call, and what a crash leaves where it fails; whether a crash keeps what isn't synced, and what it leaves where the disk
/// stops at this call. The sixth isn't made.
const CALLS: [(u64, &[u8], bool, &[u8]); 6] = [
    (1, NEW, false, OLD),
    (2, NEW, true, NEW),
    (3, NEW, false, OLD),
    (4, NEW, true, NEW),
    (5, OLD, false, OLD),
    (6, NEW, true, NEW),
];

fn first_wrong(alloc: Global) -> Option<u64> {
    for (call, left, kept, stopped) in &CALLS {
        let passes = call.saturating_sub(1);
        if !is_left_by_a_fault(alloc, *call, left)
            || !is_left_by_a_stop(alloc, passes, *kept, stopped)
        {
            return Some(*call);
        }
    }
    None
}

#[test]
fn each_call_fails_in_turn(rt: HostRuntime) {
    none_is_wrong(&rt, first_wrong(rt.alloc()));
}

/// The disk has seven bytes, and gives the last two of them to four cells.
fn gives_its_end<D: Disk>(disk: &mut D) -> bool {
    let mut cells = [7u8; 4];
    disk.len() == Ok(7) && disk.read(5, &mut cells) == Ok(2) && &cells == b"\0g\x07\x07"
}

/// The disk takes two bytes at the second place, and a cut behind its end.
fn is_written<D: Disk>(disk: &mut D) -> bool {
    disk.prepare(9, 2).is_ok() && disk.write_at(1, b"BC") == Ok(()) && disk.cut(20) == Ok(())
}

fn tells_what_stands(disk: &mut SteadyDisk) -> bool {
    let passed = each_call(disk);
    let is_read = gives_its_end(disk);
    let is_written = is_written(disk);
    disk.after_crash(true);
    passed == Some([true; 5]) && is_read && is_written && disk.bytes() == b"aBCd\0\0g".as_slice()
}

fn a_disk_tells_what_stands(alloc: Global) -> bool {
    match SteadyDisk::new(alloc, bytes_of(alloc, OLD)) {
        Ok(mut disk) => tells_what_stands(&mut disk),
        Err(_) => false,
    }
}

#[test]
fn reads_tell_what_stands(rt: HostRuntime) {
    assert!(rt; a_disk_tells_what_stands(rt.alloc()));
}
