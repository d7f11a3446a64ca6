use crate::judging::string_of;
use disk_core::Disk;
use file_disk::FileDisk;
use std::alloc::Global;
use std::fs;
use std::fs::File;
use std::rt::Files;
use wire_base::Failed;

fn disk_at<'a, R: Files<File = File>>(alloc: Global, system: &'a R, path: &str) -> FileDisk<&'a R> {
    FileDisk::new(system, string_of(alloc, path))
}

/// The disk is empty, and gives again what is written, with zeros before it.
fn keeps_what_is_written<R: Files<File = File>>(disk: &mut FileDisk<R>) -> bool {
    let mut buf = [1u8; 8];
    disk.len() == Ok(0)
        && disk.read(0, &mut buf) == Ok(0)
        && disk.write_at(4, b"abc") == Ok(())
        && disk.sync() == Ok(())
        && disk.len() == Ok(7)
        && disk.read(2, &mut buf) == Ok(5)
        && &buf[..5] == b"\0\0abc".as_slice()
}

/// Another length is asked for, and there is this one then.
fn is_cut<R: Files<File = File>>(disk: &mut FileDisk<R>, to: u64, len: u64) -> bool {
    let is_done = disk.cut(to) == Ok(());
    disk.len() == Ok(len) && is_done
}

fn is_written<R: Files<File = File>>(disk: &mut FileDisk<R>) -> bool {
    disk.write_at(0, b"abc") == Ok(())
}

fn is_refused<R: Files<File = File>>(disk: &mut FileDisk<R>) -> bool {
    disk.len() == Err(Failed)
}

/// Nothing is read of the disk, and nothing synced.
fn is_out_of_reach<R: Files<File = File>>(disk: &mut FileDisk<R>) -> bool {
    let mut buf = [0u8; 8];
    is_refused(disk) && disk.read(0, &mut buf) == Err(Failed) && disk.sync() == Err(Failed)
}

// What owns a disk has no way out but its end: it tells what holds, and the test asserts all of it.

fn a_new_file_keeps<R: Files<File = File>>(alloc: Global, system: &R, path: &str) -> bool {
    let _ = fs::remove_file(system, path);
    let mut disk = disk_at(alloc, system, path);
    keeps_what_is_written(&mut disk)
}

#[test]
fn a_file_is_a_disk(rt: HostRuntime) {
    assert!(rt; a_new_file_keeps(rt.alloc(), &rt, "disk.bin"));
}

/// Seven bytes are cut to nine, and to five.
fn cuts<R: Files<File = File>>(alloc: Global, system: &R, path: &str) -> [bool; 3] {
    let is_there = fs::write(system, path, b"abcdefg").is_ok();
    let mut disk = disk_at(alloc, system, path);
    let stays = is_cut(&mut disk, 9, 7);
    [is_there, stays, is_cut(&mut disk, 5, 5)]
}

#[test]
fn a_cut_shortens_only(rt: HostRuntime) {
    assert!(rt; cuts(rt.alloc(), &rt, "cut.bin") == [true; 3]);
}

/// A disk writes, and a second one over the same file is refused, also when the first is gone; a third one opens what lasts.
fn is_held_alone<R: Files<File = File>>(alloc: Global, system: &R, path: &str) -> [bool; 4] {
    let mut first = disk_at(alloc, system, path);
    let mut second = disk_at(alloc, system, path);
    let is_first = is_written(&mut first);
    let is_second = is_refused(&mut second);
    drop(first);
    let stays = is_refused(&mut second);
    let mut third = disk_at(alloc, system, path);
    [is_first, is_second, stays, third.len() == Ok(3)]
}

#[test]
fn who_holds_a_file_holds_it_alone(rt: HostRuntime) {
    assert!(rt; is_held_alone(rt.alloc(), &rt, "held.bin") == [true; 4]);
}

fn no_file_is_there<R: Files<File = File>>(alloc: Global, system: &R, path: &str) -> bool {
    let mut disk = disk_at(alloc, system, path);
    is_out_of_reach(&mut disk)
}

#[test]
fn a_file_that_cannot_be_opened_is_a_fault(rt: HostRuntime) {
    assert!(rt; no_file_is_there(rt.alloc(), &rt, "no/such/folder"));
}
