ghost use Rattle.std.specs.Prelude.{◌≡◌, ◌≤◌, length, IfSome};
ghost use Rattle.checkpoint_journal.specs.State.{HasRoom};

use crate::checkpoint_journal_tests::{
    HIGHER, ONE, TUNNEL, TWO, list_of, opens, ready, stopped_opens_after, stopping,
};
use crate::judging::none_is_wrong;
use checkpoint_journal::*;
use disk_core::{Disk, MemoryDisk, SteadyDisk};
use std::alloc::Global;
use wire_base::{Bytes, Contents, Failed, NoMemory};

/// A journal with two contents.
fn two_ceilings<D: Disk>(alloc: Global, disk: &mut D) -> Option<Journal>
    ensures { IfSome result (λ journal. HasRoom D.reach D.calls_left journal disk.new) }
{
    let mut journal = ready(alloc, disk, 2)?;
    if journal.commit(disk, &TWO).is_ok() && journal.commit(disk, &HIGHER).is_ok() {
        Some(journal)
    } else {
        None
    }
}

/// What two compactions of a journal with two contents to the second alone are answered. The second one isn't tried where the
/// first one is made.
type Compactions = (Result<(), CompactStop>, Result<(), CompactStop>);

pub(crate) fn compactions<D: Disk>(alloc: Global, disk: &mut D) -> Option<Compactions> {
    let contents = list_of(alloc, &[HIGHER]);
    let mut journal = two_ceilings(alloc, disk)?;
    let one = journal.compact(alloc, disk, &contents);
    if one.is_ok() {
        return Some((one, one));
    }
    Some((one, journal.compact(alloc, disk, &contents)))
}

/// Whether the answers are those of a compaction that is made, or that stops.
pub(crate) fn are_answered(answers: Option<Compactions>, made: bool) -> bool {
    let stops = (Err(CompactStop::StoreFault), Err(CompactStop::Halted));
    let expected = if made { (Ok(()), Ok(())) } else { stops };
    answers == Some(expected)
}

/// A compaction of which the device lets so many calls pass, and what is done to the disk behind it, leave the old list or
/// the new one. Opening makes six calls of the device, and each commit four.
fn is_compacted(alloc: Global, passes: u64, crash: Option<bool>, new: bool) -> bool {
    let left: &[[u8; 31]] = if new { &[HIGHER] } else { &[TWO, HIGHER] };
    match stopping(alloc, passes.saturating_add(14)) {
        Some(mut disk) => {
            let answers = compactions(alloc, &mut disk);
            are_answered(answers, passes == 4) && stopped_opens_after(alloc, disk, crash, left)
        }
        None => false,
    }
}

/// A commit, a compaction and a commit, on a journal with room for three: how many records it has behind each.
fn in_turn<D: Disk>(
    alloc: Global,
    journal: &mut Journal,
    disk: &mut D,
    contents: &Contents,
) -> Option<[u32; 3]>
    requires spare { 3 ≤ journal.old.spare }
    requires room { HasRoom D.reach D.calls_left journal.old disk.old }
    requires few { length contents.now ≤ 2 }
{
    journal.commit(disk, &TWO).ok()?;
    let one = journal.records();
    journal.compact(alloc, disk, contents).ok()?;
    let two = journal.records();
    journal.prepare(disk, 1).ok()?;
    journal.commit(disk, &TUNNEL).ok()?;
    Some([one, two, journal.records()])
}

/// What `in_turn` gives of a journal that is opened on the disk.
pub(crate) fn goes_on(alloc: Global, disk: &mut MemoryDisk) -> Option<[u32; 3]> {
    let contents = list_of(alloc, &[ONE]);
    let mut journal = ready(alloc, disk, 3)?;
    in_turn(alloc, &mut journal, disk, &contents)
}

/// A disk that can be made to have no memory left.
#[derive(Drop)]
struct NarrowDisk {
    disk: SteadyDisk,
    is_full: bool,
}

impl Disk for NarrowDisk {
    ghost use Rattle.std.specs.Prelude.{Some};

    ghost holds = { λ d. Some d.disk.held };

    ghost reach = { λ d. d.disk.prepared_to };

    ghost calls_left = { λ d. d.disk.prepared_calls };

    ghost faults = { λ _. 0 };

    fn len(&mut self) -> Result<u64, Failed> {
        self.disk.len()
    }

    fn prepare(&mut self, to: u64, calls: u64) -> Result<(), NoMemory> {
        if self.is_full {
            return Err(NoMemory);
        }
        self.disk.prepare(to, calls)
    }

    fn read(&mut self, at: u64, buf: &mut [u8]) -> Result<usize, Failed> {
        self.disk.read(at, buf)
    }

    fn write_at(&mut self, at: u64, piece: &[u8]) -> Result<(), Failed> {
        self.disk.write_at(at, piece)
    }

    fn cut(&mut self, len: u64) -> Result<(), Failed> {
        self.disk.cut(len)
    }

    fn sync(&mut self) -> Result<(), Failed> {
        self.disk.sync()
    }
}

/// A compaction without memory, and the commit behind it.
fn commits_without_memory(
    alloc: Global,
    journal: &mut Journal,
    disk: &mut NarrowDisk,
    contents: &Contents,
) -> bool
    requires spare { 2 ≤ journal.old.spare }
    requires room { HasRoom (λ d. d.disk.prepared_to) (λ d. d.disk.prepared_calls) journal.old disk.old }
    requires few { length contents.now ≤ 2 }
{
    if journal.commit(disk, &TWO).is_err() {
        return false;
    }
    disk.is_full = true;
    if journal.compact(alloc, disk, contents) != Err(CompactStop::NoMemory) {
        return false;
    }
    journal.commit(disk, &HIGHER).is_ok()
}

/// A compaction without memory changes nothing, and the journal goes on.
fn goes_on_without_memory(alloc: Global, disk: &mut NarrowDisk) -> bool {
    let contents = Contents::new(alloc);
    match ready(alloc, disk, 2) {
        Some(mut journal) => commits_without_memory(alloc, &mut journal, disk, &contents),
        None => false,
    }
}

fn is_left_without_memory(alloc: Global, left: &[[u8; 31]]) -> bool {
    match SteadyDisk::new(alloc, Bytes::new(alloc)) {
        Ok(disk) => {
            let mut disk = NarrowDisk {
                disk,
                is_full: false,
            };
            goes_on_without_memory(alloc, &mut disk)
                && opens(alloc, &[(disk.disk.bytes(), 1)], left)
        }
        Err(_) => false,
    }
}

/// How many calls of the device a compaction makes before it stops, and whether the new list is left by a crash that loses
/// what isn't synced, and where it is kept or read. A write that fails is pending.
const STOPS_IN_A_COMPACTION: [(u64, bool, bool); 5] = [
    (0, false, false),
    (1, false, false),
    (2, false, true),
    (3, false, true),
    (4, true, true),
];

fn first_wrong_compaction(alloc: Global) -> Option<u64> {
    for (passes, lost, kept) in &STOPS_IN_A_COMPACTION {
        let is_lost = is_compacted(alloc, *passes, Some(false), *lost);
        let is_kept = is_compacted(alloc, *passes, Some(true), *kept);
        let is_read = is_compacted(alloc, *passes, None, *kept);
        if !is_lost || !is_kept || !is_read {
            return Some(*passes);
        }
    }
    None
}

#[test]
fn a_compaction_that_stops_leaves_one_list(rt: HostRuntime) {
    none_is_wrong(&rt, first_wrong_compaction(rt.alloc()));
}

#[test]
fn a_compaction_without_memory_changes_nothing(rt: HostRuntime) {
    assert!(rt; is_left_without_memory(rt.alloc(), &[TWO, HIGHER]));
}
