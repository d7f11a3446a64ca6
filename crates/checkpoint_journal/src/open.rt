//! Opening the journal on a disk.

ghost use Rattle.std.specs.Prelude.{◌≡◌, ◌≤◌, ◌⊎◌, length, IfOk, OnOk, IfSome};
ghost use Rattle.disk_core.specs.Disk.{durable};
ghost use Rattle.checkpoint_journal.specs.Format.{opens, most_records, first_area, second_area};
ghost use Rattle.checkpoint_journal.specs.Commit.{IsFile};
ghost use Rattle.checkpoint_journal.specs.State.{opened_at, HasContents, HasRoom};
ghost use Rattle.checkpoint_journal.specs.Answers.{Opens, OpenHasCause, IsUnwritten, IsSafe, IsLeftBehind, IsMadeNew};

use crate::area::{FIRST_AREA, read_area};
use crate::head::{make, read_head};
use crate::journal::Journal;
use disk_core::Disk;
use std::alloc::Global;
use wire_base::{Contents, Failed, NoMemory as OutOfMemory};

/// Why a journal isn't opened.
#[derive(Clone, Copy, PartialEq, Eq)]
pub enum JournalOpen {
    /// The file isn't a journal of this kind at this node: the first place, in bytes, that tells.
    NotJournal { at: u64 },
    /// The disk failed.
    StoreFault,
    /// Memory was wanting.
    NoMemory,
}

impl From<Failed> for JournalOpen {
    ghost use Rattle.checkpoint_journal.specs.declared.open.JournalOpen.TheVariants.{StoreFault};

    ghost from_gives = { λ _ e. e ≡ StoreFault };

    fn from(_e: Failed) -> JournalOpen {
        JournalOpen::StoreFault
    }
}

impl From<OutOfMemory> for JournalOpen {
    ghost use Rattle.checkpoint_journal.specs.declared.open.JournalOpen.TheVariants.{NoMemory};

    ghost from_gives = { λ _ e. e ≡ NoMemory };

    fn from(_e: OutOfMemory) -> JournalOpen {
        JournalOpen::NoMemory
    }
}

/// Opens the journal on a disk: `kind` is 1 for a LAC's and 2 for an LNS's, `number` is the node's. A file of at most 33
/// bytes whose first one isn't an open gate is made new. It begins with a sync, and gives the contents in the order in
/// which they were committed.
pub fn open_disk<D: Disk>(
    alloc: Global,
    disk: &mut D,
    kind: u8,
    number: u8,
) -> Result<(Journal, Contents), JournalOpen>
    // The contents, or the place at which the file isn't a journal.
    ensures opens { IfSome (D.holds disk.old) (λ held. Opens (λ opened. opened.1) (opens kind number held.bytes) result) }

    // The journal is of that kind and node, has these contents, and room for no more.
    ensures journal { IfOk result (λ opened. opened.0 ≡ opened_at kind number opened.0.start (length opened.1)) }
    ensures contents { IfOk result (λ opened. HasContents opened.0 opened.1 (D.holds disk.new)) }
    ensures room { IfOk result (λ opened. HasRoom D.reach D.calls_left opened.0 disk.new) }

    // Whatever comes of the call, a file that isn't made new isn't written, and a crash in it leaves nothing new.
    ensures unwritten { IfSome (D.holds disk.old) (IsUnwritten (D.holds disk.new)) }
    ensures safe { IfSome (D.holds disk.old) (IsSafe (D.holds disk.new)) }
    ensures refused { IfSome (D.holds disk.old) (IsLeftBehind kind number (D.holds disk.new) result) }
    ensures made_new { OnOk result (IfSome (D.holds disk.old) (IsMadeNew kind number (D.holds disk.new))) }
    ensures cause { OpenHasCause (D.faults disk.old) (D.faults disk.new) result }
{
    disk.prepare(33, 5)?;
    disk.sync()?;
    let (start, contents) = read_or_make(alloc, disk, kind, number)?;
    let journal = Journal::opened(kind, number, start, contents.len() as u32);
    Ok((journal, contents))
}

/// Where the area in use of the journal on a disk begins, and its contents. It is made new where the disk holds none.
fn read_or_make<D: Disk>(
    alloc: Global,
    disk: &mut D,
    kind: u8,
    number: u8,
) -> Result<(u64, Contents), JournalOpen>
    requires reach { 33 ≤ D.reach disk.old }
    requires calls { 4 ≤ D.calls_left disk.old }
    requires synced { IfSome (D.holds disk.old) (λ held. held ≡ durable held.bytes) }
    ensures opens { IfSome (D.holds disk.old) (λ held. Opens (λ found. found.1) (opens kind number held.bytes) result) }
    ensures file { IfOk result (λ found. IfSome (D.holds disk.new) (IsFile kind number found.0 found.1)) }
    ensures start { IfOk result (λ found. (found.0 ≡ first_area) ⊎ (found.0 ≡ second_area)) }
    ensures few { IfOk result (λ found. length found.1 ≤ most_records) }
    ensures unwritten { IfSome (D.holds disk.old) (IsUnwritten (D.holds disk.new)) }
    ensures refused { IfSome (D.holds disk.old) (IsLeftBehind kind number (D.holds disk.new) result) }
    ensures made_new { OnOk result (IfSome (D.holds disk.old) (IsMadeNew kind number (D.holds disk.new))) }
    ensures cause { OpenHasCause (D.faults disk.old) (D.faults disk.new) result }
{
    match read_head(disk, kind, number)? {
        Some(start) => Ok((start, read_area(alloc, disk, start)?)),
        None => {
            make(disk, kind, number)?;
            Ok((FIRST_AREA, Contents::new(alloc)))
        }
    }
}
