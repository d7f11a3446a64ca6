//! Contents that are committed to a disk which crashes, and what it opens with then.

ghost use Rattle.std.specs.Prelude.{◌≡◌, ◌≤◌, ℕ, List, length, IfOk, IfSome, false};
ghost use Rattle.checkpoint_journal.specs.State.{HasContents, HasRoom};
ghost use Rattle.checkpoint_journal.specs.Answers.{GivesBeforeAndFirst, ReopenHasCause};

use crate::journal::Journal;
use crate::open::{JournalOpen, open_disk};
use disk_core::Crash;
use std::alloc::Global;
use wire_base::Contents;

/// A journal that was opened after a crash.
#[derive(Drop)]
pub struct Reopened {
    /// Whether the commit answered `Ok` before the crash.
    pub acknowledged: bool,
    pub journal: Journal,
    /// What it opened with.
    pub contents: Contents,
}

/// Commits contents, one after the other, crashes the disk, and opens it again. The disk may fail, and stop, at each of its
/// calls; `kept` says whether the crash keeps what isn't synced. The journal's spare is enough for all of the contents.
pub fn commit_and_crash<D: Crash>(
    alloc: Global,
    journal: Journal,
    disk: &mut D,
    contents: &[[u8; 31]],
    kept: bool,
) -> Result<Reopened, JournalOpen>
    requires spare { length contents.now ≤ journal.spare }
    requires room { journal.halted ≡ false → HasRoom D.Disk.reach D.Disk.calls_left journal disk.old }

    // It opens with the contents from before and the first few of these: with all of them where the commit was acknowledged.
    ensures opens { (before : List (List ℕ)) → HasContents journal before (D.Disk.holds disk.old)
        → IfSome (D.Disk.holds disk.old) (λ _. GivesBeforeAndFirst before contents.now result) }

    // The journal goes on from there.
    ensures contents { IfOk result (λ reopened. HasContents reopened.journal reopened.contents (D.Disk.holds disk.new)) }
    ensures room { IfOk result (λ reopened. HasRoom D.Disk.reach D.Disk.calls_left reopened.journal disk.new) }
    ensures cause { ReopenHasCause journal (D.Disk.faults disk.old) (D.Disk.faults disk.new) result }
{
    let mut journal = journal;
    let kind = journal.kind();
    let number = journal.number();
    let acknowledged = journal.commit_all(disk, contents).is_ok();
    disk.crash(kept);
    let (journal, contents) = open_disk(alloc, disk, kind, number)?;
    Ok(Reopened {
        acknowledged,
        journal,
        contents,
    })
}
