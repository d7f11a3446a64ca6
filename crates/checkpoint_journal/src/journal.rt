//! The journal: contents in order, each on the disk before its gate is opened.

ghost use Rattle.std.specs.Prelude.{◌≡◌, ◌≤◌, ◌<◌, ◌+◌, ◌-◌, ◌++◌, ◌∷◌, [], ℕ, List, length, max, OnOk, OnErr, Err, option_map, is_some, true, false};
ghost use Rattle.checkpoint_journal.specs.Format.{most_records, second_area, other_area, content_place};
ghost use Rattle.checkpoint_journal.specs.Commit.{commit_after, IsStopped};
ghost use Rattle.checkpoint_journal.specs.State.{opened_at, next_gate, compacted, HasContents, HasRoom, FindsBeforeOrAfter, FindsBeforeAndFirst, FindsOldOrNew};
ghost use Rattle.checkpoint_journal.specs.declared.journal.JournalStop.TheVariants as stop;
ghost use Rattle.checkpoint_journal.specs.Answers.{RoomHasCause, StopHasCause, SomeHaveCause, CompactHasCause, CompactLeaves};

use crate::area::MOST_RECORDS;
use crate::compaction::{CompactStop, other_area, spell_area, write_area};
use crate::record::write_record;
use disk_core::Disk;
use std::alloc::Global;
use std::marker::Model;
use wire_base::{Contents, NoMemory as OutOfMemory};

/// Why no room was made.
#[derive(Clone, Copy, PartialEq, Eq)]
pub enum JournalRoom {
    /// The disk failed at an earlier call to this journal.
    Halted,
    /// The journal has so many records, and with those that are wanted they pass the limit.
    StoreFull { records: u32 },
    /// Memory was wanting.
    NoMemory,
}

impl From<OutOfMemory> for JournalRoom {
    ghost use Rattle.checkpoint_journal.specs.declared.journal.JournalRoom.TheVariants.{NoMemory};

    ghost from_gives = { λ _ e. e ≡ NoMemory };

    fn from(_e: OutOfMemory) -> JournalRoom {
        JournalRoom::NoMemory
    }
}

/// Why a content wasn't committed.
#[derive(Clone, Copy, PartialEq, Eq)]
pub enum JournalStop {
    /// The disk failed at an earlier call to this journal.
    Halted,
    /// The disk failed. The journal is halted until its disk is opened again.
    StoreFault,
}

/// The journal of one node on a disk that is handed to each call. Between two calls the disk is as the last one left it.
#[derive(Drop)]
pub struct Journal {
    kind: u8,
    number: u8,
    start: u64,
    records: u32,
    spare: u32,
    halted: bool,
}

impl Model for Journal {
    ghost use Rattle.std.specs.Prelude.{◌≤◌, ◌+◌};
    ghost use Rattle.checkpoint_journal.specs.Format.{most_records, second_area};
    ghost use Rattle.checkpoint_journal.specs.State.{State};

    ghost Value = { State };

    ghost view = { λ j. record { kind = j.kind; number = j.number; start = j.start; records = j.records; spare = j.spare; halted = j.halted } };

    ghost invariant = { λ j. (j.records + j.spare ≤ most_records) × (j.start ≤ second_area) };
}

impl Journal {
    /// The journal that was opened on a disk, with so many records.
    pub(crate) fn opened(kind: u8, number: u8, start: u64, records: u32) -> Journal
        requires few { records ≤ most_records }
        requires start { start ≤ second_area }
        ensures { result ≡ opened_at kind number start records }
    {
        Journal {
            kind,
            number,
            start,
            records,
            spare: 0,
            halted: false,
        }
    }

    /// How many records its area has.
    pub fn records(&self) -> u32
        ensures { result ≡ self.now.records }
    {
        self.records
    }

    /// Whose journal it is.
    pub fn kind(&self) -> u8
        ensures { result ≡ self.now.kind }
    {
        self.kind
    }

    pub fn number(&self) -> u8
        ensures { result ≡ self.now.number }
    {
        self.number
    }

    /// Whether the disk failed at an earlier call.
    pub fn is_halted(&self) -> bool
        ensures { result ≡ self.now.halted }
    {
        self.halted
    }

    /// Where the content of a record of its area begins, in bytes of the file. Records are counted from 0.
    #[tactic(auto, unfolding(crate::specs::Format::most_records, crate::specs::Format::second_area))]
    pub fn content_place(&self, at: u32) -> u64
        requires { at ≤ most_records }
        ensures { result ≡ content_place self.now.start at }
    {
        self.start + 32 * u64::from(at) + 1
    }

    /// Makes the spare at least `count`: the disk has room for so many records, and for the four calls of each. It makes
    /// no call of the device, and where it is refused the journal is as before. Where there is room already, the disk is left
    /// alone.
    #[tactic(auto, unfolding(crate::specs::Format::most_records, crate::specs::Format::second_area))]
    pub fn prepare<D: Disk>(&mut self, disk: &mut D, count: u32) -> Result<(), JournalRoom>
        requires room { self.old.halted ≡ false → HasRoom D.reach D.calls_left self.old disk.old }
        ensures room { self.old.halted ≡ false → HasRoom D.reach D.calls_left self.new disk.new }
        ensures ok { OnOk result (self.new ≡ record self.old { spare = max self.old.spare count }) }
        ensures err { OnErr result (self.new ≡ self.old) }
        ensures disk { D.holds disk.new ≡ D.holds disk.old }
        ensures untouched { count ≤ self.old.spare → disk.new ≡ disk.old }
        ensures contents { (contents : List (List ℕ)) → HasContents self.old contents (D.holds disk.old) → HasContents self.new contents (D.holds disk.new) }
        ensures faults { D.faults disk.new ≡ D.faults disk.old }
        ensures cause { RoomHasCause self.old count result }
    {
        if self.halted {
            return Err(JournalRoom::Halted);
        }
        if count > MOST_RECORDS - self.records {
            return Err(JournalRoom::StoreFull {
                records: self.records,
            });
        }
        if count > self.spare {
            let to = self.start + 32 * (u64::from(self.records) + u64::from(count)) + 1;
            disk.prepare(to, 4 * u64::from(count))?;
            self.spare = count;
        }
        Ok(())
    }

    /// Puts a content behind the others; its condition is that the spare isn't 0. At `Ok` it is on the disk, and each later
    /// crash leaves it there. It makes four calls of the device and takes no memory.
    pub fn commit<D: Disk>(&mut self, disk: &mut D, content: &[u8; 31]) -> Result<(), JournalStop>
        requires spare { 0 < self.old.spare }
        requires room { self.old.halted ≡ false → HasRoom D.reach D.calls_left self.old disk.old }
        ensures room { OnOk result (HasRoom D.reach D.calls_left self.new disk.new) }
        ensures state { OnOk result (self.new ≡ record self.old { records = self.old.records + 1; spare = self.old.spare - 1 }) }
        ensures cause { StopHasCause self.old self.new (D.faults disk.old) (D.faults disk.new) result }

        // What its calls make of the file: all four, or the first or the first three, the last of which is pending.
        ensures done { OnOk result (D.holds disk.new ≡ option_map (commit_after 4 (next_gate self.old) content.now) (D.holds disk.old)) }
        ensures stopped { self.old.halted ≡ false → OnErr result (IsStopped (next_gate self.old) content.now (D.holds disk.old) (D.holds disk.new)) }
        ensures halted { self.old.halted ≡ true → D.holds disk.new ≡ D.holds disk.old }
        ensures tells { is_some (D.holds disk.new) ≡ is_some (D.holds disk.old) }

        // At `Ok` the journal has the contents from before, and this one last.
        ensures committed { (contents : List (List ℕ)) → HasContents self.old contents (D.holds disk.old)
            → OnOk result (HasContents self.new (contents ++ content.now ∷ []) (D.holds disk.new)) }

        // Whatever comes of the call, the file opens with the contents from before, or with these and this one last: as a
        // read gives it, and in each image that a crash may leave.
        ensures crash { (contents : List (List ℕ)) → HasContents self.old contents (D.holds disk.old)
            → FindsBeforeOrAfter self.old contents content.now (D.holds disk.new) }
    {
        if self.halted {
            return Err(JournalStop::Halted);
        }
        let gate = self.start + 32 * u64::from(self.records);
        match write_record(disk, gate, content) {
            Ok(()) => {
                self.records += 1;
                self.spare -= 1;
                Ok(())
            }
            Err(_) => self.stop_at_fault(),
        }
    }

    /// Takes nothing more.
    fn halt(&mut self)
        ensures { self.new ≡ record self.old { halted = true } }
    {
        self.halted = true;
    }

    /// What a commit answers at which the disk failed: the journal is halted.
    fn stop_at_fault(&mut self) -> Result<(), JournalStop>
        ensures state { self.new ≡ record self.old { halted = true } }
        ensures told { result ≡ Err stop.StoreFault }
    {
        self.halt();
        Err(JournalStop::StoreFault)
    }

    /// Makes these contents the journal's records, in place of those that it has; its condition is that there are at most
    /// 1,048,576 of them. They are written to the area that isn't in use, and only once they are on the disk that area is
    /// chosen. It makes four calls of the device, or none.
    pub fn compact<D: Disk>(
        &mut self,
        alloc: Global,
        disk: &mut D,
        contents: &Contents,
    ) -> Result<(), CompactStop>
        requires few { length contents.now ≤ 1048576 }
        requires room { self.old.halted ≡ false → HasRoom D.reach D.calls_left self.old disk.old }
        ensures room { self.new.halted ≡ false → HasRoom D.reach D.calls_left self.new disk.new }
        ensures state { OnOk result (self.new ≡ compacted (length contents.now) self.old) }
        ensures cause { CompactHasCause self.old self.new (D.faults disk.old) (D.faults disk.new) result }
        ensures file { CompactLeaves (other_area self.old.start) contents.now (D.holds disk.old) (D.holds disk.new) result }
        ensures tells { is_some (D.holds disk.new) ≡ is_some (D.holds disk.old) }

        // At `Ok` the journal has these contents.
        ensures compacted { (before : List (List ℕ)) → HasContents self.old before (D.holds disk.old)
            → OnOk result (HasContents self.new contents.now (D.holds disk.new)) }

        // Whatever comes of the call, the file opens with the contents from before, or with these: as a read gives it, and in
        // each image that a crash may leave.
        ensures crash { (before : List (List ℕ)) → HasContents self.old before (D.holds disk.old)
            → FindsOldOrNew self.old before contents.now (D.holds disk.new) }
    {
        if self.halted {
            return Err(CompactStop::Halted);
        }
        let area = spell_area(alloc, contents.as_slice())?;
        let start = other_area(self.start);
        disk.prepare(start + area.len() as u64, 4)?;
        match write_area(disk, start, area.as_slice()) {
            Ok(()) => {
                self.start = start;
                self.records = contents.len() as u32;
                self.spare = 0;
                Ok(())
            }
            Err(_) => {
                self.halt();
                Err(CompactStop::StoreFault)
            }
        }
    }

    /// Puts contents behind the others, one after the other; its condition is that the spare is enough for all of them. It
    /// makes four calls of the device for each, and takes no memory. Of contents that aren't all committed `records` tells
    /// how many are.
    pub fn commit_all<D: Disk>(
        &mut self,
        disk: &mut D,
        contents: &[[u8; 31]],
    ) -> Result<(), JournalStop>
        requires spare { length contents.now ≤ self.old.spare }
        requires room { self.old.halted ≡ false → HasRoom D.reach D.calls_left self.old disk.old }
        ensures room { OnOk result (HasRoom D.reach D.calls_left self.new disk.new) }
        ensures state { OnOk result (self.new ≡ record self.old { records = self.old.records + length contents.now; spare = self.old.spare - length contents.now }) }
        ensures cause { SomeHaveCause (length contents.now) self.old self.new (D.faults disk.old) (D.faults disk.new) result }
        ensures halted { self.old.halted ≡ true → D.holds disk.new ≡ D.holds disk.old }
        ensures tells { is_some (D.holds disk.new) ≡ is_some (D.holds disk.old) }

        // At `Ok` the journal has the contents from before, and these behind them.
        ensures committed { (before : List (List ℕ)) → HasContents self.old before (D.holds disk.old)
            → OnOk result (HasContents self.new (before ++ contents.now) (D.holds disk.new)) }

        // Whatever comes of the call, the file opens with the contents from before and the first few of these, and with as
        // many of these at least as the journal says that it took.
        ensures crash { (before : List (List ℕ)) → HasContents self.old before (D.holds disk.old)
            → FindsBeforeAndFirst self.old before contents.now (self.new.records - self.old.records) (D.holds disk.new) }
    {
        if self.is_halted() {
            return Err(JournalStop::Halted);
        }
        for content in contents {
            self.commit(disk, content)?;
        }
        Ok(())
    }
}
