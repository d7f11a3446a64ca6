//! The store of one end.

ghost use Rattle.std.specs.Prelude.{◌≡◌, ◌≤◌, ◌<◌, ◌-◌, ◌++◌, ◌∷◌, [], ℕ, List, length, min, IfOk, OnOk, OnErr, IfSome, Some, is_some, true, false};
ghost use Rattle.std.specs.List.{AllByRecursion};
ghost use Rattle.checkpoint_journal.specs.Format.{most_records, opens, other_area};
ghost use Rattle.checkpoint_journal.specs.State.{opened_at, HasRoom};
ghost use Rattle.checkpoint_journal.specs.Answers.{Opens, OpenHasCause, IsUnwritten, IsSafe, IsMadeNew, RoomHasCause, StopHasCause, SomeHaveCause, CompactHasCause, CompactLeaves};
ghost use Rattle.session_book.specs.Books.{fits, book_of};
ghost use Rattle.session_book.specs.Records.{record_of};
ghost use Rattle.session_book.specs.Spelling.{content_of, contents_of};
ghost use Rattle.step_ledger.specs.Committing.{IsUnmarked};
ghost use Rattle.end_store.specs.Records.{fitting, spelled};
ghost use Rattle.end_store.specs.Stored.{placed, reads, IsRead, prepared, with_record, with_records, IsStored, IsKept, IsLeftBehind, FindsFirst, FindsBook, StepHasCause, StepLeaves, compacted_to_book};

use crate::spelling::spell;
use checkpoint_journal::{CompactStop, Journal, JournalOpen, JournalRoom, JournalStop, open_disk};
use disk_core::Disk;
use session_book::{Book, BookError, Record};
use std::alloc::Global;
use std::marker::Model;
use wire_base::Contents;

/// Why the records of a step weren't committed.
#[derive(Clone, Copy, PartialEq, Eq)]
pub enum StoreStop {
    /// The disk failed. The store is halted until it is opened again.
    StoreFault,
    /// The journal has so many records, and with those of the step they pass the limit.
    StoreFull { records: u32 },
    /// The disk failed at an earlier call.
    Halted,
    /// Memory was wanting.
    NoMemory,
}

/// The store of one end, on a disk that is handed to each call. Between two calls the disk is as the last one left it.
#[derive(Drop)]
pub struct Store {
    journal: Journal,
    book: Book,
}

impl Model for Store {
    ghost use Rattle.end_store.specs.Stored.{Stored};

    ghost Value = { Stored };

    ghost view = { λ s. record { journal = s.journal; kept = s.book.kept; spare = s.book.spare } };
}

/// How many records these are, as far as 32 bits can tell.
fn count_of(records: &[Record]) -> u32
    ensures { result ≡ min (length records.now) 4294967295 }
{
    match u32::try_from(records.len()) {
        Ok(count) => count,
        Err(_) => u32::MAX,
    }
}

/// The book of a journal's contents, or the place in the file at which the first content begins that isn't in place.
fn read_book(alloc: Global, journal: &Journal, contents: &Contents) -> Result<Book, JournalOpen>
    requires few { length contents.now ≤ most_records }
    ensures { IsRead (placed journal.now.start (book_of contents.now)) result }
{
    match Book::of_contents(alloc, contents) {
        Ok(book) => Ok(book),
        Err(BookError::BadRecord { at }) => Err(JournalOpen::NotJournal {
            at: journal.content_place(at as u32),
        }),
        Err(BookError::NoMemory) => Err(JournalOpen::NoMemory),
    }
}

impl Store {
    /// Opens the store on a disk: `kind` is 1 for a LAC's and 2 for an LNS's, `number` is the node's. A file of at most 33 bytes
    /// whose first one isn't an open gate is made new. It begins with a sync. Where a content isn't in place, the file is no
    /// journal, told by the place of that content's first byte; nothing is written then.
    pub fn open<D: Disk>(
        alloc: Global,
        disk: &mut D,
        kind: u8,
        number: u8,
    ) -> Result<Store, JournalOpen>
        // The book of the file's contents, or the place at which it is refused.
        ensures opens { IfSome (D.holds disk.old) (λ held. Opens (λ s. s.kept) (reads kind number held.bytes) result) }

        // It has as many records as the file has contents.
        ensures count { IfOk result (λ s. IfSome (D.holds disk.old) (λ held. IfOk (opens kind number held.bytes) (λ contents. length contents ≡ s.journal.records))) }

        // The store is of that kind and node, and its book is that of what the disk holds.
        ensures journal { IfOk result (λ s. s.journal ≡ opened_at kind number s.journal.start s.journal.records) }
        ensures kept { IfOk result (λ s. IsKept s (D.holds disk.new)) }
        ensures room { IfOk result (λ s. HasRoom D.reach D.calls_left s.journal disk.new) }

        // Whatever comes of the call, a file that isn't made new isn't written, and a crash in it leaves nothing new.
        ensures unwritten { IfSome (D.holds disk.old) (IsUnwritten (D.holds disk.new)) }
        ensures safe { IfSome (D.holds disk.old) (IsSafe (D.holds disk.new)) }
        ensures refused { IfSome (D.holds disk.old) (IsLeftBehind kind number (D.holds disk.new) result) }
        ensures made_new { OnOk result (IfSome (D.holds disk.old) (IsMadeNew kind number (D.holds disk.new))) }
        ensures cause { OpenHasCause (D.faults disk.old) (D.faults disk.new) result }
    {
        let (journal, contents) = open_disk(alloc, disk, kind, number)?;
        let book = read_book(alloc, &journal, &contents)?;
        Ok(Store { journal, book })
    }

    /// Whose it is: 1 for a LAC's, 2 for an LNS's.
    pub fn kind(&self) -> u8
        ensures { result ≡ self.now.journal.kind }
    {
        self.journal.kind()
    }

    /// The node's number.
    pub fn number(&self) -> u8
        ensures { result ≡ self.now.journal.number }
    {
        self.journal.number()
    }

    /// The book of the records that are on the disk.
    pub fn book(&self) -> &Book
        ensures { result.now.kept ≡ self.now.kept }
    {
        &self.book
    }

    /// How many records the area in use of the journal has.
    pub fn records(&self) -> u32
        ensures { result ≡ self.now.journal.records }
    {
        self.journal.records()
    }

    /// Whether the disk failed at an earlier call: then nothing more is committed until the store is opened again.
    pub fn is_halted(&self) -> bool
        ensures { result ≡ self.now.journal.halted }
    {
        self.journal.is_halted()
    }

    /// Makes room for so many records: on the disk, for the calls of each, and in the book. It makes no call of the device. Where
    /// it is refused, the store is as before but for the room on its disk. Where the disk has room already, it is left alone.
    pub fn prepare<D: Disk>(&mut self, disk: &mut D, count: u32) -> Result<(), JournalRoom>
        requires room { self.old.journal.halted ≡ false → HasRoom D.reach D.calls_left self.old.journal disk.old }
        ensures room { self.old.journal.halted ≡ false → HasRoom D.reach D.calls_left self.new.journal disk.new }
        ensures ok { OnOk result (self.new ≡ prepared count self.old) }
        ensures err { OnErr result (self.new ≡ record self.old { journal = record self.old.journal { spare = self.new.journal.spare } }) }
        ensures disk { D.holds disk.new ≡ D.holds disk.old }
        ensures untouched { count ≤ self.old.journal.spare → disk.new ≡ disk.old }
        ensures stored { (contents : List (List ℕ)) → IsStored self.old contents (D.holds disk.old) → IsStored self.new contents (D.holds disk.new) }
        ensures faults { D.faults disk.new ≡ D.faults disk.old }
        ensures cause { RoomHasCause self.old.journal count result }
    {
        self.journal.prepare(disk, count)?;
        self.book.reserve(count)?;
        Ok(())
    }

    /// Commits a record; its condition is that the spare isn't 0. One that isn't in place doesn't touch the disk.
    fn commit_one<D: Disk>(&mut self, disk: &mut D, next: &Record) -> Result<(), JournalStop>
        requires spare { (0 < self.old.spare) × (0 < self.old.journal.spare) }
        requires room { self.old.journal.halted ≡ false → HasRoom D.reach D.calls_left self.old.journal disk.old }
        requires unmarked { IsUnmarked next.now }
        ensures room { OnOk result (HasRoom D.reach D.calls_left self.new.journal disk.new) }
        ensures state { OnOk result (self.new ≡ with_record self.old next.now) }
        ensures cause { StopHasCause self.old.journal self.new.journal (D.faults disk.old) (D.faults disk.new) result }
        ensures in_place { self.old.journal.halted ≡ false → OnErr result (fits self.old.kept next.now ≡ true) }
        ensures halted { self.old.journal.halted ≡ true → D.holds disk.new ≡ D.holds disk.old }
        ensures untouched { fits self.old.kept next.now ≡ false → disk.new ≡ disk.old }
        ensures tells { is_some (D.holds disk.new) ≡ is_some (D.holds disk.old) }
        ensures read { record_of (content_of next.now) ≡ Some next.now }
        ensures stored { (before : List (List ℕ)) → IsStored self.old before (D.holds disk.old)
            → OnOk result (IsStored self.new (before ++ spelled (fitting self.old.kept (next.now ∷ []))) (D.holds disk.new)) }
        ensures crash { (before : List (List ℕ)) → IsStored self.old before (D.holds disk.old)
            → FindsFirst self.old before (next.now ∷ []) 0 (D.holds disk.new) }
    {
        let content = spell(next);
        if self.journal.is_halted() {
            return Err(JournalStop::Halted);
        }
        if !self.book.apply_record(*next) {
            return Ok(());
        }
        self.journal.commit(disk, &content)
    }

    /// Commits records, one behind the other; its condition is that the spare is enough for all of them, and that no tunnel
    /// comes up with a mark. It makes four calls of the device for each that is in place, and takes no memory. Where none
    /// is, it doesn't touch the disk. Once the disk failed, the book isn't that of the disk until the store is opened again.
    pub fn commit<D: Disk>(&mut self, disk: &mut D, records: &[Record]) -> Result<(), JournalStop>
        requires spare { (length records.now ≤ self.old.spare) × (length records.now ≤ self.old.journal.spare) }
        requires room { self.old.journal.halted ≡ false → HasRoom D.reach D.calls_left self.old.journal disk.old }
        requires unmarked { AllByRecursion IsUnmarked records.now }
        ensures room { OnOk result (HasRoom D.reach D.calls_left self.new.journal disk.new) }
        ensures state { OnOk result (self.new ≡ with_records self.old records.now) }
        ensures cause { SomeHaveCause (length (fitting self.old.kept records.now)) self.old.journal self.new.journal (D.faults disk.old) (D.faults disk.new) result }
        ensures halted { self.old.journal.halted ≡ true → (self.new ≡ self.old) × (D.holds disk.new ≡ D.holds disk.old) }
        ensures untouched { fitting self.old.kept records.now ≡ [] → disk.new ≡ disk.old }
        ensures tells { is_some (D.holds disk.new) ≡ is_some (D.holds disk.old) }

        // At `Ok` the disk has the contents from before, and behind them those of the records that are in place.
        ensures stored { (before : List (List ℕ)) → IsStored self.old before (D.holds disk.old)
            → OnOk result (IsStored self.new (before ++ spelled (fitting self.old.kept records.now)) (D.holds disk.new)) }

        // Whatever comes of the call, the file opens with the book from before and the first few of the records that are in
        // place, and with as many of these at least as the journal says that it took.
        ensures crash { (before : List (List ℕ)) → IsStored self.old before (D.holds disk.old)
            → FindsFirst self.old before records.now (self.new.journal.records - self.old.journal.records) (D.holds disk.new) }
    {
        if self.is_halted() {
            return Err(JournalStop::Halted);
        }
        for next in records {
            self.commit_one(disk, next)?;
        }
        Ok(())
    }

    /// Commits the records of a step: makes room for all of them, and then commits one behind the other. Where it is refused but
    /// by a fault, the store is as before but for the room on its disk. Its condition is that no tunnel comes up with a mark.
    /// A step without records doesn't touch the disk, nor does one with none that is in place where there is room already.
    pub fn commit_step<D: Disk>(
        &mut self,
        disk: &mut D,
        records: &[Record],
    ) -> Result<(), StoreStop>
        requires room { self.old.journal.halted ≡ false → HasRoom D.reach D.calls_left self.old.journal disk.old }
        requires unmarked { AllByRecursion IsUnmarked records.now }
        ensures room { self.new.journal.halted ≡ false → HasRoom D.reach D.calls_left self.new.journal disk.new }
        ensures state { OnOk result (self.new ≡ with_records (prepared (length records.now) self.old) records.now) }
        ensures cause { StepHasCause records.now self.old self.new (D.faults disk.old) (D.faults disk.new) result }
        ensures refused { StepLeaves self.old self.new (D.holds disk.old) (D.holds disk.new) result }
        ensures untouched { records.now ≡ [] → disk.new ≡ disk.old }
        ensures none_in_place { length records.now ≤ self.old.journal.spare → fitting self.old.kept records.now ≡ [] → disk.new ≡ disk.old }
        ensures tells { is_some (D.holds disk.new) ≡ is_some (D.holds disk.old) }

        // At `Ok` the disk has the contents from before, and behind them those of the records that are in place.
        ensures stored { (before : List (List ℕ)) → IsStored self.old before (D.holds disk.old)
            → OnOk result (IsStored self.new (before ++ spelled (fitting self.old.kept records.now)) (D.holds disk.new)) }

        // Whatever comes of the call, the file opens with the book from before and the first few of the records that are in
        // place, and with as many of these at least as the journal says that it took.
        ensures crash { (before : List (List ℕ)) → IsStored self.old before (D.holds disk.old)
            → FindsFirst self.old before records.now (self.new.journal.records - self.old.journal.records) (D.holds disk.new) }
    {
        let count = count_of(records);
        match self.prepare(disk, count) {
            Err(JournalRoom::Halted) => Err(StoreStop::Halted),
            Err(JournalRoom::StoreFull { records }) => Err(StoreStop::StoreFull { records }),
            Err(JournalRoom::NoMemory) => Err(StoreStop::NoMemory),
            Ok(()) => match self.commit(disk, records) {
                Ok(()) => Ok(()),
                Err(JournalStop::Halted) => Err(StoreStop::Halted),
                Err(JournalStop::StoreFault) => Err(StoreStop::StoreFault),
            },
        }
    }

    /// Compacts the journal to what the book has: the contents of the book are its records then, in the area that wasn't in use,
    /// and those of tunnels and calls that came and went are gone. It makes four calls of the device, or none. Afterwards there is
    /// room on the disk for no record until it is made.
    pub fn compact<D: Disk>(&mut self, alloc: Global, disk: &mut D) -> Result<(), CompactStop>
        requires room { self.old.journal.halted ≡ false → HasRoom D.reach D.calls_left self.old.journal disk.old }
        ensures room { self.new.journal.halted ≡ false → HasRoom D.reach D.calls_left self.new.journal disk.new }
        ensures state { OnOk result (self.new ≡ compacted_to_book self.old) }
        ensures book { (self.new.kept ≡ self.old.kept) × (self.new.spare ≡ self.old.spare) }
        ensures cause { CompactHasCause self.old.journal self.new.journal (D.faults disk.old) (D.faults disk.new) result }
        ensures file { CompactLeaves (other_area self.old.journal.start) (contents_of self.old.kept) (D.holds disk.old) (D.holds disk.new) result }
        ensures tells { is_some (D.holds disk.new) ≡ is_some (D.holds disk.old) }

        // At `Ok` the disk has the contents of the book, and no others.
        ensures stored { (before : List (List ℕ)) → IsStored self.old before (D.holds disk.old)
            → OnOk result (IsStored self.new (contents_of self.old.kept) (D.holds disk.new)) }

        // Whatever comes of the call, the file opens with the book: with the contents from before, or with those of the book alone.
        ensures crash { (before : List (List ℕ)) → IsStored self.old before (D.holds disk.old)
            → FindsBook self.old before (D.holds disk.new) }
    {
        if self.is_halted() {
            return Err(CompactStop::Halted);
        }
        let contents = self.book.contents(alloc)?;
        self.journal.compact(alloc, disk, &contents)
    }
}
