ghost use Rattle.std.specs.Prelude.{◌≡◌, ◌≤◌, length, false, IfSome};
ghost use Rattle.checkpoint_journal.specs.State.{HasRoom};

use crate::compaction_tests::{are_answered, compactions, goes_on};
use crate::judging::none_is_wrong;
use checkpoint_journal::*;
use disk_core::{Disk, Fails, MemoryDisk, StopDisk};
use std::alloc::Global;
use wire_base::{Bytes, Contents, NoMemory};

/// The first bytes of the journal of the LAC with the number 1, up to its selector.
const HEAD: &[u8] = b"OL2TPCKP1\x01\x01\0\0\0\0\0\0\0\0\0\0\0\0\0\0\0\0\0\0\0\0";

pub(crate) const ONE: [u8; 31] =
    *b"\x01\x01\0\0\0\x40\0\0\0\0\0\0\0\0\0\0\0\0\0\0\0\0\0\0\0\0\0\0\0\0\0";

pub(crate) const TWO: [u8; 31] =
    *b"\x01\x02\0\0\0\x40\0\0\0\0\0\0\0\0\0\0\0\0\0\0\0\0\0\0\0\0\0\0\0\0\0";

/// The same space again, up to a higher number.
pub(crate) const HIGHER: [u8; 31] =
    *b"\x01\x02\0\0\0\x80\0\0\0\0\0\0\0\0\0\0\0\0\0\0\0\0\0\0\0\0\0\0\0\0\0";

pub(crate) const TUNNEL: [u8; 31] =
    *b"\x02\0\x01\0\x01\x0a\0\0\x02\0\x08\0\x03\0\0\0\0\0\0\0\0\0\0\0\0\0\0\0\0\0\0";

const CALL: [u8; 31] =
    *b"\x04\0\x01\0\x01\0\x01\xff\xff\0\0\0\x01\0\0\0\0\0\0\0\0\0\0\0\0\0\0\0\0\0\0";

/// Bytes, and how many times they stand behind one another.
type Piece<'a> = (&'a [u8], u32);

// A function that owns a disk or a journal has few ways out, and the others borrow it: so each is proved at little cost.
// Where memory is wanting a test fails, by false or None.

fn push_times(bytes: &mut Bytes, piece: &[u8], times: u32) -> Result<(), NoMemory> {
    for _ in 0..times {
        bytes.push_slice(piece)?;
    }
    Ok(())
}

fn push_pieces(bytes: &mut Bytes, pieces: &[Piece]) -> Result<(), NoMemory> {
    for (piece, times) in pieces {
        push_times(bytes, piece, *times)?;
    }
    Ok(())
}

/// A disk with a file of these pieces.
fn disk_of(alloc: Global, pieces: &[Piece]) -> Option<MemoryDisk> {
    let mut image = Bytes::new(alloc);
    let is_whole = push_pieces(&mut image, pieces).is_ok();
    match MemoryDisk::new(alloc, image, Fails::new(alloc)) {
        Ok(disk) if is_whole => Some(disk),
        _ => None,
    }
}

/// An empty disk of which the call of this number fails.
fn disk_that_fails(alloc: Global, call: u64) -> Option<MemoryDisk> {
    let fails = Fails::from_slice(alloc, &[call]).ok()?;
    MemoryDisk::new(alloc, Bytes::new(alloc), fails).ok()
}

/// At most two contents.
pub(crate) fn list_of(alloc: Global, contents: &[[u8; 31]]) -> Contents
    ensures { length result ≤ 2 }
{
    match Contents::from_slice(alloc, contents) {
        Ok(list) if list.len() <= 2 => list,
        _ => Contents::new(alloc),
    }
}

/// The first of the contents, so many of them.
fn first_of(contents: &[[u8; 31]], count: usize) -> &[[u8; 31]] {
    contents.get(..count).unwrap_or(contents)
}

/// A journal that is opened on the disk, with room for so many contents more.
pub(crate) fn ready<D: Disk>(alloc: Global, disk: &mut D, count: u32) -> Option<Journal>
    ensures spare { IfSome result (λ journal. count ≤ journal.spare) }
    ensures room { IfSome result (λ journal. HasRoom D.reach D.calls_left journal disk.new) }
    ensures runs { IfSome result (λ journal. journal.halted ≡ false) }
{
    let (mut journal, _) = open_disk(alloc, disk, 1, 1).ok()?;
    journal.prepare(disk, count).ok()?;
    Some(journal)
}

/// The disk opens with these contents.
fn opens_with(alloc: Global, disk: &mut MemoryDisk, wanted: &[[u8; 31]]) -> bool {
    match open_disk(alloc, disk, 1, 1) {
        Ok((journal, contents)) => {
            journal.records() as usize == wanted.len() && contents.as_slice() == wanted
        }
        Err(_) => false,
    }
}

/// A crash that keeps what isn't synced or loses it, or none; then the disk opens with these contents.
fn opens_after(
    alloc: Global,
    disk: &mut MemoryDisk,
    crash: Option<bool>,
    wanted: &[[u8; 31]],
) -> bool {
    if let Some(kept) = crash {
        disk.after_crash(kept);
    }
    opens_with(alloc, disk, wanted)
}

/// The same of what is on a disk that stopped.
pub(crate) fn stopped_opens_after(
    alloc: Global,
    disk: StopDisk,
    crash: Option<bool>,
    wanted: &[[u8; 31]],
) -> bool {
    let mut disk = disk.into_disk();
    opens_after(alloc, &mut disk, crash, wanted)
}

/// An empty disk that lets so many calls pass.
pub(crate) fn stopping(alloc: Global, passes: u64) -> Option<StopDisk> {
    let disk = disk_of(alloc, &[])?;
    Some(StopDisk::new(disk, passes))
}

/// The disk opens and takes a content.
fn takes(alloc: Global, disk: &mut MemoryDisk, content: &[u8; 31]) -> bool {
    match ready(alloc, disk, 1) {
        Some(mut journal) => journal.commit(disk, content).is_ok(),
        None => false,
    }
}

/// The disk opens and is compacted to these contents, which are at most two.
fn compacts(alloc: Global, disk: &mut MemoryDisk, contents: &[[u8; 31]]) -> bool {
    let list = list_of(alloc, contents);
    match ready(alloc, disk, 0) {
        Some(mut journal) => journal.compact(alloc, disk, &list).is_ok(),
        None => false,
    }
}

/// The disk has a file of these pieces.
fn holds(alloc: Global, disk: &MemoryDisk, pieces: &[Piece]) -> bool {
    let mut file = Bytes::new(alloc);
    push_pieces(&mut file, pieces).is_ok() && disk.bytes() == file.as_slice()
}

/// What is done with a disk, or found there.
enum Step {
    /// The disk opens and takes a content.
    Takes([u8; 31]),
    /// The disk opens and is compacted to these contents.
    Compacts(&'static [[u8; 31]]),
    /// A crash loses what isn't synced.
    Crashes,
    /// The disk opens with these contents.
    Opens(&'static [[u8; 31]]),
    /// The file has these pieces.
    Holds(&'static [Piece<'static>]),
    /// The file has so many bytes.
    Measures(usize),
    /// The file has this selector.
    Selects(u8),
    /// The disk opens with 1,048,576 contents, and has room for no more.
    IsFull,
    /// Two ceilings are committed and compacted to the second one.
    CompactsTwoCeilings,
    /// One journal commits, is compacted and commits again, and has so many records behind each.
    GoesOn([u32; 3]),
}

fn is_taken(alloc: Global, disk: &mut MemoryDisk, step: &Step) -> bool {
    match step {
        Step::Takes(content) => takes(alloc, disk, content),
        Step::Compacts(contents) => compacts(alloc, disk, contents),
        Step::Crashes => {
            disk.after_crash(false);
            true
        }
        Step::Opens(contents) => opens_with(alloc, disk, contents),
        Step::Holds(pieces) => holds(alloc, disk, pieces),
        Step::Measures(len) => disk.bytes().len() == *len,
        Step::Selects(selector) => disk.bytes().get(31) == Some(selector),
        Step::IsFull => has_no_room(alloc, disk),
        Step::CompactsTwoCeilings => are_answered(compactions(alloc, disk), true),
        Step::GoesOn(records) => goes_on(alloc, disk) == Some(*records),
    }
}

fn are_taken(alloc: Global, disk: &mut MemoryDisk, steps: &[Step]) -> bool {
    for step in steps {
        if !is_taken(alloc, disk, step) {
            return false;
        }
    }
    true
}

/// A file of these pieces, and the steps that its disk takes.
type Run<'a> = (&'a [Piece<'a>], &'a [Step]);

fn runs(alloc: Global, pieces: &[Piece], steps: &[Step]) -> bool {
    match disk_of(alloc, pieces) {
        Some(mut disk) => are_taken(alloc, &mut disk, steps),
        None => false,
    }
}

fn all_run(alloc: Global, rows: &[Run]) -> bool {
    for (pieces, steps) in rows {
        if !runs(alloc, pieces, steps) {
            return false;
        }
    }
    true
}

/// A file of these pieces opens with these contents.
pub(crate) fn opens(alloc: Global, pieces: &[Piece], wanted: &[[u8; 31]]) -> bool {
    match disk_of(alloc, pieces) {
        Some(mut disk) => opens_with(alloc, &mut disk, wanted),
        None => false,
    }
}

/// What two commits and a wish for more room are answered.
type Answers = (
    Result<(), JournalStop>,
    Result<(), JournalStop>,
    Result<(), JournalRoom>,
);

/// The answers of a journal that had room for two contents.
fn two_commits<D: Disk>(
    alloc: Global,
    disk: &mut D,
    first: &[u8; 31],
    second: &[u8; 31],
) -> Option<Answers> {
    let mut journal = ready(alloc, disk, 2)?;
    let one = journal.commit(disk, first);
    let two = journal.commit(disk, second);
    Some((one, two, journal.prepare(disk, 1)))
}

/// The answers where the first commit is made, and the second one too or it stops.
fn second_is(answers: Option<Answers>, made: bool) -> bool {
    match answers {
        Some((one, two, _)) => one.is_ok() && two.is_ok() == made,
        None => false,
    }
}

/// Two commits of which the device lets so many calls pass, and a crash behind them, which keeps what isn't synced or
/// loses it, leave so many of the contents.
fn is_left(alloc: Global, passes: u64, kept: bool, left: usize) -> bool {
    match stopping(alloc, passes) {
        Some(mut disk) => {
            let answers = two_commits(alloc, &mut disk, &ONE, &TUNNEL);
            second_is(answers, passes == 14)
                && stopped_opens_after(alloc, disk, Some(kept), first_of(&[ONE, TUNNEL], left))
        }
        None => false,
    }
}

/// Two commits of which the second call of the device fails are answered so, and leave nothing.
fn halts(alloc: Global) -> bool {
    // Opening makes six calls of the device, so the eighth is the second of the commit.
    match stopping(alloc, 7) {
        Some(mut disk) => {
            let answers = two_commits(alloc, &mut disk, &ONE, &ONE);
            answers == stopped_at_once() && stopped_opens_after(alloc, disk, None, &[])
        }
        None => false,
    }
}

/// The answers where the first commit stops.
fn stopped_at_once() -> Option<Answers> {
    Some((
        Err(JournalStop::StoreFault),
        Err(JournalStop::Halted),
        Err(JournalRoom::Halted),
    ))
}

/// The answers of two commits to a disk of which this call fails. The first six calls open the disk, and each commit makes
/// four; no call has the number 0.
fn answers_to_a_fault(call: u64) -> Option<Answers> {
    match call {
        1..=6 => None,
        7..=10 => stopped_at_once(),
        11..=14 => Some((
            Ok(()),
            Err(JournalStop::StoreFault),
            Err(JournalRoom::Halted),
        )),
        _ => Some((Ok(()), Ok(()), Ok(()))),
    }
}

/// Two commits to a disk of which one call of the device fails leave so many of the contents, as they are read again at once
/// and after a crash.
fn is_left_by_a_fault(alloc: Global, call: u64, crash: Option<bool>, left: usize) -> bool {
    match disk_that_fails(alloc, call) {
        Some(mut disk) => {
            let answers = two_commits(alloc, &mut disk, &ONE, &TUNNEL);
            answers == answers_to_a_fault(call)
                && opens_after(alloc, &mut disk, crash, first_of(&[ONE, TUNNEL], left))
        }
        None => false,
    }
}

fn opens_or_faults(alloc: Global, disk: &mut StopDisk) -> bool {
    matches!(
        open_disk(alloc, disk, 1, 1).err(),
        None | Some(JournalOpen::StoreFault)
    )
}

/// Opening a disk that stops after so many calls, and a crash behind it, leave a disk that opens with the same contents as
/// before.
fn is_opened_safely(
    alloc: Global,
    pieces: &[Piece],
    passes: u64,
    kept: bool,
    contents: &[[u8; 31]],
) -> bool {
    match disk_of(alloc, pieces) {
        Some(disk) => {
            let mut disk = StopDisk::new(disk, passes);
            opens_or_faults(alloc, &mut disk)
                && stopped_opens_after(alloc, disk, Some(kept), contents)
        }
        None => false,
    }
}

/// Three commits in one call, and a crash behind them: whether they are acknowledged, and what the disk opens with then.
fn reopens_with(
    alloc: Global,
    disk: &mut StopDisk,
    kept: bool,
    acknowledged: bool,
    wanted: &[[u8; 31]],
) -> bool {
    match ready(alloc, disk, 3) {
        Some(journal) => {
            match commit_and_crash(alloc, journal, disk, &[ONE, TUNNEL, CALL], kept) {
                Ok(reopened) => {
                    reopened.acknowledged == acknowledged && reopened.contents.as_slice() == wanted
                }
                Err(_) => false,
            }
        }
        None => false,
    }
}

/// Three commits in one call, on a disk that stops after so many of its twelve calls and crashes, leave so many contents.
fn are_left(alloc: Global, passes: u64, kept: bool, left: usize) -> bool {
    let wanted = [ONE, TUNNEL, CALL];
    match stopping(alloc, passes.saturating_add(6)) {
        Some(mut disk) => reopens_with(
            alloc,
            &mut disk,
            kept,
            passes == 12,
            first_of(&wanted, left),
        ),
        None => false,
    }
}

/// The disk tells that it is no journal, and this place, and stays as it is.
fn refuses(
    alloc: Global,
    disk: &mut MemoryDisk,
    image: &[u8],
    kind: u8,
    number: u8,
    at: u64,
) -> bool {
    let fault = open_disk(alloc, disk, kind, number).err();
    fault == Some(JournalOpen::NotJournal { at }) && disk.bytes() == image
}

fn is_refused(alloc: Global, image: &[u8], kind: u8, number: u8, at: u64) -> bool {
    match disk_of(alloc, &[(image, 1)]) {
        Some(mut disk) => refuses(alloc, &mut disk, image, kind, number, at),
        None => false,
    }
}

/// A commit of a second content whose first write was torn: the file ends after so many bytes of it, whatever these are.
fn is_torn_in_its_content(alloc: Global, gate: u8, count: u32, byte: u8) -> bool {
    opens(
        alloc,
        &[
            (HEAD, 1),
            (b"CO", 1),
            (&ONE, 1),
            (&[gate], 1),
            (&[byte], count),
        ],
        &[ONE],
    )
}

/// A commit of a second content whose second write was torn: any byte may stand at its gate.
fn is_torn_at_its_gate(alloc: Global, gate: u8) -> bool {
    let left: &[[u8; 31]] = if gate == b'O' { &[ONE, TUNNEL] } else { &[ONE] };
    opens(
        alloc,
        &[
            (HEAD, 1),
            (b"CO", 1),
            (&ONE, 1),
            (&[gate], 1),
            (&TUNNEL, 1),
            (b"C", 1),
        ],
        left,
    )
}

/// The journal has room for no content more.
fn is_full<D: Disk>(journal: &mut Journal, disk: &mut D) -> bool
    requires { journal.old.halted ≡ false → HasRoom D.reach D.calls_left journal.old disk.old }
{
    let one = journal.prepare(disk, 1);
    let none = journal.prepare(disk, 0);
    one == Err(JournalRoom::StoreFull { records: 1_048_576 }) && none.is_ok()
}

/// The disk opens with 1,048,576 contents, and has room for no more.
fn has_no_room(alloc: Global, disk: &mut MemoryDisk) -> bool {
    match open_disk(alloc, disk, 1, 1) {
        Ok((journal, contents)) => {
            let mut journal = journal;
            contents.len() == 1_048_576 && is_full(&mut journal, disk)
        }
        Err(_) => false,
    }
}

const EMPTY: &[Step] = &[
    Step::Opens(&[]),
    Step::Holds(&[(
        b"OL2TPCKP1\x01\x01\0\0\0\0\0\0\0\0\0\0\0\0\0\0\0\0\0\0\0\0CC",
        1,
    )]),
];

const FOUR_CONTENTS: &[Step] = &[
    Step::Takes(ONE),
    Step::Crashes,
    Step::Takes(TWO),
    Step::Crashes,
    Step::Takes(TUNNEL),
    Step::Crashes,
    Step::Takes(CALL),
    Step::Crashes,
    Step::Measures(161),
    Step::Holds(&[
        (HEAD, 1),
        (b"CO", 1),
        (&ONE, 1),
        (b"O", 1),
        (&TWO, 1),
        (b"O", 1),
        (&TUNNEL, 1),
        (b"O", 1),
        (&CALL, 1),
        (b"C", 1),
    ]),
    Step::Opens(&[ONE, TWO, TUNNEL, CALL]),
];

const COMMITS_AND_COMPACTIONS: &[Step] = &[
    Step::Takes(TWO),
    Step::Compacts(&[ONE]),
    Step::Selects(0x4f),
    Step::Opens(&[ONE]),
    Step::Takes(TUNNEL),
    Step::Opens(&[ONE, TUNNEL]),
    Step::Compacts(&[CALL, HIGHER]),
    Step::Selects(0x43),
    Step::Opens(&[CALL, HIGHER]),
    Step::Takes(TWO),
    Step::Opens(&[CALL, HIGHER, TWO]),
];

const ONE_CEILING: &[Step] = &[
    Step::CompactsTwoCeilings,
    Step::Measures(33_554_529),
    Step::Selects(0x4f),
    Step::Opens(&[HIGHER]),
];

const ONE_JOURNAL: &[Step] = &[
    Step::GoesOn([1, 1, 2]),
    Step::Measures(33_554_561),
    Step::Selects(0x4f),
    Step::Opens(&[ONE, TUNNEL]),
];

/// A journal whose second area is chosen, with one content there.
const SECOND_AREA: &[Piece] = &[
    (HEAD, 1),
    (b"O", 1),
    (&[0; 32], 1_048_577),
    (b"O", 1),
    (&ONE, 1),
    (b"C", 1),
];

const IN_THE_SECOND_AREA: &[Step] = &[
    Step::Takes(TWO),
    Step::Measures(33_554_496 + 65),
    Step::Opens(&[ONE, TWO]),
];

/// A journal with as many contents as it may have.
const FULL: &[Piece] = &[
    (HEAD, 1),
    (b"C", 1),
    (
        b"O\0\0\0\0\0\0\0\0\0\0\0\0\0\0\0\0\0\0\0\0\0\0\0\0\0\0\0\0\0\0\0",
        1_048_576,
    ),
    (b"O", 1),
];

const SMALL_RUNS: [Run; 2] = [(&[], EMPTY), (&[], FOUR_CONTENTS)];

#[test]
fn contents_are_read_again(rt: HostRuntime) {
    assert!(rt; all_run(rt.alloc(), &SMALL_RUNS));
}

const LARGE_RUNS: [Run; 5] = [
    (&[], COMMITS_AND_COMPACTIONS),
    (&[], ONE_CEILING),
    (&[], ONE_JOURNAL),
    (SECOND_AREA, IN_THE_SECOND_AREA),
    (FULL, &[Step::IsFull]),
];

#[test]
fn the_selector_chooses_one_of_two_areas(rt: HostRuntime) {
    assert!(rt; all_run(rt.alloc(), &LARGE_RUNS));
}

const ENDED: &[u8] = b"OL2TPCKP1\x01\x01\0\0\0\0\0\0\0\0\0\0\0\0\0\0\0\0\0\0\0\0C";

const CUT: &[u8] =
    b"OL2TPCKP1\x01\x01\0\0\0\0\0\0\0\0\0\0\0\0\0\0\0\0\0\0\0\0CO\0\0\0\0\0\0\0\0\0\0\0\0\0\0\0\0\0";

/// Images that are no journal of this kind and number, and the places that are told.
const NO_JOURNALS: [(&[u8], u8, u8, u64); 9] = [
    (&[0; 40], 1, 1, 0),
    (b"O", 1, 1, 1),
    (b"OL2TPCKP2", 1, 1, 8),
    (HEAD, 2, 1, 9),
    (HEAD, 1, 2, 10),
    (
        b"OL2TPCKP1\x01\x01\0\0\0\0\0\0\0\0\0\0\0\0\0\0\0\0\0\0\0",
        1,
        1,
        30,
    ),
    (HEAD, 1, 1, 31),
    (ENDED, 1, 1, 32),
    (CUT, 1, 1, 50),
];

/// The place of the first of these images that isn't refused so.
fn first_taken(alloc: Global) -> Option<u64> {
    for (image, kind, number, at) in &NO_JOURNALS {
        if !is_refused(alloc, image, *kind, *number, *at) {
            return Some(*at);
        }
    }
    None
}

#[test]
fn a_file_that_is_no_journal_tells_the_place(rt: HostRuntime) {
    none_is_wrong(&rt, first_taken(rt.alloc()));
}

/// How many calls of the device pass, and how many contents are left by a crash that loses what isn't synced, and by one that
/// keeps it. Opening makes six calls of the device, and each commit four.
const STOPS_IN_A_COMMIT: [(u64, usize, usize); 5] = [
    (10, 1, 1),
    (11, 1, 1),
    (12, 1, 2),
    (13, 1, 2),
    (14, 2, 2),
];

fn first_wrong_stop(alloc: Global) -> Option<u64> {
    for (passes, lost, kept) in &STOPS_IN_A_COMMIT {
        if !is_left(alloc, *passes, false, *lost) || !is_left(alloc, *passes, true, *kept) {
            return Some(*passes);
        }
    }
    None
}

#[test]
fn a_commit_stops_at_each_call_of_the_device(rt: HostRuntime) {
    none_is_wrong(&rt, first_wrong_stop(rt.alloc()));
    assert!(rt; halts(rt.alloc()));
}

/// The call that fails, and how many contents are left where a crash loses what isn't synced, and where it is kept or read.
/// A write that fails is pending: a crash loses it or keeps it, and a read gives it.
const FAULTS: [(u64, usize, usize); 15] = [
    (1, 0, 0),
    (2, 0, 0),
    (3, 0, 0),
    (4, 0, 0),
    (5, 0, 0),
    (6, 0, 0),
    (7, 0, 0),
    (8, 0, 0),
    (9, 0, 1),
    (10, 0, 1),
    (11, 1, 1),
    (12, 1, 1),
    (13, 1, 2),
    (14, 1, 2),
    (0, 2, 2),
];

fn first_wrong_fault(alloc: Global) -> Option<u64> {
    for (call, lost, kept) in &FAULTS {
        let is_lost = is_left_by_a_fault(alloc, *call, Some(false), *lost);
        let is_kept = is_left_by_a_fault(alloc, *call, Some(true), *kept);
        let is_read = is_left_by_a_fault(alloc, *call, None, *kept);
        if !is_lost || !is_kept || !is_read {
            return Some(*call);
        }
    }
    None
}

#[test]
fn each_call_of_the_device_fails_in_turn(rt: HostRuntime) {
    none_is_wrong(&rt, first_wrong_fault(rt.alloc()));
}

/// After how many calls of the device an opening isn't safe.
fn first_wrong_opening(alloc: Global, kept: bool) -> Option<u64> {
    let file = [(HEAD, 1), (b"CO".as_slice(), 1), (&ONE, 1), (b"C", 1)];
    for passes in 0..=6u64 {
        let is_empty = is_opened_safely(alloc, &[], passes, kept, &[]);
        if !is_empty || !is_opened_safely(alloc, &file, passes, kept, &[ONE]) {
            return Some(passes);
        }
    }
    None
}

#[test]
fn opening_stops_at_each_call_of_the_device(rt: HostRuntime) {
    none_is_wrong(&rt, first_wrong_opening(rt.alloc(), false));
    none_is_wrong(&rt, first_wrong_opening(rt.alloc(), true));
}

/// How many calls of the device pass, and how many of three contents are left by a crash that loses what isn't synced, and by
/// one that keeps it.
const STOPS_IN_THREE_COMMITS: [(u64, usize, usize); 13] = [
    (0, 0, 0),
    (1, 0, 0),
    (2, 0, 1),
    (3, 0, 1),
    (4, 1, 1),
    (5, 1, 1),
    (6, 1, 2),
    (7, 1, 2),
    (8, 2, 2),
    (9, 2, 2),
    (10, 2, 3),
    (11, 2, 3),
    (12, 3, 3),
];

fn first_wrong_stop_of_three(alloc: Global) -> Option<u64> {
    for (passes, lost, kept) in &STOPS_IN_THREE_COMMITS {
        if !are_left(alloc, *passes, false, *lost) || !are_left(alloc, *passes, true, *kept) {
            return Some(*passes);
        }
    }
    None
}

#[test]
fn three_commits_stop_at_each_call_of_the_device(rt: HostRuntime) {
    none_is_wrong(&rt, first_wrong_stop_of_three(rt.alloc()));
}

fn first_wrong_length(alloc: Global, byte: u8) -> Option<u64> {
    for count in 0..=32u32 {
        if !is_torn_in_its_content(alloc, b'C', count, byte) {
            return Some(u64::from(count));
        }
    }
    None
}

fn first_wrong_gate(alloc: Global) -> Option<u64> {
    for gate in 0..=255u8 {
        if !is_torn_at_its_gate(alloc, gate) {
            return Some(u64::from(gate));
        }
    }
    None
}

#[test]
fn a_torn_write_leaves_whole_contents(rt: HostRuntime) {
    for byte in b"\0CO\xff" {
        none_is_wrong(&rt, first_wrong_length(rt.alloc(), *byte));
    }
    none_is_wrong(&rt, first_wrong_gate(rt.alloc()));
}
