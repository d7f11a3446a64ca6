//! The records of an area.

ghost use Rattle.std.specs.Prelude.{◌≡◌, ◌≤◌, ◌<◌, ◌+◌, ◌*◌, ◌^◌, length, drop, IfOk, IfSome};
ghost use Rattle.wire_base.specs.Causes.{HasCause};
ghost use Rattle.disk_core.specs.Room.{SameRoom};
ghost use Rattle.checkpoint_journal.specs.Format.{area_of, most_records};
ghost use Rattle.checkpoint_journal.specs.Found.{found_at};
ghost use Rattle.checkpoint_journal.specs.Answers.{Opens, OpenHasCause, EndsEarly, FaultHasCause};

use crate::open::JournalOpen;
use crate::record::is_open;
use disk_core::Disk;
use std::alloc::Global;
use wire_base::{Contents, Failed};

/// Where the first area begins, in bytes.
pub const FIRST_AREA: u64 = 32;

/// Where the second one begins.
pub const SECOND_AREA: u64 = 33_554_496;

/// The most records of an area.
pub const MOST_RECORDS: u32 = 1_048_576;

/// What stands at the place of a gate.
#[derive(Clone, Copy)]
pub enum Found {
    /// No byte.
    Nothing,
    /// A gate that isn't open.
    Shut,
    /// An open gate, and a content behind it.
    Content([u8; 31]),
    /// An open gate, and fewer bytes behind it than a content has.
    Part,
}

/// What bytes from the place of a gate on are.
fn found_in(piece: &[u8]) -> Found
    ensures { result ≡ found_at piece.now }
{
    let [gate, rest @ ..] = piece else {
        return Found::Nothing;
    };
    if !is_open(*gate) {
        return Found::Shut;
    }
    if rest.len() < 31 {
        return Found::Part;
    }
    let mut content = [0u8; 31];
    content.copy_from_slice(&rest[..31]);
    Found::Content(content)
}

/// What stands on a disk at the place of a gate.
fn read_gate<D: Disk>(disk: &mut D, at: u64) -> Result<Found, Failed>
    ensures found { IfOk result (λ found. IfSome (D.holds disk.old) (λ held. found ≡ found_at (drop at held.bytes))) }
    ensures kept { D.holds disk.new ≡ D.holds disk.old }
    ensures room { SameRoom D.reach D.calls_left disk.old disk.new }
    ensures cause { HasCause (D.faults disk.old) (D.faults disk.new) result }
{
    let mut cells = [0u8; 32];
    let count = disk.read(at, &mut cells)?;
    let (piece, _) = cells.as_slice().split_at(count);
    Ok(found_in(piece))
}

/// That a file ends where a gate should be.
fn ends_early<D: Disk>(disk: &mut D) -> JournalOpen
    ensures place { IfSome (D.holds disk.old) (λ held. EndsEarly (length held.bytes) result) }
    ensures kept { D.holds disk.new ≡ D.holds disk.old }
    ensures room { SameRoom D.reach D.calls_left disk.old disk.new }
    ensures cause { FaultHasCause (D.faults disk.old) (D.faults disk.new) result }
{
    match disk.len() {
        Ok(at) => JournalOpen::NotJournal { at },
        Err(_) => JournalOpen::StoreFault,
    }
}

/// Reads the records of the area that begins at `start`, up to the first gate that isn't open.
pub fn read_area<D: Disk>(alloc: Global, disk: &mut D, start: u64) -> Result<Contents, JournalOpen>
    requires { start < 2 ^ 32 }
    ensures read { IfSome (D.holds disk.old) (λ held. Opens (λ contents. contents) (area_of start held.bytes) result) }
    ensures few { IfOk result (λ contents. length contents ≤ most_records) }
    ensures kept { D.holds disk.new ≡ D.holds disk.old }
    ensures room { SameRoom D.reach D.calls_left disk.old disk.new }
    ensures cause { OpenHasCause (D.faults disk.old) (D.faults disk.new) result }
{
    let mut contents = Contents::new(alloc);
    for n in 0..MOST_RECORDS {
        match read_gate(disk, start + 32 * u64::from(n))? {
            Found::Content(content) => contents.push(content)?,
            Found::Shut => return Ok(contents),
            _ => return Err(ends_early(disk)),
        }
    }
    match read_gate(disk, start + 32 * u64::from(MOST_RECORDS))? {
        Found::Nothing => Err(ends_early(disk)),
        _ => Ok(contents),
    }
}
