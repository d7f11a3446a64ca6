//! The first bytes of a journal.

ghost use Rattle.std.specs.Prelude.{◌≡◌, ◌≤◌, ◌<◌, ◌⊎◌, [], ◌∷◌, ◌++◌, Some, length, IfOk, OnOk, OnErr, IfSome, true, false};
ghost use Rattle.wire_base.specs.Causes.{HasCause};
ghost use Rattle.disk_core.specs.Disk.{durable};
ghost use Rattle.disk_core.specs.Room.{SameRoom};
ghost use Rattle.checkpoint_journal.specs.Format.{first_area, second_area, closed_gate, header, differs, start_of, head_of, is_made, spelling};
ghost use Rattle.checkpoint_journal.specs.Commit.{IsHalfMade};
ghost use Rattle.checkpoint_journal.specs.Answers.{Opens, OpenHasCause};

use crate::area::{FIRST_AREA, SECOND_AREA};
use crate::open::JournalOpen;
use crate::record::{CLOSED, OPEN};
use disk_core::Disk;
use wire_base::Failed;

/// What stands in the bytes 1 to 30.
fn header_bytes(kind: u8, number: u8) -> [u8; 30]
    ensures { result ≡ header kind number }
{
    [
        b'L', b'2', b'T', b'P', b'C', b'K', b'P', b'1', kind, number, 0, 0, 0, 0, 0, 0, 0, 0, 0, 0,
        0, 0, 0, 0, 0, 0, 0, 0, 0, 0,
    ]
}

/// The first place, counted from 1, that doesn't have what is wanted there.
fn first_difference(wants: &[u8], bytes: &[u8]) -> Option<usize>
    requires { length wants.now ≤ 1000 }
    ensures { result ≡ differs 1 wants.now bytes.now }
{
    for i in 0..wants.len() {
        if i >= bytes.len() || bytes[i] != wants[i] {
            return Some(1 + i);
        }
    }
    None
}

/// Where the area in use begins, in a file that begins so.
#[tactic(auto, unfolding(crate::specs::Format::second_area))]
fn start_in(piece: &[u8]) -> u64
    ensures start { result ≡ start_of piece.now }
    ensures one { (result ≡ first_area) ⊎ (result ≡ second_area) }
{
    if piece.len() > 31 && piece[31] == OPEN {
        SECOND_AREA
    } else {
        FIRST_AREA
    }
}

/// Where the area in use of a journal begins whose file begins so, or nothing where the file is to be made new. An `Err`
/// has the place at which it isn't a journal.
fn judge(piece: &[u8], kind: u8, number: u8) -> Result<Option<u64>, usize>
    ensures head { result ≡ head_of kind number piece.now }
    ensures start { IfOk result (λ made. IfSome made (λ start. (start ≡ first_area) ⊎ (start ≡ second_area))) }
{
    let [gate, rest @ ..] = piece else {
        return Ok(None);
    };
    if *gate != OPEN {
        return if piece.len() > 33 { Err(0) } else { Ok(None) };
    }
    match first_difference(&header_bytes(kind, number), rest) {
        Some(at) => Err(at),
        None => Ok(Some(start_in(piece))),
    }
}

/// Where the area in use of the journal on a disk begins, or nothing where the file is to be made new.
pub fn read_head<D: Disk>(disk: &mut D, kind: u8, number: u8) -> Result<Option<u64>, JournalOpen>
    ensures read { IfSome (D.holds disk.old) (λ held. Opens (λ made. made) (head_of kind number held.bytes) result) }
    ensures start { IfOk result (λ made. IfSome made (λ start. (start ≡ first_area) ⊎ (start ≡ second_area))) }
    ensures kept { D.holds disk.new ≡ D.holds disk.old }
    ensures room { SameRoom D.reach D.calls_left disk.old disk.new }
    ensures cause { OpenHasCause (D.faults disk.old) (D.faults disk.new) result }
{
    let mut cells = [0u8; 34];
    let count = disk.read(0, &mut cells)?;
    let (piece, _) = cells.as_slice().split_at(count);
    match judge(piece, kind, number) {
        Ok(made) => Ok(made),
        Err(at) => Err(JournalOpen::NotJournal { at: at as u64 }),
    }
}

/// The bytes 1 to 32 of a new journal: the header, the selector and a closed gate.
fn fresh_bytes(kind: u8, number: u8) -> [u8; 32]
    ensures { result ≡ header kind number ++ closed_gate ∷ closed_gate ∷ [] }
{
    [
        b'L', b'2', b'T', b'P', b'C', b'K', b'P', b'1', kind, number, 0, 0, 0, 0, 0, 0, 0, 0, 0, 0,
        0, 0, 0, 0, 0, 0, 0, 0, 0, 0, CLOSED, CLOSED,
    ]
}

/// Makes a new journal. It makes four calls of the device.
pub fn make<D: Disk>(disk: &mut D, kind: u8, number: u8) -> Result<(), Failed>
    requires reach { 33 ≤ D.reach disk.old }
    requires calls { 4 ≤ D.calls_left disk.old }
    requires short { IfSome (D.holds disk.old) (λ held. length held.bytes ≤ 33) }
    ensures made { OnOk result (IfSome (D.holds disk.new) (λ held. held ≡ durable (spelling kind number []))) }
    ensures stopped { OnErr result (IsHalfMade kind number (D.holds disk.old) (D.holds disk.new)) }
    ensures tells { OnOk result (IfSome (D.holds disk.old) (λ _. D.holds disk.new ≡ Some (durable (spelling kind number [])))) }
    ensures cause { HasCause (D.faults disk.old) (D.faults disk.new) result }
{
    disk.write_at(1, &fresh_bytes(kind, number))?;
    disk.sync()?;
    disk.write_at(0, &[OPEN])?;
    disk.sync()
}
