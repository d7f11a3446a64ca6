//! One record on a disk.

ghost use Rattle.std.specs.Prelude.{◌≡◌, ◌≤◌, ◌<◌, ◌+◌, ◌^◌, ◌++◌, ◌∷◌, [], length, OnOk, OnErr, option_map};
ghost use Rattle.wire_base.specs.Causes.{HasCause};
ghost use Rattle.disk_core.specs.Disk.{wrote, settled};
ghost use Rattle.checkpoint_journal.specs.Format.{closed_gate, is_open};
ghost use Rattle.checkpoint_journal.specs.Commit.{commit_after, IsStopped};

use disk_core::Disk;
use wire_base::Failed;

/// An open gate.
pub const OPEN: u8 = 0x4f;

/// What a closed gate is written as.
pub const CLOSED: u8 = 0x43;

/// Whether a gate is open.
pub fn is_open(gate: u8) -> bool
    ensures { result ≡ is_open gate }
{
    gate == OPEN
}

/// A content with a closed gate behind it.
fn framed(content: &[u8; 31]) -> [u8; 32]
    ensures { result ≡ content.now ++ closed_gate ∷ [] }
{
    let mut cells = [CLOSED; 32];
    cells[..31].copy_from_slice(content);
    cells
}

/// Writes bytes from a place on, and makes them durable. It makes two calls of the device.
pub fn write_durably<D: Disk>(disk: &mut D, at: u64, piece: &[u8]) -> Result<(), Failed>
    requires reach { at + length piece.now ≤ D.reach disk.old }
    requires calls { 2 ≤ D.calls_left disk.old }
    ensures done { OnOk result (D.holds disk.new ≡ option_map (λ held. settled (wrote at piece.now held)) (D.holds disk.old)) }
    ensures stopped { OnErr result (D.holds disk.new ≡ option_map (wrote at piece.now) (D.holds disk.old)) }
    ensures reach { D.reach disk.new ≡ D.reach disk.old }
    ensures calls { OnOk result (D.calls_left disk.old ≤ D.calls_left disk.new + 2) }
    ensures cause { HasCause (D.faults disk.old) (D.faults disk.new) result }
{
    disk.write_at(at, piece)?;
    disk.sync()
}

/// Writes a content and a closed gate behind a gate, and opens that gate once both are on the disk. It makes four calls of
/// the device.
pub fn write_record<D: Disk>(disk: &mut D, gate: u64, content: &[u8; 31]) -> Result<(), Failed>
    requires reach { gate + 33 ≤ D.reach disk.old }
    requires calls { 4 ≤ D.calls_left disk.old }
    requires place { gate < 2 ^ 32 }
    ensures done { OnOk result (D.holds disk.new ≡ option_map (commit_after 4 gate content.now) (D.holds disk.old)) }
    ensures stopped { OnErr result (IsStopped gate content.now (D.holds disk.old) (D.holds disk.new)) }
    ensures reach { D.reach disk.new ≡ D.reach disk.old }
    ensures calls { OnOk result (D.calls_left disk.old ≤ D.calls_left disk.new + 4) }
    ensures cause { HasCause (D.faults disk.old) (D.faults disk.new) result }
{
    write_durably(disk, gate + 1, &framed(content))?;
    write_durably(disk, gate, &[OPEN])
}
