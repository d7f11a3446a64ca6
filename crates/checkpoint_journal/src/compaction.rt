//! The other area, written whole.

ghost use Rattle.std.specs.Prelude.{◌≡◌, ◌≤◌, ◌<◌, ◌+◌, ◌*◌, ◌∷◌, [], length, IfOk, OnOk, OnErr, option_map};
ghost use Rattle.std.specs.List.{AllByRecursion};
ghost use Rattle.wire_base.specs.Causes.{HasCause};
ghost use Rattle.checkpoint_journal.specs.Format.{spelled_area, other_area, selector, first_area};
ghost use Rattle.checkpoint_journal.specs.Commit.{compact_after, IsHalfCompacted};
ghost use Rattle.checkpoint_journal.specs.Laws.{Is31};

use crate::area::{FIRST_AREA, SECOND_AREA};
use crate::record::{CLOSED, OPEN, write_durably};
use disk_core::Disk;
use std::alloc::Global;
use wire_base::{Bytes, Failed, NoMemory as OutOfMemory};

/// Why a journal isn't compacted.
#[derive(Clone, Copy, PartialEq, Eq)]
pub enum CompactStop {
    /// The disk failed at an earlier call to this journal.
    Halted,
    /// The disk failed. The journal is halted until its disk is opened again.
    StoreFault,
    /// Memory was wanting. The journal and its disk are as before.
    NoMemory,
}

impl From<OutOfMemory> for CompactStop {
    ghost use Rattle.checkpoint_journal.specs.declared.compaction.CompactStop.TheVariants.{NoMemory};

    ghost from_gives = { λ _ e. e ≡ NoMemory };

    fn from(_e: OutOfMemory) -> CompactStop {
        CompactStop::NoMemory
    }
}

/// Where the area begins that isn't in use.
#[tactic(auto, unfolding(crate::specs::Format::second_area))]
pub fn other_area(start: u64) -> u64
    ensures { result ≡ other_area start }
{
    if start == FIRST_AREA {
        SECOND_AREA
    } else {
        FIRST_AREA
    }
}

/// The selector that chooses the area that begins there.
fn selector(start: u64) -> u8
    ensures { result ≡ selector start }
{
    if start == FIRST_AREA { CLOSED } else { OPEN }
}

/// An area with these contents: each behind an open gate, and a closed gate behind the last one.
pub fn spell_area(alloc: Global, contents: &[[u8; 31]]) -> Result<Bytes, OutOfMemory>
    ensures spelled { IfOk result (λ area. area ≡ spelled_area contents.now) }
    ensures each { OnOk result (AllByRecursion Is31 contents.now) }
{
    let mut area = Bytes::new(alloc);
    for content in contents {
        area.push_slice(&[OPEN])?;
        area.push_slice(content)?;
    }
    area.push_slice(&[CLOSED])?;
    Ok(area)
}

/// Writes an area whole, and chooses it once it is on the disk. It makes four calls of the device.
pub fn write_area<D: Disk>(disk: &mut D, start: u64, area: &[u8]) -> Result<(), Failed>
    requires reach { start + length area.now ≤ D.reach disk.old }
    requires place { 32 ≤ start }
    requires calls { 4 ≤ D.calls_left disk.old }
    ensures done { OnOk result (D.holds disk.new ≡ option_map (compact_after 4 start area.now) (D.holds disk.old)) }
    ensures stopped { OnErr result (IsHalfCompacted start area.now (D.holds disk.old) (D.holds disk.new)) }
    ensures cause { HasCause (D.faults disk.old) (D.faults disk.new) result }
{
    write_durably(disk, start, area)?;
    write_durably(disk, 31, &[selector(start)])
}
