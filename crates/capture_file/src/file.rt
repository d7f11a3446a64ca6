//! The file: its head, and its records.

ghost use Rattle.std.specs.Prelude.{◌≡◌, ◌≤◌, ◌++◌, length, OnOk};
ghost use Rattle.capture_file.specs.Files.{file_head, record_bytes};

use wire_base::{Bytes, NoMemory, put_u16, put_u32};

/// Says that the records behind it are Ethernet frames, and their moments seconds and microseconds.
const MAGIC: u32 = 0xa1b2_c3d4;

/// As many bytes as a record has at most.
const MOST_BYTES: u32 = 262_144;

/// The link type of Ethernet.
const ETHERNET: u32 = 1;

/// Appends the head of a classic pcap file, version 2.4, of Ethernet frames. Where memory is wanting, a part of it may be.
#[tactic(auto, unfolding(crate::specs::Files::file_head))]
pub fn push_file_head(out: &mut Bytes) -> Result<(), NoMemory>
    ensures { OnOk result (out.new ≡ out.old ++ file_head) }
{
    put_u32(out, MAGIC)?;
    put_u16(out, 2)?;
    put_u16(out, 4)?;
    put_u32(out, 0)?;
    put_u32(out, 0)?;
    put_u32(out, MOST_BYTES)?;
    put_u32(out, ETHERNET)
}

/// Appends the record of a whole frame: its second, no microseconds, its length twice, and its bytes. Where memory is wanting, a part
/// of it may be.
#[tactic(auto, unfolding(crate::specs::Files::record_bytes))]
pub fn push_record(out: &mut Bytes, second: u32, frame: &[u8]) -> Result<(), NoMemory>
    requires { length frame.now ≤ 262144 }
    ensures { OnOk result (out.new ≡ out.old ++ record_bytes second frame.now) }
{
    put_u32(out, second)?;
    put_u32(out, 0)?;
    put_u32(out, frame.len() as u32)?;
    put_u32(out, frame.len() as u32)?;
    out.push_slice(frame)
}
