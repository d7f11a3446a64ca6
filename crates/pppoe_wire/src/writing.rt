//! Writing frames and tags.

ghost use Rattle.std.specs.Prelude.{◌≡◌, ◌≤◌, ◌++◌, length, IfOk, OnOk, OnErr};
ghost use Rattle.pppoe_wire.specs.Spelling.{frame_bytes, tag_bytes};

use crate::frame::Pppoe;
use std::alloc::Global;
use wire_base::{Bytes, NoMemory, put_u16};

/// Appends both addresses, the destination's first.
fn put_addresses(bytes: &mut Bytes, frame: &Pppoe) -> Result<(), NoMemory>
    ensures { OnOk result (bytes.new ≡ bytes.old ++ frame.now.dst ++ frame.now.src) }
{
    bytes.push_slice(&frame.dst)?;
    bytes.push_slice(&frame.src)
}

/// The one spelling of a frame (RFC 2516 section 4), without padding. Its start and its end aren't looked at: the payload
/// stands behind the twenty bytes of the head.
#[tactic(auto, unfolding(crate::specs::Spelling::head_bytes))]
pub fn write_frame(alloc: Global, frame: &Pppoe) -> Result<Bytes, NoMemory>
    requires { length frame.now.payload ≤ 65535 }
    ensures { IfOk result (λ bytes. bytes ≡ frame_bytes frame.now) }
{
    let payload = frame.payload.as_slice();
    let mut bytes = Bytes::new(alloc);
    put_addresses(&mut bytes, frame)?;
    put_u16(
        &mut bytes,
        if frame.session_stage { 0x8864 } else { 0x8863 },
    )?;
    bytes.push_slice(&[0x11, frame.code])?;
    put_u16(&mut bytes, frame.session)?;
    put_u16(&mut bytes, payload.len() as u16)?;
    bytes.push_slice(payload)?;
    Ok(bytes)
}

/// Appends the one spelling of a tag (RFC 2516 appendix A). Where memory is wanting, nothing is appended.
pub fn write_tag(out: &mut Bytes, kind: u16, value: &[u8]) -> Result<(), NoMemory>
    requires { length value.now ≤ 65535 }
    ensures ok { OnOk result (out.new ≡ out.old ++ tag_bytes kind value.now) }
    ensures err { OnErr result (out.new ≡ out.old) }
{
    let mut piece = Bytes::new(out.allocator());
    put_u16(&mut piece, kind)?;
    put_u16(&mut piece, value.len() as u16)?;
    piece.push_slice(value)?;
    out.push_slice(piece.as_slice())
}
