//! Writing packets and options.

ghost use Rattle.std.specs.Prelude.{◌≡◌, ◌≤◌, ◌++◌, length, OnOk, OnErr};
ghost use Rattle.lcp_wire.specs.Spelling.{packet_bytes, option_bytes};

use crate::packet::Lcp;
use wire_base::{Bytes, NoMemory, put_u16};

/// Appends the one spelling of a packet (RFC 1661 section 5), with nothing behind it. Where memory is wanting, nothing is
/// appended.
pub fn write_lcp(out: &mut Bytes, packet: &Lcp) -> Result<(), NoMemory>
    requires { length packet.now.body ≤ 65531 }
    ensures ok { OnOk result (out.new ≡ out.old ++ packet_bytes packet.now) }
    ensures err { OnErr result (out.new ≡ out.old) }
{
    let body = packet.body.as_slice();
    let mut piece = Bytes::new(out.allocator());
    piece.push_slice(&[packet.code, packet.id])?;
    put_u16(&mut piece, 4 + body.len() as u16)?;
    piece.push_slice(body)?;
    out.push_slice(piece.as_slice())
}

/// Appends the one spelling of an option (RFC 1661 section 6). Where memory is wanting, nothing is appended.
pub fn write_option(out: &mut Bytes, kind: u8, value: &[u8]) -> Result<(), NoMemory>
    requires { length value.now ≤ 253 }
    ensures ok { OnOk result (out.new ≡ out.old ++ option_bytes kind value.now) }
    ensures err { OnErr result (out.new ≡ out.old) }
{
    let mut piece = Bytes::new(out.allocator());
    piece.push_slice(&[kind, 2 + value.len() as u8])?;
    piece.push_slice(value)?;
    out.push_slice(piece.as_slice())
}
