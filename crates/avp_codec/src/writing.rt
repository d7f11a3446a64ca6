//! Writing pairs.

ghost use Rattle.std.specs.Prelude.{◌≡◌, ◌≤◌, ◌<◌, ◌*◌, ◌++◌, length, OnOk, OnErr, IfOk};
ghost use Rattle.avp_codec.specs.Spelling.{AreAvps, spelling, spelling_of};

use crate::avp::Avp;
use std::alloc::Global;
use wire_base::{Bytes, NoMemory, put_u16};

/// The reserved bits of a pair's first word, in their place.
fn reserved_part(reserved: u8) -> u16
    requires { reserved < 16 }
    ensures { result ≡ 1024 * reserved }
{
    0x400 * u16::from(reserved)
}

/// Appends the value of a pair, with nothing behind it.
fn put_value(piece: &mut Bytes, value: &[u8]) -> Result<(), NoMemory>
    ensures { OnOk result (piece.new ≡ piece.old ++ value.now) }
{
    piece.push_slice(value)
}

/// Appends the one spelling of a pair: its head and its value, with nothing behind it. Its reserved bits are written as
/// they are: those of a pair that is made are 0, and a pair that was read is written again as it was. Where memory is
/// wanting, nothing is appended.
pub fn write_avp(out: &mut Bytes, avp: &Avp) -> Result<(), NoMemory>
    requires reserved { avp.now.reserved < 16 }
    requires value { length avp.now.value ≤ 1017 }
    ensures ok { OnOk result (out.new ≡ out.old ++ spelling_of avp.now) }
    ensures err { OnErr result (out.new ≡ out.old) }
{
    let value = avp.value.as_slice();
    let mut word = reserved_part(avp.reserved) + (6 + value.len() as u16);
    if avp.mandatory {
        word += 0x8000;
    }
    if avp.hidden {
        word += 0x4000;
    }
    let mut piece = Bytes::new(out.allocator());
    put_u16(&mut piece, word)?;
    put_u16(&mut piece, avp.vendor)?;
    put_u16(&mut piece, avp.attribute)?;
    put_value(&mut piece, value)?;
    out.push_slice(piece.as_slice())
}

/// The one spelling of a list of pairs, in their order (RFC 2661 section 4.1). Each has at most 1,017 bytes of value.
pub fn spell_avps(alloc: Global, avps: &[Avp]) -> Result<Bytes, NoMemory>
    requires { AreAvps avps.now }
    ensures { IfOk result (λ bytes. bytes ≡ spelling avps.now) }
{
    let mut out = Bytes::new(alloc);
    for avp in avps {
        write_avp(&mut out, avp)?;
    }
    Ok(out)
}
