//! Writing messages.

ghost use Rattle.std.specs.Prelude.{◌≡◌, ◌≤◌, ◌∷◌, [], ◌++◌, length, OnOk, OnErr};
ghost use Rattle.wire_base.specs.Numbers.{u16_bytes};
ghost use Rattle.l2tp_header.specs.Spelling.{control_bytes, data_bytes};

use wire_base::{Bytes, NoMemory, put_u16};

/// The twelve bytes of the header of a control message of so many bytes (RFC 2661 section 3.1).
fn control_head(len: u16, tunnel: u16, session: u16, ns: u16, nr: u16) -> [u8; 12]
    ensures { result ≡ u16_bytes 0xc802 ++ u16_bytes len ++ u16_bytes tunnel ++ u16_bytes session ++ u16_bytes ns ++ u16_bytes nr }
{
    [
        0xc8,
        0x02,
        (len / 256) as u8,
        (len % 256) as u8,
        (tunnel / 256) as u8,
        (tunnel % 256) as u8,
        (session / 256) as u8,
        (session % 256) as u8,
        (ns / 256) as u8,
        (ns % 256) as u8,
        (nr / 256) as u8,
        (nr % 256) as u8,
    ]
}

/// Appends the one spelling of a control message (RFC 2661 section 3.1), with its attribute value pairs as bytes, 65,523
/// of them at most. With none it is a ZLB. Where memory is wanting, nothing is appended.
#[tactic(auto, unfolding(crate::specs::Spelling::control_bytes))]
pub fn write_control(
    out: &mut Bytes,
    tunnel: u16,
    session: u16,
    ns: u16,
    nr: u16,
    avps: &[u8],
) -> Result<(), NoMemory>
    requires { length avps.now ≤ 65523 }
    ensures ok { OnOk result (out.new ≡ out.old ++ control_bytes tunnel session ns nr avps.now) }
    ensures err { OnErr result (out.new ≡ out.old) }
{
    let head = control_head(12 + avps.len() as u16, tunnel, session, ns, nr);
    if avps.is_empty() {
        return out.push_slice(&head);
    }
    let mut piece = Bytes::new(out.allocator());
    piece.push_slice(&head)?;
    piece.push_slice(avps)?;
    out.push_slice(piece.as_slice())
}

/// What stands before the frame of a data message without a number: the six bytes of its header, and the address and control
/// bytes of HDLC (RFC 1662 section 3.1).
fn data_head(tunnel: u16, session: u16) -> [u8; 8]
    ensures { result ≡ u16_bytes 0x0002 ++ u16_bytes tunnel ++ u16_bytes session ++ 255 ∷ 3 ∷ [] }
{
    [
        0x00,
        0x02,
        (tunnel / 256) as u8,
        (tunnel % 256) as u8,
        (session / 256) as u8,
        (session % 256) as u8,
        0xff,
        0x03,
    ]
}

/// Appends the numbers of a data message: Ns, and 0 for Nr.
fn put_numbers(piece: &mut Bytes, ns: u16) -> Result<(), NoMemory>
    ensures { OnOk result (piece.new ≡ piece.old ++ u16_bytes ns ++ u16_bytes 0) }
{
    put_u16(piece, ns)?;
    put_u16(piece, 0)
}

/// Appends the one spelling of a data message (RFC 2661 section 3.1) with a PPP frame from its protocol field on; with a
/// sequence number Ns, where one is given. Where memory is wanting, nothing is appended.
#[tactic(auto, unfolding(crate::specs::Spelling::data_bytes))]
pub fn write_data(
    out: &mut Bytes,
    tunnel: u16,
    session: u16,
    number: Option<u16>,
    frame: &[u8],
) -> Result<(), NoMemory>
    ensures ok { OnOk result (out.new ≡ out.old ++ data_bytes tunnel session number frame.now) }
    ensures err { OnErr result (out.new ≡ out.old) }
{
    let mut piece = Bytes::new(out.allocator());
    match number {
        None => piece.push_slice(&data_head(tunnel, session))?,
        Some(ns) => {
            put_u16(&mut piece, 0x0802)?;
            put_u16(&mut piece, tunnel)?;
            put_u16(&mut piece, session)?;
            put_numbers(&mut piece, ns)?;
            piece.push_slice(&[0xff, 0x03])?;
        }
    }
    piece.push_slice(frame)?;
    out.push_slice(piece.as_slice())
}
