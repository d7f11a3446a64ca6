//! The contents of records, made to be committed.

ghost use Rattle.std.specs.Prelude.{◌≡◌, ◌+◌, ◌^◌, ◌<◌, ◌≤◌, length, Some};
ghost use Rattle.wire_base.specs.Numbers.{u16_bytes, u32_bytes};
ghost use Rattle.session_book.specs.Records.{record_of, with_bytes};
ghost use Rattle.session_book.specs.Spelling.{content_of};
ghost use Rattle.session_book.specs.declared.record.Record.TheVariants as records;

use crate::record::{BookCall, BookTunnel};
use byteorder::{BigEndian, ByteOrder};

/// The content that raises the ceiling of a space: 1 has the tunnel ids, 2 the session ids, 3 the draw numbers.
pub fn ceiling(space: u8, number: u32) -> [u8; 31]
    ensures read { record_of result ≡ Some (records.Ceiling space number) }
    ensures bytes { result ≡ content_of (records.Ceiling space number) }
{
    let mut content = [0; 31];
    content[0] = 1;
    content[1] = space;
    put_u32(&mut content, 2, number);
    content
}

/// The content of a tunnel that is established. It doesn't speak of the mark.
pub fn tunnel_up(tunnel: BookTunnel) -> [u8; 31]
    ensures read { record_of result ≡ Some (records.TunnelUp (record tunnel { mark = 0 })) }
    ensures bytes { result ≡ content_of (records.TunnelUp (record tunnel { mark = 0 })) }
{
    let mut content = [0; 31];
    content[0] = 2;
    put_u16(&mut content, 1, tunnel.local);
    put_u16(&mut content, 3, tunnel.remote);
    put_u32(&mut content, 5, tunnel.peer);
    put_u16(&mut content, 9, tunnel.window);
    put_u16(&mut content, 11, tunnel.flags);
    content
}

/// The content of a tunnel that is gone, with its calls.
pub fn tunnel_down(local: u16) -> [u8; 31]
    ensures read { record_of result ≡ Some (records.TunnelDown local) }
    ensures bytes { result ≡ content_of (records.TunnelDown local) }
{
    let mut content = [0; 31];
    content[0] = 3;
    put_u16(&mut content, 1, local);
    content
}

/// The content of a call that is established.
pub fn call_up(call: BookCall) -> [u8; 31]
    ensures read { record_of result ≡ Some (records.CallUp call) }
    ensures bytes { result ≡ content_of (records.CallUp call) }
{
    let mut content = [0; 31];
    content[0] = 4;
    put_u16(&mut content, 1, call.local);
    put_u16(&mut content, 3, call.tunnel);
    put_u16(&mut content, 5, call.remote);
    put_address(&mut content, &call.subscriber);
    content[13] = u8::from(call.sequenced);
    content
}

/// The content of a call that is gone.
pub fn call_down(local: u16) -> [u8; 31]
    ensures read { record_of result ≡ Some (records.CallDown local) }
    ensures bytes { result ≡ content_of (records.CallDown local) }
{
    let mut content = [0; 31];
    content[0] = 5;
    put_u16(&mut content, 1, local);
    content
}

/// The content of a recovery that a tunnel has seen.
pub fn mark(tunnel: u16, mark: u32) -> [u8; 31]
    ensures read { record_of result ≡ Some (records.Mark tunnel mark) }
    ensures bytes { result ≡ content_of (records.Mark tunnel mark) }
{
    let mut content = [0; 31];
    content[0] = 6;
    put_u16(&mut content, 1, tunnel);
    put_u32(&mut content, 3, mark);
    content
}

// Writes a number over two bytes, the highest first.
#[tactic(auto, unfolding(wire_base::specs::Numbers::u16_bytes))]
fn put_u16(content: &mut [u8; 31], at: usize, number: u16)
    requires { at + 2 ≤ 31 }
    ensures bytes { content.new ≡ with_bytes content.old at (u16_bytes number) }
    ensures fits { number < 2 ^ 16 }
{
    BigEndian::write_u16(&mut content[at..at + 2], number);
}

// Writes a number over four bytes, the highest first.
#[tactic(auto, unfolding(wire_base::specs::Numbers::u32_bytes))]
fn put_u32(content: &mut [u8; 31], at: usize, number: u32)
    requires { at + 4 ≤ 31 }
    ensures bytes { content.new ≡ with_bytes content.old at (u32_bytes number) }
    ensures fits { number < 2 ^ 32 }
{
    BigEndian::write_u32(&mut content[at..at + 4], number);
}

// Writes the address of a subscriber to its place.
fn put_address(content: &mut [u8; 31], address: &[u8; 6])
    ensures bytes { content.new ≡ with_bytes content.old 7 address.now }
    ensures long { length address.now ≡ 6 }
{
    content[7..13].copy_from_slice(address);
}
