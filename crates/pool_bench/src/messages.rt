//! The messages of a LAC that opens a tunnel and sets calls up in it, and a data message of its first call.

use std::alloc::Global;
use wire_base::{Bytes, NoMemory};

/// The LAC 1 at 10.0.0.1.
pub const PEER: u32 = 0x0a00_0001;

/// A data message of session 1 in tunnel 1, with an Echo-Request of LCP: 64 bytes.
const FRAME: &[u8] =
    b"\x00\x02\x00\x01\x00\x01\xff\x03\xc0\x21\x09\x01\x00\x36\x01\x02\x03\x04abcdefghijklmnopqrstuvwxyzabcdefghijklmnopqrst";

/// An SCCRQ, which assigns the tunnel id 1, and an SCCCN.
const SCCRQ: &[u8] =
    b"\xc8\x02\x00\x4c\x00\x00\x00\x00\x00\x00\x00\x00\x80\x08\x00\x00\x00\x00\x00\x01\x80\x08\x00\x00\x00\x02\x01\x00\x80\x0a\x00\x00\x00\x03\x00\x00\x00\x03\x80\x0a\x00\x00\x00\x07\x6c\x61\x63\x31\x80\x08\x00\x00\x00\x09\x00\x01\x80\x08\x00\x00\x00\x0a\x00\x08\x00\x0c\x00\x00\x00\x4c\x00\x03\x00\x00\x75\x30";

const SCCCN: &[u8] =
    b"\xc8\x02\x00\x14\x00\x01\x00\x00\x00\x01\x00\x01\x80\x08\x00\x00\x00\x00\x00\x03";

/// What is sent, the k-th of a LAC's messages counted from 0: an SCCRQ, an SCCCN, and then an ICRQ and an ICCN of each call in turn. The
/// other end has answered each but the ICCNs, and gives its sessions the ids from 1 on.
pub fn message(alloc: Global, k: u16) -> Result<Bytes, NoMemory> {
    if k == 0 {
        return Bytes::from_slice(alloc, SCCRQ);
    }
    if k == 1 {
        return Bytes::from_slice(alloc, SCCCN);
    }
    let call = (k / 2).to_be_bytes();
    let (sent, came) = (k.to_be_bytes(), (k / 2 + k % 2).to_be_bytes());
    if k % 2 == 0 {
        return icrq(alloc, call, sent, came);
    }
    iccn(alloc, call, sent, came)
}

/// An ICRQ of a call, which assigns its number as the session id.
fn icrq(alloc: Global, call: [u8; 2], sent: [u8; 2], came: [u8; 2]) -> Result<Bytes, NoMemory> {
    let mut bytes = Bytes::from_slice(alloc, b"\xc8\x02\x00\x38\x00\x01\x00\x00")?;
    bytes.push_slice(&sent)?;
    bytes.push_slice(&came)?;
    bytes.push_slice(b"\x80\x08\x00\x00\x00\x00\x00\x0a\x80\x08\x00\x00\x00\x0e")?;
    bytes.push_slice(&call)?;
    bytes.push_slice(b"\x80\x0a\x00\x00\x00\x0f\x00\x00")?;
    bytes.push_slice(&call)?;
    bytes.push_slice(b"\x80\x12\x00\x00\x00\x16ffff00000001")?;
    Ok(bytes)
}

/// An ICCN of a call.
fn iccn(alloc: Global, call: [u8; 2], sent: [u8; 2], came: [u8; 2]) -> Result<Bytes, NoMemory> {
    let mut bytes = Bytes::from_slice(alloc, b"\xc8\x02\x00\x28\x00\x01")?;
    bytes.push_slice(&call)?;
    bytes.push_slice(&sent)?;
    bytes.push_slice(&came)?;
    bytes.push_slice(
        b"\x80\x08\x00\x00\x00\x00\x00\x0c\x80\x0a\x00\x00\x00\x18\x05\xf5\xe1\x00\x80\x0a\x00\x00\x00\x13\x00\x00\x00\x01",
    )?;
    Ok(bytes)
}

/// A data message of the first call.
pub fn frame(alloc: Global) -> Result<Bytes, NoMemory> {
    Bytes::from_slice(alloc, FRAME)
}
