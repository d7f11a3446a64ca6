//! The data messages that are judged.

ghost use Rattle.std.specs.Prelude.{◌≡◌, ◌≤◌, length, false, true, Ok};
ghost use Rattle.l2tp_header.specs.Reading.{header_of};
ghost use Rattle.cell_bench.specs.Counting.{is_ours, is_up};

use crate::tally::goes_up;
use data_plane::{Carry, carry_look};
use l2tp_header::{Header, HeaderError, read_header};
use session_looks::Look;
use std::alloc::Global;
use wire_base::Bytes;

/// The session that the data messages name, the tunnel, and the peer that they come from.
pub const SESSION: u16 = 7;

pub const TUNNEL: u16 = 3;

pub const PEER: u32 = 0x0a00_0007;

/// How many there are. A loop takes them in turn, so that no compiler can read one of them once for all turns.
pub const SAMPLES: usize = 4;

/// A data message with a frame, its header, and where it came from and to.
#[derive(Drop)]
pub struct Sample {
    /// Whether it came to an LNS, otherwise to a LAC.
    pub lns: bool,
    /// The IPv4 address that it came from, as a number.
    pub peer: u32,
    pub datagram: Bytes,
    pub header: Header,
    /// What reading its header gives.
    pub read: Result<Header, HeaderError>,
    /// What becomes of it while its call is established.
    pub carry: Carry,
    pub ghost known: { header_of datagram ≡ Ok header },
    pub ghost same: { read ≡ Ok header },
    pub ghost no_control: { header.control ≡ false },
    pub ghost ours: { is_ours header ≡ true },
    pub ghost ordered: { header.start ≤ header.end },
    pub ghost inside: { header.end ≤ length datagram },
    pub ghost goes_up: { is_up carry ≡ true },
}

/// Whether a header is for the call, and a frame stands behind it.
pub fn is_ours(header: &Header) -> bool
    ensures { result ≡ is_ours header.now }
{
    header.tunnel == TUNNEL && header.session == SESSION && header.start < header.end
}

/// A datagram that came to an LNS, if it is a data message whose frame goes up to the network, and memory isn't wanting.
fn read_sample(alloc: Global, bytes: &[u8]) -> Option<Sample> {
    let datagram = Bytes::from_slice(alloc, bytes).ok()?;
    let read = read_header(datagram.as_slice());
    let Ok(header) = read else {
        return None;
    };
    let look = Look::Established {
        tunnel: TUNNEL,
        peer: PEER,
    };
    let carry = carry_look(look, true, PEER, &header, datagram.as_slice());
    if header.control || !is_ours(&header) || !goes_up(carry) {
        return None;
    }
    Some(Sample {
        lns: true,
        peer: PEER,
        datagram,
        header,
        read,
        carry,
    })
}

/// Data messages with an IP packet behind ff 03, in headers without a length or with one.
pub fn samples(alloc: Global, long: bool) -> Option<[Sample; SAMPLES]> {
    if long {
        return Some([
            read_sample(
                alloc,
                b"\x40\x02\x00\x11\x00\x03\x00\x07\xff\x03\x00\x21\x45\x00\x00\x14\x01",
            )?,
            read_sample(
                alloc,
                b"\x40\x02\x00\x11\x00\x03\x00\x07\xff\x03\x00\x21\x45\x00\x00\x14\x02",
            )?,
            read_sample(
                alloc,
                b"\x40\x02\x00\x11\x00\x03\x00\x07\xff\x03\x00\x21\x45\x00\x00\x14\x03",
            )?,
            read_sample(
                alloc,
                b"\x40\x02\x00\x11\x00\x03\x00\x07\xff\x03\x00\x21\x45\x00\x00\x14\x04",
            )?,
        ]);
    }
    Some([
        read_sample(
            alloc,
            b"\x00\x02\x00\x03\x00\x07\xff\x03\x00\x21\x45\x00\x00\x14\x01",
        )?,
        read_sample(
            alloc,
            b"\x00\x02\x00\x03\x00\x07\xff\x03\x00\x21\x45\x00\x00\x14\x02",
        )?,
        read_sample(
            alloc,
            b"\x00\x02\x00\x03\x00\x07\xff\x03\x00\x21\x45\x00\x00\x14\x03",
        )?,
        read_sample(
            alloc,
            b"\x00\x02\x00\x03\x00\x07\xff\x03\x00\x21\x45\x00\x00\x14\x04",
        )?,
    ])
}
