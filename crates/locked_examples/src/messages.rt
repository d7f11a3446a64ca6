//! Messages for the tests, as a LAC sends them to an LNS, or an LNS to a LAC.

use end_model::{Config, Event, Out};
use l2tp_datagram::Datagram;
use std::alloc::Global;
use tunnel_core::Outputs;
use wire_base::{Bytes, NoMemory};

/// An SCCRQ with the tunnel id 0x1234, an SCCCN, an ICRQ with the session id 513, and an ICCN, for tunnel 1 and session 1.
pub(crate) const SCCRQ: &str =
    "c8020040000000000000000080080000000000018008000000020100800a0000000300000001800a0000000769737039800800000009123480080000000a0010";

pub(crate) const SCCCN: &str = "c802001400010000000100018008000000000003";

pub(crate) const ICRQ: &str =
    "c80200260001000000020001800800000000000a80080000000e0201800a0000000f00000001";

pub(crate) const ICCN: &str =
    "c80200280001000100030002800800000000000c800a000000180000fa00800a0000001300000002";

/// The SCCRP that answers an SCCRQ of tunnel 1, with the tunnel id 0x1234.
pub(crate) const SCCRP: &str =
    "c8020040000100000000000180080000000000028008000000020100800a0000000300000001800a0000000769737039800800000009123480080000000a0010";

/// A HELLO for tunnel 1 behind the SCCRQ and the SCCCN.
pub(crate) const HELLO: &str = "c802001400010000000200018008000000000006";

/// A StopCCN for tunnel 1 behind the SCCRQ and the SCCCN, of result 6, with the tunnel id 0x1234.
pub(crate) const STOP_CCN: &str =
    "c8020026000100000002000180080000000000048008000000091234800a0000000100060000";

/// An SCCRQ that asks for the recovery of tunnel 1, which its peer knows as 0x1234: the attempt has the tunnel id 65 and the draw number 5.
pub(crate) const ATTEMPT: &str =
    "c8020066000000000000000080080000000000018008000000020100800a0000000300000003800a000000076c6e7332800800000009004180080000000a0008000c0000004c00030000753080100000004d00000000123400000001000affff000100000005";

/// A datagram of these bytes from a peer.
fn datagram(alloc: Global, peer: u32, bytes: &[u8]) -> Result<Event, NoMemory> {
    let bytes = Bytes::from_slice(alloc, bytes)?;
    Ok(Event::Datagram {
        peer,
        datagram: Datagram::read(alloc, bytes),
    })
}

/// A datagram with these hex digits from a peer.
pub(crate) fn from_peer(alloc: Global, peer: u32, digits: &str) -> Result<Event, NoMemory> {
    let Ok(bytes) = hex::decode(alloc, digits) else {
        return Err(NoMemory);
    };
    datagram(alloc, peer, bytes.as_slice())
}

/// The same for another tunnel and session: their ids stand at places 4 and 6 of the header.
pub(crate) fn for_call(
    alloc: Global,
    peer: u32,
    digits: &str,
    tunnel: u16,
    session: u16,
) -> Result<Event, NoMemory> {
    let Ok(mut bytes) = hex::decode(alloc, digits) else {
        return Err(NoMemory);
    };
    if let Some(places) = bytes.as_mut_slice().get_mut(4..8) {
        places[..2].copy_from_slice(&tunnel.to_be_bytes());
        places[2..].copy_from_slice(&session.to_be_bytes());
    }
    datagram(alloc, peer, bytes.as_slice())
}

/// The LNS 7 at 10.0.0.7.
pub(crate) fn lns() -> Config {
    Config::new(7, 0x0a00_0007, 0, None, false)
}

/// The LAC 9 at 10.0.0.9, whose LNS is at 10.0.0.7.
pub(crate) fn lac() -> Config {
    Config::new(9, 0x0a00_0009, 0x0a00_0007, None, false)
}

/// How many datagrams are sent.
pub(crate) fn count_sent(outputs: &Outputs) -> usize {
    let mut count = 0usize;
    for out in outputs.as_slice() {
        if matches!(out, Out::Send { .. }) {
            count = count.saturating_add(1);
        }
    }
    count
}

/// The session id that the first ICRP among these tells: its message type and its Assigned Session ID stand first behind the header.
pub(crate) fn session_told(outputs: &Outputs) -> u16 {
    for out in outputs.as_slice() {
        if let Out::Send { bytes, .. } = out {
            if let [
                _,
                _,
                _,
                _,
                _,
                _,
                _,
                _,
                _,
                _,
                _,
                _,
                _,
                _,
                _,
                _,
                _,
                _,
                0,
                11,
                _,
                _,
                _,
                _,
                0,
                14,
                high,
                low,
                ..
            ] = bytes.as_slice()
            {
                return u16::from_be_bytes([*high, *low]);
            }
        }
    }
    0
}
