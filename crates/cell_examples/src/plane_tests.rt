ghost use Rattle.std.specs.Prelude.{◌≡◌};
ghost use Rattle.session_cells.specs.Tokens.{IsOf};
ghost use Rattle.data_plane.specs.Carries.{IsData};

use data_plane::*;
use l2tp_header::{Header, read_header};
use session_cells::Cells;
use session_looks::Look;
use std::alloc::Global;
use std::test::Fail;
use wire_base::{Bytes, NoMemory, Side, Why};

const PEER: u32 = 0x0a00_0007;

/// A data message of session 7 in tunnel 3, without a length, with a frame of LCP behind ff 03.
const LCP: &[u8] = b"\x00\x02\x00\x03\x00\x07\xff\x03\xc0\x21\x05\x09";

/// The same with an IP packet, a length of 13, and one byte more.
const IP: &[u8] = b"\x40\x02\x00\x0d\x00\x03\x00\x07\x00\x21\x45\x00\x01\xee";

fn bound(tunnel: u16) -> Look {
    Look::Bound { tunnel, peer: PEER }
}

fn established(tunnel: u16) -> Look {
    Look::Established { tunnel, peer: PEER }
}

/// The frame that goes up, with its side: 1 for the subscriber, 2 for the network, 3 for LCP; and nothing where it is dropped.
fn told(carry: Carry) -> (u16, u8, usize, usize) {
    match carry {
        Carry::Up {
            session,
            side,
            start,
            end,
        } => {
            let side = match side {
                Side::Sub => 1,
                Side::Net => 2,
                Side::Lcp => 3,
            };
            (session, side, start, end)
        }
        Carry::Dropped { .. } => (0, 0, 0, 0),
    }
}

fn why(carry: Carry) -> Option<Why> {
    match carry {
        Carry::Up { .. } => None,
        Carry::Dropped { why } => Some(why),
    }
}

/// What becomes of a data message, if its header can be read.
fn by_look(look: Look, lns: bool, peer: u32, datagram: &[u8]) -> Option<Carry> {
    match read_header(datagram) {
        Ok(header) => Some(carry_look(look, lns, peer, &header, datagram)),
        Err(_) => None,
    }
}

fn goes_up(look: Look, lns: bool, datagram: &[u8]) -> (u16, u8, usize, usize) {
    match by_look(look, lns, PEER, datagram) {
        Some(carry) => told(carry),
        None => (0, 0, 0, 0),
    }
}

fn drops(look: Look, lns: bool, peer: u32, datagram: &[u8]) -> Option<Why> {
    why(by_look(look, lns, peer, datagram)?)
}

#[test]
fn what_goes_up(rt: HostRuntime) {
    assert!(rt; goes_up(established(3), true, LCP) == (7, 3, 8, 12));
    assert!(rt; goes_up(bound(3), true, LCP) == (7, 3, 8, 12));
    assert!(rt; goes_up(established(3), false, LCP) == (7, 1, 8, 12));
    assert!(rt; goes_up(established(3), true, IP) == (7, 2, 8, 13));
}

#[test]
fn what_is_dropped(rt: HostRuntime) {
    assert!(rt; drops(Look::Unborn, true, PEER, LCP) == Some(Why::Session));
    assert!(rt; drops(Look::Dead, false, PEER, LCP) == Some(Why::Session));
    assert!(rt; drops(established(4), true, PEER, LCP) == Some(Why::Tunnel));
    assert!(rt; drops(established(3), true, 8, LCP) == Some(Why::Peer));
    assert!(rt; drops(established(4), true, 8, LCP) == Some(Why::Tunnel));
    assert!(rt;
        drops(
            established(3),
            true,
            PEER,
            b"\x00\x02\x00\x03\x00\x07\xff\x03\xc0"
        ) == Some(Why::Short)
    );
    assert!(rt; drops(bound(3), true, PEER, IP) == Some(Why::Closed));
    assert!(rt; drops(bound(3), false, PEER, LCP) == Some(Why::Closed));
}
