//! From a datagram to its frame, and from a frame to its datagram.

ghost use Rattle.std.specs.Prelude.{◌≡◌, ◌+◌, ◌≤◌, length, IfOk, Some};
ghost use Rattle.l2tp_header.specs.Reading.{body_of};
ghost use Rattle.l2tp_header.specs.Spelling.{data_bytes};
ghost use Rattle.session_looks.specs.Frames.{frame_of};
ghost use Rattle.session_cells.specs.Tokens.{IsOf, Later, log_of, count_of};
ghost use Rattle.data_plane.specs.Carries.{role_of, place_in, carry_of, look_at, load_of, HasFrame, IsData};

use crate::carry::Carry;
use end_names::Role;
use l2tp_header::{Header, read_header, write_data};
use session_cells::{CellSeen, Cells};
use session_looks::{Look, header_why};
use std::alloc::Global;
use wire_base::{Bytes, NoMemory, Why};

fn role_of(lns: bool) -> Role
    ensures { result ≡ role_of lns }
{
    if lns { Role::Lns } else { Role::Lac }
}

/// Where the frame of a body begins that stands in its datagram from a place on: behind the address and control bytes of HDLC,
/// which may be left out.
fn place_of(body: &[u8], start: usize, end: usize) -> usize
    requires { start + length body.now ≡ end }
    ensures exact { result ≡ place_in start body.now }
    ensures within { result ≤ end }
{
    match body {
        [0xff, 0x03, ..] => start + 2,
        _ => start,
    }
}

/// What becomes of a data message by a look at its session, wherever its frame stands.
#[tactic(auto, using(crate::proofs::Frames::cut_is), unfolding(crate::specs::Carries::carry_of))]
fn carry_frame(look: Look, lns: bool, peer: u32, header: &Header, datagram: &[u8]) -> Carry
    requires ordered { header.now.start ≤ header.now.end }
    requires inside { header.now.end ≤ length datagram.now }
    ensures exact { result ≡ carry_of (role_of lns) look peer header.now datagram.now }
    ensures frame { HasFrame result datagram.now (frame_of (body_of datagram.now header.now)) }
{
    let start = place_of(
        &datagram[header.start..header.end],
        header.start,
        header.end,
    );
    let frame = &datagram[start..header.end];
    match session_looks::carry_look(role_of(lns), look, peer, header, frame) {
        Err(why) => Carry::Dropped { why },
        Ok(way) => Carry::Up {
            session: header.session,
            side: way.side,
            start,
            end: header.end,
        },
    }
}

/// What becomes of a data message that came from an address, by what is seen of the session that its header names. The reasons of
/// a drop are tried in the order `session`, `tunnel`, `peer`, `short`, `closed`; at an LNS a frame of LCP also goes up in a call
/// in which frames of the network don't pass yet. It takes no memory. Condition: the header's body lies within the datagram, as
/// that of a header that was read from it does.
#[tactic(auto, unfolding(crate::specs::Carries::carry_of, session_looks::specs::Frames::carry_look))]
pub fn carry_look(look: Look, lns: bool, peer: u32, header: &Header, datagram: &[u8]) -> Carry
    requires ordered { header.now.start ≤ header.now.end }
    requires inside { header.now.end ≤ length datagram.now }
    ensures exact { result ≡ carry_of (role_of lns) look peer header.now datagram.now }
    // What goes up are the bytes of the frame.
    ensures frame { HasFrame result datagram.now (frame_of (body_of datagram.now header.now)) }
{
    // The state is told apart once, before the frame is looked at, and each arm is compiled for its state.
    match look {
        Look::Unborn | Look::Dead => Carry::Dropped { why: Why::Session },
        Look::Bound { tunnel, peer: to } => {
            carry_frame(
                Look::Bound { tunnel, peer: to },
                lns,
                peer,
                header,
                datagram,
            )
        }
        Look::Established { tunnel, peer: to } => {
            carry_frame(
                Look::Established { tunnel, peer: to },
                lns,
                peer,
                header,
                datagram,
            )
        }
    }
}

/// What is seen of a session, nothing where there is no cell for it.
fn look_at(cells: &Cells, seen: &mut CellSeen, session: u16) -> Look
    requires of { IsOf cells.now seen.old }
    ensures later { Later cells.now seen.old seen.new }
    ensures look { result ≡ look_at (count_of cells.now) (log_of seen.new) session }
{
    if u32::from(session) < cells.count() {
        cells.lookup(seen, session)
    } else {
        Look::Unborn
    }
}

/// What becomes of a datagram that isn't a control message and came from an address, at an LNS or at a LAC, by the cell of the
/// session that its header names. A header that can't be read is dropped before all else. It takes no memory and doesn't wait.
#[tactic(auto, unfolding(crate::specs::Carries::load_by))]
pub fn carry_in(cells: &Cells, seen: &mut CellSeen, lns: bool, peer: u32, datagram: &[u8]) -> Carry
    requires of { IsOf cells.now seen.old }
    requires data { IsData datagram.now }
    ensures later { Later cells.now seen.old seen.new }
    ensures exact { load_of (role_of lns) (look_at (count_of cells.now) (log_of seen.new)) peer datagram.now ≡ Some result }
{
    match read_header(datagram) {
        Err(error) => Carry::Dropped {
            why: header_why(error),
        },
        Ok(header) => {
            let look = look_at(cells, seen, header.session);
            carry_look(look, lns, peer, &header, datagram)
        }
    }
}

/// The datagram that carries a PPP frame, from its protocol field on, to the end that assigned these ids; with a sequence number
/// where one is given.
pub fn carry_out(
    alloc: Global,
    tunnel: u16,
    session: u16,
    number: Option<u16>,
    frame: &[u8],
) -> Result<Bytes, NoMemory>
    ensures { IfOk result (λ bytes. bytes ≡ data_bytes tunnel session number frame.now) }
{
    let mut bytes = Bytes::new(alloc);
    write_data(&mut bytes, tunnel, session, number, frame)?;
    Ok(bytes)
}
