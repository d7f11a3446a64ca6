//! What becomes of a data message, by what is seen of its session.

ghost use Rattle.std.specs.Prelude.{◌≡◌, MatchResult};
ghost use Rattle.session_looks.specs.Frames.{header_why, is_lcp, is_for_lcp, side_of, frame_of, carry_known, carry_look, Upward, Dropped};

use crate::look::Look;
use end_names::Role;
use l2tp_header::{Header, HeaderError};
use wire_base::{Side, Why};

/// The word of the refusal of a datagram whose header couldn't be read (RFC 2661 section 3.1).
pub fn header_why(error: HeaderError) -> Why
    ensures { result ≡ header_why error }
{
    match error {
        HeaderError::Short => Why::Short,
        HeaderError::Version { .. } => Why::Version,
        HeaderError::ControlFlags { .. } => Why::Flags,
        HeaderError::Length { .. } => Why::Length,
    }
}

/// Whether a frame is one of LCP, by its protocol field (RFC 1661 section 2).
fn is_lcp(frame: &[u8]) -> bool
    ensures { result ≡ is_lcp frame.now }
{
    matches!(frame, [0xc0, 0x21, ..])
}

/// Where a frame goes that is handed up: an LNS ends LCP itself.
fn side_of(role: Role, frame: &[u8]) -> Side
    ensures { result ≡ side_of role frame.now }
{
    match role {
        Role::Lac => Side::Sub,
        Role::Lns if is_lcp(frame) => Side::Lcp,
        Role::Lns => Side::Net,
    }
}

/// Whether a frame is for the LCP end of a call, which an LNS's has.
fn is_for_lcp(role: Role, frame: &[u8]) -> bool
    ensures { result ≡ is_for_lcp role frame.now }
{
    match role {
        Role::Lac => false,
        Role::Lns => is_lcp(frame),
    }
}

/// The frame behind the address and control bytes of HDLC, which may be left out.
pub fn frame_of(body: &[u8]) -> &[u8]
    ensures { result.now ≡ frame_of body.now }
{
    match body {
        [0xff, 0x03, frame @ ..] => frame,
        _ => body,
    }
}

/// Where a frame that is handed up goes, and from which tunnel and peer.
#[derive(Clone, Copy)]
pub struct Way {
    pub tunnel: u16,
    pub peer: u32,
    pub side: Side,
}

/// The way of a frame of a call that the peer knows, in this tunnel to this peer, or why it is dropped.
#[tactic(auto, unfolding(crate::specs::Frames::carry_known))]
fn carry_known(
    role: Role,
    up: bool,
    tunnel: u16,
    peer: u32,
    header: &Header,
    from: u32,
    frame: &[u8],
) -> Result<Way, Why>
    ensures { MatchResult result (λ w. carry_known role up tunnel header.now.tunnel peer from frame.now ≡ Upward w.tunnel w.peer w.side frame.now) (λ e. carry_known role up tunnel header.now.tunnel peer from frame.now ≡ Dropped e) }
{
    if tunnel != header.tunnel {
        return Err(Why::Tunnel);
    }
    if peer != from {
        return Err(Why::Peer);
    }
    if frame.len() < 2 {
        return Err(Why::Short);
    }
    let side = side_of(role, frame);
    if !up && !is_for_lcp(role, frame) {
        return Err(Why::Closed);
    }
    Ok(Way { tunnel, peer, side })
}

/// What becomes of a data message from an address, by what is seen of the session that its header names: the way of its
/// frame, or why it is dropped.
#[tactic(auto, unfolding(crate::specs::Frames::carry_look))]
pub fn carry_look(
    role: Role,
    look: Look,
    from: u32,
    header: &Header,
    frame: &[u8],
) -> Result<Way, Why>
    ensures { MatchResult result (λ w. carry_look role look from header.now frame.now ≡ Upward w.tunnel w.peer w.side frame.now) (λ e. carry_look role look from header.now frame.now ≡ Dropped e) }
{
    match look {
        Look::Unborn | Look::Dead => Err(Why::Session),
        Look::Bound { tunnel, peer } => {
            carry_known(role, false, tunnel, peer, header, from, frame)
        }
        Look::Established { tunnel, peer } => {
            carry_known(role, true, tunnel, peer, header, from, frame)
        }
    }
}
