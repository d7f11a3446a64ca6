//! PPP frames of a link, from their protocol field on (RFC 1661 section 2).

ghost use Rattle.std.specs.Prelude.{◌≡◌, IfOk, drop, map};
ghost use Rattle.call_link.specs.Frames.{is_for_link, lcp_frame};

use std::alloc::Global;
use wire_base::{Bytes, NoMemory, Sequence};

/// PPP frames, in the order in which they are sent.
pub type Frames = Sequence<Bytes>;

/// The number of LCP's protocol, as it stands before a packet.
const LCP: [u8; 2] = [0xc0, 0x21];

/// Whether a frame is for the link of a call that ends here, and not for the network: it is one of LCP.
pub fn is_for_link(frame: &[u8]) -> bool
    ensures { result ≡ is_for_link frame.now }
{
    matches!(frame, [0xc0, 0x21, ..])
}

/// What stands behind the protocol field of a frame.
pub(crate) fn packet_in(frame: &[u8]) -> &[u8]
    ensures { result.now ≡ drop 2 frame.now }
{
    &frame[frame.len().min(LCP.len())..]
}

/// An LCP packet as a frame.
fn lcp_frame(alloc: Global, packet: &[u8]) -> Result<Bytes, NoMemory>
    ensures { IfOk result (λ f. f ≡ lcp_frame packet.now) }
{
    let mut frame = Bytes::from_slice(alloc, &LCP)?;
    frame.push_slice(packet)?;
    Ok(frame)
}

/// LCP packets as frames.
pub(crate) fn frames_of(alloc: Global, packets: &[Bytes]) -> Result<Frames, NoMemory>
    ensures { IfOk result (λ frames. frames ≡ map lcp_frame packets.now) }
{
    let mut frames = Frames::new(alloc);
    for packet in packets {
        frames.push(lcp_frame(alloc, packet.as_slice())?)?;
    }
    Ok(frames)
}
