//! What declines an opening (RFC 2661 section 7.2.1): a StopCCN of no tunnel.

ghost use Rattle.std.specs.Prelude.{◌≡◌, ◌≤◌, length, IfOk};
ghost use Rattle.avp_codec.specs.Spelling.{spelling};
ghost use Rattle.control_message.specs.Pairs.{pairs_of};
ghost use Rattle.control_message.specs.declared.message.Message.TheVariants as message;
ghost use Rattle.end_model.specs.End.{decline_bytes, next_of_peer};

use crate::reasons::Reason;
use control_message::{Message, has_room, hides_nothing_without_a_vector, write_message};
use l2tp_header::{Header, write_control};
use std::alloc::Global;
use wire_base::{Bytes, NoMemory};

/// The number that the peer is to send next, by the message that it sent.
pub fn next_of_peer(header: &Header) -> u16
    ensures { result ≡ next_of_peer header.now }
{
    header.ns.unwrap_or(0).wrapping_add(1)
}

/// The pairs of a StopCCN of no tunnel, with a result code and an error code.
fn stop_pairs(alloc: Global, code: u16, error: Option<u16>) -> Result<Bytes, NoMemory>
    ensures value { IfOk result (λ pairs. pairs ≡ spelling (pairs_of (message.StopCcn 0 code error))) }
    ensures room { IfOk result (λ pairs. length pairs ≤ 65523) }
{
    has_room();
    hides_nothing_without_a_vector();
    let mut pairs = Bytes::new(alloc);
    write_message(
        &mut pairs,
        &Message::StopCcn {
            tunnel: 0,
            result: code,
            error,
        },
        None,
        None,
    )?;
    Ok(pairs)
}

/// A StopCCN of no tunnel, to a tunnel id of the peer's.
pub fn decline_bytes(
    alloc: Global,
    remote: u16,
    nr: u16,
    reason: &Reason,
) -> Result<Bytes, NoMemory>
    ensures { IfOk result (λ bytes. bytes ≡ decline_bytes remote nr reason.now) }
{
    let pairs = stop_pairs(alloc, reason.code, reason.error)?;
    let mut bytes = Bytes::new(alloc);
    write_control(&mut bytes, remote, 0, 0, nr, pairs.as_slice())?;
    Ok(bytes)
}
