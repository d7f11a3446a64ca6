//! What a control message is for that names no tunnel.

ghost use Rattle.std.specs.Prelude.{◌≡◌, List, Ok, IfOk};
ghost use Rattle.avp_codec.specs.declared.avp.Avp.{Avp};
ghost use Rattle.control_message.specs.declared.message.Read.TheVariants.{Known};
ghost use Rattle.end_model.specs.Reading.{at_zero, kind_said, zero_faulty, zero_pairs, zero_read, stopped};

use avp_codec::{AvpError, LentAvps};
use control_message::{
    Kind, Kinds, Message, MessageError, Read, assigned_tunnel, has_recovery, kind_of_pairs,
    read_message,
};
use end_model::Addressee;
use l2tp_datagram::Body;
use std::alloc::Global;
use wire_base::{NoMemory, Why};

/// A StopCCN is for the tunnel whose id it tells; one that tells none, or 0, is for none.
fn stopped(told: Option<u16>) -> Addressee
    ensures { result ≡ stopped told }
{
    match told {
        None | Some(0) => Addressee::Nobody { why: Why::Tunnel },
        Some(remote) => Addressee::Stops { remote },
    }
}

/// What a message is for that has no fault: an SCCRQ opens a tunnel, or asks for the recovery of one.
#[tactic(auto, unfolding(end_model::specs::Reading::zero_read))]
fn zero_known(message: &Message) -> Addressee
    ensures { (avps : List Avp) → result ≡ zero_read avps (Ok (Known message.now)) }
{
    match message {
        Message::Sccrq(opening) if opening.recovery.is_some() => Addressee::Recovers {
            remote: opening.tunnel,
        },
        Message::Sccrq(opening) => Addressee::Opens {
            remote: opening.tunnel,
        },
        Message::Sccrp(opening) => Addressee::Answers {
            remote: opening.tunnel,
        },
        Message::StopCcn { tunnel, .. } => stopped(Some(*tunnel)),
        _ => Addressee::Nobody { why: Why::Tunnel },
    }
}

/// What one is for by its kind and by the tunnel id that its pairs tell, as where it has a fault.
fn zero_by_kind(avps: &LentAvps<'_>) -> Addressee
    ensures { result ≡ zero_faulty (kind_said avps.now) avps.now }
{
    match kind_of_pairs(avps, Kinds::Queries) {
        Some(Kind::Sccrq) => match assigned_tunnel(avps) {
            None | Some(0) => Addressee::Nobody { why: Why::Avp },
            Some(remote) => Addressee::Opens { remote },
        },
        Some(Kind::Sccrp) => match assigned_tunnel(avps) {
            None | Some(0) => Addressee::Nobody { why: Why::Avp },
            Some(remote) => Addressee::Answers { remote },
        },
        Some(Kind::StopCcn) => stopped(assigned_tunnel(avps)),
        _ => Addressee::Nobody { why: Why::Tunnel },
    }
}

/// What pairs at tunnel 0 are for, by the whole message.
#[tactic(auto, unfolding(end_model::specs::Reading::zero_pairs, end_model::specs::Reading::zero_read))]
fn zero_whole(alloc: Global, avps: &LentAvps<'_>) -> Result<Addressee, NoMemory>
    ensures { IfOk result (λ to. to ≡ zero_pairs (Ok avps.now)) }
{
    match read_message(alloc, avps, None, Kinds::Queries) {
        Ok(Read::Known(message)) => Ok(zero_known(&message)),
        Ok(Read::Ignored { .. }) => Ok(Addressee::Nobody { why: Why::Tunnel }),
        Err(MessageError::NoMemory) => Err(NoMemory),
        Err(_) => Ok(zero_by_kind(avps)),
    }
}

/// What pairs at tunnel 0 are for. Only where they ask for a recovery the whole message is read, since one that has a fault asks for
/// none; else it is told by their kind and by the tunnel id that they tell.
#[tactic(auto, using(crate::proofs::Tunnels::zero_is), unfolding(end_model::specs::Reading::zero_pairs))]
fn zero_pairs(alloc: Global, avps: &LentAvps<'_>) -> Result<Addressee, NoMemory>
    ensures { IfOk result (λ to. to ≡ zero_pairs (Ok avps.now)) }
{
    if has_recovery(avps) {
        return zero_whole(alloc, avps);
    }
    Ok(zero_by_kind(avps))
}

/// What a control message at tunnel 0 is for (RFC 2661 section 3.1: its sender doesn't know the other end's id yet).
#[tactic(auto, unfolding(end_model::specs::Reading::at_zero, end_model::specs::Reading::zero_pairs))]
pub fn at_zero(alloc: Global, body: &Body<'_>) -> Result<Addressee, NoMemory>
    ensures { IfOk result (λ to. to ≡ at_zero body.now) }
{
    match body.pairs() {
        Ok(avps) => zero_pairs(alloc, &avps),
        Err(AvpError::NoMemory) => Err(NoMemory),
        Err(_) => Ok(Addressee::Nobody { why: Why::Avp }),
    }
}
