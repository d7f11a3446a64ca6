//! Datagrams whose hidden values a secret uncovers (RFC 2661 section 4.3).

ghost use Rattle.std.specs.Prelude.{◌≡◌, ◌≤◌, length, unwrap_or, IfOk, Some, Ok};
ghost use Rattle.avp_codec.specs.Reading.{avps_of};
ghost use Rattle.avp_codec.specs.Spelling.{AreAvps, spelling};
ghost use Rattle.l2tp_header.specs.Spelling.{control_bytes};
ghost use Rattle.control_message.specs.Uncovering.{uncovered};
ghost use Rattle.end_model.specs.Secrets.{has_hidden, uncovered_pairs, uncovered_datagram};

use avp_codec::{AvpError, LentAvps, spell_avps};
use control_message::{spells_what_was_uncovered, uncover};
use l2tp_datagram::{Body, Datagram};
use l2tp_header::{Header, write_control};
use std::alloc::Global;
use wire_base::{Bytes, NoMemory};

/// How many bytes of pairs a control message has room for, whose length field counts the header's 12 bytes too.
const ROOM: usize = 65_523;

/// Whether a pair is hidden.
fn has_hidden(avps: &LentAvps<'_>) -> bool
    ensures { result ≡ has_hidden avps.now }
{
    control_message::has_hidden(avps)
}

/// The pairs as bytes, with what the secret uncovers of them uncovered.
fn spell_uncovered(alloc: Global, secret: &[u8], avps: &LentAvps<'_>) -> Result<Bytes, NoMemory>
    requires { AreAvps (uncovered (Some secret.now) avps.now) }
    ensures { IfOk result (λ pairs. pairs ≡ spelling (uncovered (Some secret.now) avps.now)) }
{
    let plain = uncover(alloc, avps, secret)?;
    spell_avps(alloc, plain.as_slice())
}

/// A control message with the numbers and ids of a header, and other pairs.
fn with_pairs(alloc: Global, header: &Header, pairs: &[u8]) -> Result<Bytes, NoMemory>
    requires { length pairs.now ≤ 65523 }
    ensures { IfOk result (λ bytes. bytes ≡ control_bytes header.now.tunnel header.now.session
        (unwrap_or header.now.ns 0) (unwrap_or header.now.nr 0) pairs.now) }
{
    let ns = header.ns.unwrap_or(0);
    let nr = header.nr.unwrap_or(0);
    let mut bytes = Bytes::new(alloc);
    write_control(&mut bytes, header.tunnel, header.session, ns, nr, pairs)?;
    Ok(bytes)
}

/// A control message with this body, which spells these pairs, where one of them is hidden and there is room for what they are then.
fn uncover_pairs(
    alloc: Global,
    secret: &[u8],
    bytes: &[u8],
    header: &Header,
    body: &[u8],
    avps: &LentAvps<'_>,
) -> Result<Option<Bytes>, NoMemory>
    requires { avps_of body.now ≡ Ok avps.now }
    ensures { IfOk result (λ r. unwrap_or r bytes.now ≡ uncovered_pairs secret.now bytes.now header.now (Ok avps.now)) }
{
    if !has_hidden(avps) {
        return Ok(None);
    }
    spells_what_was_uncovered();
    let pairs = spell_uncovered(alloc, secret, avps)?;
    if pairs.len() > ROOM {
        return Ok(None);
    }
    let plain = with_pairs(alloc, header, pairs.as_slice())?;
    Ok(Some(plain))
}

/// A control message with this body.
fn uncover_body(
    alloc: Global,
    secret: &[u8],
    bytes: &[u8],
    header: &Header,
    body: &Body<'_>,
) -> Result<Option<Bytes>, NoMemory>
    ensures { IfOk result (λ r. unwrap_or r bytes.now ≡ uncovered_pairs secret.now bytes.now header.now (avps_of body.now)) }
{
    match body.pairs() {
        Ok(avps) => uncover_pairs(alloc, secret, bytes, header, body.as_slice(), &avps),
        Err(AvpError::NoMemory) => Err(NoMemory),
        Err(_) => Ok(None),
    }
}

/// A datagram as an end with a secret reads it.
#[tactic(auto, unfolding(end_model::specs::Secrets::uncovered_datagram))]
fn uncover_by(alloc: Global, secret: &[u8], datagram: &Datagram) -> Result<Option<Bytes>, NoMemory>
    ensures { IfOk result (λ r. unwrap_or r datagram.now ≡ uncovered_datagram (Some secret.now) datagram.now) }
{
    let Ok(header) = datagram.header() else {
        return Ok(None);
    };
    if !header.control {
        return Ok(None);
    }
    let body = datagram.body(&header);
    uncover_body(alloc, secret, datagram.as_slice(), &header, &body)
}

/// A datagram as an end with this secret reads it, None where it is as it came: without a secret, where its header can't be
/// read, where it is a data message, where its pairs can't be read or none is hidden, and where what is uncovered has no
/// room. Else it is a control message with the same numbers and ids, and with those values in plain that the secret
/// uncovers (RFC 2661 section 4.3). Nothing is copied where no pair is hidden.
#[tactic(auto, unfolding(end_model::specs::Secrets::uncovered_datagram))]
pub fn uncover_datagram(
    alloc: Global,
    secret: &Option<Bytes>,
    datagram: &Datagram,
) -> Result<Option<Bytes>, NoMemory>
    ensures { IfOk result (λ r. unwrap_or r datagram.now ≡ uncovered_datagram secret.now datagram.now) }
{
    match secret {
        None => Ok(None),
        Some(secret) => uncover_by(alloc, secret.as_slice(), datagram),
    }
}
