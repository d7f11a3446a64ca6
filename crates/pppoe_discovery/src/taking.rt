//! What a frame leads to.

ghost use Rattle.std.specs.Prelude.{◌≡◌, ◌≤◌, length, IfOk, Some};
ghost use Rattle.pppoe_wire.specs.Reading.{tags_of};
ghost use Rattle.pppoe_discovery.specs.Asking.{IsShort, AreShort};
ghost use Rattle.pppoe_discovery.specs.Discovery.{is_for, offer, admission, requested, taken, discovered};
ghost use Rattle.pppoe_discovery.specs.Replies.{refusal};
ghost use Rattle.pppoe_discovery.specs.Told.{MayBeTold, IsPayloadOf, IsWithin};
ghost use Rattle.pppoe_discovery.specs.declared.outcome.Discovered.TheVariants.{Reply};
ghost use Rattle.pppoe_wire.specs.Spelling.{frame_bytes};

use crate::asking::Asked;
use crate::code::{PADI, PADO, PADR, PADT, SESSION};
use crate::cookies::{cookie, is_cookie};
use crate::outcome::Discovered;
use crate::replies::{pado_payload, write_refusal, write_sent};
use pppoe_wire::{Pppoe, PppoeError, TagError, read_frame, read_tags};
use std::alloc::Global;
use wire_base::{Bytes, Cause, NoMemory, Why};

/// Whether a frame comes from one host, and to this address, or as a PADI to all.
fn is_for(mac: &[u8; 6], frame: &Pppoe) -> bool
    ensures { result ≡ is_for mac.now frame.now }
{
    let is_group = frame.src[0] % 2 == 1;
    let is_padi = !frame.session_stage && frame.code == PADI;
    !is_group && (frame.dst == *mac || is_padi && frame.dst == [0xff; 6])
}

/// What a PADI leads to.
fn on_padi(
    alloc: Global,
    key: &[u8; 16],
    mac: &[u8; 6],
    name: &[u8],
    src: &[u8; 6],
    asked: &Asked,
) -> Result<Discovered, NoMemory>
    requires name { length name.now ≤ 255 }
    requires short { AreShort asked.now }
    ensures found { IfOk result (λ found. found ≡ offer key.now mac.now name.now src.now asked.now asked.now.service) }
    ensures told { IfOk result (λ found. MayBeTold found) }
{
    let Some(service) = &asked.service else {
        return Ok(Discovered::Ignored { why: Why::Service });
    };
    let cookie = cookie(key, src);
    let payload = pado_payload(
        alloc,
        service.as_slice(),
        name,
        &cookie,
        &asked.uniq,
        &asked.relay,
    )?;
    let frame = write_sent(alloc, mac, src, PADO, 0, payload)?;
    Ok(Discovered::Reply { cause: None, frame })
}

/// A PADR is refused.
fn refuse(
    alloc: Global,
    mac: &[u8; 6],
    src: &[u8; 6],
    cause: Cause,
    uniq: &Option<Bytes>,
    relay: &Option<Bytes>,
) -> Result<Discovered, NoMemory>
    requires uniq { IsShort uniq.now }
    requires relay { IsShort relay.now }
    ensures { IfOk result (λ found. found ≡ Reply (Some cause) (frame_bytes (refusal mac.now src.now cause uniq.now relay.now))) }
{
    let frame = write_refusal(alloc, mac, src, cause, uniq, relay)?;
    Ok(Discovered::Reply {
        cause: Some(cause),
        frame,
    })
}

/// What a PADR leads to.
fn on_padr(
    alloc: Global,
    key: &[u8; 16],
    mac: &[u8; 6],
    src: &[u8; 6],
    asked: Asked,
) -> Result<Discovered, NoMemory>
    requires { AreShort asked }
    ensures found { IfOk result (λ found. found ≡ admission key.now mac.now src.now asked asked.service) }
    ensures told { IfOk result (λ found. MayBeTold found) }
{
    let Asked {
        service,
        cookie,
        uniq,
        relay,
    } = asked;
    let Some(service) = service else {
        return refuse(alloc, mac, src, Cause::Service, &uniq, &relay);
    };
    if !is_cookie(key, src, &cookie) {
        return refuse(alloc, mac, src, Cause::Cookie, &uniq, &relay);
    }
    Ok(Discovered::Admit {
        src: *src,
        service,
        uniq,
        relay,
    })
}

/// What a PADI or a PADR leads to.
fn on_request(
    alloc: Global,
    key: &[u8; 16],
    mac: &[u8; 6],
    name: &[u8],
    frame: &Pppoe,
) -> Result<Discovered, NoMemory>
    requires name { length name.now ≤ 255 }
    requires short { length frame.now.payload ≤ 2048 }
    ensures found { IfOk result (λ found. found ≡ requested key.now mac.now name.now frame.now (tags_of frame.now.payload)) }
    ensures told { IfOk result (λ found. MayBeTold found) }
{
    let tags = match read_tags(alloc, frame.payload.as_slice()) {
        Ok(tags) => tags,
        Err(TagError::TagPastEnd { .. }) => return Ok(Discovered::Ignored { why: Why::Tag }),
        Err(TagError::NoMemory) => return Err(NoMemory),
    };
    let asked = Asked::of_tags(alloc, tags.as_slice())?;
    if frame.code == PADI {
        on_padi(alloc, key, mac, name, &frame.src, &asked)
    } else {
        on_padr(alloc, key, mac, &frame.src, asked)
    }
}

/// What a whole frame leads to.
#[tactic(auto, unfolding(crate::specs::Discovery::taken))]
fn on_whole(
    alloc: Global,
    key: &[u8; 16],
    mac: &[u8; 6],
    name: &[u8],
    frame: &Pppoe,
) -> Result<Discovered, NoMemory>
    requires name { length name.now ≤ 255 }
    requires short { length frame.now.payload ≤ 2048 }
    ensures found { IfOk result (λ found. found ≡ taken key.now mac.now name.now frame.now) }
    ensures told { IfOk result (λ found. MayBeTold found) }
    ensures payload { IfOk result (λ found. IsPayloadOf frame.now found) }
{
    if !is_for(mac, frame) {
        return Ok(Discovered::Ignored { why: Why::Address });
    }
    match (frame.session_stage, frame.code) {
        (true, SESSION) => Ok(Discovered::Carried {
            src: frame.src,
            session: frame.session,
            start: frame.start,
            end: frame.end,
        }),
        (false, PADT) => Ok(Discovered::Left {
            src: frame.src,
            session: frame.session,
        }),
        (false, PADI | PADR) => on_request(alloc, key, mac, name, frame),
        _ => Ok(Discovered::Ignored { why: Why::Code }),
    }
}

/// What an Ethernet frame leads to (RFC 2516 sections 5 and 6), for the access concentrator with this address and this name,
/// whose cookies are made with this key. The name has at most 255 bytes, and the frame at most 2,048.
///
/// The first fault decides why a frame is ignored: it is short, its ethertype, version or type is another, its length passes
/// the end, its address isn't the own one (a PADI may go to all; the source is one host's), its code isn't one that is taken,
/// its tags can't be read, or it is a PADI that doesn't ask for a service that is served. A PADR with good tags is always
/// answered or admitted: it is refused where it hasn't exactly one Service-Name, of a service that is served, and else where
/// its AC-Cookie is wrong or wanting. Services are the empty name and l2tp. Tags of a PADT aren't read, and the SESSION_ID of a
/// PADI or PADR isn't looked at.
pub fn on_frame(
    alloc: Global,
    key: &[u8; 16],
    mac: &[u8; 6],
    name: &[u8],
    frame: &[u8],
) -> Result<Discovered, NoMemory>
    requires name { length name.now ≤ 255 }
    requires frame { length frame.now ≤ 2048 }
    ensures found { IfOk result (λ found. found ≡ discovered key.now mac.now name.now frame.now) }
    ensures told { IfOk result (λ found. MayBeTold found) }
    ensures within { IfOk result (λ found. IsWithin frame.now found) }
{
    let why = match read_frame(alloc, frame) {
        Ok(frame) => return on_whole(alloc, key, mac, name, &frame),
        Err(PppoeError::Short) => Why::Short,
        Err(PppoeError::VerType { .. }) => Why::Vertype,
        Err(PppoeError::Length { .. }) => Why::Length,
        Err(PppoeError::NoMemory) => return Err(NoMemory),
    };
    Ok(Discovered::Ignored { why })
}
