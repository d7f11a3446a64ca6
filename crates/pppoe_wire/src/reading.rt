//! Reading a frame, and reading tags from the front.

ghost use Rattle.std.specs.Prelude.{◌≡◌, ℕ, ◌+◌, ◌≤◌, ◌++◌, nat_lt, List, length, take, drop, Ok, Err, IfOk, IfErr};
ghost use Rattle.wire_base.specs.Answers.{Gives};
ghost use Rattle.pppoe_wire.specs.declared.frame.Pppoe.{Pppoe};
ghost use Rattle.pppoe_wire.specs.declared.frame.Tag.{Tag};
ghost use Rattle.pppoe_wire.specs.declared.error.PppoeError.{PppoeError};
ghost use Rattle.pppoe_wire.specs.declared.error.TagError.TheVariants.{TagPastEnd};
ghost use Rattle.pppoe_wire.specs.Spelling.{frame_bytes, FitsFrame, spelling, AreTags};
ghost use Rattle.pppoe_wire.specs.Grammar.{HasFrame, IsFault, IsFirstFault, HasTags, IsTagFault, IsFirstTagFault, Fronts, LacksAt};
ghost use Rattle.pppoe_wire.specs.Reading.{Told, frame_of, ToldTag, tags_of};

use crate::error::{PppoeError, TagError};
use crate::frame::{Pppoe, Tag, Tags};
use byteorder::{BigEndian, ByteOrder};
use std::alloc::Global;
use wire_base::{Bytes, NoMemory};

/// The six bytes of an Ethernet address from a place.
fn address_at(bytes: &[u8], at: usize) -> [u8; 6]
    requires { at + 6 ≤ length bytes.now }
    ensures { result ≡ take 6 (drop at bytes.now) }
{
    let mut address = [0; 6];
    address.copy_from_slice(&bytes[at..at + 6]);
    address
}

/// The payload of the length that the head tells. What stands behind it is padding.
fn payload_of(alloc: Global, bytes: &[u8], said: usize) -> Result<Bytes, NoMemory>
    requires { 20 + said ≤ length bytes.now }
    ensures { IfOk result (λ payload. payload ≡ take said (drop 20 bytes.now)) }
{
    Bytes::from_slice(alloc, &bytes[20..20 + said])
}

/// The whole reading, with the answer as a function of the bytes.
#[tactic(auto, unfolding(crate::specs::Reading::frame_of, crate::specs::Reading::frame_with))]
fn read_whole(alloc: Global, bytes: &[u8]) -> Result<Pppoe, PppoeError>
    ensures { Gives Told (λ f. f) result (frame_of bytes.now) }
{
    if bytes.len() < 20 {
        return Err(PppoeError::Short);
    }
    let session_stage = match BigEndian::read_u16(&bytes[12..]) {
        0x8863 => false,
        0x8864 => true,
        _ => return Err(PppoeError::VerType { seen: 0 }),
    };
    let seen = bytes[14];
    if seen != 0x11 {
        return Err(PppoeError::VerType { seen });
    }
    let said = usize::from(BigEndian::read_u16(&bytes[18..]));
    let have = bytes.len() - 20;
    if have < said {
        return Err(PppoeError::Length { said, have });
    }
    let payload = payload_of(alloc, bytes, said)?;
    Ok(Pppoe {
        dst: address_at(bytes, 0),
        src: address_at(bytes, 6),
        session_stage,
        code: bytes[15],
        session: BigEndian::read_u16(&bytes[16..]),
        start: 20,
        end: 20 + said,
        payload,
    })
}

/// The frame at the front of the bytes, which begin with the destination's address (RFC 2516 section 4). Bytes behind its
/// LENGTH are padding, and are ignored. Any CODE and any SESSION_ID is taken.
pub fn read_frame(alloc: Global, bytes: &[u8]) -> Result<Pppoe, PppoeError>
    // The bytes have the frame that is read.
    ensures found { IfOk result (HasFrame bytes.now) }
    // The fault that is told is there, and is the first.
    ensures fault { IfErr result (IsFirstFault bytes.now) }
    // A frame that the bytes have is read, unless memory runs out.
    ensures only { (f : Pppoe) → HasFrame bytes.now f → Gives Told (λ x. x) result (Ok f) }
    // A first fault is told, unless memory runs out.
    ensures told { (e : PppoeError) → IsFault bytes.now e → Gives Told (λ x. x) result (Err e) }
    // For callers: the answer as a function of the bytes.
    ensures exact { Gives Told (λ f. f) result (frame_of bytes.now) }
{
    read_whole(alloc, bytes)
}

/// Whether a tag of a length ends past the end of the bytes.
fn is_past_end(len: usize, have: usize) -> bool
    ensures { result ≡ nat_lt have len }
{
    have < len
}

/// The tag at the front, and how many bytes it takes; none at the end of the bytes and at End-Of-List. Its place is told
/// in a fault.
fn read_tag(alloc: Global, rest: &[u8], at: usize) -> Result<Option<(Tag, usize)>, TagError>
    ensures found { IfOk result (Fronts rest.now) }
    ensures fault { IfErr result (LacksAt rest.now at) }
{
    if rest.is_empty() {
        return Ok(None);
    }
    if rest.len() < 4 {
        return Err(TagError::TagPastEnd { at });
    }
    let kind = BigEndian::read_u16(rest);
    if kind == 0 {
        return Ok(None);
    }
    let len = 4 + usize::from(BigEndian::read_u16(&rest[2..]));
    if is_past_end(len, rest.len()) {
        return Err(TagError::TagPastEnd { at });
    }
    let value = Bytes::from_slice(alloc, &rest[4..len])?;
    Ok(Some((Tag { kind, value }, len)))
}

fn read_all(alloc: Global, payload: &[u8]) -> Result<Tags, TagError>
    ensures found { IfOk result (HasTags payload.now) }
    ensures fault { IfErr result (IsFirstTagFault payload.now) }
{
    let mut tags = Tags::new(alloc);
    let mut at = 0;
    while let Some((tag, len)) = read_tag(alloc, &payload[at..], at)? {
        tags.push(tag)?;
        at += len;
    }
    Ok(tags)
}

/// The tags of a payload (RFC 2516 appendix A), to its end or to an End-Of-List, which isn't among them. A tag of type
/// 0000 is an End-Of-List whatever its length, and what follows is ignored. A refusal tells the first fault from the
/// front.
pub fn read_tags(alloc: Global, payload: &[u8]) -> Result<Tags, TagError>
    // The payload is the spelling of what is read, to its end or to an End-Of-List.
    ensures found { IfOk result (HasTags payload.now) }
    // A fault stands where it is told, and whole tags before it.
    ensures fault { IfErr result (IsFirstTagFault payload.now) }
    // What is spelled so is read, unless memory runs out.
    ensures only { (v : List Tag) → HasTags payload.now v → Gives ToldTag (λ x. x) result (Ok v) }
    // A fault that stands there is told, unless memory runs out.
    ensures told { (at : ℕ) → IsTagFault payload.now at → Gives ToldTag (λ x. x) result (Err (TagPastEnd at)) }
    // For callers: the answer as a function of the bytes.
    ensures exact { Gives ToldTag (λ v. v) result (tags_of payload.now) }
{
    read_all(alloc, payload)
}

/// A law: what was written is read again, a frame also with padding behind it.
pub fn reads_what_was_written()
    ensures frame { (f : Pppoe) (padding : List ℕ) → FitsFrame f → frame_of (frame_bytes f ++ padding) ≡ Ok f }
    ensures tags { (v : List Tag) → AreTags v → tags_of (spelling v) ≡ Ok v }
{}
