//! Reading pairs from the front.

ghost use Rattle.std.specs.Prelude.{◌≡◌, ◌≤◌, ◌==◌, ◌/◌, ◌%◌, nat_lt, ℕ, ◌+◌, ◌<◌, ◌^◌, List, length, drop, Ok, Err, IfOk, IfErr};
ghost use Rattle.avp_codec.specs.declared.avp.Avp.{Avp};
ghost use Rattle.avp_codec.specs.declared.error.AvpError.{AvpError};
ghost use Rattle.avp_codec.specs.Spelling.{AreAvps, spelling};
ghost use Rattle.avp_codec.specs.Faults.{IsFault, IsFirstFault};
ghost use Rattle.wire_base.specs.Answers.{Gives};
ghost use Rattle.avp_codec.specs.Reading.{Told, avp_at, avps_of};
ghost use Rattle.avp_codec.specs.Places.{pair_in, pairs_in};

use crate::avp::Avps;
use crate::error::AvpError;
use crate::lent::{LentAvps, Place, Places};
use std::alloc::Global;
use wire_base::take_u16;

/// Whether a length is too small to count the six bytes of a pair's head.
fn is_under_six(len: usize) -> bool
    ensures { result ≡ nat_lt len 6 }
{
    len < 6
}

/// Whether the first word of a pair says that its value is hidden (RFC 2661 section 4.1).
fn is_hidden(word: u16) -> bool
    ensures { result ≡ (word / 16384 % 2 == 1) }
{
    word / 0x4000 % 2 == 1
}

/// The pair at the front as a place in the bytes, and how many bytes it takes. Where the bytes stand is told in a fault.
#[tactic(auto, unfolding(crate::specs::Reading::avp_at))]
fn read_place(rest: &[u8], at: usize) -> Result<(Place, usize), AvpError>
    ensures exact { Gives Told (λ x. (pair_in rest.now x.0, x.1)) result (avp_at at rest.now) }
    ensures start { IfOk result (λ x. x.0.start ≡ 6) }
    ensures len { IfOk result (λ x. (6 ≤ x.1) × (x.1 ≤ length rest.now)) }
{
    let Ok(word) = take_u16(rest, 0) else {
        return Err(AvpError::Short { at });
    };
    let Ok(vendor) = take_u16(rest, 2) else {
        return Err(AvpError::Short { at });
    };
    let Ok(attribute) = take_u16(rest, 4) else {
        return Err(AvpError::Short { at });
    };
    let len = usize::from(word % 0x400);
    if is_under_six(len) {
        return Err(AvpError::LengthUnderSix { at });
    }
    if rest.len() < len {
        return Err(AvpError::PastEnd { at });
    }
    let place = Place {
        mandatory: word / 0x8000 == 1,
        hidden: is_hidden(word),
        reserved: (word / 0x400 % 16) as u8,
        vendor,
        attribute,
        start: 6,
        len: len - 6,
    };
    Ok((place, len))
}

impl Place {
    /// The place in bytes of which the first so many were left out.
    fn behind(self, at: usize) -> Place
        requires { at + self.start < 2 ^ 64 }
        ensures { (bytes : List ℕ) → pair_in bytes result ≡ pair_in (drop at bytes) self }
    {
        Place {
            start: at + self.start,
            ..self
        }
    }
}

/// The places of the pairs that the bytes spell, all of the bytes. No value is copied.
pub fn read_places(alloc: Global, bytes: &[u8]) -> Result<Places, AvpError>
    ensures { Gives Told (λ v. pairs_in bytes.now v) result (avps_of bytes.now) }
{
    let mut places = Places::new(alloc);
    let mut at = 0;
    while at < bytes.len() {
        let (place, len) = read_place(&bytes[at..], at)?;
        places.push(place.behind(at))?;
        at += len;
    }
    Ok(places)
}

/// The whole reading, with the answer as a function of the bytes.
fn read_all(alloc: Global, bytes: &[u8]) -> Result<Avps, AvpError>
    ensures { Gives Told (λ v. v) result (avps_of bytes.now) }
{
    let places = read_places(alloc, bytes)?;
    let avps = LentAvps::new(bytes, places.as_slice()).copy(alloc)?;
    Ok(avps)
}

/// The pairs that the bytes spell, all of the bytes; no bytes spell no pair. A refusal tells the first fault from the
/// front.
pub fn read_avps(alloc: Global, bytes: &[u8]) -> Result<Avps, AvpError>
    // The bytes are the spelling of what is read.
    ensures found { IfOk result (λ v. AreAvps v × (bytes.now ≡ spelling v)) }
    // A fault stands where it is told, and whole pairs before it.
    ensures fault { IfErr result (IsFirstFault bytes.now) }
    // What is spelled so is read, unless memory runs out.
    ensures only { (v : List Avp) → AreAvps v → bytes.now ≡ spelling v → Gives Told (λ x. x) result (Ok v) }
    // A fault that stands there is told, unless memory runs out.
    ensures told { (e : AvpError) → IsFault bytes.now e → Gives Told (λ x. x) result (Err e) }
    // For callers: the answer as a function of the bytes.
    ensures exact { Gives Told (λ v. v) result (avps_of bytes.now) }
{
    read_all(alloc, bytes)
}

/// A law: what was written is read again as the same pairs.
pub fn reads_what_was_written()
    ensures { (v : List Avp) → AreAvps v → avps_of (spelling v) ≡ Ok v }
{}
