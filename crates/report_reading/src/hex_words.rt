//! The bytes that words spell in hex.

ghost use Rattle.std.specs.Prelude.{◌≡◌, IfOk, Ok};
ghost use Rattle.std.specs.Str.{bytes_eq};
ghost use Rattle.hex.specs.Hex.{encode_lower};
ghost use Rattle.schedule_text.specs.Reading.{bytes_from, bytes_of};
ghost use Rattle.report_reading.specs.Reading.{payload_of};

use hex::FromHexError;
use std::alloc::Global;
use wire_base::{Bytes, NoMemory};

/// Whether a word is the spelling of bytes. A decoder takes upper case too, so the bytes are spelled again.
fn is_spelling(alloc: Global, word: &[u8], bytes: &[u8]) -> Result<bool, NoMemory>
    ensures { IfOk result (λ is. is ≡ bytes_eq (encode_lower bytes.now) word.now) }
{
    let spelling = hex::encode(alloc, bytes)?;
    Ok(spelling.as_bytes() == word)
}

/// The bytes, where their length is between two bounds and the word is their spelling.
fn keep_bytes(
    alloc: Global,
    word: &[u8],
    bytes: &[u8],
    least: usize,
    most: usize,
) -> Result<Option<Bytes>, NoMemory>
    ensures { IfOk result (λ b. b ≡ bytes_from least most word.now (Ok bytes.now)) }
{
    if bytes.len() < least || most < bytes.len() {
        return Ok(None);
    }
    if !is_spelling(alloc, word, bytes)? {
        return Ok(None);
    }
    let kept = Bytes::from_slice(alloc, bytes)?;
    Ok(Some(kept))
}

/// The bytes that a word spells in hex, where their length is between two bounds.
#[tactic(auto, unfolding(schedule_text::specs::Reading::bytes_of))]
fn read_bytes(
    alloc: Global,
    word: &[u8],
    least: usize,
    most: usize,
) -> Result<Option<Bytes>, NoMemory>
    ensures { IfOk result (λ b. b ≡ bytes_of least most word.now) }
{
    match hex::decode(alloc, word) {
        Ok(bytes) => keep_bytes(alloc, word, bytes.as_slice(), least, most),
        Err(FromHexError::OutOfMemory) => Err(NoMemory),
        Err(_) => Ok(None),
    }
}

/// The bytes of a datagram or of a frame that a word spells.
pub(crate) fn read_payload(alloc: Global, word: &[u8]) -> Result<Option<Bytes>, NoMemory>
    ensures { IfOk result (λ b. b ≡ payload_of word.now) }
{
    read_bytes(alloc, word, 1, 65507)
}
