//! How texts and values are spelled.

use crate::row::Fault;
use std::alloc::Global;
use std::fmt::Debug;
use wire_base::Bytes;

/// The bytes of a text in which `\n`, `\r`, `\t`, `\s` and `\d` stand for a line feed, a carriage return, a tab, a space and
/// a delete character.
pub fn unescaped(alloc: Global, text: &str) -> Result<Bytes, Fault> {
    let mut bytes = Bytes::new(alloc);
    let mut escaped = false;
    for byte in text.as_bytes() {
        let byte = match *byte {
            b'\\' => {
                escaped = true;
                continue;
            }
            b'n' if escaped => b'\n',
            b'r' if escaped => b'\r',
            b't' if escaped => b'\t',
            b's' if escaped => b' ',
            b'd' if escaped => 0x7f,
            other => other,
        };
        bytes.push_slice(&[byte])?;
        escaped = false;
    }
    Ok(bytes)
}

/// Writes a word behind a space, or in hex behind the bytes of its list, and tells whether it was a byte of the list.
fn push_word(
    alloc: Global,
    plain: &mut String,
    word: &str,
    listed: bool,
    first: bool,
) -> Result<bool, Fault> {
    if word == "Bytes" || word == "Sequence" {
        return Ok(false);
    }
    if (first || !listed) && !plain.is_empty() {
        plain.push(' ')?;
    }
    if listed && let Ok(byte) = word.parse::<u8>() {
        plain.push_str(format!(in alloc; "{byte:02x}")?.as_str())?;
        return Ok(true);
    }
    plain.push_str(word)?;
    Ok(false)
}

/// A value that is written as Rust writes it, without its punctuation and the names of its fields and of lists. A list of bytes
/// is in hex, and an empty list is `-`.
pub fn plain(alloc: Global, text: &str) -> Result<String, Fault> {
    let mut plain = String::new(alloc);
    let mut word = String::new(alloc);
    let mut listed = false;
    let mut first = false;
    for c in text.chars() {
        if c.is_ascii_alphanumeric() || c == '_' {
            word.push(c)?;
            continue;
        }
        if c != ':' && !word.is_empty() {
            listed = push_word(alloc, &mut plain, word.as_str(), listed, first)?;
            first = false;
        }
        if c == ']' && first {
            plain.push_str(" -")?;
        }
        word.clear();
        if c == '[' || c == ']' {
            listed = c == '[';
            first = listed;
        }
    }
    if !word.is_empty() {
        push_word(alloc, &mut plain, word.as_str(), false, false)?;
    }
    Ok(plain)
}

/// A value as Rust writes it.
pub fn told<T: Debug>(alloc: Global, value: &T) -> Result<String, Fault> {
    Ok(format!(in alloc; "{value:?}")?)
}
