//! Reading one line, without its line feed.

ghost use Rattle.std.specs.Prelude.{◌≡◌, MatchOption, IfOk, Some, None};
ghost use Rattle.report_reading.specs.Reading.{packet_words_of, send_of, frame_of, tells_other, told_of, first_words_of, numbered_line_of, or_other, line_of};

use crate::endings::is_ending;
use crate::entry::Entry;
use crate::fields::{Field, fits};
use crate::hex_words::read_payload;
use crate::parts::{read_count, read_node, split_once};
use std::alloc::Global;
use wire_base::NoMemory;

/// A packet, its two nodes, and the word of its bytes.
#[tactic(auto, unfolding(crate::specs::Reading::packet_words_of))]
fn read_packet_words(words: &[u8]) -> Option<(u32, u8, u8, &[u8])>
    ensures { MatchOption result (packet_words_of words.now ≡ None) (λ w. packet_words_of words.now ≡ Some (w.0, w.1, w.2, w.3.now)) }
{
    let (packet, words) = split_once(words, b' ')?;
    let (from, words) = split_once(words, b' ')?;
    let (to, bytes) = split_once(words, b' ')?;
    let packet = read_count(packet)?;
    let from = read_node(from)?;
    let to = read_node(to)?;
    Some((packet, from, to, bytes))
}

/// `P N M HEX`, behind `L send `.
#[tactic(auto, unfolding(crate::specs::Reading::send_of))]
fn read_send(alloc: Global, line: u32, words: &[u8]) -> Result<Option<Entry>, NoMemory>
    ensures { IfOk result (λ e. e ≡ send_of line words.now) }
{
    let Some((packet, from, to, word)) = read_packet_words(words) else {
        return Ok(None);
    };
    let Some(bytes) = read_payload(alloc, word)? else {
        return Ok(None);
    };
    Ok(Some(Entry::Datagram {
        line,
        packet,
        from,
        to,
        bytes,
    }))
}

/// `N HEX`, behind `L frame `.
#[tactic(auto, unfolding(crate::specs::Reading::frame_of))]
fn read_frame(alloc: Global, line: u32, words: &[u8]) -> Result<Option<Entry>, NoMemory>
    ensures { IfOk result (λ e. e ≡ frame_of line words.now) }
{
    let Some((node, word)) = split_once(words, b' ') else {
        return Ok(None);
    };
    let Some(node) = read_node(node) else {
        return Ok(None);
    };
    let Some(bytes) = read_payload(alloc, word)? else {
        return Ok(None);
    };
    Ok(Some(Entry::Frame { line, node, bytes }))
}

/// Whether a line of this kind tells of something else than what was sent.
#[tactic(auto, unfolding(crate::specs::Reading::tells_other))]
fn tells_other(kind: &[u8], words: &[u8]) -> bool
    ensures { result ≡ tells_other kind.now words.now }
{
    if kind == b"up".as_slice() {
        let up = [Field::Node, Field::Id, Field::Count, Field::Word];
        fits(&up, Field::Hex, words)
    } else if kind == b"gone".as_slice() {
        fits(&[Field::Node], Field::Id, words)
    } else if kind == b"drop".as_slice() {
        fits(&[Field::Node], Field::Word, words)
    } else if kind == b"cause".as_slice() {
        fits(&[Field::Node], Field::Word, words)
    } else if kind == b"held".as_slice() {
        fits(&[Field::Node], Field::Count, words)
    } else if kind == b"stopped".as_slice() {
        fits(&[], Field::Node, words)
    } else {
        false
    }
}

/// What a line tells, by its number, the word of its kind, and the words behind it.
#[tactic(auto, unfolding(crate::specs::Reading::told_of))]
fn read_told(alloc: Global, line: u32, kind: &[u8], words: &[u8]) -> Result<Option<Entry>, NoMemory>
    ensures { IfOk result (λ e. e ≡ told_of line kind.now words.now) }
{
    if kind == b"send".as_slice() {
        read_send(alloc, line, words)
    } else if kind == b"frame".as_slice() {
        read_frame(alloc, line, words)
    } else if tells_other(kind, words) {
        Ok(Some(Entry::Other))
    } else {
        Ok(None)
    }
}

/// The number of a line, the word of its kind, and the words behind it.
#[tactic(auto, unfolding(crate::specs::Reading::first_words_of))]
fn read_first_words(text: &[u8]) -> Option<(u32, &[u8], &[u8])>
    ensures { MatchOption result (first_words_of text.now ≡ None) (λ w. first_words_of text.now ≡ Some (w.0, w.1.now, w.2.now)) }
{
    let (line, words) = split_once(text, b' ')?;
    let (kind, words) = split_once(words, b' ')?;
    let line = read_count(line)?;
    Some((line, kind, words))
}

/// What a line with a number tells.
#[tactic(auto, unfolding(crate::specs::Reading::numbered_line_of))]
fn read_numbered_line(alloc: Global, text: &[u8]) -> Result<Option<Entry>, NoMemory>
    ensures { IfOk result (λ e. e ≡ numbered_line_of text.now) }
{
    match read_first_words(text) {
        Some((line, kind, words)) => read_told(alloc, line, kind, words),
        None => Ok(None),
    }
}

/// What a line tells where it has no number that begins it.
fn or_other(told: Option<Entry>, ends: bool) -> Option<Entry>
    ensures { result ≡ or_other told ends }
{
    match told {
        Some(entry) => Some(entry),
        None if ends => Some(Entry::Other),
        None => None,
    }
}

/// What the line that has these bytes tells, if a report has such a line.
#[tactic(auto, unfolding(crate::specs::Reading::line_of))]
pub(crate) fn read_line(alloc: Global, text: &[u8]) -> Result<Option<Entry>, NoMemory>
    ensures { IfOk result (λ e. e ≡ line_of text.now) }
{
    let told = read_numbered_line(alloc, text)?;
    Ok(or_other(told, is_ending(text)))
}
