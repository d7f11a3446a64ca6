//! Reading one line, without its line feed.

ghost use Rattle.std.specs.Prelude.{◌≡◌, MatchOption, IfOk, Ok, Some, None};
ghost use Rattle.std.specs.List.{list_all};
ghost use Rattle.std.specs.Str.{bytes_eq};
ghost use Rattle.hex.specs.Hex.{encode_lower};
ghost use Rattle.schedule_text.specs.Reading.{mode_of, mode_words_of, lac_by, lac_of, lns_of, open_of, ring_of, call_of, from_sub_of, down_of, node_session_of, hang_of, drop_of, close_of, frame_line_of, deliver_of, tick_of, load_of, hand_of, carry_of, crash_of, start_of, commit_of, device_call_of, kept_of, stop_words_of, stop_by, stop_of, fall_of, plain_of, words_of, is_printable, line_of, node_of, port_of, session_of, packet_of, held_of, bytes_from, bytes_of, frame_of, ethernet_of, secret_of};

use crate::line::Line;
use crate::parts::{read_number, split_once};
use hex::FromHexError;
use std::alloc::Global;
use wire_base::{Bytes, NoMemory};

fn read_node(word: &[u8]) -> Option<u8>
    ensures { result ≡ node_of word.now }
{
    let node = read_number(word, 1, 255)?;
    Some(node as u8)
}

/// A port, or a session.
fn read_u16(word: &[u8]) -> Option<u16>
    ensures port { result ≡ port_of word.now }
    ensures session { result ≡ session_of word.now }
{
    let number = read_number(word, 1, 65535)?;
    Some(number as u16)
}

/// Whether a word is the spelling of bytes. A decoder takes upper case too, so the bytes are spelled again.
fn is_spelling(alloc: Global, word: &[u8], bytes: &[u8]) -> Result<bool, NoMemory>
    ensures { IfOk result (λ is. is ≡ bytes_eq (encode_lower bytes.now) word.now) }
{
    let spelling = hex::encode(alloc, bytes)?;
    Ok(spelling.as_bytes() == word)
}

/// The bytes, where their length is between two bounds and the word is their spelling.
fn keep_bytes(
    alloc: Global,
    word: &[u8],
    bytes: &[u8],
    least: usize,
    most: usize,
) -> Result<Option<Bytes>, NoMemory>
    ensures { IfOk result (λ b. b ≡ bytes_from least most word.now (Ok bytes.now)) }
{
    if bytes.len() < least || most < bytes.len() {
        return Ok(None);
    }
    if !is_spelling(alloc, word, bytes)? {
        return Ok(None);
    }
    let kept = Bytes::from_slice(alloc, bytes)?;
    Ok(Some(kept))
}

/// The bytes that a word spells in hex, where their length is between two bounds.
#[tactic(auto, unfolding(crate::specs::Reading::bytes_of))]
fn read_bytes(
    alloc: Global,
    word: &[u8],
    least: usize,
    most: usize,
) -> Result<Option<Bytes>, NoMemory>
    ensures { IfOk result (λ b. b ≡ bytes_of least most word.now) }
{
    match hex::decode(alloc, word) {
        Ok(bytes) => keep_bytes(alloc, word, bytes.as_slice(), least, most),
        Err(FromHexError::OutOfMemory) => Err(NoMemory),
        Err(_) => Ok(None),
    }
}

/// The frame of a call that a word spells.
fn read_frame(alloc: Global, word: &[u8]) -> Result<Option<Bytes>, NoMemory>
    ensures { IfOk result (λ f. f ≡ frame_of word.now) }
{
    read_bytes(alloc, word, 2, 1494)
}

/// The Ethernet frame that a word spells.
fn read_ethernet(alloc: Global, word: &[u8]) -> Result<Option<Bytes>, NoMemory>
    ensures { IfOk result (λ f. f ≡ ethernet_of word.now) }
{
    read_bytes(alloc, word, 1, 2048)
}

/// The secret that a word spells, or that there is none.
#[tactic(auto, unfolding(crate::specs::Reading::secret_of))]
fn read_secret(alloc: Global, word: &[u8]) -> Result<Option<Option<Bytes>>, NoMemory>
    ensures { IfOk result (λ s. s ≡ secret_of word.now) }
{
    if word == b"-".as_slice() {
        return Ok(Some(None));
    }
    match read_bytes(alloc, word, 1, 64)? {
        Some(secret) => Ok(Some(Some(secret))),
        None => Ok(None),
    }
}

/// Whether a word says that calling numbers are hidden.
fn read_mode(word: &[u8]) -> Option<bool>
    ensures { result ≡ mode_of word.now }
{
    if word == b"plain".as_slice() {
        Some(false)
    } else if word == b"hide".as_slice() {
        Some(true)
    } else {
        None
    }
}

/// A LAC, its LNS, the word of their secret, and the mode.
#[tactic(auto, unfolding(crate::specs::Reading::mode_words_of))]
fn read_mode_words(words: &[u8]) -> Option<(u8, u8, &[u8], bool)>
    ensures { MatchOption result (mode_words_of words.now ≡ None) (λ w. mode_words_of words.now ≡ Some (w.0, w.1, w.2.now, w.3)) }
{
    let (node, words) = split_once(words, b' ')?;
    let (lns, words) = split_once(words, b' ')?;
    let (secret, mode) = split_once(words, b' ')?;
    let node = read_node(node)?;
    let lns = read_node(lns)?;
    let hide = read_mode(mode)?;
    Some((node, lns, secret, hide))
}

/// The line of a LAC, which hides only where there is a secret to hide by.
fn lac_line(node: u8, lns: u8, secret: Option<Bytes>, hide: bool) -> Option<Line>
    ensures { result ≡ lac_by node lns secret hide }
{
    if hide && secret.is_none() {
        return None;
    }
    Some(Line::Lac {
        node,
        lns,
        secret,
        hide,
    })
}

/// `N M SECRET MODE`, behind `lac `.
#[tactic(auto, unfolding(crate::specs::Reading::lac_of))]
fn read_lac(alloc: Global, words: &[u8]) -> Result<Option<Line>, NoMemory>
    ensures { IfOk result (λ l. l ≡ lac_of words.now) }
{
    let Some((node, lns, word, hide)) = read_mode_words(words) else {
        return Ok(None);
    };
    let Some(secret) = read_secret(alloc, word)? else {
        return Ok(None);
    };
    Ok(lac_line(node, lns, secret, hide))
}

/// `N SECRET`, behind `lns `.
#[tactic(auto, unfolding(crate::specs::Reading::lns_of))]
fn read_lns(alloc: Global, words: &[u8]) -> Result<Option<Line>, NoMemory>
    ensures { IfOk result (λ l. l ≡ lns_of words.now) }
{
    let Some((node, word)) = split_once(words, b' ') else {
        return Ok(None);
    };
    let Some(node) = read_node(node) else {
        return Ok(None);
    };
    let Some(secret) = read_secret(alloc, word)? else {
        return Ok(None);
    };
    Ok(Some(Line::Lns { node, secret }))
}

/// `N`, behind `open `.
#[tactic(auto, unfolding(crate::specs::Reading::open_of))]
fn read_open(words: &[u8]) -> Option<Line>
    ensures { result ≡ open_of words.now }
{
    let node = read_node(words)?;
    Some(Line::OpenUp { node })
}

/// `N K`, behind `ring `.
#[tactic(auto, unfolding(crate::specs::Reading::ring_of))]
fn read_ring(words: &[u8]) -> Option<Line>
    ensures { result ≡ ring_of words.now }
{
    let (node, port) = split_once(words, b' ')?;
    let node = read_node(node)?;
    let port = read_u16(port)?;
    Some(Line::Ring { node, port })
}

/// A node, a session of it, and the word of a frame.
#[tactic(auto, unfolding(crate::specs::Reading::call_of))]
fn read_call(words: &[u8]) -> Option<(u8, u16, &[u8])>
    ensures { MatchOption result (call_of words.now ≡ None) (λ c. call_of words.now ≡ Some (c.0, c.1, c.2.now)) }
{
    let (node, words) = split_once(words, b' ')?;
    let (session, frame) = split_once(words, b' ')?;
    let node = read_node(node)?;
    let session = read_u16(session)?;
    Some((node, session, frame))
}

/// `N S HEX`, behind `data `.
#[tactic(auto, unfolding(crate::specs::Reading::from_sub_of))]
fn read_from_sub(alloc: Global, words: &[u8]) -> Result<Option<Line>, NoMemory>
    ensures { IfOk result (λ l. l ≡ from_sub_of words.now) }
{
    let Some((node, session, word)) = read_call(words) else {
        return Ok(None);
    };
    let Some(frame) = read_frame(alloc, word)? else {
        return Ok(None);
    };
    Ok(Some(Line::FromSub {
        node,
        session,
        frame,
    }))
}

/// `N S HEX`, behind `down `.
#[tactic(auto, unfolding(crate::specs::Reading::down_of))]
fn read_down(alloc: Global, words: &[u8]) -> Result<Option<Line>, NoMemory>
    ensures { IfOk result (λ l. l ≡ down_of words.now) }
{
    let Some((node, session, word)) = read_call(words) else {
        return Ok(None);
    };
    let Some(frame) = read_frame(alloc, word)? else {
        return Ok(None);
    };
    Ok(Some(Line::Down {
        node,
        session,
        frame,
    }))
}

/// A node, and a session or a tunnel of it.
#[tactic(auto, unfolding(crate::specs::Reading::node_session_of))]
fn read_node_session(words: &[u8]) -> Option<(u8, u16)>
    ensures { result ≡ node_session_of words.now }
{
    let (node, session) = split_once(words, b' ')?;
    let node = read_node(node)?;
    let session = read_u16(session)?;
    Some((node, session))
}

/// `N S`, behind `hang `.
#[tactic(auto, unfolding(crate::specs::Reading::hang_of))]
fn read_hang(words: &[u8]) -> Option<Line>
    ensures { result ≡ hang_of words.now }
{
    let (node, session) = read_node_session(words)?;
    Some(Line::Hang { node, session })
}

/// `N S`, behind `drop `.
#[tactic(auto, unfolding(crate::specs::Reading::drop_of))]
fn read_drop(words: &[u8]) -> Option<Line>
    ensures { result ≡ drop_of words.now }
{
    let (node, session) = read_node_session(words)?;
    Some(Line::DropCall { node, session })
}

/// `N T`, behind `close `.
#[tactic(auto, unfolding(crate::specs::Reading::close_of))]
fn read_close(words: &[u8]) -> Option<Line>
    ensures { result ≡ close_of words.now }
{
    let (node, tunnel) = read_node_session(words)?;
    Some(Line::Close { node, tunnel })
}

/// `N HEX`, behind `frame `.
#[tactic(auto, unfolding(crate::specs::Reading::frame_line_of))]
fn read_frame_line(alloc: Global, words: &[u8]) -> Result<Option<Line>, NoMemory>
    ensures { IfOk result (λ l. l ≡ frame_line_of words.now) }
{
    let Some((node, word)) = split_once(words, b' ') else {
        return Ok(None);
    };
    let Some(node) = read_node(node) else {
        return Ok(None);
    };
    let Some(bytes) = read_ethernet(alloc, word)? else {
        return Ok(None);
    };
    Ok(Some(Line::Frame { node, bytes }))
}

/// `P`, behind `deliver `.
#[tactic(auto, unfolding(crate::specs::Reading::deliver_of))]
fn read_deliver(words: &[u8]) -> Option<Line>
    ensures { result ≡ deliver_of words.now }
{
    let packet = read_u32(words)?;
    Some(Line::Deliver { packet })
}

/// The number of a packet, or of a frame that is held.
fn read_u32(word: &[u8]) -> Option<u32>
    ensures packet { result ≡ packet_of word.now }
    ensures held { result ≡ held_of word.now }
{
    read_number(word, 1, u32::MAX)
}

/// `N P`, behind `load `.
#[tactic(auto, unfolding(crate::specs::Reading::load_of))]
fn read_load(words: &[u8]) -> Option<Line>
    ensures { result ≡ load_of words.now }
{
    let (node, packet) = split_once(words, b' ')?;
    let node = read_node(node)?;
    let packet = read_u32(packet)?;
    Some(Line::Load { node, packet })
}

/// `N H`, behind `hand `.
#[tactic(auto, unfolding(crate::specs::Reading::hand_of))]
fn read_hand(words: &[u8]) -> Option<Line>
    ensures { result ≡ hand_of words.now }
{
    let (node, number) = split_once(words, b' ')?;
    let node = read_node(node)?;
    let number = read_u32(number)?;
    Some(Line::Hand { node, number })
}

/// The line of a kind that carries a frame in two steps.
#[tactic(auto, unfolding(crate::specs::Reading::carry_of))]
fn read_carry(kind: &[u8], words: &[u8]) -> Option<Line>
    ensures { result ≡ carry_of kind.now words.now }
{
    if kind == b"load".as_slice() {
        read_load(words)
    } else if kind == b"hand".as_slice() {
        read_hand(words)
    } else {
        None
    }
}

/// `N MS`, behind `tick `.
#[tactic(auto, unfolding(crate::specs::Reading::tick_of))]
fn read_tick(words: &[u8]) -> Option<Line>
    ensures { result ≡ tick_of words.now }
{
    let (node, milliseconds) = split_once(words, b' ')?;
    let node = read_node(node)?;
    let milliseconds = read_number(milliseconds, 0, 86_400_000)?;
    Some(Line::Tick { node, milliseconds })
}

/// `N`, behind `crash `.
#[tactic(auto, unfolding(crate::specs::Reading::crash_of))]
fn read_crash(words: &[u8]) -> Option<Line>
    ensures { result ≡ crash_of words.now }
{
    let node = read_node(words)?;
    Some(Line::Crash { node })
}

/// `N`, behind `start `.
#[tactic(auto, unfolding(crate::specs::Reading::start_of))]
fn read_start(words: &[u8]) -> Option<Line>
    ensures { result ≡ start_of words.now }
{
    let node = read_node(words)?;
    Some(Line::Start { node })
}

/// Which of the commits to come.
fn read_commit(word: &[u8]) -> Option<u8>
    ensures { result ≡ commit_of word.now }
{
    let commit = read_number(word, 1, 255)?;
    Some(commit as u8)
}

/// Which call of the device.
fn read_device_call(word: &[u8]) -> Option<u8>
    ensures { result ≡ device_call_of word.now }
{
    let call = read_number(word, 1, 4)?;
    Some(call as u8)
}

/// Whether a word says that what a stop commits is kept.
fn read_kept(word: &[u8]) -> Option<bool>
    ensures { result ≡ kept_of word.now }
{
    if word == b"kept".as_slice() {
        Some(true)
    } else if word == b"lost".as_slice() {
        Some(false)
    } else {
        None
    }
}

/// A node, a commit, a call of the device, and whether what is committed is kept.
#[tactic(auto, unfolding(crate::specs::Reading::stop_words_of))]
fn read_stop_words(words: &[u8]) -> Option<(u8, u8, u8, bool)>
    ensures { result ≡ stop_words_of words.now }
{
    let (node, words) = split_once(words, b' ')?;
    let (commit, words) = split_once(words, b' ')?;
    let (call, kept) = split_once(words, b' ')?;
    let node = read_node(node)?;
    let commit = read_commit(commit)?;
    let call = read_device_call(call)?;
    let kept = read_kept(kept)?;
    Some((node, commit, call, kept))
}

/// The line of a stop, which keeps a record only where the gate of it was written.
fn stop_line(node: u8, commit: u8, call: u8, kept: bool) -> Option<Line>
    ensures { result ≡ stop_by node commit call kept }
{
    if kept && call < 3 {
        return None;
    }
    Some(Line::Stop {
        node,
        commit,
        call,
        kept,
    })
}

/// `N C J KEEP`, behind `stop `.
#[tactic(auto, unfolding(crate::specs::Reading::stop_of))]
fn read_stop(words: &[u8]) -> Option<Line>
    ensures { result ≡ stop_of words.now }
{
    let (node, commit, call, kept) = read_stop_words(words)?;
    stop_line(node, commit, call, kept)
}

/// The line of a kind that crashes a node, or starts it again.
#[tactic(auto, unfolding(crate::specs::Reading::fall_of))]
fn read_fall(kind: &[u8], words: &[u8]) -> Option<Line>
    ensures { result ≡ fall_of kind.now words.now }
{
    if kind == b"crash".as_slice() {
        read_crash(words)
    } else if kind == b"stop".as_slice() {
        read_stop(words)
    } else if kind == b"start".as_slice() {
        read_start(words)
    } else {
        read_carry(kind, words)
    }
}

/// The line of a kind that holds no bytes, by the words behind that of the kind.
#[tactic(auto, unfolding(crate::specs::Reading::plain_of))]
fn read_plain(kind: &[u8], words: &[u8]) -> Option<Line>
    ensures { result ≡ plain_of kind.now words.now }
{
    if kind == b"open".as_slice() {
        read_open(words)
    } else if kind == b"ring".as_slice() {
        read_ring(words)
    } else if kind == b"hang".as_slice() {
        read_hang(words)
    } else if kind == b"drop".as_slice() {
        read_drop(words)
    } else if kind == b"close".as_slice() {
        read_close(words)
    } else if kind == b"deliver".as_slice() {
        read_deliver(words)
    } else if kind == b"tick".as_slice() {
        read_tick(words)
    } else {
        read_fall(kind, words)
    }
}

/// The line of a kind, by the words behind that of the kind.
#[tactic(auto, unfolding(crate::specs::Reading::words_of))]
fn read_words(alloc: Global, kind: &[u8], words: &[u8]) -> Result<Option<Line>, NoMemory>
    ensures { IfOk result (λ l. l ≡ words_of kind.now words.now) }
{
    if kind == b"lac".as_slice() {
        read_lac(alloc, words)
    } else if kind == b"lns".as_slice() {
        read_lns(alloc, words)
    } else if kind == b"data".as_slice() {
        read_from_sub(alloc, words)
    } else if kind == b"down".as_slice() {
        read_down(alloc, words)
    } else if kind == b"frame".as_slice() {
        read_frame_line(alloc, words)
    } else {
        Ok(read_plain(kind, words))
    }
}

fn is_printable(text: &[u8]) -> bool
    ensures { result ≡ list_all is_printable text.now }
{
    text.iter().all(|byte| 32 <= *byte && *byte <= 126)
}

/// The line that the bytes spell, if they spell one.
#[tactic(auto, unfolding(crate::specs::Reading::line_of, crate::specs::Reading::remark_of))]
pub(crate) fn read_line(alloc: Global, bytes: &[u8]) -> Result<Option<Line>, NoMemory>
    ensures { IfOk result (λ l. l ≡ line_of bytes.now) }
{
    if let [b'#', remark @ ..] = bytes {
        if !is_printable(remark) {
            return Ok(None);
        }
        let text = Bytes::from_slice(alloc, remark)?;
        return Ok(Some(Line::Remark { text }));
    }
    let Some((kind, words)) = split_once(bytes, b' ') else {
        return Ok(None);
    };
    read_words(alloc, kind, words)
}
