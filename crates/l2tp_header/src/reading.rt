//! Reading a header.

ghost use Rattle.std.specs.Prelude.{◌≡◌, ℕ, ◌+◌, ◌^◌, ◌<◌, ◌≤◌, ◌||◌, nat_lt, List, length, Option, Some, None, Ok, Err, IfOk, IfErr, IsTrue, true, false};
ghost use Rattle.l2tp_header.specs.declared.header.Header.{Header};
ghost use Rattle.l2tp_header.specs.declared.header.HeaderError.{HeaderError};
ghost use Rattle.l2tp_header.specs.Flags.{has_numbers, are_control_flags};
ghost use Rattle.l2tp_header.specs.Spelling.{control_bytes, data_bytes, hdlc_bytes};
ghost use Rattle.l2tp_header.specs.Grammar.{FitsWord, IsHeader};
ghost use Rattle.l2tp_header.specs.Faults.{IsFault};
ghost use Rattle.l2tp_header.specs.Reading.{word_at, word_of, tunnel_at, numbers_at, offset_at, start_of, end_of, number_at, header_of};
ghost use Rattle.l2tp_header.specs.Fields.{header_behind};
ghost use Rattle.l2tp_header.specs.Again.{Carries, control_header, data_header};

use crate::header::{Header, HeaderError};
use byteorder::{BigEndian, ByteOrder};
use wire_base::take_u16;

const CONTROL: u16 = 0x8000;

const LENGTH: u16 = 0x4000;

const SEQUENCE: u16 = 0x0800;

const OFFSET: u16 = 0x0200;

const PRIORITY: u16 = 0x0100;

const VERSION: u16 = 0x000f;

/// The first word of a data message with no flag set.
const PLAIN: u16 = 0x0002;

/// The first word of a data message with a length, and no other flag set.
const LONG: u16 = 0x4002;

/// Whether a control message may have the flags of the word.
#[tactic(auto, unfolding(crate::specs::Flags::has_length, crate::specs::Flags::has_numbers, crate::specs::Flags::has_offset, crate::specs::Flags::has_priority))]
fn allows_control(word: u16) -> bool
    ensures { result ≡ are_control_flags word }
{
    word & LENGTH != 0 && word & SEQUENCE != 0 && word & OFFSET == 0 && word & PRIORITY == 0
}

/// Where the tunnel id stands that the flags of the word name.
#[tactic(auto, unfolding(crate::specs::Flags::has_length))]
fn tunnel_place(word: u16) -> usize
    ensures { result ≡ tunnel_at word }
{
    if word & LENGTH != 0 { 4 } else { 2 }
}

/// Where the size of the offset stands, or the body where there is none.
#[tactic(auto, unfolding(crate::specs::Flags::has_numbers))]
fn offset_place(word: u16) -> usize
    ensures { result ≡ offset_at word }
{
    let numbers = tunnel_place(word) + 4;
    if word & SEQUENCE != 0 {
        numbers + 4
    } else {
        numbers
    }
}

/// Where the body starts, where all the fields are there that the flags of the word name.
#[tactic(auto, unfolding(crate::specs::Reading::start_of, crate::specs::Flags::has_offset))]
fn body_start(bytes: &[u8], word: u16) -> Result<usize, HeaderError>
    ensures exact { result ≡ start_of word bytes.now }
    ensures within { IfOk result (λ s. offset_at word ≤ length bytes.now) }
    ensures inside { IfOk result (λ s. s ≤ length bytes.now) }
{
    let at = offset_place(word);
    if word & OFFSET == 0 {
        if bytes.len() < at {
            return Err(HeaderError::Short);
        }
        return Ok(at);
    }
    if bytes.len() < at + 2 {
        return Err(HeaderError::Short);
    }
    let Ok(size) = take_u16(bytes, at) else {
        return Err(HeaderError::Short);
    };
    let start = at + 2 + usize::from(size);
    if bytes.len() < start {
        return Err(HeaderError::Short);
    }
    Ok(start)
}

/// Whether a message of a length ends before its body starts, or past the end of the bytes.
fn ends_outside(said: usize, start: usize, have: usize) -> bool
    ensures { result ≡ nat_lt said start || nat_lt have said }
{
    said < start || have < said
}

/// Where the body ends that starts at a place.
#[tactic(auto, unfolding(crate::specs::Reading::end_of, crate::specs::Flags::has_length))]
fn body_end(bytes: &[u8], word: u16, start: usize) -> Result<usize, HeaderError>
    requires fields { 4 ≤ length bytes.now }
    requires inside { start ≤ length bytes.now }
    ensures exact { result ≡ end_of word start bytes.now }
    ensures ordered { IfOk result (λ e. start ≤ e) }
    ensures inside { IfOk result (λ e. e ≤ length bytes.now) }
{
    let have = bytes.len();
    if word & LENGTH == 0 {
        return Ok(have);
    }
    let said = usize::from(word_in(bytes, 2));
    if ends_outside(said, start, have) {
        return Err(HeaderError::Length { said, have });
    }
    Ok(said)
}

/// The number in the two bytes from a place.
fn word_in(bytes: &[u8], at: usize) -> u16
    requires { at + 2 ≤ length bytes.now }
    ensures { result ≡ word_at bytes.now at }
{
    BigEndian::read_u16(&bytes[at..])
}

/// A number that is there only where S is set.
#[tactic(auto, unfolding(crate::specs::Flags::has_numbers))]
fn number_in(bytes: &[u8], word: u16, at: usize) -> Option<u16>
    requires { IsTrue (has_numbers word) → at + 2 ≤ length bytes.now }
    ensures { result ≡ number_at word at bytes.now }
{
    if word & SEQUENCE != 0 {
        Some(word_in(bytes, at))
    } else {
        None
    }
}

/// Ns, which is there only where S is set.
fn ns_in(bytes: &[u8], word: u16) -> Option<u16>
    requires { offset_at word ≤ length bytes.now }
    ensures { result ≡ number_at word (numbers_at word) bytes.now }
{
    number_in(bytes, word, tunnel_place(word) + 4)
}

/// The header behind a first word, whatever its flags.
#[tactic(auto, unfolding(crate::specs::Fields::header_behind, crate::specs::Reading::header_with, crate::specs::Flags::is_control))]
fn read_behind(bytes: &[u8], word: u16) -> Result<Header, HeaderError>
    ensures exact { result ≡ header_behind word bytes.now }
    ensures ordered { IfOk result (λ h. h.start ≤ h.end) }
    ensures inside { IfOk result (λ h. h.end ≤ length bytes.now) }
{
    let start = body_start(bytes, word)?;
    let end = body_end(bytes, word, start)?;
    let tunnel = tunnel_place(word);
    Ok(Header {
        control: word & CONTROL != 0,
        tunnel: word_in(bytes, tunnel),
        session: word_in(bytes, tunnel + 2),
        ns: ns_in(bytes, word),
        nr: number_in(bytes, word, tunnel + 6),
        start,
        end,
    })
}

/// The header of a data message without numbers and an offset, whose tunnel id stands at a place.
fn plain_header(bytes: &[u8], tunnel: usize, end: usize) -> Header
    requires { tunnel + 4 ≤ length bytes.now }
    ensures { result ≡ record { control = false; tunnel = word_at bytes.now tunnel; session = word_at bytes.now (tunnel + 2); ns = None; nr = None; start = tunnel + 4; end = end } }
{
    Header {
        control: false,
        tunnel: word_in(bytes, tunnel),
        session: word_in(bytes, tunnel + 2),
        ns: None,
        nr: None,
        start: tunnel + 4,
        end,
    }
}

/// The header behind the first word of a data message that has no flag set.
#[tactic(auto, unfolding(crate::specs::Fields::header_behind, crate::specs::Reading::start_of, crate::specs::Reading::end_of, crate::specs::Reading::header_with, crate::specs::Flags::is_control, crate::specs::Flags::has_length, crate::specs::Flags::has_numbers, crate::specs::Flags::has_offset))]
fn read_plain(bytes: &[u8]) -> Result<Header, HeaderError>
    ensures exact { result ≡ header_behind PLAIN bytes.now }
    ensures ordered { IfOk result (λ h. h.start ≤ h.end) }
    ensures inside { IfOk result (λ h. h.end ≤ length bytes.now) }
{
    if bytes.len() < 6 {
        return Err(HeaderError::Short);
    }
    Ok(plain_header(bytes, 2, bytes.len()))
}

/// The header behind the first word of a data message that has a length, and no other flag set.
#[tactic(auto, unfolding(crate::specs::Fields::header_behind, crate::specs::Reading::start_of, crate::specs::Reading::end_of, crate::specs::Reading::header_with, crate::specs::Flags::is_control, crate::specs::Flags::has_length, crate::specs::Flags::has_numbers, crate::specs::Flags::has_offset))]
fn read_long(bytes: &[u8]) -> Result<Header, HeaderError>
    ensures exact { result ≡ header_behind LONG bytes.now }
    ensures ordered { IfOk result (λ h. h.start ≤ h.end) }
    ensures inside { IfOk result (λ h. h.end ≤ length bytes.now) }
{
    let have = bytes.len();
    if have < 8 {
        return Err(HeaderError::Short);
    }
    let said = usize::from(word_in(bytes, 2));
    if ends_outside(said, 8, have) {
        return Err(HeaderError::Length { said, have });
    }
    Ok(plain_header(bytes, 4, said))
}

/// The header of a datagram with this first word, whatever it is. It stays a function of its own, so that what is done for most
/// data messages is short enough to stand at each caller.
#[inline(never)]
#[tactic(auto, unfolding(crate::specs::Reading::header_of, crate::specs::Reading::word_of, crate::specs::Fields::header_behind, crate::specs::Flags::version_of, crate::specs::Flags::is_control))]
fn read_any(bytes: &[u8], word: u16) -> Result<Header, HeaderError>
    requires there { 2 ≤ length bytes.now }
    requires word { word ≡ word_at bytes.now 0 }
    ensures exact { result ≡ header_of bytes.now }
    ensures ordered { IfOk result (λ h. h.start ≤ h.end) }
    ensures inside { IfOk result (λ h. h.end ≤ length bytes.now) }
{
    let seen = (word & VERSION) as u8;
    if seen != 2 {
        return Err(HeaderError::Version { seen });
    }
    if word & CONTROL != 0 && !allows_control(word) {
        return Err(HeaderError::ControlFlags { word });
    }
    read_behind(bytes, word)
}

/// Most data messages have one of two first words. For these no place of a field is computed.
#[inline(always)]
#[tactic(auto, unfolding(crate::specs::Reading::header_of, crate::specs::Reading::word_of, crate::specs::Fields::header_behind, crate::specs::Flags::version_of, crate::specs::Flags::is_control))]
fn read_fields(bytes: &[u8]) -> Result<Header, HeaderError>
    ensures exact { result ≡ header_of bytes.now }
    ensures ordered { IfOk result (λ h. h.start ≤ h.end) }
    ensures inside { IfOk result (λ h. h.end ≤ length bytes.now) }
{
    if bytes.len() < 2 {
        return Err(HeaderError::Short);
    }
    match word_in(bytes, 0) {
        PLAIN => read_plain(bytes),
        LONG => read_long(bytes),
        word => {
            // it gets a place of its own, so that the headers above stay in registers
            let header = read_any(bytes, word)?;
            Ok(header)
        }
    }
}

/// The header of a datagram (RFC 2661 section 3.1), and where its body stands. It takes no memory.
#[inline(always)]
pub fn read_header(bytes: &[u8]) -> Result<Header, HeaderError>
    // The bytes have the header that is read.
    ensures found { IfOk result (IsHeader bytes.now) }
    // The fault that is told is there, and is the first.
    ensures fault { IfErr result (IsFault bytes.now) }
    // A header that the bytes have is read.
    ensures only { (h : Header) → IsHeader bytes.now h → result ≡ Ok h }
    // A first fault is told.
    ensures told { (e : HeaderError) → IsFault bytes.now e → result ≡ Err e }
    // For callers: the answer as a function of the bytes.
    ensures exact { result ≡ header_of bytes.now }
    // For callers: the body lies within the bytes.
    ensures ordered { IfOk result (λ h. h.start ≤ h.end) }
    ensures inside { IfOk result (λ h. h.end ≤ length bytes.now) }
{
    read_fields(bytes)
}

/// What was written is read again: the same header, with the pairs of a control message, or what stands behind the
/// header of a data message, as its body.
pub fn reads_what_was_written()
    ensures control { (tunnel session ns nr : ℕ) (avps : List ℕ) → tunnel < 2 ^ 16 → session < 2 ^ 16 →
        ns < 2 ^ 16 → nr < 2 ^ 16 → length avps ≤ 65523 →
        Carries (control_bytes tunnel session ns nr avps)
        (control_header tunnel session ns nr (length avps)) avps }
    ensures data_message { (tunnel session : ℕ) (number : Option ℕ) (frame : List ℕ) → tunnel < 2 ^ 16 →
        session < 2 ^ 16 → FitsWord number →
        Carries (data_bytes tunnel session number frame)
        (data_header tunnel session number (2 + length frame)) (hdlc_bytes frame) }
{}
