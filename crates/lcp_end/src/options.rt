//! Which options are fine, what a Configure-Request draws, and what this end asks for (RFC 1661 sections 5 and 6).

ghost use Rattle.std.specs.Prelude.{◌≡◌, ◌≤◌, ◌*◌, ◌++◌, nat_lt, length, OnOk, IfOk};
ghost use Rattle.std.specs.List.{list_all};
ghost use Rattle.wire_base.specs.Numbers.{u16_bytes, u32_bytes};
ghost use Rattle.lcp_wire.specs.Spelling.{option_bytes, spelling, AreOptions};
ghost use Rattle.lcp_end.specs.Options.{is_known, is_good_mru, is_good_magic, is_good, verdict_on, code_of, is_left_out, suggested, answered_by, part, answer_body, asked, mru_part, magic_part, has_kind, wish_of, not_zero, drawn_from};

use crate::codes::{CONFIGURE_ACK, CONFIGURE_NAK, CONFIGURE_REJECT};
use byteorder::{BigEndian, ByteOrder};
use lcp_wire::{LcpOption, Options, write_option};
use std::alloc::Global;
use wire_base::{Bytes, NoMemory, put_u16, put_u32};

/// The type of the Maximum-Receive-Unit, in bytes.
const MRU: u8 = 1;

/// The type of the Magic-Number.
const MAGIC: u8 = 5;

/// The least MRU that is taken.
const LEAST: u16 = 64;

/// The greatest MRU that is taken, and the one that is asked for: what PPPoE carries (RFC 2516 section 7).
const GREATEST: u16 = 1492;

/// How many Naks are sent before options are rejected: Max-Failure.
pub(crate) const MAX_FAILURE: u8 = 5;

/// What a Configure-Request draws.
#[derive(Clone, Copy)]
pub enum Verdict {
    /// All of its options are fine.
    Ack,
    /// Other values are suggested for those that aren't.
    Nak,
    /// Those that aren't are refused, since enough Naks were sent.
    RejectBad,
    /// Options of an unknown type are refused.
    RejectUnknown,
}

impl Verdict {
    /// The code of the answer.
    pub(crate) fn code(self) -> u8
        ensures { result ≡ code_of self }
    {
        match self {
            Verdict::Ack => CONFIGURE_ACK,
            Verdict::Nak => CONFIGURE_NAK,
            Verdict::RejectBad | Verdict::RejectUnknown => CONFIGURE_REJECT,
        }
    }

    fn leaves_out(self, option: &LcpOption, own: u32) -> bool
        ensures { result ≡ is_left_out self own option.now }
    {
        match self {
            Verdict::Ack => false,
            Verdict::Nak | Verdict::RejectBad => is_good(option, own),
            Verdict::RejectUnknown => is_known(option),
        }
    }
}

fn is_known(option: &LcpOption) -> bool
    ensures { result ≡ is_known option.now }
{
    option.kind == MRU || option.kind == MAGIC
}

fn is_good_mru(value: &[u8]) -> bool
    ensures { result ≡ is_good_mru value.now }
{
    if value.len() != 2 {
        return false;
    }
    let mru = BigEndian::read_u16(value);
    LEAST <= mru && mru <= GREATEST
}

fn is_good_magic(value: &[u8], own: u32) -> bool
    ensures { result ≡ is_good_magic own value.now }
{
    if value.len() != 4 {
        return false;
    }
    let magic = BigEndian::read_u32(value);
    magic != 0 && magic != own
}

#[tactic(auto, unfolding(crate::specs::Options::is_good))]
fn is_good(option: &LcpOption, own: u32) -> bool
    ensures { result ≡ is_good own option.now }
{
    if option.kind == MRU {
        is_good_mru(option.value.as_slice())
    } else {
        is_good_magic(option.value.as_slice(), own)
    }
}

fn all_known(options: &[LcpOption]) -> bool
    ensures { result ≡ list_all is_known options.now }
{
    options.iter().all(|option| is_known(option))
}

fn all_good(options: &[LcpOption], own: u32) -> bool
    ensures { result ≡ list_all (is_good own) options.now }
{
    options.iter().all(|option| is_good(option, own))
}

/// Whether another Nak may be sent after so many.
fn may_nak(naks: u8) -> bool
    ensures { result ≡ nat_lt naks 5 }
{
    naks < MAX_FAILURE
}

/// What a Configure-Request draws at an end with this magic number, 0 where it has none, that sent so many Naks since
/// its last Ack.
pub(crate) fn verdict_on(options: &[LcpOption], own: u32, naks: u8) -> Verdict
    ensures { result ≡ verdict_on own naks options.now }
{
    if !all_known(options) {
        return Verdict::RejectUnknown;
    }
    if all_good(options, own) {
        return Verdict::Ack;
    }
    if may_nak(naks) {
        Verdict::Nak
    } else {
        Verdict::RejectBad
    }
}

#[tactic(auto, unfolding(wire_base::specs::Numbers::u16_bytes))]
fn write_mru(out: &mut Bytes) -> Result<(), NoMemory>
    ensures { OnOk result (out.new ≡ out.old ++ option_bytes 1 (u16_bytes 1492)) }
{
    let mut value = Bytes::new(out.allocator());
    put_u16(&mut value, GREATEST)?;
    write_option(out, MRU, value.as_slice())
}

#[tactic(auto, unfolding(wire_base::specs::Numbers::u32_bytes))]
fn write_magic(out: &mut Bytes, magic: u32) -> Result<(), NoMemory>
    ensures { OnOk result (out.new ≡ out.old ++ option_bytes 5 (u32_bytes magic)) }
{
    let mut value = Bytes::new(out.allocator());
    put_u32(&mut value, magic)?;
    write_option(out, MAGIC, value.as_slice())
}

fn write_suggestion(out: &mut Bytes, kind: u8, wish: u32) -> Result<(), NoMemory>
    ensures { OnOk result (out.new ≡ out.old ++ suggested wish kind) }
{
    if kind == MRU {
        write_mru(out)
    } else {
        write_magic(out, wish)
    }
}

fn write_answer(
    out: &mut Bytes,
    verdict: Verdict,
    option: &LcpOption,
    wish: u32,
) -> Result<(), NoMemory>
    requires { length option.now.value ≤ 253 }
    ensures { OnOk result (out.new ≡ out.old ++ answered_by verdict wish option.now) }
{
    match verdict {
        Verdict::Nak => write_suggestion(out, option.kind, wish),
        _ => write_option(out, option.kind, option.value.as_slice()),
    }
}

/// What an option adds to the answer.
#[tactic(auto, unfolding(crate::specs::Options::part))]
fn write_part(
    out: &mut Bytes,
    verdict: Verdict,
    option: &LcpOption,
    own: u32,
    wish: u32,
) -> Result<(), NoMemory>
    requires { length option.now.value ≤ 253 }
    ensures { OnOk result (out.new ≡ out.old ++ part verdict own wish option.now) }
{
    if verdict.leaves_out(option, own) {
        return Ok(());
    }
    write_answer(out, verdict, option, wish)
}

/// The options of the answer to a Configure-Request, in the order in which they came. A Nak suggests `wish` for a magic
/// number.
pub(crate) fn answer_body(
    alloc: Global,
    verdict: Verdict,
    options: &[LcpOption],
    own: u32,
    wish: u32,
) -> Result<Bytes, NoMemory>
    requires { AreOptions options.now }
    ensures value { IfOk result (λ b. b ≡ answer_body verdict own wish options.now) }
    ensures short { IfOk result (λ b. length b ≤ 3 * length (spelling options.now)) }
{
    let mut body = Bytes::new(alloc);
    for option in options {
        write_part(&mut body, verdict, option, own, wish)?;
    }
    Ok(body)
}

fn write_own_mru(out: &mut Bytes, asks: bool) -> Result<(), NoMemory>
    ensures { OnOk result (out.new ≡ out.old ++ mru_part asks) }
{
    if asks { write_mru(out) } else { Ok(()) }
}

fn write_own_magic(out: &mut Bytes, magic: Option<u32>) -> Result<(), NoMemory>
    ensures { OnOk result (out.new ≡ out.old ++ magic_part magic) }
{
    match magic {
        Some(magic) => write_magic(out, magic),
        None => Ok(()),
    }
}

/// The options that this end asks for.
#[tactic(auto, unfolding(crate::specs::Options::asked))]
pub(crate) fn asked(alloc: Global, mru: bool, magic: Option<u32>) -> Result<Bytes, NoMemory>
    ensures value { IfOk result (λ b. b ≡ asked mru magic) }
    ensures short { IfOk result (λ b. length b ≤ 10) }
{
    let mut body = Bytes::new(alloc);
    write_own_mru(&mut body, mru)?;
    write_own_magic(&mut body, magic)?;
    Ok(body)
}

/// Whether an MRU is among the options.
pub(crate) fn has_mru(options: &Options) -> bool
    ensures { result ≡ has_kind 1 options.now }
{
    options.as_slice().iter().any(|option| option.kind == MRU)
}

/// Whether a magic number is among the options.
pub(crate) fn has_magic(options: &Options) -> bool
    ensures { result ≡ has_kind 5 options.now }
{
    options.as_slice().iter().any(|option| option.kind == MAGIC)
}

/// The magic number that a Nak suggests: the first four bytes of the random block and its last four, xored.
pub(crate) fn wish_of(block: &[u8; 16]) -> u32
    ensures { result ≡ wish_of block.now }
{
    BigEndian::read_u32(&block[..4]) ^ BigEndian::read_u32(&block[12..])
}

/// An own magic number isn't 0.
pub(crate) fn not_zero(magic: u32) -> u32
    ensures { result ≡ not_zero magic }
{
    if magic == 0 { 1 } else { magic }
}

/// A magic number of this end's: the last four bytes of the random block, 1 where they are 0.
pub(crate) fn drawn_from(block: &[u8; 16]) -> u32
    ensures { result ≡ drawn_from block.now }
{
    not_zero(BigEndian::read_u32(&block[12..]))
}
