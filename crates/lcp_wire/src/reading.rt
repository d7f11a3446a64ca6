//! Reading a packet, and reading options from the front.

ghost use Rattle.std.specs.Prelude.{◌≡◌, ℕ, ◌<◌, ◌++◌, List, length, Ok, Err, IfOk, IfErr};
ghost use Rattle.wire_base.specs.Answers.{Gives};
ghost use Rattle.lcp_wire.specs.declared.packet.Lcp.{Lcp};
ghost use Rattle.lcp_wire.specs.declared.packet.LcpOption.{LcpOption};
ghost use Rattle.lcp_wire.specs.declared.error.LcpError.{LcpError};
ghost use Rattle.lcp_wire.specs.declared.error.OptionError.TheVariants.{OptionLength};
ghost use Rattle.lcp_wire.specs.Spelling.{packet_bytes, spelling, FitsPacket, AreOptions};
ghost use Rattle.lcp_wire.specs.Grammar.{HasPacket, IsFault, IsFirstFault, BeginsWith, LacksAt, IsOptionFault, IsFirstOptionFault};
ghost use Rattle.lcp_wire.specs.Reading.{Told, packet_of, ToldOption, options_of};

use crate::error::{LcpError, OptionError};
use crate::packet::{Lcp, LcpOption, Options};
use byteorder::{BigEndian, ByteOrder};
use std::alloc::Global;
use wire_base::Bytes;

/// The whole reading, with the answer as a function of the bytes.
#[tactic(auto, unfolding(crate::specs::Reading::packet_of))]
fn read_packet(alloc: Global, bytes: &[u8]) -> Result<Lcp, LcpError>
    ensures { Gives Told (λ p. p) result (packet_of bytes.now) }
{
    let have = bytes.len();
    if have < 4 {
        return Err(LcpError::Short);
    }
    let said = usize::from(BigEndian::read_u16(&bytes[2..]));
    if said < 4 || have < said {
        return Err(LcpError::Length { said, have });
    }
    let body = Bytes::from_slice(alloc, &bytes[4..said])?;
    Ok(Lcp {
        code: bytes[0],
        id: bytes[1],
        body,
    })
}

/// The packet at the front of the bytes (RFC 1661 section 5). Bytes behind its length are padding, and are ignored.
pub fn read_lcp(alloc: Global, bytes: &[u8]) -> Result<Lcp, LcpError>
    // The bytes have the packet that is read.
    ensures found { IfOk result (HasPacket bytes.now) }
    // The fault that is told is there, and is the first.
    ensures fault { IfErr result (IsFirstFault bytes.now) }
    // A packet that the bytes have is read, unless memory runs out.
    ensures only { (p : Lcp) → HasPacket bytes.now p → Gives Told (λ x. x) result (Ok p) }
    // A first fault is told, unless memory runs out.
    ensures told { (e : LcpError) → IsFault bytes.now e → Gives Told (λ x. x) result (Err e) }
    // For callers: the answer as a function of the bytes.
    ensures exact { Gives Told (λ p. p) result (packet_of bytes.now) }
{
    read_packet(alloc, bytes)
}

/// The option at the front, and how many bytes it takes. Its place is told in a fault.
fn read_option(alloc: Global, rest: &[u8], at: usize) -> Result<(LcpOption, usize), OptionError>
    requires { 0 < length rest.now }
    ensures found { IfOk result (λ x. BeginsWith rest.now x.0 x.1) }
    ensures fault { IfErr result (LacksAt rest.now at) }
{
    if rest.len() < 2 {
        return Err(OptionError::OptionLength { at });
    }
    let len = usize::from(rest[1]);
    if len < 2 || rest.len() < len {
        return Err(OptionError::OptionLength { at });
    }
    let value = Bytes::from_slice(alloc, &rest[2..len])?;
    let option = LcpOption {
        kind: rest[0],
        value,
    };
    Ok((option, len))
}

fn read_all(alloc: Global, bytes: &[u8]) -> Result<Options, OptionError>
    ensures found { IfOk result (λ v. AreOptions v × (bytes.now ≡ spelling v)) }
    ensures fault { IfErr result (IsFirstOptionFault bytes.now) }
{
    let mut options = Options::new(alloc);
    let mut at = 0;
    while at < bytes.len() {
        let (option, len) = read_option(alloc, &bytes[at..], at)?;
        options.push(option)?;
        at += len;
    }
    Ok(options)
}

/// The options that the bytes spell, all of the bytes (RFC 1661 section 6); no bytes spell no option. A refusal tells the
/// first fault from the front.
pub fn read_options(alloc: Global, bytes: &[u8]) -> Result<Options, OptionError>
    // The bytes are the spelling of what is read.
    ensures found { IfOk result (λ v. AreOptions v × (bytes.now ≡ spelling v)) }
    // A fault stands where it is told, and whole options before it.
    ensures fault { IfErr result (IsFirstOptionFault bytes.now) }
    // What is spelled so is read, unless memory runs out.
    ensures only { (v : List LcpOption) → AreOptions v → bytes.now ≡ spelling v → Gives ToldOption (λ x. x) result (Ok v) }
    // A fault that stands there is told, unless memory runs out.
    ensures told { (at : ℕ) → IsOptionFault bytes.now at → Gives ToldOption (λ x. x) result (Err (OptionLength at)) }
    // For callers: the answer as a function of the bytes.
    ensures exact { Gives ToldOption (λ v. v) result (options_of bytes.now) }
{
    read_all(alloc, bytes)
}

/// A law: what was written is read again, a packet also with padding behind it.
pub fn reads_what_was_written()
    ensures packet { (p : Lcp) (padding : List ℕ) → FitsPacket p → packet_of (packet_bytes p ++ padding) ≡ Ok p }
    ensures options { (v : List LcpOption) → AreOptions v → options_of (spelling v) ≡ Ok v }
{}
