//! What a packet that came is to the automaton (RFC 1661 sections 4.3 and 5).

ghost use Rattle.std.specs.Prelude.{◌≡◌, ◌≤◌, ◌+◌, ◌++◌, ◌==◌, length, drop, take, IfOk, IfSome};
ghost use Rattle.wire_base.specs.Numbers.{u32_bytes};
ghost use Rattle.std.specs.Result.{result_ok};
ghost use Rattle.lcp_wire.specs.Spelling.{packet_bytes, spelling, AreOptions};
ghost use Rattle.lcp_wire.specs.Reading.{options_of};
ghost use Rattle.lcp_end.specs.Hearing.{own_magic, plain, request_heard, ack_heard, nak_heard, reject_heard, without_mru, without_magic, with_magic_anew, is_needed_code, is_lcp, reject_event, echo_body, rejected, answer_heard, answers_last, unknown_heard, heard_as, with_answer, packet, event_of, IsShort};
ghost use Rattle.lcp_end.specs.declared.table.LcpEvent.{LcpEvent};
ghost use Rattle.lcp_end.specs.declared.table.LcpEvent.TheVariants as events;

use crate::codes;
use crate::options::{Verdict, answer_body, drawn_from, has_magic, has_mru, verdict_on, wish_of};
use crate::state::EndState;
use crate::table::LcpEvent;
use byteorder::{BigEndian, ByteOrder};
use lcp_wire::{Lcp, OptionError, Options, read_options, write_lcp};
use std::alloc::Global;
use wire_base::{Bytes, NoMemory, put_u32};

/// The PPP protocol number of LCP.
const LCP: u16 = 0xc021;

/// How many bytes of a packet a Code-Reject carries at most.
const REJECTED: usize = 1488;

/// What a packet that came is to the automaton.
#[derive(Drop)]
pub struct Heard {
    /// The end, after it learned from the packet what not to ask for.
    pub kept: EndState,
    pub event: LcpEvent,
    /// The packet that answers, where the table has an answer.
    pub answer: Lcp,
}

/// The options of a packet, where they can be read.
fn options_in(alloc: Global, body: &[u8]) -> Result<Option<Options>, NoMemory>
    ensures value { IfOk result (λ o. o ≡ result_ok (options_of body.now)) }
    ensures fits { IfOk result (λ o. IfSome o (λ v. AreOptions v × (body.now ≡ spelling v))) }
{
    match read_options(alloc, body) {
        Ok(options) => Ok(Some(options)),
        Err(OptionError::NoMemory) => Err(NoMemory),
        Err(OptionError::OptionLength { .. }) => Ok(None),
    }
}

/// The magic number in use, 0 where there is none.
fn own_magic(kept: &EndState) -> u32
    ensures { result ≡ own_magic kept.now }
{
    kept.magic.unwrap_or(0)
}

fn plain(alloc: Global, kept: EndState, event: LcpEvent, id: u8) -> Option<Heard>
    ensures value { result ≡ plain kept event id }
    ensures short { IfSome result IsShort }
{
    Some(Heard {
        kept,
        event,
        answer: Lcp {
            code: codes::TERMINATE_ACK,
            id,
            body: Bytes::new(alloc),
        },
    })
}

fn event_of(verdict: Verdict) -> LcpEvent
    ensures { result ≡ event_of verdict }
{
    match verdict {
        Verdict::Ack => LcpEvent::RcrGood,
        _ => LcpEvent::RcrBad,
    }
}

/// A Configure-Request.
#[tactic(auto, unfolding(crate::specs::Hearing::request_heard))]
fn hear_request(
    alloc: Global,
    block: &[u8; 16],
    kept: EndState,
    request: &Lcp,
) -> Result<Option<Heard>, NoMemory>
    requires { length request.now.body ≤ 2048 }
    ensures value { IfOk result (λ h. h ≡ request_heard block.now kept request.now.id (result_ok (options_of request.now.body))) }
    ensures short { IfOk result (λ h. IfSome h IsShort) }
{
    let Some(options) = options_in(alloc, request.body.as_slice())? else {
        return Ok(None);
    };
    let own = own_magic(&kept);
    let verdict = verdict_on(options.as_slice(), own, kept.naks);
    let body = answer_body(alloc, verdict, options.as_slice(), own, wish_of(block))?;
    let answer = Lcp {
        code: verdict.code(),
        id: request.id,
        body,
    };
    Ok(Some(Heard {
        kept,
        event: event_of(verdict),
        answer,
    }))
}

/// A Configure-Ack.
#[tactic(auto, unfolding(crate::specs::Hearing::ack_heard))]
fn hear_ack(alloc: Global, kept: EndState, ack: &Lcp) -> Result<Option<Heard>, NoMemory>
    ensures value { IfOk result (λ h. h ≡ ack_heard kept ack.now.id (result_ok (options_of ack.now.body))) }
    ensures short { IfOk result (λ h. IfSome h IsShort) }
{
    match options_in(alloc, ack.body.as_slice())? {
        Some(_) => Ok(plain(alloc, kept, LcpEvent::Rca, ack.id)),
        None => Ok(None),
    }
}

fn without_mru(options: &Options, kept: EndState) -> EndState
    ensures { result ≡ without_mru options.now kept }
{
    EndState {
        asks_mru: kept.asks_mru && !has_mru(options),
        ..kept
    }
}

fn without_magic(options: &Options, kept: EndState) -> EndState
    ensures { result ≡ without_magic options.now kept }
{
    if has_magic(options) {
        EndState {
            magic: None,
            ..kept
        }
    } else {
        kept
    }
}

fn with_magic_anew(block: &[u8; 16], options: &Options, kept: EndState) -> EndState
    ensures { result ≡ with_magic_anew block.now options.now kept }
{
    if has_magic(options) {
        EndState {
            magic: kept.magic.map(|_| drawn_from(block)),
            ..kept
        }
    } else {
        kept
    }
}

/// A Configure-Nak: other values are asked for, an MRU not at all.
#[tactic(auto, unfolding(crate::specs::Hearing::nak_heard))]
fn hear_nak(
    alloc: Global,
    block: &[u8; 16],
    kept: EndState,
    nak: &Lcp,
) -> Result<Option<Heard>, NoMemory>
    ensures value { IfOk result (λ h. h ≡ nak_heard block.now kept nak.now.id (result_ok (options_of nak.now.body))) }
    ensures short { IfOk result (λ h. IfSome h IsShort) }
{
    let Some(options) = options_in(alloc, nak.body.as_slice())? else {
        return Ok(None);
    };
    let learnt = with_magic_anew(block, &options, without_mru(&options, kept));
    Ok(plain(alloc, learnt, LcpEvent::Rcn, nak.id))
}

/// A Configure-Reject: what it names is asked for no more.
#[tactic(auto, unfolding(crate::specs::Hearing::reject_heard))]
fn hear_reject(alloc: Global, kept: EndState, reject: &Lcp) -> Result<Option<Heard>, NoMemory>
    ensures value { IfOk result (λ h. h ≡ reject_heard kept reject.now.id (result_ok (options_of reject.now.body))) }
    ensures short { IfOk result (λ h. IfSome h IsShort) }
{
    let Some(options) = options_in(alloc, reject.body.as_slice())? else {
        return Ok(None);
    };
    let learnt = without_magic(&options, without_mru(&options, kept));
    Ok(plain(alloc, learnt, LcpEvent::Rcn, reject.id))
}

/// Whether an answer is one to the last request of this end's.
fn is_to_last(id: u8, request: u8) -> bool
    ensures { result ≡ (id == request) }
{
    id == request
}

/// An answer to a request of this end's is ignored where its identifier isn't the last request's.
#[tactic(auto, unfolding(crate::specs::Hearing::answer_heard, crate::specs::Hearing::answers_last))]
fn hear_answer(
    alloc: Global,
    block: &[u8; 16],
    kept: EndState,
    answer: &Lcp,
) -> Result<Option<Heard>, NoMemory>
    ensures value { IfOk result (λ h. h ≡ answers_last kept answer.now.id (answer_heard block.now kept answer.now)) }
    ensures short { IfOk result (λ h. IfSome h IsShort) }
{
    if !is_to_last(answer.id, kept.request) {
        return Ok(None);
    }
    match answer.code {
        codes::CONFIGURE_ACK => hear_ack(alloc, kept, answer),
        codes::CONFIGURE_NAK => hear_nak(alloc, block, kept, answer),
        codes::CONFIGURE_REJECT => hear_reject(alloc, kept, answer),
        _ => Ok(plain(alloc, kept, LcpEvent::Rta, answer.id)),
    }
}

/// Whether a rejected packet, of which these are the bytes, has a code that the link can't do without.
fn is_needed_code(rejected: &[u8]) -> bool
    ensures { result ≡ is_needed_code rejected.now }
{
    match rejected.first() {
        Some(code) => 1 <= *code && *code <= codes::CODE_REJECT,
        None => false,
    }
}

/// Whether a rejected protocol is LCP.
fn is_lcp(rejected: &[u8]) -> bool
    ensures { result ≡ is_lcp rejected.now }
{
    2 <= rejected.len() && BigEndian::read_u16(rejected) == LCP
}

fn reject_event(is_needed: bool) -> LcpEvent
    ensures { result ≡ reject_event is_needed }
{
    if is_needed {
        LcpEvent::RxjBad
    } else {
        LcpEvent::RxjGood
    }
}

/// An Echo-Request: the own magic number stands in place of the sender's.
fn hear_echo(alloc: Global, kept: EndState, echo: &Lcp) -> Result<Option<Heard>, NoMemory>
    requires { length echo.now.body ≤ 2048 }
    ensures value { IfOk result (λ h. h ≡ with_answer kept events.Rxr (packet 10 echo.now.id (echo_body kept echo.now.body))) }
    ensures short { IfOk result (λ h. IfSome h IsShort) }
{
    let mut body = Bytes::new(alloc);
    put_u32(&mut body, own_magic(&kept))?;
    let came = echo.body.as_slice();
    body.push_slice(&came[came.len().min(4)..])?;
    let answer = Lcp {
        code: codes::ECHO_REPLY,
        id: echo.id,
        body,
    };
    Ok(Some(Heard {
        kept,
        event: LcpEvent::Rxr,
        answer,
    }))
}

/// As much of a packet as a Code-Reject carries.
#[tactic(auto, using(std::proofs::lemmas::List::take_min))]
fn front_of(packet: &[u8]) -> &[u8]
    ensures value { result.now ≡ take 1488 packet.now }
    ensures short { length result.now ≤ 1488 }
{
    &packet[..REJECTED.min(packet.len())]
}

/// A packet with an unknown code: as much of it is sent back as fits.
fn hear_unknown(alloc: Global, kept: EndState, packet: &Lcp) -> Result<Option<Heard>, NoMemory>
    requires { length packet.now.body ≤ 2048 }
    ensures value { IfOk result (λ h. h ≡ unknown_heard kept packet.now) }
    ensures short { IfOk result (λ h. IfSome h IsShort) }
{
    let mut bytes = Bytes::new(alloc);
    write_lcp(&mut bytes, packet)?;
    let answer = Lcp {
        code: codes::CODE_REJECT,
        id: packet.id,
        body: Bytes::from_slice(alloc, front_of(bytes.as_slice()))?,
    };
    Ok(Some(Heard {
        kept,
        event: LcpEvent::Ruc,
        answer,
    }))
}

/// A Terminate-Request.
fn hear_terminate(alloc: Global, kept: EndState, id: u8) -> Option<Heard>
    ensures value { result ≡ plain kept events.Rtr id }
    ensures short { IfSome result IsShort }
{
    plain(alloc, kept, LcpEvent::Rtr, id)
}

/// What a packet is to the automaton; None where it is ignored.
#[tactic(auto, unfolding(crate::specs::Hearing::heard_as))]
pub(crate) fn hear(
    alloc: Global,
    block: &[u8; 16],
    kept: EndState,
    packet: &Lcp,
) -> Result<Option<Heard>, NoMemory>
    requires { length packet.now.body ≤ 2048 }
    ensures value { IfOk result (λ h. h ≡ heard_as block.now kept packet.now) }
    ensures short { IfOk result (λ h. IfSome h IsShort) }
{
    match packet.code {
        codes::CONFIGURE_REQUEST => hear_request(alloc, block, kept, packet),
        codes::CONFIGURE_ACK
        | codes::CONFIGURE_NAK
        | codes::CONFIGURE_REJECT
        | codes::TERMINATE_ACK => hear_answer(alloc, block, kept, packet),
        codes::TERMINATE_REQUEST => Ok(hear_terminate(alloc, kept, packet.id)),
        codes::CODE_REJECT => {
            let event = reject_event(is_needed_code(packet.body.as_slice()));
            Ok(plain(alloc, kept, event, packet.id))
        }
        codes::PROTOCOL_REJECT => {
            let event = reject_event(is_lcp(packet.body.as_slice()));
            Ok(plain(alloc, kept, event, packet.id))
        }
        codes::ECHO_REQUEST => hear_echo(alloc, kept, packet),
        codes::ECHO_REPLY | codes::DISCARD_REQUEST => Ok(None),
        _ => hear_unknown(alloc, kept, packet),
    }
}
