//! Reading control messages.

ghost use Rattle.std.specs.Prelude.{◌≡◌, ◌↔◌, List, None, Ok, Err, IfOk, IfErr, MatchResult, IsNone, IfSome};
ghost use Rattle.std.specs.Option.{option_copied};
ghost use Rattle.wire_base.specs.Answers.{Gives};
ghost use Rattle.avp_codec.specs.declared.avp.Avp.{Avp};
ghost use Rattle.avp_codec.specs.Reading.{avps_of};
ghost use Rattle.avp_codec.specs.Spelling.{spelling};
ghost use Rattle.control_message.specs.declared.kind.Kind.{Kind};
ghost use Rattle.control_message.specs.declared.message.Message.{Message};
ghost use Rattle.control_message.specs.declared.kind.Kinds.{Kinds};
ghost use Rattle.control_message.specs.declared.message.Read.{Read};
ghost use Rattle.control_message.specs.declared.message.Read.TheVariants.{Known};
ghost use Rattle.control_message.specs.declared.message.MessageError.{MessageError};
ghost use Rattle.control_message.specs.Grammar.{Says, IsKnownTo};
ghost use Rattle.control_message.specs.Faults.{IsOfKind, IsFault, IsToldFault};
ghost use Rattle.control_message.specs.Pairs.{pairs_of, IsWritten};
ghost use Rattle.control_message.specs.Uncovering.{uncovered_all, uncovered, Uncovers};
ghost use Rattle.control_message.specs.Reading.{Told, value_at, u16_at, u32_at, window_at, text_at, failover_value, failover_at, recovery_value, recovery_at, suggested_value, suggested_at, draw_value, draw_at, response_value, response_at, opening_at, icrq_at, icrp_at, iccn_at, result_code_in, result_code_at, stop_ccn_at, ocrq_at, cdn_at, wen_at, sli_at, session_value, session_in, sessions_in, of_kind, type_number, kind_by, message_by};

use crate::attribute::{
    ACCM, ASSIGNED_SESSION, ASSIGNED_TUNNEL, CALL_ERRORS, CALL_SERIAL_NUMBER, CALLING_NUMBER,
    CHALLENGE, CHALLENGE_RESPONSE, CONNECT_SPEED, DRAW_NUMBER, FAILOVER, FRAMING_CAPABILITIES,
    FRAMING_TYPE, HOST_NAME, MESSAGE_TYPE, PROTOCOL_VERSION, RECOVERY, RESULT_CODE,
    SEQUENCING_REQUIRED, SESSION_STATE, SUGGESTED_SEQUENCE, WINDOW,
};
use crate::checking::check_all;
use crate::finding::{find_avp, find_draw, has_avp, is_at, u16_in};
use crate::kind::{Kind, Kinds};
use crate::message::{Failover, Message, MessageError, Opening, Read, Recovery, Suggested};
use crate::uncovering::{copy_uncovered, has_hidden};
use avp_codec::{AvpRef, LentAvps};
use std::alloc::Global;
use wire_base::{Bytes, NoMemory, Pair, Pairs, take_u16, take_u32};

/// The value of an attribute that the message needs.
fn value_of<'a>(avps: &LentAvps<'a>, attribute: u16) -> Result<&'a [u8], MessageError>
    ensures { MatchResult result (λ v. value_at attribute avps.now ≡ Ok v.now) (λ e. value_at attribute avps.now ≡ Err e) }
{
    match find_avp(avps, attribute) {
        Some(avp) => Ok(avp.value),
        None => Err(MessageError::Missing { attribute }),
    }
}

/// The number of an attribute, in two bytes.
#[tactic(auto, unfolding(crate::specs::Reading::u16_at))]
fn u16_of(avps: &LentAvps<'_>, attribute: u16) -> Result<u16, MessageError>
    ensures { result ≡ u16_at attribute avps.now }
{
    let value = value_of(avps, attribute)?;
    u16_in(value, attribute)
}

/// The number of an attribute, in four bytes.
#[tactic(auto, unfolding(crate::specs::Reading::u32_at))]
fn u32_of(avps: &LentAvps<'_>, attribute: u16) -> Result<u32, MessageError>
    ensures { result ≡ u32_at attribute avps.now }
{
    let value = value_of(avps, attribute)?;
    match take_u32(value, 0) {
        Ok(number) if value.len() == 4 => Ok(number),
        _ => Err(MessageError::BadValue { attribute }),
    }
}

/// The text of an attribute, where it is told.
fn text_of(alloc: Global, avps: &LentAvps<'_>, attribute: u16) -> Result<Option<Bytes>, NoMemory>
    ensures { IfOk result (λ o. o ≡ text_at attribute avps.now) }
{
    match find_avp(avps, attribute) {
        None => Ok(None),
        Some(avp) => {
            let value = Bytes::from_slice(alloc, avp.value)?;
            Ok(Some(value))
        }
    }
}

/// Receive Window Size, which is 4 where it isn't told (RFC 2661 section 4.4.3).
#[tactic(auto, unfolding(crate::specs::Reading::window_at))]
fn window_of(avps: &LentAvps<'_>) -> Result<u16, MessageError>
    ensures { result ≡ window_at avps.now }
{
    match find_avp(avps, WINDOW) {
        None => Ok(4),
        Some(avp) => u16_in(avp.value, WINDOW),
    }
}

/// The Failover Capability that a value is.
fn failover_in(value: &[u8]) -> Option<Failover>
    ensures { result ≡ failover_value value.now }
{
    if value.len() != 6 {
        return None;
    }
    match (take_u16(value, 0), take_u32(value, 2)) {
        (Ok(flags), Ok(time)) => Some(Failover { flags, time }),
        _ => None,
    }
}

/// Failover Capability.
#[tactic(auto, unfolding(crate::specs::Reading::failover_at))]
fn failover_of(avps: &LentAvps<'_>) -> Result<Option<Failover>, MessageError>
    ensures { result ≡ failover_at avps.now }
{
    let Some(avp) = find_avp(avps, FAILOVER) else {
        return Ok(None);
    };
    match failover_in(avp.value) {
        None => Err(MessageError::BadValue {
            attribute: FAILOVER,
        }),
        failover => Ok(failover),
    }
}

/// The Tunnel Recovery that a value is. Its first two bytes are reserved, and aren't looked at.
fn recovery_in(value: &[u8]) -> Option<Recovery>
    ensures { result ≡ recovery_value value.now }
{
    if value.len() != 10 {
        return None;
    }
    match (take_u32(value, 2), take_u32(value, 6)) {
        (Ok(sender), Ok(receiver)) => Some(Recovery { sender, receiver }),
        _ => None,
    }
}

/// Tunnel Recovery.
#[tactic(auto, unfolding(crate::specs::Reading::recovery_at))]
fn recovery_of(avps: &LentAvps<'_>) -> Result<Option<Recovery>, MessageError>
    ensures { result ≡ recovery_at avps.now }
{
    let Some(avp) = find_avp(avps, RECOVERY) else {
        return Ok(None);
    };
    match recovery_in(avp.value) {
        None => Err(MessageError::BadValue {
            attribute: RECOVERY,
        }),
        recovery => Ok(recovery),
    }
}

/// The Suggested Control Sequence that a value is. Its first two bytes are reserved, and aren't looked at.
fn suggested_in(value: &[u8]) -> Option<Suggested>
    ensures { result ≡ suggested_value value.now }
{
    if value.len() != 6 {
        return None;
    }
    match (take_u16(value, 2), take_u16(value, 4)) {
        (Ok(ns), Ok(nr)) => Some(Suggested { ns, nr }),
        _ => None,
    }
}

/// Suggested Control Sequence.
#[tactic(auto, unfolding(crate::specs::Reading::suggested_at))]
fn suggested_of(avps: &LentAvps<'_>) -> Result<Option<Suggested>, MessageError>
    ensures { result ≡ suggested_at avps.now }
{
    let Some(avp) = find_avp(avps, SUGGESTED_SEQUENCE) else {
        return Ok(None);
    };
    match suggested_in(avp.value) {
        None => Err(MessageError::BadValue {
            attribute: SUGGESTED_SEQUENCE,
        }),
        suggested => Ok(suggested),
    }
}

/// The Draw Number that a value is.
fn draw_in(value: &[u8]) -> Option<u32>
    ensures { result ≡ draw_value value.now }
{
    if value.len() != 4 {
        return None;
    }
    take_u32(value, 0).ok()
}

/// Draw Number.
#[tactic(auto, unfolding(crate::specs::Reading::draw_at))]
fn draw_of(avps: &LentAvps<'_>) -> Result<Option<u32>, MessageError>
    ensures { result ≡ draw_at avps.now }
{
    let Some(avp) = find_draw(avps) else {
        return Ok(None);
    };
    match draw_in(avp.value) {
        None => Err(MessageError::BadValue {
            attribute: DRAW_NUMBER,
        }),
        draw => Ok(draw),
    }
}

/// The Challenge Response that a value is.
fn response_in(value: &[u8]) -> Option<[u8; 16]>
    ensures { result ≡ response_value value.now }
{
    if value.len() != 16 {
        return None;
    }
    let mut response = [0u8; 16];
    response.copy_from_slice(value);
    Some(response)
}

/// Challenge Response (RFC 2661 section 4.4.3).
#[tactic(auto, unfolding(crate::specs::Reading::response_at))]
fn response_of(avps: &LentAvps<'_>) -> Result<Option<[u8; 16]>, MessageError>
    ensures { result ≡ response_at avps.now }
{
    let Some(avp) = find_avp(avps, CHALLENGE_RESPONSE) else {
        return Ok(None);
    };
    match response_in(avp.value) {
        None => Err(MessageError::BadValue {
            attribute: CHALLENGE_RESPONSE,
        }),
        response => Ok(response),
    }
}

/// What the two ends tell each other as a tunnel is opened, with the response that is given, the recovery that is asked
/// for, the numbers that are suggested, and the draw number.
#[tactic(auto, unfolding(crate::specs::Reading::opening_at))]
fn opening_of(
    alloc: Global,
    avps: &LentAvps<'_>,
    response: Option<[u8; 16]>,
    recovery: Option<Recovery>,
    suggested: Option<Suggested>,
    attempt: Option<u32>,
) -> Result<Opening, MessageError>
    ensures { Gives Told (λ o. o) result (opening_at avps.now response recovery suggested attempt) }
{
    let version = u16_of(avps, PROTOCOL_VERSION)?;
    let framing = u32_of(avps, FRAMING_CAPABILITIES)?;
    let name = value_of(avps, HOST_NAME)?;
    let tunnel = u16_of(avps, ASSIGNED_TUNNEL)?;
    let window = window_of(avps)?;
    let failover = failover_of(avps)?;
    let name = Bytes::from_slice(alloc, name)?;
    let challenge = text_of(alloc, avps, CHALLENGE)?;
    Ok(Opening {
        version,
        framing,
        name,
        tunnel,
        window,
        failover,
        challenge,
        response,
        recovery,
        suggested,
        attempt,
    })
}

/// Incoming-Call-Request.
#[tactic(auto, unfolding(crate::specs::Reading::icrq_at))]
fn icrq_of(alloc: Global, avps: &LentAvps<'_>) -> Result<Message, MessageError>
    ensures { Gives Told (λ m. m) result (icrq_at avps.now) }
{
    let session = u16_of(avps, ASSIGNED_SESSION)?;
    let serial = u32_of(avps, CALL_SERIAL_NUMBER)?;
    let calling = text_of(alloc, avps, CALLING_NUMBER)?;
    Ok(Message::Icrq {
        session,
        serial,
        calling,
    })
}

/// Incoming-Call-Reply.
#[tactic(auto, unfolding(crate::specs::Reading::icrp_at))]
fn icrp_of(avps: &LentAvps<'_>) -> Result<Message, MessageError>
    ensures { result ≡ icrp_at avps.now }
{
    let session = u16_of(avps, ASSIGNED_SESSION)?;
    Ok(Message::Icrp { session })
}

/// Incoming-Call-Connected.
#[tactic(auto, unfolding(crate::specs::Reading::iccn_at))]
fn iccn_of(avps: &LentAvps<'_>) -> Result<Message, MessageError>
    ensures { result ≡ iccn_at avps.now }
{
    let framing = u32_of(avps, FRAMING_TYPE)?;
    let speed = u32_of(avps, CONNECT_SPEED)?;
    let sequenced = has_avp(avps, SEQUENCING_REQUIRED);
    Ok(Message::Iccn {
        speed,
        framing,
        sequenced,
    })
}

/// The result and the Error Code in the value of a Result Code (RFC 2661 section 4.4.2).
fn result_code_in(value: &[u8]) -> Result<(u16, Option<u16>), MessageError>
    ensures { result ≡ result_code_in value.now }
{
    let bad = MessageError::BadValue {
        attribute: RESULT_CODE,
    };
    let Ok(code) = take_u16(value, 0) else {
        return Err(bad);
    };
    if value.len() == 2 {
        return Ok((code, None));
    }
    match take_u16(value, 2) {
        Ok(error) => Ok((code, Some(error))),
        Err(_) => Err(bad),
    }
}

/// Result Code.
#[tactic(auto, unfolding(crate::specs::Reading::result_code_at))]
fn result_code_of(avps: &LentAvps<'_>) -> Result<(u16, Option<u16>), MessageError>
    ensures { result ≡ result_code_at avps.now }
{
    let value = value_of(avps, RESULT_CODE)?;
    result_code_in(value)
}

/// Stop-Control-Connection-Notification.
#[tactic(auto, unfolding(crate::specs::Reading::stop_ccn_at))]
fn stop_ccn_of(avps: &LentAvps<'_>) -> Result<Message, MessageError>
    ensures { result ≡ stop_ccn_at avps.now }
{
    let (result, error) = result_code_of(avps)?;
    let tunnel = u16_of(avps, ASSIGNED_TUNNEL)?;
    Ok(Message::StopCcn {
        tunnel,
        result,
        error,
    })
}

/// Outgoing-Call-Request.
#[tactic(auto, unfolding(crate::specs::Reading::ocrq_at))]
fn ocrq_of(avps: &LentAvps<'_>) -> Result<Message, MessageError>
    ensures { result ≡ ocrq_at avps.now }
{
    let session = u16_of(avps, ASSIGNED_SESSION)?;
    Ok(Message::Ocrq { session })
}

/// Call-Disconnect-Notify.
#[tactic(auto, unfolding(crate::specs::Reading::cdn_at))]
fn cdn_of(avps: &LentAvps<'_>) -> Result<Message, MessageError>
    ensures { result ≡ cdn_at avps.now }
{
    let (result, error) = result_code_of(avps)?;
    let session = u16_of(avps, ASSIGNED_SESSION)?;
    Ok(Message::Cdn {
        session,
        result,
        error,
    })
}

/// WAN-Error-Notify.
#[tactic(auto, unfolding(crate::specs::Reading::wen_at))]
fn wen_of(avps: &LentAvps<'_>) -> Result<Message, MessageError>
    ensures { result ≡ wen_at avps.now }
{
    let _errors = value_of(avps, CALL_ERRORS)?;
    Ok(Message::Wen)
}

/// Set-Link-Info.
#[tactic(auto, unfolding(crate::specs::Reading::sli_at))]
fn sli_of(avps: &LentAvps<'_>) -> Result<Message, MessageError>
    ensures { result ≡ sli_at avps.now }
{
    let _maps = value_of(avps, ACCM)?;
    Ok(Message::Sli)
}

/// The session that the value of a Failover Session State tells. Its first two bytes are reserved, and aren't looked at.
fn session_value(value: &[u8]) -> Option<Pair>
    ensures { result ≡ session_value value.now }
{
    if value.len() != 10 {
        return None;
    }
    match (take_u32(value, 2), take_u32(value, 6)) {
        (Ok(sender), Ok(receiver)) => Some(Pair { sender, receiver }),
        _ => None,
    }
}

/// The session that a pair tells, if it tells one.
fn session_in(avp: &AvpRef<'_>) -> Option<Pair>
    ensures { result ≡ session_in avp.now }
{
    if is_at(avp, SESSION_STATE) {
        session_value(avp.value)
    } else {
        None
    }
}

/// The sessions that pairs tell, in order.
fn sessions_in(alloc: Global, avps: &LentAvps<'_>) -> Result<Pairs, NoMemory>
    ensures { IfOk result (λ sessions. sessions ≡ sessions_in avps.now) }
{
    let mut sessions = Pairs::new(alloc);
    let mut rest = avps.lend();
    while let Some((avp, behind)) = rest.split_first() {
        if let Some(session) = session_in(&avp) {
            sessions.push(session)?;
        }
        rest = behind;
    }
    Ok(sessions)
}

/// The message of a kind that the pairs make.
fn message_of_kind(alloc: Global, kind: Kind, avps: &LentAvps<'_>) -> Result<Message, MessageError>
    ensures { Gives Told (λ m. m) result (of_kind kind avps.now) }
{
    match kind {
        Kind::Sccrq => {
            let recovery = recovery_of(avps)?;
            let attempt = draw_of(avps)?;
            let opening = opening_of(alloc, avps, None, recovery, None, attempt)?;
            Ok(Message::Sccrq(opening))
        }
        Kind::Sccrp => {
            let response = response_of(avps)?;
            let suggested = suggested_of(avps)?;
            let attempt = draw_of(avps)?;
            let opening = opening_of(alloc, avps, response, None, suggested, attempt)?;
            Ok(Message::Sccrp(opening))
        }
        Kind::Scccn => {
            let response = response_of(avps)?;
            Ok(Message::Scccn { response })
        }
        Kind::StopCcn => stop_ccn_of(avps),
        Kind::Hello => Ok(Message::Hello),
        Kind::Ocrq => ocrq_of(avps),
        Kind::Ocrp => Ok(Message::Ocrp),
        Kind::Occn => Ok(Message::Occn),
        Kind::Icrq => icrq_of(alloc, avps),
        Kind::Icrp => icrp_of(avps),
        Kind::Iccn => iccn_of(avps),
        Kind::Cdn => cdn_of(avps),
        Kind::Wen => wen_of(avps),
        Kind::Sli => sli_of(avps),
        Kind::Fsq => {
            let sessions = sessions_in(alloc, avps)?;
            Ok(Message::Fsq(sessions))
        }
        Kind::Fsr => {
            let sessions = sessions_in(alloc, avps)?;
            Ok(Message::Fsr(sessions))
        }
    }
}

/// The number of a Message Type.
fn number_of_type(avp: &AvpRef<'_>) -> Result<u16, MessageError>
    ensures { result ≡ type_number avp.now }
{
    if avp.hidden {
        return Err(MessageError::NoType);
    }
    match u16_in(avp.value, MESSAGE_TYPE) {
        Ok(number) => Ok(number),
        Err(_) => Err(MessageError::NoType),
    }
}

/// The kind of the first Message Type, as a function of the pairs.
#[tactic(auto, unfolding(crate::specs::Reading::kind_by))]
fn type_kind(avps: &LentAvps<'_>, known: Kinds) -> Option<Kind>
    ensures { result ≡ kind_by known avps.now }
{
    let avp = find_avp(avps, MESSAGE_TYPE)?;
    match number_of_type(&avp) {
        Ok(number) => Kind::from_number(known, number),
        Err(_) => None,
    }
}

/// The kind that the first Message Type names to a reader that knows such messages, whatever else the pairs say: a message
/// that has a fault is answered by its kind. None where there is no type, where it can't be read, and where it is unknown.
pub fn kind_of_pairs(avps: &LentAvps<'_>, known: Kinds) -> Option<Kind>
    // A kind that is told is the one that the type names.
    ensures found { IfSome result (λ k. IsOfKind known avps.now k) }
    // None is told exactly where the type names none.
    ensures none { IsNone result ↔ ((k : Kind) → ¬ IsOfKind known avps.now k) }
    // For callers: the answer as a function of the pairs.
    ensures exact { result ≡ kind_by known avps.now }
{
    type_kind(avps, known)
}

/// The whole reading of plain pairs, with the answer as a function of them.
#[tactic(auto, unfolding(crate::specs::Reading::message_by))]
fn read_pairs(alloc: Global, pairs: &LentAvps<'_>, known: Kinds) -> Result<Read, MessageError>
    ensures { Gives Told (λ x. x) result (message_by known pairs.now) }
{
    let Some(avp) = find_avp(pairs, MESSAGE_TYPE) else {
        return Err(MessageError::NoType);
    };
    let number = number_of_type(&avp)?;
    let Some(kind) = Kind::from_number(known, number) else {
        if avp.mandatory {
            return Err(MessageError::UnknownType { number });
        }
        return Ok(Read::Ignored { number });
    };
    check_all(kind, pairs)?;
    let message = message_of_kind(alloc, kind, pairs)?;
    Ok(Read::Known(message))
}

/// The whole reading by a secret.
fn read_uncovered(
    alloc: Global,
    pairs: &LentAvps<'_>,
    secret: &[u8],
    known: Kinds,
) -> Result<Read, MessageError>
    ensures { Gives Told (λ x. x) result (message_by known (uncovered_all secret.now None pairs.now)) }
{
    if !has_hidden(pairs) {
        return read_pairs(alloc, pairs, known);
    }
    let plain = copy_uncovered(alloc, pairs, secret)?;
    read_pairs(alloc, &LentAvps::of(plain.as_slice()), known)
}

/// The whole reading, with the answer as a function of the pairs.
fn read_with(
    alloc: Global,
    avps: &LentAvps<'_>,
    secret: Option<&[u8]>,
    known: Kinds,
) -> Result<Read, MessageError>
    ensures { Gives Told (λ x. x) result (message_by known (uncovered (option_copied secret.entry) avps.now)) }
{
    match secret {
        None => read_pairs(alloc, avps, known),
        Some(secret) => read_uncovered(alloc, avps, secret, known),
    }
}

/// What a list of pairs says to a reader that knows such messages: a message, or one that is to be passed over. The first
/// fault decides in this order: the type; then the pairs from the front; then the least attribute that the message needs
/// and that isn't there. Only pairs that the message uses are valued, and of a repeated attribute only the first, but each
/// Failover Session State. Hidden values are uncovered by the secret first (RFC 2661 section 4.3); one that is used and
/// stays hidden can't be read. Nothing is copied to uncover where there is no secret or no pair is hidden.
pub fn read_message(
    alloc: Global,
    avps: &LentAvps<'_>,
    secret: Option<&[u8]>,
    known: Kinds,
) -> Result<Read, MessageError>
    // What is read is what the pairs say, as they are uncovered.
    ensures found { (plain : List Avp) → Uncovers (option_copied secret.entry) avps.now plain → IfOk result (Says known plain) }
    // A fault stands where it is told, and it is the first.
    ensures fault { (plain : List Avp) → Uncovers (option_copied secret.entry) avps.now plain → IfErr result (IsToldFault known plain) }
    // What the pairs say is read, unless memory runs out.
    ensures only { (plain : List Avp) → Uncovers (option_copied secret.entry) avps.now plain →
        (r : Read) → Says known plain r → Gives Told (λ x. x) result (Ok r) }
    // A first fault that stands there is told, unless memory runs out.
    ensures told { (plain : List Avp) → Uncovers (option_copied secret.entry) avps.now plain →
        (e : MessageError) → IsFault known plain e → Gives Told (λ x. x) result (Err e) }
    // For callers: the answer as a function of the pairs.
    ensures exact { Gives Told (λ x. x) result (message_by known (uncovered (option_copied secret.entry) avps.now)) }
{
    read_with(alloc, avps, secret, known)
}

/// A law: what was written is read again, first as the same pairs, then as the same message, by each reader that knows it.
pub fn reads_what_was_written()
    ensures { (known : Kinds) (m : Message) → IsKnownTo m known → IsWritten m →
        (avps_of (spelling (pairs_of m)) ≡ Ok (pairs_of m)) × (message_by known (pairs_of m) ≡ Ok (Known m)) }
{
    avp_codec::reads_what_was_written();
}
