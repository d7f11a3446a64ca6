//! Writing control messages.

ghost use Rattle.std.specs.Prelude.{◌≡◌, ℕ, ◌+◌, ◌≤◌, List, ◌++◌, length, Option, Some, None, IfOk, OnOk, OnErr};
ghost use Rattle.std.specs.Option.{ForSome, option_copied};
ghost use Rattle.wire_base.specs.Numbers.{u16_bytes, u32_bytes};
ghost use Rattle.avp_codec.specs.Spelling.{spelling, spelling_of};
ghost use Rattle.control_message.specs.declared.message.Message.{Message};
ghost use Rattle.control_message.specs.declared.message.Message.TheVariants.{Scccn, StopCcn, Icrq, Cdn};
ghost use Rattle.tunnel_secret.specs.Hiding.{hidden};
ghost use Rattle.control_message.specs.Pairs.{pair, hidden_pair, pairs_of, opening_front, opening_pairs, failover_pairs, recovery_pairs, suggested_pairs, draw_pairs, recovering_pairs, challenge_pairs, response_pairs, secret_pairs, told_pairs, calling_pairs, result_code_bytes, session_pair, session_pairs, IsWritten, padding_of, calling_pairs_with, pairs_with, IsWrittenWith};

use crate::attribute::{
    ASSIGNED_SESSION, ASSIGNED_TUNNEL, CALL_SERIAL_NUMBER, CALLING_NUMBER, CHALLENGE,
    CHALLENGE_RESPONSE, CONNECT_SPEED, DRAW_NUMBER, DRAW_VENDOR, FAILOVER, FRAMING_CAPABILITIES,
    FRAMING_TYPE, HOST_NAME, MESSAGE_TYPE, PROTOCOL_VERSION, RANDOM_VECTOR, RECOVERY, RESULT_CODE,
    SESSION_STATE, SUGGESTED_SEQUENCE, WINDOW,
};
use crate::kind::{CDN, FSQ, FSR, HELLO, ICCN, ICRP, ICRQ, SCCCN, SCCRP, SCCRQ, STOP_CCN};
use crate::message::{Failover, Message, Opening, Recovery, Suggested};
use avp_codec::{Avp, write_avp};
use std::alloc::Global;
use tunnel_secret::hide;
use wire_base::{Bytes, NoMemory, Pair, put_u16, put_u32};

/// Appends a mandatory pair.
fn put_pair(out: &mut Bytes, attribute: u16, value: Bytes) -> Result<(), NoMemory>
    requires { length value ≤ 1017 }
    ensures { OnOk result (out.new ≡ out.old ++ spelling_of (pair attribute value)) }
{
    let avp = Avp {
        mandatory: true,
        hidden: false,
        reserved: 0,
        vendor: 0,
        attribute,
        value,
    };
    write_avp(out, &avp)
}

/// Appends a mandatory pair with a number in two bytes.
fn put_short(out: &mut Bytes, attribute: u16, number: u16) -> Result<(), NoMemory>
    ensures { OnOk result (out.new ≡ out.old ++ spelling_of (pair attribute (u16_bytes number))) }
{
    let mut value = Bytes::new(out.allocator());
    put_u16(&mut value, number)?;
    put_pair(out, attribute, value)
}

/// Appends a mandatory pair with a number in four bytes.
fn put_long(out: &mut Bytes, attribute: u16, number: u32) -> Result<(), NoMemory>
    ensures { OnOk result (out.new ≡ out.old ++ spelling_of (pair attribute (u32_bytes number))) }
{
    let mut value = Bytes::new(out.allocator());
    put_u32(&mut value, number)?;
    put_pair(out, attribute, value)
}

/// Appends a mandatory pair with bytes.
fn put_text(out: &mut Bytes, attribute: u16, text: &[u8]) -> Result<(), NoMemory>
    requires { length text.now ≤ 1017 }
    ensures { OnOk result (out.new ≡ out.old ++ spelling_of (pair attribute text.now)) }
{
    let value = Bytes::from_slice(out.allocator(), text)?;
    put_pair(out, attribute, value)
}

/// Appends Failover Capability, where it is told.
fn put_failover(out: &mut Bytes, failover: &Option<Failover>) -> Result<(), NoMemory>
    ensures { OnOk result (out.new ≡ out.old ++ spelling (failover_pairs failover.now)) }
{
    let Some(failover) = failover else {
        return Ok(());
    };
    let mut value = Bytes::new(out.allocator());
    put_u16(&mut value, failover.flags)?;
    put_u32(&mut value, failover.time)?;
    let avp = Avp {
        mandatory: false,
        hidden: false,
        reserved: 0,
        vendor: 0,
        attribute: FAILOVER,
        value,
    };
    write_avp(out, &avp)
}

/// Appends Tunnel Recovery, where it is told.
fn put_recovery(out: &mut Bytes, recovery: &Option<Recovery>) -> Result<(), NoMemory>
    ensures { OnOk result (out.new ≡ out.old ++ spelling (recovery_pairs recovery.now)) }
{
    let Some(recovery) = recovery else {
        return Ok(());
    };
    let mut value = Bytes::new(out.allocator());
    put_u16(&mut value, 0)?;
    put_u32(&mut value, recovery.sender)?;
    put_u32(&mut value, recovery.receiver)?;
    put_pair(out, RECOVERY, value)
}

/// Appends Suggested Control Sequence, where it is told.
fn put_suggested(out: &mut Bytes, suggested: &Option<Suggested>) -> Result<(), NoMemory>
    ensures { OnOk result (out.new ≡ out.old ++ spelling (suggested_pairs suggested.now)) }
{
    let Some(suggested) = suggested else {
        return Ok(());
    };
    let mut value = Bytes::new(out.allocator());
    put_u16(&mut value, 0)?;
    put_u16(&mut value, suggested.ns)?;
    put_u16(&mut value, suggested.nr)?;
    put_pair(out, SUGGESTED_SEQUENCE, value)
}

/// Appends Draw Number, where it is told.
fn put_draw(out: &mut Bytes, attempt: Option<u32>) -> Result<(), NoMemory>
    ensures { OnOk result (out.new ≡ out.old ++ spelling (draw_pairs attempt)) }
{
    let Some(attempt) = attempt else {
        return Ok(());
    };
    let mut value = Bytes::new(out.allocator());
    put_u32(&mut value, attempt)?;
    let avp = Avp {
        mandatory: false,
        hidden: false,
        reserved: 0,
        vendor: DRAW_VENDOR,
        attribute: DRAW_NUMBER,
        value,
    };
    write_avp(out, &avp)
}

/// Appends what a recovery tells.
fn put_recovering(out: &mut Bytes, opening: &Opening) -> Result<(), NoMemory>
    ensures { OnOk result (out.new ≡ out.old ++ spelling (recovering_pairs opening.now)) }
{
    put_recovery(out, &opening.recovery)?;
    put_suggested(out, &opening.suggested)?;
    put_draw(out, opening.attempt)?;
    Ok(())
}

/// Appends Challenge, where it is told.
fn put_challenge(out: &mut Bytes, challenge: &Option<Bytes>) -> Result<(), NoMemory>
    requires { ForSome challenge.now (λ v. length v ≤ 1017) }
    ensures { OnOk result (out.new ≡ out.old ++ spelling (challenge_pairs challenge.now)) }
{
    match challenge {
        None => Ok(()),
        Some(challenge) => put_text(out, CHALLENGE, challenge.as_slice()),
    }
}

/// Appends Challenge Response, where it is told.
fn put_response(out: &mut Bytes, response: &Option<[u8; 16]>) -> Result<(), NoMemory>
    ensures { OnOk result (out.new ≡ out.old ++ spelling (response_pairs response.now)) }
{
    match response {
        None => Ok(()),
        Some(response) => put_text(out, CHALLENGE_RESPONSE, response),
    }
}

/// Appends what an opening tells of secrets.
fn put_secrets(out: &mut Bytes, opening: &Opening) -> Result<(), NoMemory>
    requires { ForSome opening.now.challenge (λ v. length v ≤ 1017) }
    ensures { OnOk result (out.new ≡ out.old ++ spelling (secret_pairs opening.now)) }
{
    put_challenge(out, &opening.challenge)?;
    put_response(out, &opening.response)?;
    Ok(())
}

/// Appends what an opening tells beside its numbers and its name.
fn put_told(out: &mut Bytes, opening: &Opening) -> Result<(), NoMemory>
    requires { ForSome opening.now.challenge (λ v. length v ≤ 1017) }
    ensures { OnOk result (out.new ≡ out.old ++ spelling (told_pairs opening.now)) }
{
    put_failover(out, &opening.failover)?;
    put_recovering(out, opening)?;
    put_secrets(out, opening)?;
    Ok(())
}

/// Appends the pairs of an opening that are always there.
fn put_opening_front(out: &mut Bytes, number: u16, opening: &Opening) -> Result<(), NoMemory>
    requires { length opening.now.name ≤ 1017 }
    ensures { OnOk result (out.new ≡ out.old ++ spelling (opening_front number opening.now)) }
{
    put_short(out, MESSAGE_TYPE, number)?;
    put_short(out, PROTOCOL_VERSION, opening.version)?;
    put_long(out, FRAMING_CAPABILITIES, opening.framing)?;
    put_text(out, HOST_NAME, opening.name.as_slice())?;
    put_short(out, ASSIGNED_TUNNEL, opening.tunnel)?;
    put_short(out, WINDOW, opening.window)?;
    Ok(())
}

/// Appends the pairs of an opening.
fn put_opening(out: &mut Bytes, number: u16, opening: &Opening) -> Result<(), NoMemory>
    requires name { length opening.now.name ≤ 1017 }
    requires challenge { ForSome opening.now.challenge (λ v. length v ≤ 1017) }
    ensures { OnOk result (out.new ≡ out.old ++ spelling (opening_pairs number opening.now)) }
{
    put_opening_front(out, number, opening)?;
    put_told(out, opening)?;
    Ok(())
}

/// Appends Calling Number, where it is told.
fn put_calling(out: &mut Bytes, calling: &Option<Bytes>) -> Result<(), NoMemory>
    requires { ForSome calling.now (λ v. length v ≤ 1017) }
    ensures { OnOk result (out.new ≡ out.old ++ spelling (calling_pairs calling.now)) }
{
    match calling {
        None => Ok(()),
        Some(number) => put_text(out, CALLING_NUMBER, number.as_slice()),
    }
}

/// Appends the pairs of an Incoming-Call-Request that stand before Calling Number.
fn put_icrq_front(out: &mut Bytes, session: u16, serial: u32) -> Result<(), NoMemory>
    ensures { OnOk result (out.new ≡ out.old ++ spelling (pairs_of (Icrq session serial None))) }
{
    put_short(out, MESSAGE_TYPE, ICRQ)?;
    put_short(out, ASSIGNED_SESSION, session)?;
    put_long(out, CALL_SERIAL_NUMBER, serial)
}

/// Appends the pairs of an Incoming-Call-Request.
fn put_icrq(
    out: &mut Bytes,
    session: u16,
    serial: u32,
    calling: &Option<Bytes>,
) -> Result<(), NoMemory>
    requires { ForSome calling.now (λ v. length v ≤ 1017) }
    ensures { OnOk result (out.new ≡ out.old ++ spelling (pairs_of (Icrq session serial calling.now))) }
{
    put_icrq_front(out, session, serial)?;
    put_calling(out, calling)
}

/// How many zeros fill a value with its length in two bytes to blocks of 16.
fn padding_of(value: &[u8]) -> usize
    requires { length value.now ≤ 990 }
    ensures exact { result ≡ padding_of value.now }
    ensures fits { 2 + length value.now + result ≤ 1017 }
{
    15 - (value.len() + 1) % 16
}

/// A value that is hidden, with zeros that fill it to blocks of 16.
fn hide_filled(
    alloc: Global,
    attribute: u16,
    secret: &[u8],
    vector: &[u8; 16],
    value: &[u8],
) -> Result<Bytes, NoMemory>
    requires { length value.now ≤ 990 }
    ensures exact { IfOk result (λ cipher. cipher ≡ hidden attribute secret.now vector.now value.now (padding_of value.now)) }
    ensures fits { IfOk result (λ cipher. length cipher ≤ 1017) }
{
    hide(alloc, attribute, secret, vector, value, padding_of(value))
}

/// Appends a mandatory pair whose value is hidden, behind the Random Vector that it is hidden by (RFC 2661 section 4.3).
fn put_hidden(
    out: &mut Bytes,
    attribute: u16,
    secret: &[u8],
    vector: &[u8; 16],
    value: &[u8],
) -> Result<(), NoMemory>
    requires { length value.now ≤ 990 }
    ensures { OnOk result (out.new ≡ out.old ++ (spelling_of (pair RANDOM_VECTOR vector.now) ++
        spelling_of (hidden_pair attribute (hidden attribute secret.now vector.now value.now (padding_of value.now))))) }
{
    put_text(out, RANDOM_VECTOR, vector)?;
    let cipher = hide_filled(out.allocator(), attribute, secret, vector, value)?;
    let avp = Avp {
        mandatory: true,
        hidden: true,
        reserved: 0,
        vendor: 0,
        attribute,
        value: cipher,
    };
    write_avp(out, &avp)
}

/// Appends Calling Number, hidden, where it is told.
fn put_hidden_calling(
    out: &mut Bytes,
    secret: &[u8],
    vector: &[u8; 16],
    calling: &Option<Bytes>,
) -> Result<(), NoMemory>
    requires { ForSome calling.now (λ v. length v ≤ 990) }
    ensures { OnOk result (out.new ≡ out.old ++
        spelling (calling_pairs_with (Some secret.now) (Some vector.now) calling.now)) }
{
    match calling {
        None => Ok(()),
        Some(number) => put_hidden(out, CALLING_NUMBER, secret, vector, number.as_slice()),
    }
}

/// Appends the pairs of an Incoming-Call-Request, with Calling Number hidden.
fn put_hidden_icrq(
    out: &mut Bytes,
    session: u16,
    serial: u32,
    calling: &Option<Bytes>,
    secret: &[u8],
    vector: &[u8; 16],
) -> Result<(), NoMemory>
    requires { ForSome calling.now (λ v. length v ≤ 990) }
    ensures { OnOk result (out.new ≡ out.old ++
        spelling (pairs_with (Some secret.now) (Some vector.now) (Icrq session serial calling.now))) }
{
    put_icrq_front(out, session, serial)?;
    put_hidden_calling(out, secret, vector, calling)
}

/// Appends the pairs of a Start-Control-Connection-Connected.
fn put_scccn(out: &mut Bytes, response: &Option<[u8; 16]>) -> Result<(), NoMemory>
    ensures { OnOk result (out.new ≡ out.old ++ spelling (pairs_of (Scccn response.now))) }
{
    put_short(out, MESSAGE_TYPE, SCCCN)?;
    put_response(out, response)
}

/// Appends Result Code, with its Error Code where that is told.
fn put_result_code(out: &mut Bytes, code: u16, error: Option<u16>) -> Result<(), NoMemory>
    ensures { OnOk result (out.new ≡ out.old ++ spelling_of (pair RESULT_CODE (result_code_bytes code error))) }
{
    let mut value = Bytes::new(out.allocator());
    put_u16(&mut value, code)?;
    if let Some(error) = error {
        put_u16(&mut value, error)?;
    }
    put_pair(out, RESULT_CODE, value)
}

/// Appends the pairs of a Stop-Control-Connection-Notification.
fn put_stop_ccn(out: &mut Bytes, tunnel: u16, code: u16, error: Option<u16>) -> Result<(), NoMemory>
    ensures { OnOk result (out.new ≡ out.old ++ spelling (pairs_of (StopCcn tunnel code error))) }
{
    put_short(out, MESSAGE_TYPE, STOP_CCN)?;
    put_short(out, ASSIGNED_TUNNEL, tunnel)?;
    put_result_code(out, code, error)
}

/// Appends the pairs of a Call-Disconnect-Notify.
fn put_cdn(out: &mut Bytes, session: u16, code: u16, error: Option<u16>) -> Result<(), NoMemory>
    ensures { OnOk result (out.new ≡ out.old ++ spelling (pairs_of (Cdn session code error))) }
{
    put_short(out, MESSAGE_TYPE, CDN)?;
    put_result_code(out, code, error)?;
    put_short(out, ASSIGNED_SESSION, session)
}

/// Appends Failover Session State.
fn put_session(out: &mut Bytes, session: &Pair) -> Result<(), NoMemory>
    ensures { OnOk result (out.new ≡ out.old ++ spelling_of (session_pair session.now)) }
{
    let mut value = Bytes::new(out.allocator());
    put_u16(&mut value, 0)?;
    put_u32(&mut value, session.sender)?;
    put_u32(&mut value, session.receiver)?;
    put_pair(out, SESSION_STATE, value)
}

/// Appends Failover Session State for each session.
fn put_sessions(out: &mut Bytes, sessions: &[Pair]) -> Result<(), NoMemory>
    ensures { OnOk result (out.new ≡ out.old ++ spelling (session_pairs sessions.now)) }
{
    for session in sessions {
        put_session(out, session)?;
    }
    Ok(())
}

/// Appends the pairs of a message.
fn put_message(out: &mut Bytes, message: &Message) -> Result<(), NoMemory>
    requires { IsWritten message.now }
    ensures { OnOk result (out.new ≡ out.old ++ spelling (pairs_of message.now)) }
{
    match message {
        Message::Sccrq(opening) => put_opening(out, SCCRQ, opening),
        Message::Sccrp(opening) => put_opening(out, SCCRP, opening),
        Message::Scccn { response } => put_scccn(out, response),
        Message::StopCcn {
            tunnel,
            result,
            error,
        } => put_stop_ccn(out, *tunnel, *result, *error),
        Message::Hello => put_short(out, MESSAGE_TYPE, HELLO),
        Message::Icrq {
            session,
            serial,
            calling,
        } => put_icrq(out, *session, *serial, calling),
        Message::Icrp { session } => {
            put_short(out, MESSAGE_TYPE, ICRP)?;
            put_short(out, ASSIGNED_SESSION, *session)
        }
        Message::Iccn { speed, framing, .. } => {
            put_short(out, MESSAGE_TYPE, ICCN)?;
            put_long(out, CONNECT_SPEED, *speed)?;
            put_long(out, FRAMING_TYPE, *framing)
        }
        Message::Cdn {
            session,
            result,
            error,
        } => put_cdn(out, *session, *result, *error),
        Message::Fsq(sessions) => {
            put_short(out, MESSAGE_TYPE, FSQ)?;
            put_sessions(out, sessions.as_slice())
        }
        Message::Fsr(sessions) => {
            put_short(out, MESSAGE_TYPE, FSR)?;
            put_sessions(out, sessions.as_slice())
        }
        Message::Ocrq { .. } | Message::Ocrp | Message::Occn | Message::Wen | Message::Sli => {
            unreachable!()
        }
    }
}

/// Appends the pairs of a message, with what is to be hidden of it hidden where a vector is there.
fn put_message_with(
    out: &mut Bytes,
    message: &Message,
    secret: Option<&[u8]>,
    vector: Option<&[u8; 16]>,
) -> Result<(), NoMemory>
    requires { IsWrittenWith (option_copied secret) (option_copied vector) message.now }
    ensures { OnOk result (out.new ≡ out.old ++ spelling (pairs_with (option_copied secret.entry) (option_copied vector.entry) message.now)) }
{
    match (message, secret, vector) {
        (
            Message::Icrq {
                session,
                serial,
                calling,
            },
            Some(secret),
            Some(vector),
        ) => put_hidden_icrq(out, *session, *serial, calling, secret, vector),
        _ => put_message(out, message),
    }
}

/// Appends the one spelling of a message in written form: its pairs in the order of the table, each mandatory but for
/// Failover Capability and Draw Number, and none padded. Where a vector of 16 random bytes is given, a secret is given too, and Calling
/// Number is hidden by both (RFC 2661 section 4.3): a Random Vector stands directly before it, and zeros fill its text to
/// blocks of 16 bytes. Nothing else is hidden. Where memory is wanting, nothing is appended.
pub fn write_message(
    out: &mut Bytes,
    message: &Message,
    secret: Option<&[u8]>,
    vector: Option<&[u8; 16]>,
) -> Result<(), NoMemory>
    requires { IsWrittenWith (option_copied secret) (option_copied vector) message.now }
    ensures ok { OnOk result (out.new ≡ out.old ++ spelling (pairs_with (option_copied secret.entry) (option_copied vector.entry) message.now)) }
    ensures err { OnErr result (out.new ≡ out.old) }
{
    let mut whole = Bytes::new(out.allocator());
    put_message_with(&mut whole, message, secret, vector)?;
    out.push_slice(whole.as_slice())
}

/// A law: without a vector, a message is written as it is without a secret.
pub fn hides_nothing_without_a_vector()
    ensures { (k : Option (List ℕ)) (m : Message) → pairs_with k None m ≡ pairs_of m }
{}

/// A law: what is written has room in one control message, whose length field counts the header's 12 bytes too
/// (RFC 2661 section 3.1).
pub fn has_room()
    ensures { (m : Message) → IsWritten m → length (spelling (pairs_of m)) ≤ 65523 }
{}

/// A law: so has what is written with a secret and a vector.
pub fn has_room_with()
    ensures { (k v : Option (List ℕ)) (m : Message) → IsWrittenWith k v m → length (spelling (pairs_with k v m)) ≤ 65523 }
{
    tunnel_secret::unhides_what_was_hidden();
}
