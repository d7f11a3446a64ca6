//! Rows of control messages.

ghost use Rattle.std.specs.Prelude.{◌≡◌, ◌<◌, None, IfOk};
ghost use Rattle.control_message.specs.Pairs.{IsWritten, IsWrittenOpening, AreWrittenSessions};

use crate::row::{Fault, Row};
use crate::spelling::told;
use avp_codec::{LentAvps, read_avps, read_places};
use control_message::*;
use wire_base::{Bytes, NoMemory, Pair, Pairs};

/// The answer of a call that reads pairs.
pub fn pairs_row(row: &Row<'_>) -> Result<String, Fault> {
    let bytes = row.bytes(1, 2000);
    if row.word(0) == "read_avps" {
        return told(row.alloc, &read_avps(row.alloc, bytes));
    }
    let places = match read_places(row.alloc, bytes) {
        Ok(places) => places,
        fault => return told(row.alloc, &fault),
    };
    let avps = LentAvps::new(bytes, places.as_slice());
    match row.word(0) {
        "read_message" => told(
            row.alloc,
            &read_message(row.alloc, &avps, row.some_bytes(2, 99), Kinds::Queries),
        ),
        "read_base" => told(
            row.alloc,
            &read_message(row.alloc, &avps, row.some_bytes(2, 99), Kinds::Base),
        ),
        "kind_of_pairs" => told(row.alloc, &kind_of_pairs(&avps, Kinds::Queries)),
        "assigned_tunnel" => told(row.alloc, &assigned_tunnel(&avps)),
        "assigned_session" => told(row.alloc, &assigned_session(&avps)),
        _ => Err(Fault::NotARow),
    }
}

/// The two ids of a recovery, where both are spelled.
fn recovery(row: &Row<'_>) -> Option<Recovery> {
    match (row.some_long(10), row.some_long(11)) {
        (Some(sender), Some(receiver)) => Some(Recovery { sender, receiver }),
        _ => None,
    }
}

/// Suggested numbers, where both are spelled.
fn suggested(row: &Row<'_>) -> Option<Suggested> {
    match (row.some_short(11), row.some_short(12)) {
        (Some(ns), Some(nr)) => Some(Suggested { ns, nr }),
        _ => None,
    }
}

/// An opening of version 1.0, with a failover capability, and neither a response nor what a recovery tells.
fn opening(row: &Row<'_>, tunnel: u16, window: u16) -> Result<Opening, NoMemory>
    requires tunnel { 0 < tunnel }
    requires window { 0 < window }
    ensures written { IfOk result IsWrittenOpening }
    ensures response { IfOk result (λ o. o.response ≡ None) }
    ensures recovery { IfOk result (λ o. o.recovery ≡ None) }
    ensures suggested { IfOk result (λ o. o.suggested ≡ None) }
{
    Ok(Opening {
        version: 0x0100,
        framing: row.long(3),
        name: row.owned(4, 1017)?,
        tunnel,
        window,
        failover: Some(Failover {
            flags: row.short(7),
            time: row.long(8),
        }),
        challenge: row.some_owned(9, 1017)?,
        response: None,
        recovery: None,
        suggested: None,
        attempt: None,
    })
}

/// An Sccrq: the fields of an opening, a challenge, the ids of a recovery, a draw number.
fn request(row: &Row<'_>, tunnel: u16, window: u16) -> Result<Message, NoMemory>
    requires tunnel { 0 < tunnel }
    requires window { 0 < window }
    ensures { IfOk result IsWritten }
{
    let mut opening = opening(row, tunnel, window)?;
    opening.recovery = recovery(row);
    opening.attempt = row.some_long(12);
    Ok(Message::Sccrq(opening))
}

/// An Sccrp: the fields of an opening, a challenge, a response, suggested numbers, a draw number.
fn reply(row: &Row<'_>, tunnel: u16, window: u16) -> Result<Message, NoMemory>
    requires tunnel { 0 < tunnel }
    requires window { 0 < window }
    ensures { IfOk result IsWritten }
{
    let mut opening = opening(row, tunnel, window)?;
    opening.response = row.some_array(10);
    opening.suggested = suggested(row);
    opening.attempt = row.some_long(13);
    Ok(Message::Sccrp(opening))
}

/// A session by its two ids, where both are spelled.
fn session(row: &Row<'_>, sender: usize, receiver: usize) -> Option<Pair> {
    match (row.some_long(sender), row.some_long(receiver)) {
        (Some(sender), Some(receiver)) => Some(Pair { sender, receiver }),
        _ => None,
    }
}

/// Two sessions at most.
fn sessions(row: &Row<'_>) -> Result<Pairs, NoMemory>
    ensures { IfOk result AreWrittenSessions }
{
    let mut sessions = Pairs::new(row.alloc);
    if let Some(session) = session(row, 3, 4) {
        sessions.push(session)?;
    }
    if let Some(session) = session(row, 5, 6) {
        sessions.push(session)?;
    }
    Ok(sessions)
}

fn message(row: &Row<'_>) -> Result<Message, Fault>
    ensures { IfOk result IsWritten }
{
    match row.word(2) {
        "Sccrq" => match (row.short(5), row.short(6)) {
            (0, _) | (_, 0) => Err(Fault::NotARow),
            (tunnel, window) => Ok(request(row, tunnel, window)?),
        },
        "Sccrp" => match (row.short(5), row.short(6)) {
            (0, _) | (_, 0) => Err(Fault::NotARow),
            (tunnel, window) => Ok(reply(row, tunnel, window)?),
        },
        "Scccn" => Ok(Message::Scccn {
            response: row.some_array(3),
        }),
        "Hello" => Ok(Message::Hello),
        "Fsq" => Ok(Message::Fsq(sessions(row)?)),
        "Fsr" => Ok(Message::Fsr(sessions(row)?)),
        "StopCcn" => Ok(Message::StopCcn {
            tunnel: row.short(3),
            result: row.short(4),
            error: row.some_short(5),
        }),
        "Cdn" => Ok(Message::Cdn {
            session: row.short(3),
            result: row.short(4),
            error: row.some_short(5),
        }),
        "Icrq" => Ok(Message::Icrq {
            session: row.short(3),
            serial: row.long(4),
            calling: Some(row.owned(5, 1017)?),
        }),
        "Icrp" => match row.short(3) {
            0 => Err(Fault::NotARow),
            session => Ok(Message::Icrp { session }),
        },
        "Iccn" => Ok(Message::Iccn {
            speed: row.long(3),
            framing: row.long(4),
            sequenced: false,
        }),
        _ => Err(Fault::NotARow),
    }
}

/// Some bytes with a message behind them, and what the message alone says to an end with the secret.
fn told_message(
    row: &Row<'_>,
    out: &Bytes,
    alone: &Bytes,
    secret: Option<&[u8]>,
) -> Result<String, Fault> {
    let Ok(places) = read_places(row.alloc, alone.as_slice()) else {
        return Err(Fault::NotARow);
    };
    let avps = LentAvps::new(alone.as_slice(), places.as_slice());
    told(
        row.alloc,
        &(out, read_message(row.alloc, &avps, secret, Kinds::Queries)),
    )
}

/// Writes a message behind some bytes, and alone, and reads it back.
pub fn write_message_row(row: &Row<'_>) -> Result<String, Fault> {
    let message = message(row)?;
    let mut out = row.owned(1, 2000)?;
    let mut alone = Bytes::new(row.alloc);
    write_message(&mut out, &message, None, None)?;
    write_message(&mut alone, &message, None, None)?;
    told_message(row, &out, &alone, None)
}

/// Writes an Incoming-Call-Request with its number hidden behind some bytes, and alone, and reads it back.
pub fn write_hidden_row(row: &Row<'_>) -> Result<String, Fault> {
    let message = Message::Icrq {
        session: row.short(2),
        serial: row.long(3),
        calling: Some(row.owned(4, 990)?),
    };
    let secret = Some(row.bytes(5, 99));
    let vector = row.array(6);
    let mut out = row.owned(1, 2000)?;
    let mut alone = Bytes::new(row.alloc);
    write_message(&mut out, &message, secret, Some(&vector))?;
    write_message(&mut alone, &message, secret, Some(&vector))?;
    told_message(row, &out, &alone, secret)
}
