//! What rows answer.

use crate::end::{End, answer as new_answer, attempt as new_attempt};
use crate::row::{Fault, Row, told};
use avp_codec::{LentAvps, read_places};
use control_message::{Kinds, Message, Read, read_message};
use recovery_tunnel::judge;
use std::alloc::Global;
use wire_base::Cause;

/// The message whose pairs are spelled in hex digits.
fn message(alloc: Global, digits: &str) -> Result<Message, Fault> {
    let Ok(bytes) = hex::decode(alloc, digits) else {
        return Err(Fault::NotARow);
    };
    let places = read_places(alloc, bytes.as_slice())?;
    let avps = LentAvps::new(bytes.as_slice(), places.as_slice());
    match read_message(alloc, &avps, None, Kinds::Queries)? {
        Read::Known(message) => Ok(message),
        Read::Ignored { .. } => Err(Fault::NotARow),
    }
}

/// The secret that a word is; none where it is `none`.
fn secret(word: &str) -> Option<&[u8]> {
    match word {
        "none" => None,
        _ => Some(word.as_bytes()),
    }
}

/// A message with Ns that acknowledges what is below Nr, at a moment, heard with a secret and taken.
fn hear_row(end: &mut End, row: &Row<'_>) -> Result<String, Fault> {
    let now = row.moment(3)?;
    let class = end.receive(row.short(1)?, row.short(2)?, false, now);
    let message = message(row.alloc, row.word(5))?;
    let progress = end.hear(row.alloc, &message, secret(row.word(4)), now)?;
    end.take();
    Ok(format!(in row.alloc; "{class:?} {progress:?}")?)
}

/// An acknowledgement alone.
fn acknowledge_row(end: &mut End, row: &Row<'_>) -> Result<String, Fault> {
    told(
        row.alloc,
        &end.receive(row.short(1)?, row.short(2)?, true, row.moment(3)?),
    )
}

/// A message that has a fault.
fn fault_row(end: &mut End, row: &Row<'_>) -> Result<String, Fault> {
    let cause = match row.word(1) {
        "avp" => Cause::Avp,
        "value" => Cause::Value,
        "mandatory" => Cause::Mandatory,
        _ => return Err(Fault::NotARow),
    };
    told(row.alloc, &end.fault(row.alloc, cause))
}

/// What is due on the channel, and what the time tells.
fn tick_row(end: &mut End, row: &Row<'_>) -> Result<String, Fault> {
    let (due, progress) = end.tick(row.moment(1)?);
    Ok(format!(in row.alloc; "{due:?} {progress:?}")?)
}

/// The letter that goes next.
fn send_row(end: &mut End, row: &Row<'_>) -> Result<String, Fault> {
    match end.send(row.alloc, row.moment(1)?)? {
        None => told(row.alloc, &()),
        Some((ns, nr, digits)) => Ok(format!(in row.alloc; "{ns} {nr} {digits}")?),
    }
}

/// A call of the end that there is.
fn end_row(end: &mut End, row: &Row<'_>) -> Result<String, Fault> {
    match row.word(0) {
        "hear" => hear_row(end, row),
        "acknowledge" => acknowledge_row(end, row),
        "fault" => fault_row(end, row),
        "tick" => tick_row(end, row),
        "send" => send_row(end, row),
        "over" => told(row.alloc, &end.over(row.moment(1)?)),
        "ids" => told(row.alloc, &end.ids()),
        "suggested" => told(row.alloc, &end.suggested()),
        "wire" => told(row.alloc, &end.wire()),
        _ => Err(Fault::NotARow),
    }
}

/// A request for a recovery: the mark, its draw number, and whether the answer of the mark is live.
fn judge_row(row: &Row<'_>) -> Result<String, Fault> {
    let live = row.word(3) == "live";
    told(row.alloc, &judge(row.long(1)?, row.long(2)?, live))
}

/// What a row answers.
pub(crate) fn answer(end: &mut Option<End>, row: &Row<'_>) -> Result<String, Fault> {
    match row.word(0) {
        "judge" => return judge_row(row),
        "attempt" => *end = Some(new_attempt(row.alloc, row.digest(1))?),
        "answer" => *end = Some(new_answer(row.alloc, row.digest(1), row.digest(2))?),
        _ => {
            return match end {
                Some(end) => end_row(end, row),
                None => Err(Fault::NotARow),
            };
        }
    }
    told(row.alloc, &())
}
