//! Rows of schedules, and of hidden values and responses.

use crate::row::{Fault, Row};
use crate::spelling::{told, unescaped};
use schedule_text::{Line, read_schedule};
use schedule_writing::write_schedule;
use std::alloc::Global;
use tunnel_secret::{check_response, hide, response, unhide};

/// A line that names an end. Lines have no `Debug`, since they may hold a secret; those of the rows are no one's.
fn told_end(alloc: Global, line: &Line) -> Result<String, Fault> {
    match line {
        Line::Lac {
            node,
            lns,
            secret,
            hide,
        } => told(alloc, &("Lac", node, lns, secret, hide)),
        Line::Lns { node, secret } => told(alloc, &("Lns", node, secret)),
        Line::OpenUp { node } => told(alloc, &("OpenUp", node)),
        Line::Close { node, tunnel } => told(alloc, &("Close", node, tunnel)),
        _ => Ok(String::new(alloc)),
    }
}

/// A line of a call, of a packet or of a clock, or a remark.
fn told_line(alloc: Global, line: &Line) -> Result<String, Fault> {
    match line {
        Line::Remark { text } => told(alloc, &("Remark", text)),
        Line::Ring { node, port } => told(alloc, &("Ring", node, port)),
        Line::FromSub {
            node,
            session,
            frame,
        } => told(alloc, &("FromSub", node, session, frame)),
        Line::Down {
            node,
            session,
            frame,
        } => told(alloc, &("Down", node, session, frame)),
        Line::Frame { node, bytes } => told(alloc, &("Frame", node, bytes)),
        Line::Hang { node, session } => told(alloc, &("Hang", node, session)),
        Line::DropCall { node, session } => told(alloc, &("DropCall", node, session)),
        Line::Deliver { packet } => told(alloc, &("Deliver", packet)),
        Line::Tick { node, milliseconds } => told(alloc, &("Tick", node, milliseconds)),
        _ => told_end(alloc, line),
    }
}

pub fn schedule_row(alloc: Global, line: &str) -> Result<String, Fault> {
    let (_call, text) = line.split_once(' ').unwrap_or((line, ""));
    let text = unescaped(alloc, text)?;
    match read_schedule(alloc, text.as_slice()) {
        Ok(lines) => {
            let mut answer = String::from_str(alloc, "Ok [")?;
            for line in lines.as_slice() {
                answer.push_str(told_line(alloc, line)?.as_str())?;
            }
            answer.push(']')?;
            Ok(answer)
        }
        Err(fault) => told(alloc, &("Err", fault)),
    }
}

/// Writes the lines that a text spells.
pub fn written_row(alloc: Global, line: &str) -> Result<String, Fault> {
    let (_call, text) = line.split_once(' ').unwrap_or((line, ""));
    let text = unescaped(alloc, text)?;
    let Ok(lines) = read_schedule(alloc, text.as_slice()) else {
        return Err(Fault::NotARow);
    };
    told(alloc, &write_schedule(alloc, &lines)?)
}

/// Reveals a value, or hides it and reveals it again, or tells a response and whether it is the one that is given.
pub fn secret_row(row: &Row<'_>) -> Result<String, Fault> {
    let (attribute, secret, vector) = (row.short(1), row.bytes(2, 99), row.bytes(3, 99));
    let value = row.bytes(4, 700);
    match row.word(0) {
        "unhide" => told(
            row.alloc,
            &unhide(row.alloc, attribute, secret, vector, value),
        ),
        "hide" => {
            let cipher = hide(
                row.alloc,
                attribute,
                secret,
                vector,
                value,
                row.byte(5) as usize,
            )?;
            let revealed = unhide(row.alloc, attribute, secret, vector, cipher.as_slice());
            told(row.alloc, &(cipher, revealed))
        }
        _ => {
            let (kind, given) = (row.byte(1), row.array(4));
            let same = check_response(kind, secret, vector, &given);
            told(row.alloc, &(response(kind, secret, vector), same))
        }
    }
}
