//! The LCP end of a link whose peer is another program.

use crate::row::Fault;
use lcp_end::{LcpEnd, LcpOut};
use std::alloc::Global;
use wire_base::{Bytes, NoMemory};

/// The random bytes of each packet that comes.
const BLOCK: [u8; 16] = [1, 0, 0, 0, 9, 9, 9, 9, 9, 9, 9, 9, 0, 0, 0, 5];

/// A moment, in milliseconds.
fn moment_of(digits: &str) -> Result<u64, Fault> {
    digits.parse::<u64>().map_err(|_| Fault::NotARow)
}

/// Takes packets, each of which is spelled in hex digits.
fn hear(
    alloc: Global,
    end: &mut LcpEnd,
    now: u64,
    packets: &str,
    out: &mut LcpOut,
) -> Result<(), Fault> {
    for digits in packets.split(' ') {
        let Ok(packet) = hex::decode(alloc, digits) else {
            return Err(Fault::NotARow);
        };
        end.on_packet(alloc, packet.as_slice(), &BLOCK, now, out)?;
    }
    Ok(())
}

/// Opens or closes the link, or lets time pass.
fn turn(
    alloc: Global,
    end: &mut LcpEnd,
    word: &str,
    now: u64,
    out: &mut LcpOut,
) -> Result<(), Fault> {
    Ok(match word {
        "open" => end.open_link(alloc, now, out)?,
        "close" => end.close_link(alloc, now, out)?,
        "tick" => end.on_tick(alloc, now, out)?,
        _ => return Err(Fault::NotARow),
    })
}

/// The lines of what was given: the packets that are to be sent, and what became of the link.
fn lines(alloc: Global, out: &LcpOut) -> Result<Bytes, NoMemory> {
    let mut text = Bytes::new(alloc);
    for packet in out.packets.as_slice() {
        let digits = hex::encode(alloc, packet.as_slice())?;
        text.push_slice(b"send ")?;
        text.push_slice(digits.as_bytes())?;
        text.push_slice(b"\n")?;
    }
    for (is_told, word) in [
        (out.up, "up\n"),
        (out.down, "down\n"),
        (out.finished, "finished\n"),
    ] {
        if is_told {
            text.push_slice(word.as_bytes())?;
        }
    }
    Ok(text)
}

/// The lines of what a call gives, its word first and its moment next.
fn call_row(alloc: Global, end: &mut LcpEnd, word: &str, words: &str) -> Result<Bytes, Fault> {
    let mut out = LcpOut::new(alloc);
    match words.split_once(' ') {
        Some((now, packets)) if word == "hear" => {
            hear(alloc, end, moment_of(now)?, packets, &mut out)?;
        }
        _ => turn(alloc, end, word, moment_of(words)?, &mut out)?,
    }
    Ok(lines(alloc, &out)?)
}

/// What a row leads to: an end that is new, with a magic number to ask for, whether the link is open, or the lines of what a call
/// gives.
pub(crate) fn link_row(alloc: Global, end: &mut LcpEnd, row: &str) -> Result<Bytes, Fault> {
    match row.split_once(' ') {
        Some(("new", digits)) => {
            *end = LcpEnd::new(digits.parse::<u32>().map_err(|_| Fault::NotARow)?);
            Ok(Bytes::new(alloc))
        }
        Some((word, words)) => call_row(alloc, end, word, words),
        None if row == "open?" => {
            let told: &[u8] = if end.is_open() { b"yes\n" } else { b"no\n" };
            Ok(Bytes::from_slice(alloc, told)?)
        }
        None => Err(Fault::NotARow),
    }
}
