//! Rows of an outbox, the sending side of a channel.

use crate::row::{Fault, letter, long_of, short_of, shorts_of, told};
use send_window::{Outbox, PutError};
use std::alloc::Global;

/// An outbox from the number of its first letter and the peer's window.
fn fresh(alloc: Global, words: &str) -> Result<Outbox, Fault> {
    let (first, window) = shorts_of(words)?;
    if window == 0 {
        return Err(Fault::NotARow);
    }
    Ok(Outbox::new(alloc, first, window))
}

/// Gives so many letters.
fn fill(alloc: Global, outbox: &mut Outbox, count: u16) -> Result<(), PutError> {
    for _ in 0..count {
        outbox.put(letter(alloc, 0))?;
    }
    Ok(())
}

/// The number of the letter that the window lets go, and its session.
fn let_go(outbox: &mut Outbox, now: u64) -> Option<(u64, u16)> {
    let number = outbox.pump(now)?;
    Some((number, outbox.letter(number).session))
}

fn learn(outbox: &mut Outbox, window: u16) -> Result<(), Fault> {
    if window == 0 {
        return Err(Fault::NotARow);
    }
    outbox.learn_window(window);
    Ok(())
}

/// What an outbox tells that stays as it is.
fn asked(alloc: Global, outbox: &Outbox, word: &str) -> Result<String, Fault> {
    match word {
        "sent" => told(alloc, &outbox.sent_count()),
        "acked" => told(alloc, &outbox.acked_count()),
        "unsent" => told(alloc, &outbox.next_unsent()),
        "queued" => told(alloc, &outbox.queued()),
        _ => Err(Fault::NotARow),
    }
}

/// A call about letters: room for so many, one of a session, so many, the peer's window, or a new first number.
fn letters_row(
    alloc: Global,
    outbox: &mut Outbox,
    word: &str,
    number: u16,
) -> Result<String, Fault> {
    match word {
        "reserve" => told(alloc, &outbox.reserve(usize::from(number))),
        "put" => told(alloc, &outbox.put(letter(alloc, number))),
        "fill" => told(alloc, &fill(alloc, outbox, number)),
        "learn" => {
            learn(outbox, number)?;
            told(alloc, &())
        }
        "reset" => {
            outbox.reset(number);
            told(alloc, &())
        }
        _ => Err(Fault::NotARow),
    }
}

/// How many letters the number of an acknowledgement acknowledges at a moment.
fn ack_row(alloc: Global, outbox: &mut Outbox, words: &str) -> Result<String, Fault> {
    match words.split_once(' ') {
        Some((nr, now)) => told(alloc, &outbox.ack(short_of(nr)?, long_of(now)?)),
        None => Err(Fault::NotARow),
    }
}

/// What a call answers, its word first and its arguments next.
fn call_row(alloc: Global, outbox: &mut Outbox, word: &str, words: &str) -> Result<String, Fault> {
    match word {
        "new" => {
            *outbox = fresh(alloc, words)?;
            told(alloc, &())
        }
        "pump" => told(alloc, &let_go(outbox, long_of(words)?)),
        "tick" => told(alloc, &outbox.tick(long_of(words)?)),
        "holds" => told(alloc, &outbox.window().holds(long_of(words)?)),
        "ack" => ack_row(alloc, outbox, words),
        _ => letters_row(alloc, outbox, word, short_of(words)?),
    }
}

/// What the call of a row answers.
pub(crate) fn outbox_row(alloc: Global, outbox: &mut Outbox, row: &str) -> Result<String, Fault> {
    match row.split_once(' ') {
        Some((word, words)) => call_row(alloc, outbox, word, words),
        None => asked(alloc, outbox, row),
    }
}
