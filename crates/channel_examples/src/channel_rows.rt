//! Rows of one end's control channel.

use crate::row::{Fault, letter, long_of, short_of, shorts_of, told};
use control_channel::{Channel, PutError};
use std::alloc::Global;

/// A channel from the number of its first letter, the number that is expected of the other end, and the other end's window.
fn fresh(alloc: Global, words: &str) -> Result<Channel, Fault> {
    let Some((numbers, digits)) = words.rsplit_once(' ') else {
        return Err(Fault::NotARow);
    };
    let (send_from, expect) = shorts_of(numbers)?;
    let window = short_of(digits)?;
    if window == 0 {
        return Err(Fault::NotARow);
    }
    Ok(Channel::new(alloc, send_from, expect, window))
}

/// Gives so many letters.
fn fill(alloc: Global, channel: &mut Channel, count: u16) -> Result<(), PutError> {
    for _ in 0..count {
        channel.send(letter(alloc, 0))?;
    }
    Ok(())
}

/// The number of the letter that the window lets go, its numbers on the wire, and its session.
fn let_go(channel: &mut Channel, now: u64) -> Option<(u64, (u16, u16), u16)> {
    let number = channel.pump(now)?;
    Some((number, channel.wire(number), channel.letter(number).session))
}

fn learn(channel: &mut Channel, window: u16) -> Result<(), Fault> {
    if window == 0 {
        return Err(Fault::NotARow);
    }
    channel.learn_window(window);
    Ok(())
}

/// What a channel tells that stays as it is; `wire` is the numbers of an acknowledgement alone.
fn asked(alloc: Global, channel: &Channel, word: &str) -> Result<String, Fault> {
    match word {
        "sent" => told(alloc, &channel.sent_count()),
        "acked" => told(alloc, &channel.acked_count()),
        "taken" => told(alloc, &channel.taken_count()),
        "queued" => told(alloc, &channel.queued()),
        "wire" => told(alloc, &channel.wire(channel.next_unsent())),
        _ => Err(Fault::NotARow),
    }
}

/// A call without arguments.
fn bare_row(alloc: Global, channel: &mut Channel, word: &str) -> Result<String, Fault> {
    match word {
        "take" => channel.take(),
        "freeze" => channel.freeze(),
        _ => return asked(alloc, channel, word),
    }
    told(alloc, &())
}

/// A call about letters: room for so many, one of a session, so many, or the peer's window.
fn letters_row(
    alloc: Global,
    channel: &mut Channel,
    word: &str,
    number: u16,
) -> Result<String, Fault> {
    match word {
        "reserve" => told(alloc, &channel.reserve(usize::from(number))),
        "send" => told(alloc, &channel.send(letter(alloc, number))),
        "fill" => told(alloc, &fill(alloc, channel, number)),
        "learn" => {
            learn(channel, number)?;
            told(alloc, &())
        }
        _ => Err(Fault::NotARow),
    }
}

/// A call with the numbers of a message that comes at the moment 0, of an acknowledgement alone, or of a channel that goes on from
/// others.
fn numbers_row(
    alloc: Global,
    channel: &mut Channel,
    word: &str,
    numbers: (u16, u16),
) -> Result<String, Fault> {
    let (first, second) = numbers;
    match word {
        "receive" => told(alloc, &channel.receive(first, second, false, 0)),
        "ack" => told(alloc, &channel.receive(first, second, true, 0)),
        "reset" => {
            channel.reset_to(first, second);
            told(alloc, &())
        }
        _ => Err(Fault::NotARow),
    }
}

/// What a call answers, its word first and its arguments next.
fn call_row(
    alloc: Global,
    channel: &mut Channel,
    word: &str,
    words: &str,
) -> Result<String, Fault> {
    match word {
        "new" => {
            *channel = fresh(alloc, words)?;
            told(alloc, &())
        }
        "pump" => told(alloc, &let_go(channel, long_of(words)?)),
        "tick" => told(alloc, &channel.tick(long_of(words)?)),
        "receive" | "ack" | "reset" => numbers_row(alloc, channel, word, shorts_of(words)?),
        _ => letters_row(alloc, channel, word, short_of(words)?),
    }
}

/// What the call of a row answers.
pub(crate) fn channel_row(
    alloc: Global,
    channel: &mut Channel,
    row: &str,
) -> Result<String, Fault> {
    match row.split_once(' ') {
        Some((word, words)) => call_row(alloc, channel, word, words),
        None => bare_row(alloc, channel, row),
    }
}
