//! One end of a recovery tunnel.

ghost use Rattle.std.specs.Prelude.{◌≡◌, ◌≤◌, None, length, IfOk, IfSome};
ghost use Rattle.control_message.specs.Pairs.{IsWrittenOpening};

use control_channel::{Class, Tick};
use control_message::{Failover, Message, Opening, Recovery, Suggested};
use recovery_tunnel::{Answer, Attempt, Progress};
use std::alloc::Global;
use wire_base::{Bytes, Cause, Letter, NoMemory};

/// An attempt or an answer.
#[derive(Drop)]
pub(crate) enum End {
    Attempting(Attempt),
    Answering(Answer),
}

fn bytes_of(alloc: Global, challenge: Option<[u8; 16]>) -> Result<Option<Bytes>, NoMemory>
    ensures { IfOk result (λ bytes. IfSome bytes (λ v. length v ≤ 1017)) }
{
    match challenge {
        None => Ok(None),
        Some(challenge) => Ok(Some(Bytes::from_slice(alloc, &challenge)?)),
    }
}

/// What an end says of itself.
fn opening(
    alloc: Global,
    name: &[u8; 4],
    challenge: Option<[u8; 16]>,
    response: Option<[u8; 16]>,
) -> Result<Opening, NoMemory>
    ensures written { IfOk result IsWrittenOpening }
    ensures response { IfOk result (λ o. o.response ≡ response) }
    ensures recovery { IfOk result (λ o. o.recovery ≡ None) }
    ensures suggested { IfOk result (λ o. o.suggested ≡ None) }
{
    Ok(Opening {
        version: 0x0100,
        framing: 3,
        name: Bytes::from_slice(alloc, name)?,
        tunnel: 1,
        window: 8,
        failover: Some(Failover {
            flags: 3,
            time: 30_000,
        }),
        challenge: bytes_of(alloc, challenge)?,
        response,
        recovery: None,
        suggested: None,
        attempt: None,
    })
}

/// An attempt with the tunnel id 2 and the draw number 7 at the tunnel that is 1 here and 5 there; it begins at 1,000
/// milliseconds.
pub(crate) fn attempt(alloc: Global, challenge: Option<[u8; 16]>) -> Result<End, NoMemory> {
    let opening = opening(alloc, b"lac1", challenge, None)?;
    let main = Recovery {
        sender: 1,
        receiver: 5,
    };
    let attempt = Attempt::start(alloc, 2, main, 7, opening, 1000)?;
    Ok(End::Attempting(attempt))
}

/// An answer to it with the tunnel id 9 and the draw number 12, which suggests Ns 3 and Nr 4; it begins at 1,000 milliseconds.
pub(crate) fn answer(
    alloc: Global,
    challenge: Option<[u8; 16]>,
    response: Option<[u8; 16]>,
) -> Result<End, NoMemory> {
    let opening = opening(alloc, b"lns2", challenge, response)?;
    let suggested = Suggested { ns: 3, nr: 4 };
    let answer = Answer::start(alloc, 9, 2, suggested, opening, 8, 12, 1000)?;
    Ok(End::Answering(answer))
}

fn sent(
    alloc: Global,
    numbers: (u16, u16),
    letter: &Letter,
) -> Result<Option<(u16, u16, String)>, NoMemory> {
    let digits = hex::encode(alloc, letter.avps.as_slice())?;
    Ok(Some((numbers.0, numbers.1, digits)))
}

impl End {
    pub(crate) fn receive(&mut self, ns: u16, nr: u16, empty: bool, now: u64) -> Option<Class> {
        match self {
            End::Attempting(attempt) => attempt.receive(ns, nr, empty, now),
            End::Answering(answer) => answer.receive(ns, nr, empty, now),
        }
    }

    pub(crate) fn take(&mut self) {
        match self {
            End::Attempting(attempt) => attempt.take(),
            End::Answering(answer) => answer.take(),
        }
    }

    pub(crate) fn hear(
        &mut self,
        alloc: Global,
        message: &Message,
        secret: Option<&[u8]>,
        now: u64,
    ) -> Result<Progress, NoMemory> {
        match self {
            End::Attempting(attempt) => attempt.on_message(alloc, message, secret, now),
            End::Answering(answer) => answer.on_message(alloc, message, secret, now),
        }
    }

    pub(crate) fn fault(&mut self, alloc: Global, cause: Cause) -> Result<Progress, NoMemory> {
        match self {
            End::Attempting(attempt) => attempt.on_fault(alloc, cause),
            End::Answering(answer) => answer.on_fault(alloc, cause),
        }
    }

    /// What the window lets go: Ns, Nr and the pairs in hex digits.
    pub(crate) fn send(
        &mut self,
        alloc: Global,
        now: u64,
    ) -> Result<Option<(u16, u16, String)>, NoMemory> {
        match self {
            End::Attempting(attempt) => match attempt.pump(now) {
                None => Ok(None),
                Some(number) => sent(alloc, attempt.wire(number), attempt.letter(number)),
            },
            End::Answering(answer) => match answer.pump(now) {
                None => Ok(None),
                Some(number) => sent(alloc, answer.wire(number), answer.letter(number)),
            },
        }
    }

    /// What is due on the channel, and then what the time tells.
    pub(crate) fn tick(&mut self, now: u64) -> (Tick, Progress) {
        match self {
            End::Attempting(attempt) => (attempt.tick(now), attempt.on_tick(now)),
            End::Answering(answer) => (answer.tick(now), answer.on_tick(now)),
        }
    }

    pub(crate) fn over(&self, now: u64) -> bool {
        match self {
            End::Attempting(attempt) => attempt.over(now),
            End::Answering(answer) => answer.over(now),
        }
    }

    /// Its tunnel id, the other end's, and its draw number.
    pub(crate) fn ids(&self) -> (u16, u16, u32) {
        match self {
            End::Attempting(attempt) => (attempt.local(), attempt.remote(), attempt.draw()),
            End::Answering(answer) => (answer.local(), answer.remote(), answer.draw()),
        }
    }

    /// The numbers that it suggests.
    pub(crate) fn suggested(&self) -> Option<Suggested> {
        match self {
            End::Attempting(_) => None,
            End::Answering(answer) => Some(answer.suggested()),
        }
    }

    /// Ns and Nr of an acknowledgement without a message.
    pub(crate) fn wire(&self) -> (u16, u16) {
        match self {
            End::Attempting(attempt) => attempt.wire(attempt.next_unsent()),
            End::Answering(answer) => answer.wire(answer.next_unsent()),
        }
    }
}
