//! The control connection of a recovery tunnel.

ghost use Rattle.std.specs.Prelude.{◌≡◌, ◌<◌, ◌≤◌, IfOk, IfSome, OnOk, OnErr, IsTrue};
ghost use Rattle.send_window.specs.Window.{next_unsent, Holds, HoldsRepeated};
ghost use Rattle.send_window.specs.Outbox.{letter_at};
ghost use Rattle.recv_window.specs.Window.{on_wire};
ghost use Rattle.control_channel.specs.Channel.{sent_into, received, class_told, taken_by, next_to_go, let_go_at, answer_to_tick, ticked_at, nr_of};
ghost use Rattle.control_message.specs.Pairs.{IsWritten};
ghost use Rattle.recovery_tunnel.specs.Connections.{letter_of, learns_window, result_code, error_code, refuses, told_by_refusal, is_waiting, is_over, is_failure, told_by_time, confirms};

use crate::progress::Progress;
use control_channel::{Channel, Class, PutError, Tick};
use control_message::{Message, Opening, hides_nothing_without_a_vector, write_message};
use std::alloc::Global;
use std::marker::Model;
use wire_base::{Bytes, Cause, Letter, NoMemory};

/// How long it may take until the tunnel is reset, in milliseconds.
const PATIENCE: u64 = 60_000;

/// One end of a recovery tunnel. Moments are in milliseconds; where a given one is below a kept one, no time has passed.
#[derive(Drop)]
pub(crate) struct ControlConnection {
    pub(crate) local: u16,
    pub(crate) remote: u16,
    pub(crate) draw: u32,
    pub(crate) challenge: Option<Bytes>,
    pub(crate) channel: Channel,
    pub(crate) since: u64,
    pub(crate) reset: Option<u64>,
    pub(crate) closed: bool,
}

impl Model for ControlConnection {
    ghost use Rattle.std.specs.Prelude.{◌≤◌};
    ghost use Rattle.recovery_tunnel.specs.Connections.{ControlConnection as Known, most_letters};

    ghost Value = { Known };

    ghost view = { λ c. record { local = c.local; remote = c.remote; draw = c.draw; challenge = c.challenge; channel = c.channel; since = c.since; reset = c.reset; closed = c.closed } };

    ghost invariant = { λ c. c.channel.outbox.window.queued ≤ most_letters c.reset c.closed };
}

/// A message of the tunnel itself as a letter.
pub(crate) fn write_letter(alloc: Global, message: &Message) -> Result<Letter, NoMemory>
    requires { IsWritten message.now }
    ensures { IfOk result (λ letter. letter ≡ letter_of message.now) }
{
    hides_nothing_without_a_vector();
    let mut avps = Bytes::new(alloc);
    write_message(&mut avps, message, None, None)?;
    Ok(Letter { session: 0, avps })
}

/// What is asked of the other end, copied.
pub(crate) fn copy_challenge(
    alloc: Global,
    challenge: &Option<Bytes>,
) -> Result<Option<Bytes>, NoMemory>
    ensures { IfOk result (λ copy. copy ≡ challenge.now) }
{
    match challenge {
        None => Ok(None),
        Some(challenge) => Ok(Some(Bytes::from_slice(alloc, challenge.as_slice())?)),
    }
}

/// Gives a letter to a channel that isn't full. Where memory is wanting, the channel is as before.
pub(crate) fn give(channel: &mut Channel, letter: Letter) -> Result<(), NoMemory>
    requires { channel.old.outbox.window.queued < 8192 }
    ensures ok { OnOk result (channel.new ≡ sent_into channel.old letter) }
    ensures err { OnErr result (channel.new ≡ channel.old) }
{
    match channel.send(letter) {
        Ok(()) => Ok(()),
        Err(PutError::NoMemory) => Err(NoMemory),
        Err(PutError::QueueFull { .. }) => unreachable!(),
    }
}

/// Tells a channel the other end's window, in letters; 0 is none.
pub(crate) fn learn_window(channel: &mut Channel, window: u16)
    ensures { channel.new ≡ learns_window window channel.old }
{
    if window != 0 {
        channel.learn_window(window);
    }
}

/// The result code of the StopCCN that tells a cause.
fn result_code(cause: Cause) -> u16
    ensures { result ≡ result_code cause }
{
    match cause {
        Cause::Version => 5,
        Cause::State => 7,
        Cause::Secret => 4,
        _ => 2,
    }
}

/// Its error code.
fn error_code(cause: Cause) -> Option<u16>
    ensures { result ≡ error_code cause }
{
    match cause {
        Cause::Version | Cause::State | Cause::Secret => None,
        Cause::Avp => Some(2),
        Cause::Mandatory => Some(8),
        _ => Some(3),
    }
}

/// Whether so many milliseconds have passed.
pub(crate) fn is_over(limit: u64, now: u64, kept: u64) -> bool
    ensures { result ≡ is_over limit now kept }
{
    now.saturating_sub(kept) >= limit
}

impl ControlConnection {
    /// Whether it has neither told to reset the tunnel nor been closed.
    pub(crate) fn is_waiting(&self) -> bool
        ensures { result ≡ is_waiting self.now }
    {
        self.reset.is_none() && !self.closed
    }

    /// Refuses what came: a StopCCN tells the other end why, and closes this one. A closed one passes over what comes.
    #[tactic(auto, unfolding(crate::specs::Connections::refuses))]
    pub(crate) fn refuse(&mut self, alloc: Global, cause: Cause) -> Result<Progress, NoMemory>
        ensures told { IfOk result (λ progress. progress ≡ told_by_refusal cause self.old) }
        ensures ok { OnOk result (self.new ≡ refuses cause self.old) }
        ensures err { OnErr result (self.new ≡ self.old) }
    {
        if self.closed {
            return Ok(Progress::Waiting);
        }
        let stop = Message::StopCcn {
            tunnel: self.local,
            result: result_code(cause),
            error: error_code(cause),
        };
        let letter = write_letter(alloc, &stop)?;
        give(&mut self.channel, letter)?;
        self.closed = true;
        Ok(Progress::Given { cause })
    }

    /// Confirms an SCCRP by an SCCCN with this response.
    pub(crate) fn confirm(
        &mut self,
        alloc: Global,
        reply: &Opening,
        response: Option<[u8; 16]>,
        now: u64,
    ) -> Result<(), NoMemory>
        requires { IsTrue (is_waiting self.old) }
        ensures ok { OnOk result (self.new ≡ confirms reply.now response now self.old) }
        ensures err { OnErr result (self.new ≡ self.old) }
    {
        let letter = write_letter(alloc, &Message::Scccn { response })?;
        give(&mut self.channel, letter)?;
        learn_window(&mut self.channel, reply.window);
        self.remote = reply.tunnel;
        self.reset = Some(now);
        Ok(())
    }

    /// A copy, with as much room in its channel.
    pub(crate) fn copy(&self, alloc: Global) -> Result<ControlConnection, NoMemory>
        ensures { IfOk result (λ copy. copy ≡ self.now) }
    {
        let challenge = copy_challenge(alloc, &self.challenge)?;
        let channel = self.channel.copy(alloc)?;
        Ok(ControlConnection {
            local: self.local,
            remote: self.remote,
            draw: self.draw,
            challenge,
            channel,
            since: self.since,
            reset: self.reset,
            closed: self.closed,
        })
    }

    /// Whether the channel has failed.
    fn has_failed(&self, now: u64) -> bool
        ensures { result ≡ is_failure (answer_to_tick self.now.channel now) }
    {
        match self.channel.numbers().tick(now) {
            Tick::Failed { .. } => true,
            Tick::Again { .. } | Tick::Quiet => false,
        }
    }

    /// What the time tells.
    pub(crate) fn on_tick(&self, now: u64) -> Progress
        ensures { result ≡ told_by_time now self.now }
    {
        let late = self.reset.is_none() && is_over(PATIENCE, now, self.since);
        if self.has_failed(now) || late {
            Progress::Cleared
        } else {
            Progress::Waiting
        }
    }

    /// A message of the other end, as `Channel::receive`.
    pub(crate) fn receive(&mut self, ns: u16, nr: u16, empty: bool, now: u64) -> Option<Class>
        ensures class { result ≡ class_told self.old.channel ns empty }
        ensures value { self.new ≡ record self.old { channel = received self.old.channel nr now } }
    {
        self.channel.receive(ns, nr, empty, now)
    }

    /// Counts the message that was expected as taken.
    pub(crate) fn take(&mut self)
        ensures { self.new ≡ record self.old { channel = taken_by self.old.channel } }
    {
        self.channel.take();
    }

    /// The number of the next letter that the window lets go, as `Channel::pump`.
    pub(crate) fn pump(&mut self, now: u64) -> Option<u64>
        ensures number { result ≡ next_to_go self.old.channel }
        ensures value { self.new ≡ record self.old { channel = let_go_at self.old.channel now } }
        ensures there { IfSome result (λ n. Holds self.new.channel.outbox.window n) }
    {
        self.channel.pump(now)
    }

    /// What is due at a moment, as `Channel::tick`.
    pub(crate) fn tick(&mut self, now: u64) -> Tick
        ensures answer { result ≡ answer_to_tick self.old.channel now }
        ensures value { self.new ≡ record self.old { channel = ticked_at self.old.channel now } }
        ensures there { HoldsRepeated self.new.channel.outbox.window result }
    {
        self.channel.tick(now)
    }
}
