//! Either end of a recovery tunnel, as a tunnel has the one that it is.

ghost use Rattle.std.specs.Prelude.{◌≡◌, Some, IfOk, IfSome, OnOk, OnErr, option_copied};
ghost use Rattle.send_window.specs.Window.{next_unsent, Holds, HoldsRepeated};
ghost use Rattle.send_window.specs.Outbox.{letter_at};
ghost use Rattle.recv_window.specs.Window.{on_wire};
ghost use Rattle.control_channel.specs.Numbers.{due_of};
ghost use Rattle.control_channel.specs.Parts.{numbers_of};
ghost use Rattle.control_channel.specs.Channel.{class_told, next_to_go, answer_to_tick, nr_of};
ghost use Rattle.recovery_tunnel.specs.Connections.{told_by_refusal, told_by_time};
ghost use Rattle.recovery_tunnel.specs.Either.{connection_of, channel_of, is_reset, reads_nr, takes_letter, lets_go, ticked, told_by, after_message, after_refusal, is_over_by};

use crate::answer::Answer;
use crate::attempt::Attempt;
use crate::connection::ControlConnection;
use crate::progress::Progress;
use control_channel::{Class, Tick};
use control_message::Message;
use std::alloc::Global;
use wire_base::{Cause, Letter, NoMemory};

/// The end of a recovery tunnel that a tunnel has while it is recovered, and for a while behind that (RFC 4951 section 4.3).
#[derive(Drop)]
pub enum Recovering {
    /// Its end attempts the recovery.
    ByAttempt(Attempt),
    /// Its end answers the attempt of the other one.
    ByAnswer(Answer),
}

impl Recovering {
    fn connection(&self) -> &ControlConnection
        ensures { result.now ≡ connection_of self.now }
    {
        match self {
            Recovering::ByAttempt(attempt) => attempt.connection(),
            Recovering::ByAnswer(answer) => answer.connection(),
        }
    }

    /// A copy, with as much room in its channel: a step is planned on it, and where memory is wanting, nothing has changed.
    pub fn copy(&self, alloc: Global) -> Result<Recovering, NoMemory>
        ensures { IfOk result (λ copy. copy ≡ self.now) }
    {
        match self {
            Recovering::ByAttempt(attempt) => Ok(Recovering::ByAttempt(attempt.copy(alloc)?)),
            Recovering::ByAnswer(answer) => Ok(Recovering::ByAnswer(answer.copy(alloc)?)),
        }
    }

    /// The tunnel id that this end assigned.
    pub fn local(&self) -> u16
        ensures { result ≡ (connection_of self.now).local }
    {
        self.connection().local
    }

    /// The tunnel id that the other end assigned, 0 while it isn't known.
    pub fn remote(&self) -> u16
        ensures { result ≡ (connection_of self.now).remote }
    {
        self.connection().remote
    }

    /// The number that this end drew.
    pub fn draw(&self) -> u32
        ensures { result ≡ (connection_of self.now).draw }
    {
        self.connection().draw
    }

    /// Whether it told to reset its tunnel.
    pub fn is_reset(&self) -> bool
        ensures { result ≡ is_reset self.now }
    {
        self.connection().reset.is_some()
    }

    /// The moment at which it began, in milliseconds.
    pub fn since(&self) -> u64
        ensures { result ≡ (connection_of self.now).since }
    {
        self.connection().since
    }

    /// The moment at which it told to reset its tunnel, in milliseconds, where it has.
    pub fn reset_at(&self) -> Option<u64>
        ensures { result ≡ (connection_of self.now).reset }
    {
        self.connection().reset
    }

    /// The moment from which on its channel repeats a letter or has failed, in milliseconds; None where nothing is outstanding.
    pub fn repetition_due(&self) -> Option<u64>
        ensures { result ≡ due_of (numbers_of (connection_of self.now).channel) }
    {
        self.connection().channel.numbers().due()
    }

    /// How many letters are on the wire that aren't acknowledged.
    pub fn outstanding(&self) -> usize
        ensures { result ≡ (connection_of self.now).channel.outbox.window.outstanding }
    {
        self.connection().channel.numbers().outstanding()
    }

    /// What `tick` would answer at a moment.
    pub fn answer_to_tick(&self, now: u64) -> Tick
        ensures answer { result ≡ answer_to_tick (channel_of self.now) now }
        ensures there { HoldsRepeated (channel_of self.now).outbox.window result }
    {
        let mut numbers = self.connection().channel.numbers();
        numbers.tick(now)
    }

    /// A message of the other end, as `Channel::receive`. Where it is the next one, `on_message` or `on_fault` hears it, and `take`
    /// counts it as taken.
    pub fn receive(&mut self, ns: u16, nr: u16, empty: bool, now: u64) -> Option<Class>
        ensures class { result ≡ class_told (channel_of self.old) ns empty }
        ensures value { self.new ≡ reads_nr nr now self.old }
    {
        match self {
            Recovering::ByAttempt(attempt) => attempt.receive(ns, nr, empty, now),
            Recovering::ByAnswer(answer) => answer.receive(ns, nr, empty, now),
        }
    }

    /// Counts the message that was expected as taken.
    pub fn take(&mut self)
        ensures { self.new ≡ takes_letter self.old }
    {
        match self {
            Recovering::ByAttempt(attempt) => attempt.take(),
            Recovering::ByAnswer(answer) => answer.take(),
        }
    }

    /// The number of the next letter that the window lets go, which is outstanding from then on, as `Channel::pump`.
    pub fn pump(&mut self, now: u64) -> Option<u64>
        ensures number { result ≡ next_to_go (channel_of self.old) }
        ensures value { self.new ≡ lets_go now self.old }
        ensures there { IfSome result (λ n. Holds (channel_of self.new).outbox.window n) }
    {
        match self {
            Recovering::ByAttempt(attempt) => attempt.pump(now),
            Recovering::ByAnswer(answer) => answer.pump(now),
        }
    }

    /// What is due at a moment on the channel, as `Channel::tick`.
    pub fn tick(&mut self, now: u64) -> Tick
        ensures answer { result ≡ answer_to_tick (channel_of self.old) now }
        ensures value { self.new ≡ ticked now self.old }
        ensures there { HoldsRepeated (channel_of self.new).outbox.window result }
    {
        match self {
            Recovering::ByAttempt(attempt) => attempt.tick(now),
            Recovering::ByAnswer(answer) => answer.tick(now),
        }
    }

    /// The letter with a number that is unacknowledged or unsent.
    pub fn letter(&self, number: u64) -> &Letter
        requires { Holds (channel_of self.now).outbox.window number }
        ensures { letter_at (channel_of self.now).outbox number ≡ Some result.now }
    {
        self.connection().channel.letter(number)
    }

    /// Ns and Nr of a message with a number, as they stand on the wire.
    pub fn wire(&self, number: u64) -> (u16, u16)
        ensures ns { result.0 ≡ on_wire number }
        ensures nr { result.1 ≡ nr_of (channel_of self.now) }
    {
        self.connection().channel.wire(number)
    }

    /// The number of an acknowledgement without a message.
    pub fn next_unsent(&self) -> u64
        ensures { result ≡ next_unsent (channel_of self.now).outbox.window }
    {
        self.connection().channel.next_unsent()
    }

    /// Hears the next message, with the secret of this end, where it has one. Where memory is wanting, it is as before, and the message
    /// isn't heard.
    pub fn on_message(
        &mut self,
        alloc: Global,
        message: &Message,
        secret: Option<&[u8]>,
        now: u64,
    ) -> Result<Progress, NoMemory>
        ensures told { IfOk result (λ progress. progress ≡ told_by (option_copied secret.entry) message.now self.old) }
        ensures ok { OnOk result (self.new ≡ after_message (option_copied secret.entry) now message.now self.old) }
        ensures err { OnErr result (self.new ≡ self.old) }
    {
        match self {
            Recovering::ByAttempt(attempt) => attempt.on_message(alloc, message, secret, now),
            Recovering::ByAnswer(answer) => answer.on_message(alloc, message, secret, now),
        }
    }

    /// Refuses the next message, which has a fault, as `Attempt::on_fault`. Where memory is wanting, it is as before.
    pub fn on_fault(&mut self, alloc: Global, cause: Cause) -> Result<Progress, NoMemory>
        ensures told { IfOk result (λ progress. progress ≡ told_by_refusal cause (connection_of self.old)) }
        ensures ok { OnOk result (self.new ≡ after_refusal cause self.old) }
        ensures err { OnErr result (self.new ≡ self.old) }
    {
        match self {
            Recovering::ByAttempt(attempt) => attempt.on_fault(alloc, cause),
            Recovering::ByAnswer(answer) => answer.on_fault(alloc, cause),
        }
    }

    /// What the time tells, after `tick` of the same moment: the tunnel is to be cleared where the channel has failed, or where 60
    /// seconds have passed and it wasn't told to be reset.
    pub fn on_tick(&self, now: u64) -> Progress
        ensures { result ≡ told_by_time now (connection_of self.now) }
    {
        self.connection().on_tick(now)
    }

    /// Whether it has ended by itself: the SCCCN of an attempt is acknowledged, or 31 seconds have passed since an answer told to reset
    /// the tunnel.
    pub fn over(&self, now: u64) -> bool
        ensures { result ≡ is_over_by now self.now }
    {
        match self {
            Recovering::ByAttempt(attempt) => attempt.over(now),
            Recovering::ByAnswer(answer) => answer.over(now),
        }
    }
}
