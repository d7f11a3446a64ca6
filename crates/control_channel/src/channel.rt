//! The channel.

ghost use Rattle.std.specs.Prelude.{◌≡◌, ◌<◌, ◌≤◌, ◌↔◌, ℕ, length, IfOk, OnOk, OnErr, IsOk, IfSome};
ghost use Rattle.send_window.specs.Window.{next_given, next_unsent, Holds, HoldsRepeated};
ghost use Rattle.send_window.specs.Outbox.{letter_at};
ghost use Rattle.recv_window.specs.Window.{on_wire};
ghost use Rattle.control_channel.specs.Parts.{numbers_of};
ghost use Rattle.control_channel.specs.Channel.{opened_at, reserved, sent_into, received, class_told, taken_by, next_to_go, let_go_at, answer_to_tick, ticked_at, nr_of, frozen_so, reset_at, learnt_by};

use crate::numbers::ChannelNumbers;
use recv_window::{Class, Inbox};
use send_window::{LIMIT, Letters, PutError, SendWindow, Tick};
use std::alloc::Global;
use std::marker::Model;
use wire_base::{Letter, NoMemory};

/// One end of a control channel. The numbers of its letters, and of those of the other end, count on without end, modulo
/// 2^64; on the wire they stand modulo 65536. Moments are in milliseconds; where a given one is below a kept one, no time
/// has passed.
#[derive(Drop)]
pub struct Channel {
    letters: Letters,
    numbers: ChannelNumbers,
}

impl Model for Channel {
    ghost use Rattle.std.specs.Prelude.{◌≡◌, length};
    ghost use Rattle.control_channel.specs.Channel.{Channel as Known};
    ghost use Rattle.control_channel.specs.Parts.{joined};

    ghost Value = { Known };

    ghost view = { λ c. joined c.numbers c.letters };

    ghost invariant = { λ c. length c.letters.letters ≡ c.numbers.window.queued };
}

impl Channel {
    /// A channel over which nothing was sent: the first letter given has the number `send_from`, and `expect` is expected
    /// of the other end, whose receive window has `window` letters. It takes no memory.
    pub fn new(alloc: Global, send_from: u16, expect: u16, window: u16) -> Channel
        requires { 0 < window }
        ensures { result ≡ opened_at send_from expect window }
    {
        Channel {
            letters: Letters::new(alloc),
            numbers: ChannelNumbers::new(send_from, expect, window),
        }
    }

    /// Makes room for so many letters at least: where `send` takes one of them, it takes no memory.
    pub fn reserve(&mut self, count: usize) -> Result<(), NoMemory>
        ensures ok { OnOk result (self.new ≡ reserved self.old count) }
        ensures err { OnErr result (self.new ≡ self.old) }
        ensures there { count ≤ self.old.outbox.spare → IsOk result }
    {
        self.letters.reserve(count)
    }

    /// Gives a letter to the channel; it takes the next number. `pump` tells when it goes out. Where it isn't taken, the
    /// channel is as before.
    pub fn send(&mut self, letter: Letter) -> Result<(), PutError>
        ensures ok { OnOk result (self.new ≡ sent_into self.old letter) }
        ensures err { OnErr result (self.new ≡ self.old) }
        ensures full { (result ≡ Err (PutError.QueueFull 8192)) ↔ (8192 ≤ self.old.outbox.window.queued) }
        ensures room { 0 < self.old.outbox.spare → self.old.outbox.window.queued < 8192 → IsOk result }
        ensures limit { (n : ℕ) → result ≡ Err (PutError.QueueFull n) → n ≡ 8192 }
    {
        if self.numbers.is_full() {
            return Err(PutError::QueueFull { limit: LIMIT });
        }
        if self.letters.reserve(1).is_err() {
            return Err(PutError::NoMemory);
        }
        self.letters.put(letter);
        self.numbers.put();
        Ok(())
    }

    /// A message of the other end: its Nr acknowledges letters, which go. Then its Ns tells what it is; None where it is
    /// `empty`, an acknowledgement without a message. It isn't taken yet: `take` does that. A frozen channel answers so too.
    pub fn receive(&mut self, ns: u16, nr: u16, empty: bool, now: u64) -> Option<Class>
        ensures class { result ≡ class_told self.old ns empty }
        ensures value { self.new ≡ received self.old nr now }
    {
        let count = self.numbers.ack(nr, now);
        self.letters.drop_first(count);
        self.numbers.classify(ns, empty)
    }

    /// Counts the message that was expected as taken.
    pub fn take(&mut self)
        ensures { self.new ≡ taken_by self.old }
    {
        self.numbers.take();
    }

    /// The number of the next letter that the window lets go, which is outstanding from then on; None where nothing is
    /// unsent, the window is filled, or the channel is frozen.
    pub fn pump(&mut self, now: u64) -> Option<u64>
        ensures number { result ≡ next_to_go self.old }
        ensures value { self.new ≡ let_go_at self.old now }
        ensures there { IfSome result (λ n. Holds self.new.outbox.window n) }
    {
        self.numbers.pump(now)
    }

    /// What is due at a moment: nothing, one repetition, or the failure of the channel. A letter is repeated 1, 2, 4, 8
    /// and 8 seconds after the last time, and the channel has failed 8 seconds later. Nothing is due where it is frozen.
    pub fn tick(&mut self, now: u64) -> Tick
        ensures answer { result ≡ answer_to_tick self.old now }
        ensures value { self.new ≡ ticked_at self.old now }
        ensures there { HoldsRepeated self.new.outbox.window result }
    {
        self.numbers.tick(now)
    }

    /// The numbers without the letters: a copy, on which a step can be planned.
    pub fn numbers(&self) -> ChannelNumbers
        ensures value { result ≡ numbers_of self.now }
        ensures same { length self.now.outbox.letters ≡ self.now.outbox.window.queued }
    {
        self.numbers
    }

    /// The numbers of the letters alone, with the window and the timer: a copy, on which a step can be tried out. It knows
    /// nothing of `freeze`.
    pub fn window(&self) -> SendWindow
        ensures value { result ≡ self.now.outbox.window }
        ensures same { length self.now.outbox.letters ≡ self.now.outbox.window.queued }
    {
        self.numbers.window
    }

    /// The number that is expected of the other end: a copy, on which a step can be tried out.
    pub fn inbox(&self) -> Inbox
        ensures { result ≡ self.now.inbox }
    {
        self.numbers.inbox
    }

    /// The letter with a number that is unacknowledged or unsent.
    pub fn letter(&self, number: u64) -> &Letter
        requires { Holds self.now.outbox.window number }
        ensures { letter_at self.now.outbox number ≡ Some result.now }
    {
        let Some(letter) = self.letters.get(self.numbers.place(number)) else {
            unreachable!()
        };
        letter
    }

    /// Ns and Nr of a message with a number, as they stand on the wire. An acknowledgement without a message has the number
    /// `next_unsent`.
    pub fn wire(&self, number: u64) -> (u16, u16)
        ensures ns { result.0 ≡ on_wire number }
        ensures nr { result.1 ≡ nr_of self.now }
    {
        self.numbers.wire(number)
    }

    /// Nothing is let go and nothing is due from now on, until the channel is reset.
    pub fn freeze(&mut self)
        ensures { self.new ≡ frozen_so self.old }
    {
        self.numbers.freeze();
    }

    /// Forgets all letters: the next one given has the number `send_from`, and `expect` is expected of the other end. The
    /// peer's window and the room stay, and the channel isn't frozen any more.
    pub fn reset_to(&mut self, send_from: u16, expect: u16)
        ensures { self.new ≡ reset_at self.old send_from expect }
    {
        self.letters.clear();
        self.numbers.reset_to(send_from, expect);
    }

    /// Sets the peer's window, in letters, and the threshold to it; a congestion window above it is lowered to it.
    pub fn learn_window(&mut self, window: u16)
        requires { 0 < window }
        ensures { self.new ≡ learnt_by self.old window }
    {
        self.numbers.learn_window(window);
    }

    /// The number of the next letter to be given.
    pub fn sent_count(&self) -> u64
        ensures { result ≡ next_given self.now.outbox.window }
    {
        self.numbers.sent_count()
    }

    /// The number that is expected next of the other end: those below it were taken.
    pub fn taken_count(&self) -> u64
        ensures { result ≡ self.now.inbox.taken }
    {
        self.numbers.taken_count()
    }

    /// The number of the first letter that isn't acknowledged, or of the next one to be given.
    pub fn acked_count(&self) -> u64
        ensures { result ≡ self.now.outbox.window.acked }
    {
        self.numbers.acked_count()
    }

    /// The number of the first letter that was never on the wire, or of the next one to be given.
    pub fn next_unsent(&self) -> u64
        ensures { result ≡ next_unsent self.now.outbox.window }
    {
        self.numbers.next_unsent()
    }

    /// How many letters are unacknowledged or unsent; at most 8,192.
    pub fn queued(&self) -> usize
        ensures value { result ≡ length self.now.outbox.letters }
        ensures few { result ≤ 8192 }
    {
        self.numbers.queued()
    }

    /// Whether the channel is frozen.
    pub fn is_frozen(&self) -> bool
        ensures { result ≡ self.now.frozen }
    {
        self.numbers.is_frozen()
    }

    /// A copy, with as much room: a step is planned on it, and where memory is wanting, nothing has changed. It takes a time in
    /// proportion to the bytes of the letters.
    pub fn copy(&self, alloc: Global) -> Result<Channel, NoMemory>
        ensures { IfOk result (λ copy. copy ≡ self.now) }
    {
        let letters = self.letters.copy(alloc)?;
        Ok(Channel {
            letters,
            numbers: self.numbers,
        })
    }
}
