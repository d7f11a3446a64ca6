//! The letters of a channel that are unacknowledged or unsent.

ghost use Rattle.std.specs.Prelude.{◌≡◌, ◌<◌, ◌≤◌, ◌↔◌, ◌+◌, ◌%◌, ◌^◌, ℕ, length, IfOk, OnOk, OnErr, IsOk, IfSome};
ghost use Rattle.send_window.specs.Window.{count_acked, next_to_go, answer_to_tick, next_unsent, next_given, Holds, HoldsRepeated};
ghost use Rattle.send_window.specs.Outbox.{emptied, reserved, put_into, acked_at, let_go_at, ticked_at, reset_at, learnt_by, letter_at};

use crate::letters::Letters;
use crate::window::{LIMIT, SendWindow, Tick};
use std::alloc::Global;
use std::marker::Model;
use wire_base::{Letter, NoMemory};

/// Why a letter isn't taken.
#[derive(Clone, Copy, Debug)]
pub enum PutError {
    /// As many letters as a channel may hold are unacknowledged or unsent.
    QueueFull { limit: usize },
    /// Memory was wanting.
    NoMemory,
}

/// The letters of a channel that are unacknowledged or unsent, with their numbers, the window and the timer.
#[derive(Drop)]
pub struct Outbox {
    letters: Letters,
    window: SendWindow,
}

impl Model for Outbox {
    ghost use Rattle.std.specs.Prelude.{◌≡◌, length};
    ghost use Rattle.send_window.specs.Kept.{Kept};

    ghost Value = { Kept };

    ghost view = { λ o. record { letters = o.letters.letters; window = o.window; spare = o.letters.spare } };

    ghost invariant = { λ o. length o.letters.letters ≡ o.window.queued };
}

impl Outbox {
    /// No letters: the first one given has the number `first`. The window is that of the peer, in letters. It takes no
    /// memory.
    pub fn new(alloc: Global, first: u16, window: u16) -> Outbox
        requires { 0 < window }
        ensures { result ≡ emptied first window }
    {
        Outbox {
            letters: Letters::new(alloc),
            window: SendWindow::new(first, window),
        }
    }

    /// Makes room for so many letters at least: where `put` takes one of them, it takes no memory.
    pub fn reserve(&mut self, count: usize) -> Result<(), NoMemory>
        ensures ok { OnOk result (self.new ≡ reserved self.old count) }
        ensures err { OnErr result (self.new ≡ self.old) }
        ensures there { count ≤ self.old.spare → IsOk result }
    {
        self.letters.reserve(count)
    }

    /// Gives a letter to the channel; it takes the next number. Where it isn't taken, the outbox is as before.
    pub fn put(&mut self, letter: Letter) -> Result<(), PutError>
        ensures ok { OnOk result (self.new ≡ put_into self.old letter) }
        ensures err { OnErr result (self.new ≡ self.old) }
        ensures full { (result ≡ Err (PutError.QueueFull 8192)) ↔ (8192 ≤ self.old.window.queued) }
        ensures room { 0 < self.old.spare → self.old.window.queued < 8192 → IsOk result }
        ensures limit { (n : ℕ) → result ≡ Err (PutError.QueueFull n) → n ≡ 8192 }
    {
        if self.window.is_full() {
            return Err(PutError::QueueFull { limit: LIMIT });
        }
        if self.letters.reserve(1).is_err() {
            return Err(PutError::NoMemory);
        }
        self.letters.put(letter);
        self.window.put();
        Ok(())
    }

    /// Takes the Nr of a message of the peer, and says how many letters it newly acknowledges. Their memory goes
    /// back, and the list's own where it is empty and no room was made.
    pub fn ack(&mut self, nr: u16, now: u64) -> u64
        ensures count { result ≡ count_acked self.old.window nr }
        ensures value { self.new ≡ acked_at self.old nr now }
    {
        let count = self.window.ack(nr, now);
        self.letters.drop_first(count as usize);
        count
    }

    /// The number of the next letter that the window lets go, which is outstanding from then on.
    pub fn pump(&mut self, now: u64) -> Option<u64>
        ensures number { result ≡ next_to_go self.old.window }
        ensures value { self.new ≡ let_go_at self.old now }
        ensures there { IfSome result (λ n. Holds self.new.window n) }
    {
        self.window.pump(now)
    }

    /// What is due at a moment: nothing, one repetition, or the failure of the channel. A letter is repeated 1, 2, 4, 8
    /// and 8 seconds after the last time, and the channel has failed 8 seconds later.
    pub fn tick(&mut self, now: u64) -> Tick
        ensures answer { result ≡ answer_to_tick self.old.window now }
        ensures value { self.new ≡ ticked_at self.old now }
        ensures there { HoldsRepeated self.new.window result }
    {
        self.window.tick(now)
    }

    /// Empties the outbox: the numbers go on from `first`, and the peer's window stays, and so does the room.
    pub fn reset(&mut self, first: u16)
        ensures { self.new ≡ reset_at self.old first }
    {
        self.window.reset(first);
        self.letters.clear();
    }

    /// Sets the peer's window, in letters, and the threshold to it; a congestion window above it is lowered to it.
    pub fn learn_window(&mut self, window: u16)
        requires { 0 < window }
        ensures { self.new ≡ learnt_by self.old window }
    {
        self.window.learn_window(window);
    }

    /// The numbers alone, with the window and the timer.
    pub fn window(&self) -> SendWindow
        ensures value { result ≡ self.now.window }
        ensures same { length self.now.letters ≡ self.now.window.queued }
    {
        self.window
    }

    /// The letter with a number that is unacknowledged.
    pub fn letter(&self, number: u64) -> &Letter
        requires { Holds self.now.window number }
        ensures { letter_at self.now number ≡ Some result.now }
    {
        let Some(letter) = self.letters.get(self.window.place(number) as usize) else {
            unreachable!()
        };
        letter
    }

    /// The number of the next letter to be given.
    pub fn sent_count(&self) -> u64
        ensures { result ≡ next_given self.now.window }
    {
        self.window.sent_count()
    }

    /// The number of the first letter that isn't acknowledged, or of the next one to be given.
    pub fn acked_count(&self) -> u64
        ensures { result ≡ self.now.window.acked }
    {
        self.window.acked_count()
    }

    /// The number of the first letter that was never on the wire, or of the next one to be given. It is the Ns of an
    /// acknowledgement without a message.
    pub fn next_unsent(&self) -> u64
        ensures { result ≡ next_unsent self.now.window }
    {
        self.window.next_unsent()
    }

    /// How many letters are unacknowledged or unsent; at most 8,192.
    pub fn queued(&self) -> usize
        ensures value { result ≡ length self.now.letters }
        ensures few { result ≤ 8192 }
    {
        self.window.queued()
    }

    /// A copy, with as much room: a step is planned on it, and where memory is wanting, nothing has changed. It takes a time in
    /// proportion to the bytes of the letters.
    pub fn copy(&self, alloc: Global) -> Result<Outbox, NoMemory>
        ensures { IfOk result (λ copy. copy ≡ self.now) }
    {
        let letters = self.letters.copy(alloc)?;
        Ok(Outbox {
            letters,
            window: self.window,
        })
    }
}
