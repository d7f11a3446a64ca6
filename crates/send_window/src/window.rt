//! The numbers of a channel's letters, without the letters.

ghost use Rattle.std.specs.Prelude.{◌≡◌, ◌<◌, ◌≤◌, ◌↔◌, ◌-◌, nat_le, IsTrue, IfSome};
ghost use Rattle.send_window.specs.Window.{opened_at, one_more, acked_at, count_acked, let_go_at, next_to_go, ticked_at, answer_to_tick, learnt_by, next_unsent, next_given, place_of, wait_after, due_of, Holds, HoldsRepeated};

use crate::congestion::Congestion;
use std::marker::Model;

/// How many letters a channel may hold that are unacknowledged or unsent.
pub const LIMIT: usize = 8192;

/// How often a letter is repeated before the channel fails.
const REPETITIONS: u8 = 5;

/// What the timer asks for.
#[derive(Clone, Copy, Debug)]
pub enum Tick {
    /// Nothing is due.
    Quiet,
    /// The letter with this number, the oldest that is outstanding, is to be sent again, alone.
    Again { number: u64 },
    /// The letter with this number was repeated five times in vain: the channel has failed.
    Failed { first: u64 },
}

/// The numbers of a channel's letters, with the window and the timer. It is an `Outbox` without its letters, on a copy of
/// which a step can be tried out. Numbers count on without end, modulo 2^64; on the wire they stand modulo 65536. Moments
/// are in milliseconds; where a given one is below a kept one, no time has passed.
#[derive(Clone, Copy)]
pub struct SendWindow {
    acked: u64,
    queued: usize,
    outstanding: usize,
    congestion: Congestion,
    since: u64,
    repetitions: u8,
}

impl Model for SendWindow {
    ghost use Rattle.send_window.specs.Kept.{Window, IsBounded};

    ghost Value = { Window };

    ghost view = { λ w. record { acked = w.acked; queued = w.queued; outstanding = w.outstanding; congestion = w.congestion; since = w.since; repetitions = w.repetitions } };

    ghost inverse = { λ w. record { acked = w.acked; queued = w.queued; outstanding = w.outstanding; congestion = w.congestion; since = w.since; repetitions = w.repetitions } };

    ghost invariant = { λ w. IsBounded w.queued w.outstanding w.congestion w.repetitions };
}

impl SendWindow {
    /// No letters: the first one given has the number `first`. The window is that of the peer, in letters.
    pub fn new(first: u16, window: u16) -> SendWindow
        requires { 0 < window }
        ensures { result ≡ opened_at first window }
    {
        SendWindow {
            acked: u64::from(first),
            queued: 0,
            outstanding: 0,
            congestion: Congestion::open(window),
            since: 0,
            repetitions: 0,
        }
    }

    /// The window of the peer, in letters, as far as it is known.
    pub fn peer_window(&self) -> u16
        ensures { result ≡ self.now.congestion.peer_window }
    {
        self.congestion.peer_window
    }

    /// Whether as many letters as a channel may hold are unacknowledged or unsent.
    pub fn is_full(&self) -> bool
        ensures { result ≡ nat_le 8192 self.now.queued }
    {
        self.queued >= LIMIT
    }

    /// Counts a letter that is given to the channel; it takes the next number.
    pub fn put(&mut self)
        requires { self.old.queued < 8192 }
        ensures { self.new ≡ one_more self.old }
    {
        self.queued += 1;
    }

    /// Takes the Nr of a message of the peer, and says how many letters it newly acknowledges.
    pub fn ack(&mut self, nr: u16, now: u64) -> u64
        ensures count { result ≡ count_acked self.old nr }
        ensures value { self.new ≡ acked_at self.old nr now }
        ensures within { result ≤ self.old.queued }
        ensures left { self.new.queued ≡ self.old.queued - result }
    {
        let expected = (self.acked % 65536) as u16;
        let count = usize::from(nr.wrapping_sub(expected));
        if count == 0 || count > self.outstanding {
            return 0;
        }
        self.acked = self.acked.wrapping_add(count as u64);
        self.queued -= count;
        self.outstanding -= count;
        self.congestion = self.congestion.grow_by(count);
        self.since = now;
        self.repetitions = 0;
        count as u64
    }

    /// The number of the next letter that the window lets go, which is outstanding from then on.
    pub fn pump(&mut self, now: u64) -> Option<u64>
        ensures number { result ≡ next_to_go self.old }
        ensures value { self.new ≡ let_go_at self.old now }
        ensures there { IfSome result (λ n. Holds self.new n) }
    {
        if self.outstanding >= self.queued
            || self.outstanding >= usize::from(self.congestion.window)
        {
            return None;
        }
        if self.outstanding == 0 {
            self.since = now;
            self.repetitions = 0;
        }
        let number = self.next_unsent();
        self.outstanding += 1;
        Some(number)
    }

    /// What is due at a moment: nothing, one repetition, or the failure of the channel. A letter is repeated 1, 2, 4, 8
    /// and 8 seconds after the last time, and the channel has failed 8 seconds later.
    pub fn tick(&mut self, now: u64) -> Tick
        ensures answer { result ≡ answer_to_tick self.old now }
        ensures value { self.new ≡ ticked_at self.old now }
        ensures there { HoldsRepeated self.new result }
    {
        if self.outstanding == 0 || now.saturating_sub(self.since) < wait_after(self.repetitions) {
            return Tick::Quiet;
        }
        if self.repetitions >= REPETITIONS {
            return Tick::Failed { first: self.acked };
        }
        self.repetitions += 1;
        self.since = now;
        self.congestion = self.congestion.halve();
        Tick::Again { number: self.acked }
    }

    /// The moment from which on the timer asks for something, in milliseconds; None where nothing is outstanding.
    pub fn due(&self) -> Option<u64>
        ensures { result ≡ due_of self.now }
    {
        if self.outstanding == 0 {
            return None;
        }
        Some(self.since.saturating_add(wait_after(self.repetitions)))
    }

    /// Forgets all letters: the numbers go on from `first`, and the peer's window stays.
    pub fn reset(&mut self, first: u16)
        ensures { self.new ≡ opened_at first self.old.congestion.peer_window }
    {
        *self = SendWindow::new(first, self.congestion.peer_window);
    }

    /// Sets the peer's window, in letters, and the threshold to it; a congestion window above it is lowered to it.
    pub fn learn_window(&mut self, window: u16)
        requires { 0 < window }
        ensures { self.new ≡ learnt_by self.old window }
    {
        self.congestion = self.congestion.learn(window);
    }

    /// The number of the next letter to be given.
    pub fn sent_count(&self) -> u64
        ensures { result ≡ next_given self.now }
    {
        self.acked.wrapping_add(self.queued as u64)
    }

    /// The number of the first letter that isn't acknowledged, or of the next one to be given.
    pub fn acked_count(&self) -> u64
        ensures { result ≡ self.now.acked }
    {
        self.acked
    }

    /// The number of the first letter that was never on the wire, or of the next one to be given. It is the Ns of an
    /// acknowledgement without a message.
    pub fn next_unsent(&self) -> u64
        ensures { result ≡ next_unsent self.now }
    {
        self.acked.wrapping_add(self.outstanding as u64)
    }

    /// The place, from 0, of the letter with a number among those that are unacknowledged or unsent.
    pub fn place(&self, number: u64) -> u64
        ensures { result ≡ place_of self.now number }
    {
        number.wrapping_sub(self.acked)
    }

    /// Whether the letter with a number is unacknowledged or unsent.
    pub fn holds(&self, number: u64) -> bool
        ensures { IsTrue result ↔ Holds self.now number }
    {
        self.place(number) < self.queued as u64
    }

    /// How many letters are unacknowledged or unsent; at most 8,192.
    pub fn queued(&self) -> usize
        ensures value { result ≡ self.now.queued }
        ensures few { result ≤ 8192 }
    {
        self.queued
    }

    /// How many of them are on the wire.
    pub fn outstanding(&self) -> usize
        ensures value { result ≡ self.now.outstanding }
        ensures there { result ≤ self.now.queued }
    {
        self.outstanding
    }
}

// The wait in milliseconds after so many repetitions.
fn wait_after(repetitions: u8) -> u64
    ensures { result ≡ wait_after repetitions }
{
    match repetitions {
        0 => 1000,
        1 => 2000,
        2 => 4000,
        _ => 8000,
    }
}
