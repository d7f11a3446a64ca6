//! The numbers of a channel, without its letters.

ghost use Rattle.std.specs.Prelude.{◌≡◌, ◌<◌, ◌≤◌, ◌-◌, IfSome};
ghost use Rattle.control_channel.specs.Numbers.{opened_at, is_full, one_more, count_acked, acked_at, class_told, taken_by, next_to_go, let_go_at, answer_to_tick, ticked_at, due_of, place_of, Holds, HoldsRepeated, wire_of, frozen_so, reset_at, learnt_by, next_given, next_unsent};

use recv_window::{Class, Inbox};
use send_window::{SendWindow, Tick};
use std::marker::Model;

/// The numbers of one end of a control channel: those of its letters, with the window and the timer, and the one that is
/// expected of the other end. It is a `Channel` without its letters, on a copy of which a step can be planned. The numbers
/// count on without end, modulo 2^64; on the wire they stand modulo 65536. Moments are in milliseconds; where a given one
/// is below a kept one, no time has passed.
#[derive(Clone, Copy)]
pub struct ChannelNumbers {
    pub(crate) window: SendWindow,
    pub(crate) inbox: Inbox,
    frozen: bool,
}

impl Model for ChannelNumbers {
    ghost use Rattle.control_channel.specs.Numbers.{Numbers};

    ghost Value = { Numbers };

    ghost view = { λ n. record { window = n.window; inbox = n.inbox; frozen = n.frozen } };

    ghost inverse = { λ n. record { window = n.window; inbox = n.inbox; frozen = n.frozen } };
}

impl ChannelNumbers {
    /// The numbers of a channel over which nothing was sent: the first letter given has the number `send_from`, and
    /// `expect` is expected of the other end, whose receive window has `window` letters.
    pub fn new(send_from: u16, expect: u16, window: u16) -> ChannelNumbers
        requires { 0 < window }
        ensures { result ≡ opened_at send_from expect window }
    {
        ChannelNumbers {
            window: SendWindow::new(send_from, window),
            inbox: Inbox::new(expect),
            frozen: false,
        }
    }

    /// The receive window of the other end, in letters, as far as it is known.
    pub fn peer_window(&self) -> u16
        ensures { result ≡ self.now.window.congestion.peer_window }
    {
        self.window.peer_window()
    }

    /// Whether as many letters as a channel may hold, 8,192, are unacknowledged or unsent.
    pub fn is_full(&self) -> bool
        ensures { result ≡ is_full self.now }
    {
        self.window.is_full()
    }

    /// Counts a letter that is given to the channel; it takes the next number.
    pub fn put(&mut self)
        requires { self.old.window.queued < 8192 }
        ensures { self.new ≡ one_more self.old }
    {
        self.window.put();
    }

    /// Takes the Nr of a message of the other end, and says how many letters it newly acknowledges: the first ones, which
    /// are then to go. A frozen channel does so too.
    pub fn ack(&mut self, nr: u16, now: u64) -> usize
        ensures count { result ≡ count_acked self.old nr }
        ensures value { self.new ≡ acked_at self.old nr now }
        ensures within { result ≤ self.old.window.queued }
        ensures left { self.new.window.queued ≡ self.old.window.queued - result }
    {
        self.window.ack(nr, now) as usize
    }

    /// What a message with this Ns is; None where it is `empty`, an acknowledgement without a message. A frozen channel
    /// answers so too.
    pub fn classify(&self, ns: u16, empty: bool) -> Option<Class>
        ensures { result ≡ class_told self.now ns empty }
    {
        if empty {
            None
        } else {
            Some(self.inbox.classify(ns))
        }
    }

    /// Counts the message that was expected as taken.
    pub fn take(&mut self)
        ensures { self.new ≡ taken_by self.old }
    {
        self.inbox.take();
    }

    /// The number of the next letter that the window lets go, which is outstanding from then on; None where nothing is
    /// unsent, the window is filled, or the channel is frozen.
    pub fn pump(&mut self, now: u64) -> Option<u64>
        ensures number { result ≡ next_to_go self.old }
        ensures value { self.new ≡ let_go_at self.old now }
        ensures there { IfSome result (λ n. Holds self.new n) }
        ensures same { self.new.window.queued ≡ self.old.window.queued }
    {
        if self.frozen {
            return None;
        }
        self.window.pump(now)
    }

    /// What is due at a moment: nothing, one repetition, or the failure of the channel. A letter is repeated 1, 2, 4, 8
    /// and 8 seconds after the last time, and the channel has failed 8 seconds later. Nothing is due where it is frozen.
    pub fn tick(&mut self, now: u64) -> Tick
        ensures answer { result ≡ answer_to_tick self.old now }
        ensures value { self.new ≡ ticked_at self.old now }
        ensures there { HoldsRepeated self.new result }
        ensures same { self.new.window.queued ≡ self.old.window.queued }
    {
        if self.frozen {
            return Tick::Quiet;
        }
        self.window.tick(now)
    }

    /// The moment from which on something is due, in milliseconds; None where nothing is outstanding, and where it is frozen.
    pub fn due(&self) -> Option<u64>
        ensures { result ≡ due_of self.now }
    {
        if self.frozen {
            return None;
        }
        self.window.due()
    }

    /// The place, from 0, of the letter with a number among those that are unacknowledged or unsent.
    pub fn place(&self, number: u64) -> usize
        ensures { result ≡ place_of self.now number }
    {
        self.window.place(number) as usize
    }

    /// Ns and Nr of a message with a number, as they stand on the wire. An acknowledgement without a message has the number
    /// `next_unsent`.
    pub fn wire(&self, number: u64) -> (u16, u16)
        ensures { result ≡ wire_of self.now number }
    {
        ((number % 65536) as u16, self.inbox.expected())
    }

    /// Nothing is let go and nothing is due from now on, until the channel is reset.
    pub fn freeze(&mut self)
        ensures { self.new ≡ frozen_so self.old }
    {
        self.frozen = true;
    }

    /// Forgets all letters: the next one given has the number `send_from`, and `expect` is expected of the other end. The
    /// peer's window stays, and the channel isn't frozen any more.
    pub fn reset_to(&mut self, send_from: u16, expect: u16)
        ensures { self.new ≡ reset_at self.old send_from expect }
    {
        self.window.reset(send_from);
        self.inbox.reset(expect);
        self.frozen = false;
    }

    /// Sets the peer's window, in letters, and the threshold to it; a congestion window above it is lowered to it.
    pub fn learn_window(&mut self, window: u16)
        requires { 0 < window }
        ensures { self.new ≡ learnt_by self.old window }
    {
        self.window.learn_window(window);
    }

    /// The number of the next letter to be given.
    pub fn sent_count(&self) -> u64
        ensures { result ≡ next_given self.now }
    {
        self.window.sent_count()
    }

    /// The number that is expected next of the other end: those below it were taken.
    pub fn taken_count(&self) -> u64
        ensures { result ≡ self.now.inbox.taken }
    {
        self.inbox.taken_count()
    }

    /// The number of the first letter that isn't acknowledged, or of the next one to be given.
    pub fn acked_count(&self) -> u64
        ensures { result ≡ self.now.window.acked }
    {
        self.window.acked_count()
    }

    /// The number of the first letter that was never on the wire, or of the next one to be given.
    pub fn next_unsent(&self) -> u64
        ensures { result ≡ next_unsent self.now }
    {
        self.window.next_unsent()
    }

    /// How many letters are unacknowledged or unsent; at most 8,192.
    pub fn queued(&self) -> usize
        ensures value { result ≡ self.now.window.queued }
        ensures few { result ≤ 8192 }
    {
        self.window.queued()
    }

    /// How many of them are on the wire.
    pub fn outstanding(&self) -> usize
        ensures value { result ≡ self.now.window.outstanding }
        ensures there { result ≤ self.now.window.queued }
    {
        self.window.outstanding()
    }

    /// Whether the channel is frozen.
    pub fn is_frozen(&self) -> bool
        ensures { result ≡ self.now.frozen }
    {
        self.frozen
    }
}
