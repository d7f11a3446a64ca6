//! The inbox of a control channel (RFC 2661 section 5.8): which message is the next one, which came before, and which came
//! ahead of others. A number on the wire tells it, as long as it is within half the numbers of the one that is expected.
//! Beside it stands what came ahead and is kept until it has become next.
#![tactic(auto)]

ghost use Rattle.std.specs.Prelude.{◌≡◌};
ghost use Rattle.recv_window.specs.Window.{inbox_from, on_wire, after_take, class_of, CountHasNoEnd, ClassIsTrue, TakenInOrder};
ghost use Rattle.recv_window.specs.Receiving.{KeptAreTakenInOrder, CopiesReplaceNone, TakesTheSameFirst};

mod kept;

pub use kept::{KeptAhead, PLACES};
use std::marker::Model;

/// What a message is by its Ns.
#[derive(Clone, Copy, Debug, PartialEq, Eq)]
pub enum Class {
    /// It is the one that is expected.
    Next,
    /// It came before.
    Duplicate,
    /// It is so many past the one that is expected, 1 to 32767.
    Ahead { by: u16 },
}

/// The number of the message that is expected next. It counts on without end, modulo 2^64; on the wire it stands modulo
/// 65536.
#[derive(Clone, Copy)]
pub struct Inbox {
    taken: u64,
}

impl Model for Inbox {
    ghost use Rattle.recv_window.specs.Window.{Inbox as Known};

    ghost Value = { Known };

    ghost view = { λ i. record { taken = i.taken } };

    ghost inverse = { λ k. record { taken = k.taken } };
}

impl Inbox {
    /// An inbox that expects this number first.
    pub fn new(expect: u16) -> Inbox
        ensures { result ≡ inbox_from expect }
    {
        Inbox {
            taken: expect as u64,
        }
    }

    /// The number that is expected next, modulo 2^64.
    pub fn taken_count(&self) -> u64
        ensures { result ≡ self.now.taken }
    {
        self.taken
    }

    /// The number that is expected next, as it stands on the wire: the Nr of what is sent.
    pub fn expected(&self) -> u16
        ensures { result ≡ on_wire self.now.taken }
    {
        (self.taken % 65536) as u16
    }

    /// What a message with this Ns is: it lies 0, 1 to 32767 or 32768 to 65535 past the one that is expected, modulo 65536.
    pub fn classify(&self, ns: u16) -> Class
        ensures { result ≡ class_of ns self.now }
    {
        match ns.wrapping_sub(self.expected()) {
            0 => Class::Next,
            by @ 1..=32767 => Class::Ahead { by },
            _ => Class::Duplicate,
        }
    }

    /// Counts the message that was expected as taken.
    pub fn take(&mut self)
        ensures { self.new ≡ after_take self.old }
    {
        self.taken = self.taken.wrapping_add(1);
    }

    /// The numbers go on from this one, whatever was taken before.
    pub fn reset(&mut self, expect: u16)
        ensures { self.new ≡ inbox_from expect }
    {
        self.taken = expect as u64;
    }
}

/// A law: a count modulo 2^64 tells the class of each number on the wire as the count without an end does, and counts on as
/// it does.
pub fn the_count_has_no_end()
    ensures { CountHasNoEnd }
{}

/// A law: where a number without an end is at most 32,767 above and at most 32,768 below the one that is expected, its last
/// 16 bits tell its class: next exactly where the two are equal, ahead by the difference where it is above, duplicate where
/// it is below.
pub fn the_class_is_true()
    ensures { ClassIsTrue }
{}

/// A law: of messages that come in any order and any number of times, each as near when it comes, what is taken counts on
/// from the number that was expected first: each number once, and in order.
pub fn messages_are_taken_in_order()
    ensures { TakenInOrder }
{}

/// A law: the same where what comes less than 8 ahead is kept, of messages of any kind, and taken once it has become next.
/// Each number is taken once, and in order, and each message that is taken came. What is kept at a place came with the number
/// that is so many past the one that is expected, and it came first: a copy replaces none. So it is with what is taken, where
/// all that is kept and has become next is taken before another message comes.
pub fn kept_messages_are_taken_in_order<T>()
    ensures in_order { KeptAreTakenInOrder T }
    ensures first { CopiesReplaceNone T }
{}

/// A law: the numbers that are taken where what comes ahead is dropped are the first that are taken where it is kept.
pub fn keeping_takes_the_same_first<T>()
    ensures { TakesTheSameFirst T }
{}
