//! The messages that are kept until the ones before them have come.

ghost use Rattle.std.specs.Prelude.{◌≡◌, ◌<◌, not, is_some, option_copied, IfSome};
ghost use Rattle.recv_window.specs.Ahead.{none_kept, kept_at, after_keep, after_shift, after_take_next, count_kept};

use std::marker::Model;

/// How many places there are: one for the message that has become next, and those 1 to 7 past it. A message is kept where it
/// is fewer past the one that is expected.
pub const PLACES: u16 = 8;

/// The messages that came 1 to 7 ahead of the one that was expected then, each at its place past the one that is expected
/// now (RFC 2661 section 5.8). Place 0 has the one that has become next. A call takes constant time, and no memory.
///
/// It stands beside an `Inbox`. Where the message that is expected is taken, `Inbox::take` and `shift` count it; then what has
/// become next is taken, one after the other, by `take_next` with `Inbox::take`, until there is none:
///
/// ```text
/// inbox.take();
/// kept.shift();
/// while let Some(message) = kept.take_next() {
///     inbox.take();
///     ..
/// }
/// ```
#[derive(Drop)]
pub struct KeptAhead<T> {
    places: [Option<T>; PLACES as usize],
}

impl<T> Model for KeptAhead<T> {
    ghost use Rattle.std.specs.Prelude.{◌≡◌, List, Option, length};
    ghost use Rattle.std.specs.Coded.{coded_list, coded_option};

    ghost Value = { List (Option T) };

    ghost coded = { coded_list (coded_option T.code) };

    ghost view = { λ k. k.places };

    ghost invariant = { λ k. length k.places ≡ 8 };
}

impl<T: Drop> KeptAhead<T> {
    /// Nothing is kept.
    pub fn new() -> Self
        ensures { result ≡ none_kept }
    {
        Self {
            places: [None, None, None, None, None, None, None, None],
        }
    }

    /// Keeps a message that is so many past the one that is expected, 1 to 7. False where one is kept there, and then all is
    /// as before.
    pub fn keep(&mut self, by: u16, message: T) -> bool
        requires past { 0 < by }
        requires within { by < 8 }
        ensures answer { result ≡ not (is_some (kept_at self.old by)) }
        ensures value { self.new ≡ after_keep self.old by message }
    {
        let place = usize::from(by);
        if self.places[place].is_some() {
            return false;
        }
        self.places[place] = Some(message);
        true
    }

    /// The message that has become next, where it is kept, lent.
    pub fn next(&self) -> Option<&T>
        ensures { option_copied result ≡ kept_at self.now 0 }
    {
        self.places[0].as_ref()
    }

    /// Takes the message that has become next, where it is kept, and each place comes nearer by one. Otherwise all is as
    /// before.
    pub fn take_next(&mut self) -> Option<T>
        ensures message { result ≡ kept_at self.old 0 }
        ensures value { self.new ≡ after_take_next self.old }
        ensures fewer { IfSome result (λ message. count_kept self.new < count_kept self.old) }
    {
        let message = self.places[0].take()?;
        self.shift();
        Some(message)
    }

    /// The message that was expected was taken: each place comes nearer by one, and what was kept at place 0 is forgotten.
    pub fn shift(&mut self)
        ensures { self.new ≡ after_shift self.old }
    {
        self.places[0] = None;
        self.places.rotate_left(1);
    }

    /// Nothing is kept any more: the channel is frozen, or its numbers go on from others.
    pub fn forget(&mut self)
        ensures { self.new ≡ none_kept }
    {
        *self = Self::new();
    }
}
