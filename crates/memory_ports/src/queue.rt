//! What waits, in the order in which it is taken.

ghost use Rattle.std.specs.Prelude.{◌≡◌, ◌≤◌, drop, length, slice_get, option_copied};

use std::marker::Model;
use wire_base::Sequence;

/// Values that wait.
#[derive(Drop)]
pub(crate) struct Queue<T> {
    items: Sequence<T>,
    at: usize,
}

impl<T> Model for Queue<T> {
    ghost use Rattle.std.specs.Prelude.{List, drop, length, ◌≤◌};

    ghost Value = { List T };

    ghost view = { λ s. drop s.at s.items };

    ghost invariant = { λ s. s.at ≤ length s.items };
}

impl<T: Drop> Queue<T> {
    /// These wait.
    pub(crate) fn new(items: Sequence<T>) -> Self
        ensures { result ≡ items }
    {
        Self { items, at: 0 }
    }

    /// The first one, lent.
    #[tactic(auto, using(crate::proofs::Waits::first_of_rest))]
    pub(crate) fn first(&self) -> Option<&T>
        ensures { option_copied result ≡ slice_get self.now 0 }
    {
        self.items.lend(self.at)
    }

    /// Lets the first one go.
    #[tactic(auto, using(crate::proofs::Waits::rest_of_rest, crate::proofs::Waits::rest_of_all))]
    pub(crate) fn pass(&mut self)
        ensures { self.new ≡ drop 1 self.old }
    {
        if self.at < self.items.len() {
            self.at += 1;
        }
    }
}
