//! The letters of a channel, without their numbers.

ghost use Rattle.std.specs.Prelude.{◌≡◌, ◌<◌, ◌≤◌, length, IfOk, OnOk, OnErr, IsOk, option_copied};
ghost use Rattle.send_window.specs.Queue.{no_letters, reserved, put_into, dropped_first, cleared, letter_in};

use std::alloc::Global;
use std::collections::VecDeque;
use std::marker::Model;
use wire_base::{Bytes, Letter, NoMemory};

/// The letters of a channel that are unacknowledged or unsent, in the order of their numbers. Room for letters can be made
/// ahead, and putting a letter in then takes no memory. A call takes constant time, `reserve` where it is spread over the
/// letters put, and `drop_first` and `clear` a time in proportion to the letters that go.
#[derive(Drop)]
pub struct Letters {
    kept: VecDeque<Letter>,
    spare: usize,
}

impl Model for Letters {
    ghost use Rattle.std.specs.Prelude.{◌≤◌, ◌+◌, length};
    ghost use Rattle.std.specs.VecDeque.{deque_capacity};
    ghost use Rattle.send_window.specs.Queue.{Queue};

    ghost Value = { Queue };

    ghost view = { λ l. record { letters = l.kept.items; spare = l.spare } };

    ghost invariant = { λ l. length l.kept.items + l.spare ≤ deque_capacity l.kept };
}

// A copy of a letter.
fn copy_letter(alloc: Global, letter: &Letter) -> Result<Letter, NoMemory>
    ensures { IfOk result (λ copy. copy ≡ letter.now) }
{
    let avps = Bytes::from_slice(alloc, letter.avps.as_slice())?;
    Ok(Letter {
        session: letter.session,
        avps,
    })
}

impl Letters {
    /// No letters, and no room. It takes no memory.
    pub fn new(alloc: Global) -> Letters
        ensures { result ≡ no_letters }
    {
        Letters {
            kept: VecDeque::new(alloc),
            spare: 0,
        }
    }

    /// Makes room for so many letters at least. Where memory is wanting, all is as before.
    pub fn reserve(&mut self, count: usize) -> Result<(), NoMemory>
        ensures ok { OnOk result (self.new ≡ reserved self.old count) }
        ensures err { OnErr result (self.new ≡ self.old) }
        ensures there { count ≤ self.old.spare → IsOk result }
    {
        self.kept.try_reserve(count)?;
        self.spare = self.spare.max(count);
        Ok(())
    }

    /// Puts a letter behind the others, where there is room for one. It takes no memory.
    pub fn put(&mut self, letter: Letter)
        requires { 0 < self.old.spare }
        ensures { self.new ≡ put_into self.old letter }
    {
        let Ok(()) = self.kept.push_back(letter) else {
            unreachable!()
        };
        self.spare -= 1;
    }

    /// Drops so many letters, the first ones. Their memory goes back, and the list's own where it is empty and there is no
    /// room.
    pub fn drop_first(&mut self, count: usize)
        requires { count ≤ length self.old.letters }
        ensures { self.new ≡ dropped_first self.old count }
    {
        self.kept.drain(..count);
        self.give_back();
    }

    /// Drops all letters. The room stays.
    pub fn clear(&mut self)
        ensures { self.new ≡ cleared self.old }
    {
        self.kept.clear();
        self.give_back();
    }

    // Gives the memory of an empty list back, where no room was made.
    fn give_back(&mut self)
        ensures { self.new ≡ self.old }
    {
        if self.kept.is_empty() && self.spare == 0 {
            self.kept.shrink_to_fit();
        }
    }

    /// The letter at a place, from 0; None where there are no more than so many.
    pub fn get(&self, place: usize) -> Option<&Letter>
        ensures { option_copied result ≡ letter_in self.now place }
    {
        self.kept.get(place)
    }

    /// How many letters there are.
    pub fn len(&self) -> usize
        ensures { result ≡ length self.now.letters }
    {
        self.kept.len()
    }

    /// A copy, with as much room: a step is planned on it, and where memory is wanting, nothing has changed. It takes a time in
    /// proportion to the bytes of the letters.
    pub fn copy(&self, alloc: Global) -> Result<Letters, NoMemory>
        ensures { IfOk result (λ copy. copy ≡ self.now) }
    {
        let mut copy = Letters::new(alloc);
        for place in 0..self.kept.len() {
            let Some(letter) = self.kept.get(place) else {
                unreachable!()
            };
            let letter = copy_letter(alloc, letter)?;
            copy.reserve(1)?;
            copy.put(letter);
        }
        copy.reserve(self.spare)?;
        Ok(copy)
    }
}
