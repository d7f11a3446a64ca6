//! Looking at cells, and changing them.

ghost use Rattle.std.specs.Prelude.{◌≡◌, ◌≢◌, ◌==◌, ◌<◌, ◌≤◌, ◌⊎◌, [], ℕ, List, MatchBool, IfOk, OnOk, IfErr};
ghost use mathlib.Core.List.{IsPrefix};
ghost use Rattle.session_cells.specs.declared.entry.Entry.{Entry};
ghost use Rattle.session_cells.specs.declared.entry.Entry.TheVariants.{Bind, Establish, Kill};
ghost use Rattle.session_looks.specs.declared.look.Look.TheVariants.{Unborn, Bound, Established, Dead};
ghost use Rattle.session_cells.specs.Logs.{IsLegal, look_after, IsBound, IsLive};
ghost use Rattle.session_cells.specs.Words.{word_after};
ghost use Rattle.session_cells.specs.Rules.{Ends, IsMove};
ghost use Rattle.session_cells.specs.Tokens.{log_of, IsOf, count_of, Later, left_as};
ghost use Rattle.session_cells.specs.Logs.{AllEntered, IsEntered, HasAllBinds, Story};
ghost use Rattle.session_cells.specs.Changes.{entry_of, entries_of};

use crate::entry::Entry;
use crate::killed::Killed;
use crate::law::{Empty, Exchange, Law, Load, Nothing};
use crate::row::Cells;
use crate::seen::CellSeen;
use crate::word::{DEAD, bound_word, established_word, look_of, word_of};
use logbook::{Offer, Pens, Seen, Start, Word};
use session_looks::{CellChange, Look};
use std::alloc::Global;
use wire_base::NoMemory;

/// The cell wasn't unborn.
#[derive(Clone, Copy, PartialEq, Eq, Debug)]
pub struct Already {
    /// The word that was found: the state in bits 63 and 62, the tunnel in bits 61 to 46, the peer in bits 45 to 14.
    pub word: u64,
}

/// The cell wasn't bound.
#[derive(Clone, Copy, PartialEq, Eq, Debug)]
pub struct NotBound {
    /// The word that was found: the state in bits 63 and 62, the tunnel in bits 61 to 46, the peer in bits 45 to 14.
    pub word: u64,
}

/// How many cells the log tells of.
const ALL: usize = 65_536;

/// Each session id is drawn once.
const FIRST: u16 = 0;

/// The log of a new row, which tells of `all` cells.
fn open_log(all: usize) -> (Seen<Entry, u64, Law>, Pens)
    requires { all ≡ 65536 }
    ensures log { result.0.log ≡ [] }
    ensures pens { (result.1.book ≡ result.0.book) × (result.1.next ≡ 0) × (result.1.left ≡ all) }
{
    Seen::open_row::<(), Empty>(&(), Start::alone(), all)
}

impl Cells {
    /// A row of 1 to 65,536 cells, each unborn, and a token of its empty log. No other call here takes memory.
    pub fn open_cells(alloc: Global, count: u32) -> Result<(Cells, CellSeen), NoMemory>
        requires { (0 < count) × (count ≤ 65536) }
        ensures count { IfOk result (λ r. count_of r.0 ≡ count) }
        ensures seen { IfOk result (λ r. IsOf r.0 r.1 × (log_of r.1 ≡ [])) }
    {
        let (seen, mut pens) = open_log(ALL);
        let mut words = Vec::new(alloc);
        for _ in 0..count {
            let mut pen = pens.take();
            words.push(Word::tracked(0, &mut pen))?;
        }
        let first = seen.again();
        Ok((Cells { words, first }, CellSeen { seen }))
    }

    /// How many cells there are.
    pub fn count(&self) -> u32
        ensures { result ≡ count_of self.now }
    {
        self.words.len() as u32
    }

    /// A token for another caller, which stands for the same log.
    pub fn seen_again(&self, seen: &CellSeen) -> CellSeen
        requires { IsOf self.now seen.now }
        ensures { result ≡ seen.now }
    {
        CellSeen {
            seen: seen.seen.again(),
        }
    }

    /// The word of a cell.
    fn load(&self, seen: &mut CellSeen, i: u16) -> u64
        requires cell { i < count_of self.now }
        requires of { IsOf self.now seen.old }
        ensures later { Later self.now seen.old seen.new }
        ensures word { result ≡ word_after (log_of seen.new) i }
        ensures legal { IsLegal (log_of seen.new) }
    {
        let mut offer: Offer<Entry, u64, Law, Nothing> = seen
            .seen
            .plain::<Nothing, Entry, Exchange>(&Entry::Kill {
                session: i,
                draw: FIRST,
            });
        self.words[usize::from(i)].load::<Load, Nothing>(&mut seen.seen, &mut offer)
    }

    /// Puts a word in place of another, and answers the one that was found.
    fn exchange(&self, seen: &mut CellSeen, i: u16, old: u64, new: u64, entry: Entry) -> u64
        requires cell { i < count_of self.now }
        requires of { IsOf self.now seen.old }
        requires moves { IsMove (log_of seen.old) i old new entry }
        ensures later { Later self.now seen.old seen.new }
        ensures ends { MatchBool (result == old) (Ends (log_of seen.old) entry (log_of seen.new)) (result ≡ word_after (log_of seen.new) i) }
        ensures legal { IsLegal (log_of seen.new) }
    {
        let mut offer: Offer<Entry, u64, Law, Nothing> = seen
            .seen
            .plain::<Nothing, Entry, Exchange>(&entry);
        let mut pen = seen.seen.no_pen();
        self.words[usize::from(i)].compare_exchange::<Exchange, Nothing>(
            old,
            new,
            &mut seen.seen,
            &mut offer,
            &mut pen,
        )
    }

    /// What is seen of a session.
    pub fn lookup(&self, seen: &mut CellSeen, i: u16) -> Look
        requires cell { i < count_of self.now }
        requires of { IsOf self.now seen.old }
        ensures later { Later self.now seen.old seen.new }
        ensures legal { IsLegal (log_of seen.new) }
        ensures look { result ≡ look_after (log_of seen.new) i }
    {
        look_of(self.load(seen, i))
    }

    /// Binds an unborn cell: its call is in the tunnel with this local id, to this peer, an IPv4 address as a number. `Already`
    /// comes exactly where the cell wasn't unborn.
    pub fn bind(&self, seen: &mut CellSeen, i: u16, tunnel: u16, peer: u32) -> Result<(), Already>
        requires cell { i < count_of self.now }
        requires of { IsOf self.now seen.old }
        ensures later { Later self.now seen.old seen.new }
        ensures legal { IsLegal (log_of seen.new) }
        ensures ok { OnOk result (Ends (log_of seen.old) (Bind i 0 tunnel peer) (log_of seen.new)) }
        ensures born { look_after (log_of seen.new) i ≢ Unborn }
        ensures already { IfErr result (λ e. (e.word ≡ word_after (log_of seen.new) i) × (look_after (log_of seen.new) i ≢ Unborn)) }
    {
        let word = bound_word(tunnel, peer);
        let entry = Entry::Bind {
            session: i,
            draw: FIRST,
            tunnel,
            peer,
        };
        let found = self.exchange(seen, i, 0, word, entry);
        if found == 0 {
            Ok(())
        } else {
            Err(Already { word: found })
        }
    }

    /// Establishes a bound cell: frames of the network pass. `NotBound` comes exactly where the cell wasn't bound.
    pub fn establish(&self, seen: &mut CellSeen, i: u16) -> Result<(), NotBound>
        requires cell { i < count_of self.now }
        requires of { IsOf self.now seen.old }
        ensures later { Later self.now seen.old seen.new }
        ensures legal { IsLegal (log_of seen.new) }
        ensures ok { OnOk result (Ends (log_of seen.old) (Establish i 0) (log_of seen.new)) }
        ensures past { ¬ IsBound (look_after (log_of seen.new) i) }
        ensures not_bound { IfErr result (λ e. (e.word ≡ word_after (log_of seen.new) i) × (¬ IsBound (look_after (log_of seen.new) i))) }
    {
        let look = self.lookup(seen, i);
        let Look::Bound { tunnel, peer } = look else {
            return Err(NotBound {
                word: word_of(look),
            });
        };
        let word = bound_word(tunnel, peer);
        let new = established_word(tunnel, peer);
        let entry = Entry::Establish {
            session: i,
            draw: FIRST,
        };
        let found = self.exchange(seen, i, word, new, entry);
        if found == word {
            Ok(())
        } else {
            Err(NotBound { word: found })
        }
    }

    /// Tries once to kill a live cell, and gives the word that it found.
    fn kill_once(&self, seen: &mut CellSeen, i: u16, word: u64) -> u64
        requires cell { i < count_of self.now }
        requires of { IsOf self.now seen.old }
        requires legal { IsLegal (log_of seen.old) }
        requires word { word ≡ word_after (log_of seen.old) i }
        requires live { IsLive (look_after (log_of seen.old) i) }
        ensures later { Later self.now seen.old seen.new }
        ensures legal { IsLegal (log_of seen.new) }
        ensures killed { MatchBool (result == word) (look_after (log_of seen.new) i ≡ Dead) (result ≡ word_after (log_of seen.new) i) }
    {
        let entry = Entry::Kill {
            session: i,
            draw: FIRST,
        };
        self.exchange(seen, i, word, DEAD, entry)
    }

    /// Kills a cell that isn't unborn, and tells how it left it. It exchanges the word at most twice, since a live cell changes at
    /// most twice.
    pub fn kill(&self, seen: &mut CellSeen, i: u16) -> Killed
        requires cell { i < count_of self.now }
        requires of { IsOf self.now seen.old }
        ensures later { Later self.now seen.old seen.new }
        ensures legal { IsLegal (log_of seen.new) }
        ensures left { look_after (log_of seen.new) i ≡ left_as result }
    {
        let look = self.lookup(seen, i);
        match look {
            Look::Unborn => return Killed::Unborn,
            Look::Dead => return Killed::Dead,
            _ => (),
        }
        let word = word_of(look);
        let found = self.kill_once(seen, i, word);
        if found == word {
            return Killed::Dead;
        }
        if found == DEAD {
            return Killed::Dead;
        }
        self.kill_once(seen, i, found);
        Killed::Dead
    }
}

impl Cells {
    /// A law: what a cell's state tells of the log that was seen.
    pub fn story(&self, seen: &CellSeen)
        requires { IsOf self.now seen.now }
        ensures legal { IsLegal (log_of seen.now) }
        ensures story { (i : ℕ) → Story (log_of seen.now) i (look_after (log_of seen.now) i) }
    {
        let mut copy = seen.seen.again();
        copy.learn(&seen.seen);
    }

    /// A law: of two tokens of these cells, the log of one begins the log of the other, so there is one history.
    pub fn one_history(&self, one: &CellSeen, two: &CellSeen)
        requires { IsOf self.now one.now × IsOf self.now two.now }
        ensures { IsPrefix (log_of one.now) (log_of two.now) ⊎ IsPrefix (log_of two.now) (log_of one.now) }
    {
        let mut both = one.seen.again();
        both.learn(&two.seen);
    }

    /// Makes a change, unless another overtook it. Where it is an establishment or a kill, nothing is said of a cell that was
    /// never born.
    fn enter(&self, seen: &mut CellSeen, change: CellChange)
        requires full { count_of self.now ≡ 65536 }
        requires of { IsOf self.now seen.old }
        ensures later { Later self.now seen.old seen.new }
        ensures entered { (old before : List Entry) → IsPrefix old (log_of seen.old) → HasAllBinds before (log_of seen.old) → IsEntered old before (log_of seen.new) (entry_of change) }
    {
        match change {
            CellChange::Bind {
                session,
                tunnel,
                peer,
            } => {
                let _ = self.bind(seen, session, tunnel, peer);
            }
            CellChange::Establish { session } => {
                let _ = self.establish(seen, session);
            }
            CellChange::Kill { session } => {
                if session < 65_536 {
                    let _ = self.kill(seen, session as u16);
                }
            }
        }
    }

    /// Makes the changes of a step, in order. The new log has each, or what overtook it.
    pub fn enter_all(&self, seen: &mut CellSeen, changes: &[CellChange])
        requires full { count_of self.now ≡ 65536 }
        requires of { IsOf self.now seen.old }
        ensures later { Later self.now seen.old seen.new }
        ensures entered { AllEntered (log_of seen.old) (entries_of changes.now) (log_of seen.new) }
    {
        for change in changes {
            self.enter(seen, *change);
        }
    }
}
