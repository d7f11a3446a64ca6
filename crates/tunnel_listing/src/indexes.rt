//! The indexes of tunnels, each by one of their labels.

ghost use Rattle.std.specs.Prelude.{◌≡◌, ◌≢◌, ℕ, Option, None, IfSome};
ghost use Rattle.tunnel_listing.specs.Labels.{AreRelabelled, AreIndexed, IsFirstWanted};

use crate::labels::{
    RECOVERING, answer_at, is_small, line_at, number_of, remote_at, remote_label, state_at,
    state_label,
};
use crate::listed::{Listed, Wanted};
use id_index::Index;
use std::alloc::Global;
use std::marker::Model;
use tunnel_fsm::TunnelState;
use wire_base::NoMemory;

/// The indexes of tunnels by local id, of each of which it is said how it is listed. The tunnel that is looked for is found in time in
/// proportion to the logarithm of their number.
#[derive(Drop)]
pub struct Indexes {
    /// By the peer and the id that it assigned.
    remotes: Index,
    /// By the peer and the state.
    states: Index,
    /// By the local id of the recovery tunnel.
    lines: Index,
    /// By the peer and the id of the attempt that is answered.
    answers: Index,
}

impl Model for Indexes {
    ghost use Rattle.tunnel_listing.specs.Labels.{Listings};

    ghost Value = { Listings };

    ghost view = { λ x. record { remotes = x.remotes; states = x.states; lines = x.lines; answers = x.answers } };
}

impl Indexes {
    /// There are no tunnels. It takes no memory.
    pub fn new(alloc: Global) -> Indexes
        ensures { (f : ℕ → Option Listed) → ((i : ℕ) → f i ≡ None) → AreIndexed result f }
    {
        Indexes {
            remotes: Index::new(alloc),
            states: Index::new(alloc),
            lines: Index::new(alloc),
            answers: Index::new(alloc),
        }
    }

    /// Makes room for a tunnel that is to be listed so. The same tunnels are listed, also where memory is wanting.
    pub fn make_room(&mut self, id: u32, listed: &Option<Listed>) -> Result<(), NoMemory>
        ensures { (f : ℕ → Option Listed) → AreIndexed self.old f → AreIndexed self.new f }
    {
        self.remotes.make_key(id, remote_at(listed))?;
        self.states.make_key(id, state_at(listed))?;
        self.lines.make_key(id, line_at(listed))?;
        self.answers.make_key(id, answer_at(listed))
    }

    fn relabel(&mut self, id: u32, before: &Option<Listed>, after: &Option<Listed>)
        ensures { AreRelabelled self.old self.new id before.now after.now }
    {
        self.remotes
            .relabel(id, remote_at(before), remote_at(after));
        self.states.relabel(id, state_at(before), state_at(after));
        self.lines.relabel(id, line_at(before), line_at(after));
        self.answers
            .relabel(id, answer_at(before), answer_at(after));
    }

    /// Lists a tunnel so, or no more, in place of how it was listed before. It takes no memory where room was made for it. Where it was
    /// not, and memory is wanting, the indexes find none any more.
    pub fn change(&mut self, id: u32, before: &Option<Listed>, after: &Option<Listed>)
        ensures { (f g : ℕ → Option Listed) → AreIndexed self.old f → f id ≡ before.now → g id ≡ after.now → ((i : ℕ) → i ≢ id → g i ≡ f i) → AreIndexed self.new g }
    {
        is_small(after);
        self.relabel(id, before, after);
    }

    fn first_known(&self, peer: u32, remote: u16) -> Option<Option<u32>>
        ensures { IfSome result (λ o. (f : ℕ → Option Listed) → AreIndexed self.now f → IsFirstWanted (Wanted.Known peer remote) f o) }
    {
        self.remotes.first(remote_label(peer, remote))
    }

    fn first_answered(&self, peer: u32, remote: u16) -> Option<Option<u32>>
        ensures { IfSome result (λ o. (f : ℕ → Option Listed) → AreIndexed self.now f → IsFirstWanted (Wanted.Answered peer remote) f o) }
    {
        self.answers.first(remote_label(peer, remote))
    }

    fn first_recovered(&self, line: u16) -> Option<Option<u32>>
        ensures { IfSome result (λ o. (f : ℕ → Option Listed) → AreIndexed self.now f → IsFirstWanted (Wanted.Recovered line) f o) }
    {
        self.lines.first(u64::from(line))
    }

    fn first_in(&self, state: TunnelState, peer: u32) -> Option<Option<u32>>
        ensures { IfSome result (λ o. (f : ℕ → Option Listed) → AreIndexed self.now f → IsFirstWanted (Wanted.In state peer) f o) }
    {
        self.states.first(state_label(peer, number_of(state)))
    }

    fn first_recovering(&self, peer: u32) -> Option<Option<u32>>
        ensures { IfSome result (λ o. (f : ℕ → Option Listed) → AreIndexed self.now f → IsFirstWanted (Wanted.Recovering peer) f o) }
    {
        self.states.first(state_label(peer, RECOVERING))
    }

    /// The least tunnel that is looked for, where the indexes tell it: they don't only after memory was wanting.
    pub fn first(&self, wanted: Wanted) -> Option<Option<u32>>
        ensures { IfSome result (λ o. (f : ℕ → Option Listed) → AreIndexed self.now f → IsFirstWanted wanted f o) }
    {
        match wanted {
            Wanted::Known { peer, remote } => self.first_known(peer, remote),
            Wanted::Answered { peer, remote } => self.first_answered(peer, remote),
            Wanted::Recovered { line } => self.first_recovered(line),
            Wanted::In { state, peer } => self.first_in(state, peer),
            Wanted::Recovering { peer } => self.first_recovering(peer),
        }
    }
}
