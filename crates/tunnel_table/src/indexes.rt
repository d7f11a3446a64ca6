//! The indexes of tunnels, each by one of their labels.

ghost use Rattle.std.specs.Prelude.{◌≡◌, ℕ, List, [], Some, is_some, IfSome, IsTrue};
ghost use Rattle.id_table.specs.Ids.{at, put, without};
ghost use Rattle.tunnel_fsm.specs.Rows.{state_number};
ghost use Rattle.end_model.specs.Tunnels.{Tunnel};
ghost use Rattle.end_model.specs.End.{known_as, least_in, recovered_by, answered_to, are_recovering};
ghost use Rattle.tunnel_core.specs.Cores.{tunnel_of, made_of};
ghost use Rattle.tunnel_table.specs.Labels.{labels_of, labels_in, IsSmall, AreRelabelled, AreKept};

use crate::labels::{
    Labels, RECOVERING, answer_in, are_same, labels_after, labels_of, line_in, number_of,
    remote_in, remote_label, state_in, state_label, stays_labelled,
};
use id_index::Index;
use std::alloc::Global;
use std::marker::Model;
use tunnel_core::{Planned, TunnelCore};
use tunnel_fsm::TunnelState;
use wire_base::NoMemory;

/// The indexes of tunnels by local id.
#[derive(Drop)]
pub(crate) struct Indexes {
    /// By the peer and the id that it assigned.
    remotes: Index,
    /// By the peer and the state.
    states: Index,
    /// By the local id of the recovery tunnel.
    lines: Index,
    /// By the peer and the id of the attempt that is answered.
    answers: Index,
}

impl Model for Indexes {
    ghost use Rattle.tunnel_table.specs.Labels.{Listings};

    ghost Value = { Listings };

    ghost view = { λ x. record { remotes = x.remotes; states = x.states; lines = x.lines; answers = x.answers } };
}

/// Whether a tunnel had these labels before.
fn has_labels(before: &Option<Labels>, after: &Labels) -> bool
    ensures { IsTrue result → before.now ≡ Some after.now }
{
    match before {
        None => false,
        Some(before) => are_same(before, after),
    }
}

impl Indexes {
    /// There are no tunnels. It takes no memory.
    pub(crate) fn new(alloc: Global) -> Indexes
        ensures { (ts : List (ℕ × Tunnel)) → ts ≡ [] → AreKept result ts }
    {
        Indexes {
            remotes: Index::new(alloc),
            states: Index::new(alloc),
            lines: Index::new(alloc),
            answers: Index::new(alloc),
        }
    }

    /// Makes room for a tunnel that gets these labels. The same tunnels are listed, also where memory is wanting.
    pub(crate) fn make_keys(&mut self, id: u32, labels: &Labels) -> Result<(), NoMemory>
        ensures { (ts : List (ℕ × Tunnel)) → AreKept self.old ts → AreKept self.new ts }
    {
        self.remotes.make_key(id, Some(labels.remote))?;
        self.states.make_key(id, Some(labels.state))?;
        self.lines.make_key(id, labels.line)?;
        self.answers.make_key(id, labels.answer)
    }

    /// Lists a tunnel by these labels in place of those that it had. It takes no memory where room was made for it. Where they are the
    /// same nothing is looked for.
    pub(crate) fn list(&mut self, id: u32, before: &Option<Labels>, after: &Labels)
        ensures { (ts : List (ℕ × Tunnel)) (t : Tunnel) → AreKept self.old ts → labels_in ts id ≡ before.now → labels_of t ≡ after.now → IsSmall t → AreKept self.new (put ts id t) }
    {
        if has_labels(before, after) {
            return;
        }
        let labels = Some(*after);
        self.relabel(id, before, &labels);
    }

    /// Lists a tunnel by the labels that it has after what is planned for it. It takes no memory where room was made for it. Most steps
    /// change nothing of what the labels are made of: then none are made.
    pub(crate) fn list_after(&mut self, id: u32, core: &TunnelCore, planned: &Planned)
        ensures { (ts : List (ℕ × Tunnel)) → AreKept self.old ts → at ts id ≡ Some (tunnel_of core.now) → AreKept self.new (put ts id (made_of planned.now (tunnel_of core.now))) }
    {
        if stays_labelled(core, planned) {
            return;
        }
        let before = Some(labels_of(core));
        let after = labels_after(core, planned);
        self.list(id, &before, &after);
    }

    /// Lists a tunnel no more, which had these labels.
    pub(crate) fn unlist(&mut self, id: u32, before: &Option<Labels>)
        ensures { (ts : List (ℕ × Tunnel)) → AreKept self.old ts → labels_in ts id ≡ before.now → AreKept self.new (without ts id) }
    {
        self.relabel(id, before, &None);
    }

    fn relabel(&mut self, id: u32, before: &Option<Labels>, after: &Option<Labels>)
        ensures { AreRelabelled self.old self.new id before.now after.now }
    {
        self.remotes
            .relabel(id, remote_in(before), remote_in(after));
        self.states.relabel(id, state_in(before), state_in(after));
        self.lines.relabel(id, line_in(before), line_in(after));
        self.answers
            .relabel(id, answer_in(before), answer_in(after));
    }

    /// The least tunnel to a peer that has assigned this id, where the index tells it.
    pub(crate) fn first_known(&self, peer: u32, remote: u16) -> Option<Option<u32>>
        ensures { IfSome result (λ o. (ts : List (ℕ × Tunnel)) → AreKept self.now ts → known_as peer remote ts ≡ o) }
    {
        self.remotes.first(remote_label(peer, remote))
    }

    /// The least current tunnel to a peer that is in a state, where the index tells it.
    pub(crate) fn first_in(&self, state: TunnelState, peer: u32) -> Option<Option<u32>>
        ensures { IfSome result (λ o. (ts : List (ℕ × Tunnel)) → AreKept self.now ts → least_in state peer ts ≡ o) }
    {
        self.states.first(state_label(peer, number_of(state)))
    }

    /// The tunnel whose recovery tunnel has this local id, where the index tells it.
    pub(crate) fn first_recovered(&self, line: u16) -> Option<Option<u32>>
        ensures { IfSome result (λ o. (ts : List (ℕ × Tunnel)) → AreKept self.now ts → recovered_by line ts ≡ o) }
    {
        self.lines.first(u64::from(line))
    }

    /// The tunnel whose end answers the attempt of a peer with this id, where the index tells it.
    pub(crate) fn first_answered(&self, peer: u32, remote: u16) -> Option<Option<u32>>
        ensures { IfSome result (λ o. (ts : List (ℕ × Tunnel)) → AreKept self.now ts → answered_to peer remote ts ≡ o) }
    {
        self.answers.first(remote_label(peer, remote))
    }

    /// Whether a tunnel to a peer is frozen or restored, where the index tells it.
    pub(crate) fn has_recovering(&self, peer: u32) -> Option<bool>
        ensures { IfSome result (λ b. (ts : List (ℕ × Tunnel)) → AreKept self.now ts → are_recovering peer ts ≡ b) }
    {
        match self.states.first(state_label(peer, RECOVERING)) {
            None => None,
            Some(found) => Some(found.is_some()),
        }
    }
}
