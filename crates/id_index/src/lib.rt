//! An index of ids by a label, as of tunnels by their peer. The values stand in a table of the caller's, which says what label
//! each id has.
#![tactic(auto)]

ghost use Rattle.std.specs.Prelude.{◌≡◌, ℕ, Option, None, IfSome};
ghost use Rattle.id_index.specs.Indexes.{Lists, IsFirst, IsRelabelled};

mod keys;

use keys::{first_listed, make_key, relist};
use std::alloc::Global;
use std::collections::BTreeMap;
use std::marker::Model;
use wire_base::NoMemory;

/// The ids with each label. The least one is found in time in proportion to the logarithm of the number of ids. Room for an id
/// with a label can be made ahead, and giving it the label then takes no memory.
#[derive(Drop)]
pub struct Index {
    keys: BTreeMap<u128, bool>,
    /// Whether each id with a label is listed: none got its label where memory for its key was wanting.
    whole: bool,
}

impl Model for Index {
    ghost use Rattle.id_index.specs.Indexes.{Listing};

    ghost Value = { Listing };

    ghost view = { λ x. record { keys = x.keys.entries; whole = x.whole } };
}

impl Index {
    /// No id has a label. It takes no memory.
    pub fn new(alloc: Global) -> Index
        ensures { (labels : ℕ → Option ℕ) → ((i : ℕ) → labels i ≡ None) → Lists result labels }
    {
        Index {
            keys: BTreeMap::new(alloc),
            whole: true,
        }
    }

    /// Makes room for an id with a label. The same ids are listed, also where memory is wanting.
    pub fn make_key(&mut self, id: u32, label: Option<u64>) -> Result<(), NoMemory>
        ensures { (labels : ℕ → Option ℕ) → Lists self.old labels → Lists self.new labels }
    {
        make_key(&mut self.keys, id, label)
    }

    /// Gives a label to an id in place of the one that it had. It takes no memory where room was made for the id with this
    /// label. Where it was not, and memory is wanting, the index tells nothing any more.
    pub fn relabel(&mut self, id: u32, before: Option<u64>, after: Option<u64>)
        ensures { IsRelabelled self.old self.new id before after }
    {
        let listed = relist(&mut self.keys, id, before, after);
        self.whole &= listed;
    }

    /// The least id with this label, if one has it. Nothing is told where the index doesn't list every id, or where room for an
    /// id with this label stands first: the caller then looks through its table.
    pub fn first(&self, label: u64) -> Option<Option<u32>>
        ensures { IfSome result (λ o. (labels : ℕ → Option ℕ) → Lists self.now labels → IsFirst labels label o) }
    {
        if !self.whole {
            return None;
        }
        first_listed(&self.keys, label)
    }
}
