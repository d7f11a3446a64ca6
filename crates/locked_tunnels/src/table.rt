//! The table of tunnels that threads share.

ghost use Rattle.std.specs.Prelude.{ℕ, List, ◌≡◌, ◌≢◌, ◌||◌, Some, is_some, [], IfOk, OnOk, OnErr};
ghost use Rattle.id_table.specs.Ids.{at, put, without};
ghost use Rattle.id_table.specs.Tables.{HasRoom};
ghost use Rattle.end_model.specs.Tunnels.{Tunnel};
ghost use Rattle.end_model.specs.End.{recovered_by};
ghost use Rattle.id_table.specs.Ids.{ids_of};
ghost use Rattle.tunnel_core.specs.Cores.{tunnel_of};
ghost use Rattle.tunnel_listing.specs.declared.listed.Wanted.TheVariants as wanted;
ghost use Rattle.tunnel_listing.specs.Listed.{listed_as, AreListed};
ghost use Rattle.tunnel_listing.specs.Directory.{listed_at, found_in, relisted};

use crate::kept::KeptTunnel;
use crate::listing::listed_of;
use end_model::Role;
use id_table::Table;
use std::alloc::Global;
use std::marker::Model;
use std::mem;
use std::sync::{Arc, Mutex};
use tunnel_listing::{Directory, Listed};
use wire_base::NoMemory;

/// A tunnel behind its lock.
#[derive(Drop)]
pub struct Place {
    pub(crate) tunnel: Arc<Mutex<KeptTunnel>>,
}

/// The tunnels of an end by local id, each behind a lock of its own, and what each is found by.
#[derive(Drop)]
pub struct Tunnels {
    directory: Directory,
    places: Table<Place>,
    /// A moment before which no tick does anything for those that were put since it was taken out, in milliseconds.
    due: u64,
}

impl Model for Tunnels {
    ghost use Rattle.id_table.specs.Order.{Ascends};
    ghost use Rattle.locked_tunnels.specs.Standing.{Standing, AreSame};

    ghost Value = { Standing };

    ghost view = { λ t. record { directory = t.directory; places = t.places } };

    ghost invariant = { λ t. AreSame t.directory t.places × Ascends t.places.entries };
}

impl Tunnels {
    /// The table of an end of this kind without a tunnel. `lns` is the address of a LAC's LNS, an IPv4 address as a number; 0 at an
    /// LNS.
    pub fn new(alloc: Global, role: Role, lns: u32) -> Result<Tunnels, NoMemory>
        ensures role { IfOk result (λ t. t.directory.role ≡ role) }
        ensures lns { IfOk result (λ t. t.directory.lns ≡ lns) }
        ensures none { IfOk result (λ t. t.directory.places.entries ≡ []) }
    {
        Ok(Tunnels {
            directory: Directory::new(alloc, role, lns)?,
            places: Table::new(alloc),
            due: u64::MAX,
        })
    }

    /// How the tunnels are listed.
    pub fn directory(&self) -> &Directory
        ensures { result.now ≡ self.now.directory }
    {
        &self.directory
    }

    /// Whether this is the id of a tunnel, or that of the recovery tunnel of one: of an attempt or of an answer.
    pub fn holds(&self, id: u16) -> bool
        ensures found { result ≡ (is_some (at self.now.directory.places.entries id) || is_some (found_in self.now.directory (wanted.Recovered id))) }
        ensures end { (ts : List (ℕ × Tunnel)) → AreListed (λ i. listed_at self.now.directory.places.entries i) (ids_of self.now.directory.places.entries) ts → (is_some (at ts id) || is_some (recovered_by id ts)) ≡ result }
    {
        self.directory.holds(id)
    }

    /// The tunnel with this local id behind its lock, where there is one.
    pub fn find(&self, id: u32) -> Result<Option<Arc<Mutex<KeptTunnel>>>, NoMemory>
        ensures { IfOk result (λ found. is_some found ≡ is_some (at self.now.directory.places.entries id)) }
    {
        match self.places.get(id) {
            None => Ok(None),
            Some(place) => Ok(Some(Arc::try_clone(&place.tunnel)?)),
        }
    }

    /// Makes room for a tunnel that is to be put at an id. Where memory is wanting, the tunnels are as before.
    pub(crate) fn make_room(&mut self, id: u16, listed: Listed) -> Result<(), NoMemory>
        ensures role { self.new.directory.role ≡ self.old.directory.role }
        ensures lns { self.new.directory.lns ≡ self.old.directory.lns }
        ensures listed { self.new.directory.places.entries ≡ self.old.directory.places.entries }
        ensures listed_room { OnOk result (HasRoom self.new.directory.places id) }
        ensures room { OnOk result (HasRoom self.new.places id) }
    {
        self.directory.make_room(id, listed)?;
        self.places.make_room(u32::from(id))
    }

    /// Puts a tunnel at an id that has room, listed as it was after so many of its turns. Before this moment, in milliseconds, no tick does
    /// anything for it.
    pub(crate) fn put(&mut self, id: u16, listed: Listed, turns: u64, due: u64, place: Place)
        requires { HasRoom self.old.directory.places id × HasRoom self.old.places id }
        ensures role { self.new.directory.role ≡ self.old.directory.role }
        ensures lns { self.new.directory.lns ≡ self.old.directory.lns }
        ensures listed { self.new.directory.places.entries ≡ put self.old.directory.places.entries id (record { listed = listed; turns = turns }) }
    {
        self.due = self.due.min(due);
        self.directory.put(id, listed, turns);
        self.places.fill(u32::from(id), place);
    }

    /// Puts a tunnel that was kept over a start at its local id. Where memory is wanting, it is let go, and the tunnels are as before.
    #[tactic(auto, using(crate::proofs::Places::listed_new, crate::proofs::Places::others_listed))]
    pub fn insert(&mut self, kept: KeptTunnel) -> Result<(), NoMemory>
        ensures role { self.new.directory.role ≡ self.old.directory.role }
        ensures lns { self.new.directory.lns ≡ self.old.directory.lns }
        ensures listed { OnOk result (listed_at self.new.directory.places.entries kept.core.control.local ≡ Some (listed_as (tunnel_of kept.core))) }
        ensures others { OnOk result ((i : ℕ) → i ≢ kept.core.control.local → listed_at self.new.directory.places.entries i ≡ listed_at self.old.directory.places.entries i) }
        ensures same { OnErr result (self.new.directory.places.entries ≡ self.old.directory.places.entries) }
    {
        let id = kept.core().control().local;
        let listed = listed_of(kept.core());
        let (turns, due) = (kept.turns(), kept.due());
        let tunnel = Arc::new(self.directory.alloc(), Mutex::new(kept))?;
        self.make_room(id, listed)?;
        self.put(id, listed, turns, due, Place { tunnel });
        Ok(())
    }

    /// A moment before which no tick does anything for those that were put since it was taken out last, in milliseconds.
    pub(crate) fn take_due(&mut self) -> u64
        ensures { self.new ≡ self.old }
    {
        mem::replace(&mut self.due, u64::MAX)
    }

    /// Lists the tunnel with this id anew, as it was after so many of its turns, unless it was listed after more of them, and notes the
    /// calls that it made.
    pub(crate) fn list(&mut self, id: u32, listed: Listed, turns: u64, local: u16, added: &[u16])
        ensures role { self.new.directory.role ≡ self.old.directory.role }
        ensures lns { self.new.directory.lns ≡ self.old.directory.lns }
        ensures listed { self.new.directory.places.entries ≡ relisted listed turns id self.old.directory.places.entries (at self.old.directory.places.entries id) }
    {
        self.directory.note(local, added);
        self.directory.list(id, listed, turns);
    }

    /// Notes the calls that a tunnel made. Nothing else is changed.
    pub(crate) fn note(&mut self, local: u16, added: &[u16])
        ensures { self.new ≡ self.old }
    {
        self.directory.note(local, added);
    }

    /// Takes out the tunnel with this id, if there is one.
    pub(crate) fn remove(&mut self, id: u32)
        ensures role { self.new.directory.role ≡ self.old.directory.role }
        ensures lns { self.new.directory.lns ≡ self.old.directory.lns }
        ensures removed { self.new.directory.places.entries ≡ without self.old.directory.places.entries id }
    {
        self.directory.remove(id);
        self.places.remove(id);
    }
}
