//! The list of the tunnels of an end, as they were listed last.

ghost use Rattle.std.specs.Prelude.{ℕ, List, ◌≡◌, ◌||◌, is_some, nat_le, length, [], None, IfOk, OnOk};
ghost use Rattle.std.specs.Option.{option_copied};
ghost use Rattle.id_table.specs.Ids.{at, put, without, ids_of};
ghost use Rattle.id_table.specs.Tables.{HasRoom};
ghost use Rattle.end_model.specs.Tunnels.{Tunnel};
ghost use Rattle.end_model.specs.End.{recovered_by};
ghost use Rattle.tunnel_listing.specs.Listed.{is_wanted_at, least_of, AreListed};
ghost use Rattle.tunnel_listing.specs.Labels.{IsFirstWanted};
ghost use Rattle.tunnel_listing.specs.Directory.{listed_at, found_in, relisted, replaced, IsNarrow};

use crate::indexes::Indexes;
use crate::listed::{Listed, Wanted, is_wanted};
use end_model::Role;
use id_table::Table;
use std::alloc::Global;
use std::marker::Model;
use wire_base::{NoMemory, Sequence};

/// How many live tunnels an end may have.
const MOST_TUNNELS: usize = 1024;

/// Ids of tunnels are below this.
const ALL_IDS: u32 = 65_536;

/// Ids of sessions are below this.
const ALL_SESSIONS: usize = 65_536;

/// How a tunnel is listed.
#[derive(Clone, Copy)]
pub struct Entry {
    pub listed: Listed,
    /// How many turns of the tunnel were made when it was listed so.
    pub turns: u64,
}

/// The tunnels of an end by local id, as they were listed last, with the indexes by which they are found.
#[derive(Drop)]
pub struct Directory {
    alloc: Global,
    role: Role,
    lns: u32,
    entries: Table<Entry>,
    indexes: Indexes,
    /// By session id the local id of the tunnel whose call it is or was, 0 where there was none. Session ids aren't drawn again.
    homes: Vec<u16>,
}

impl Model for Directory {
    ghost use Rattle.tunnel_listing.specs.Labels.{AreIndexed};
    ghost use Rattle.id_table.specs.Order.{Ascends};
    ghost use Rattle.tunnel_listing.specs.Directory.{Directory as Known, listed_at, IsNarrow};

    ghost Value = { Known };

    ghost view = { λ d. record { role = d.role; lns = d.lns; places = d.entries } };

    ghost invariant = { λ d. AreIndexed d.indexes (λ i. listed_at d.entries.entries i) × Ascends d.entries.entries × IsNarrow d.entries.entries };
}

/// How the tunnel with this id is listed, if there is one.
fn listed_in(places: &Table<Entry>, id: u32) -> Option<Listed>
    ensures { result ≡ listed_at places.now.entries id }
{
    match places.get(id) {
        None => None,
        Some(place) => Some(place.listed),
    }
}

/// Whether a tunnel with this id is listed, and is one that is looked for.
fn is_wanted_in(places: &Table<Entry>, id: u32, wanted: Wanted) -> bool
    ensures { result ≡ is_wanted_at wanted (listed_at places.now.entries id) }
{
    match places.get(id) {
        None => false,
        Some(place) => is_wanted(wanted, &place.listed),
    }
}

/// How the tunnel of this place is listed, where it wasn't listed after more turns.
fn replaced(place: Option<&Entry>, turns: u64) -> Option<Listed>
    ensures { result ≡ replaced turns (option_copied place.entry) }
{
    match place {
        Some(place) if place.turns <= turns => Some(place.listed),
        Some(_) | None => None,
    }
}

/// Lists the tunnel with this id anew, as it was after so many of its turns, unless it was listed after more of them: how it was listed
/// before, where it is listed anew.
fn list_in(places: &mut Table<Entry>, id: u32, listed: Listed, turns: u64) -> Option<Listed>
    ensures listed { places.new.entries ≡ relisted listed turns id places.old.entries (at places.old.entries id) }
    ensures before { result ≡ replaced turns (at places.old.entries id) }
{
    let before = replaced(places.get(id), turns)?;
    let Some(place) = places.get_mut(id) else {
        unreachable!()
    };
    place.listed = listed;
    place.turns = turns;
    Some(before)
}

/// The least tunnel that is looked for, by a look at each id. It takes no memory.
fn look_through(places: &Table<Entry>, wanted: Wanted) -> Option<u32>
    requires { IsNarrow places.now.entries }
    ensures { IsFirstWanted wanted (λ i. listed_at places.now.entries i) result }
{
    for id in 0..ALL_IDS {
        if is_wanted_in(places, id, wanted) {
            return Some(id);
        }
    }
    None
}

/// Notes of these sessions that they are calls of a tunnel.
fn note_all(homes: &mut Vec<u16>, tunnel: u16, sessions: &[u16]) {
    for session in sessions {
        if let Some(home) = homes.get_mut(usize::from(*session)) {
            *home = tunnel;
        }
    }
}

impl Directory {
    /// The list of an end of this kind without a tunnel. `lns` is the address of a LAC's LNS, an IPv4 address as a number; 0 at an
    /// LNS.
    pub fn new(alloc: Global, role: Role, lns: u32) -> Result<Directory, NoMemory>
        ensures role { IfOk result (λ t. t.role ≡ role) }
        ensures lns { IfOk result (λ t. t.lns ≡ lns) }
        ensures places { IfOk result (λ t. t.places.entries ≡ []) }
    {
        Ok(Directory {
            alloc,
            role,
            lns,
            entries: Table::new(alloc),
            indexes: Indexes::new(alloc),
            homes: vec![in alloc; 0; ALL_SESSIONS]?,
        })
    }

    /// What it takes its memory from.
    pub fn alloc(&self) -> Global {
        self.alloc
    }

    /// Which end it is of.
    pub fn role(&self) -> Role
        ensures { result ≡ self.now.role }
    {
        self.role
    }

    /// The address of a LAC's LNS, an IPv4 address as a number; 0 at an LNS.
    pub fn lns(&self) -> u32
        ensures { result ≡ self.now.lns }
    {
        self.lns
    }

    /// The local ids of the tunnels, in order.
    pub fn ids(&self) -> Result<Sequence<u32>, NoMemory>
        ensures { IfOk result (λ ids. ids ≡ ids_of self.now.places.entries) }
    {
        self.entries.ids(self.alloc)
    }

    /// Whether a tunnel with this local id is listed.
    pub fn contains(&self, id: u32) -> bool
        ensures { result ≡ is_some (at self.now.places.entries id) }
    {
        self.entries.contains(id)
    }

    /// How the tunnel with this local id is listed, where there is one.
    pub fn listed(&self, id: u32) -> Option<Listed>
        ensures { result ≡ listed_at self.now.places.entries id }
    {
        listed_in(&self.entries, id)
    }

    /// The least tunnel that is looked for, as the tunnels are listed: that which an end would find among its tunnels that
    /// are all listed as they are. The indexes tell it in time in proportion to the logarithm of the number of tunnels. Each id is looked at only
    /// where they don't, after memory was wanting as a tunnel was listed. It takes no memory.
    #[tactic(auto, using(crate::proofs::Finding::least_is))]
    pub fn least(&self, wanted: Wanted) -> Option<u32>
        ensures found { result ≡ found_in self.now wanted }
        ensures end { (ts : List (ℕ × Tunnel)) → AreListed (λ i. listed_at self.now.places.entries i) (ids_of self.now.places.entries) ts → least_of wanted ts ≡ result }
    {
        match self.indexes.first(wanted) {
            Some(found) => found,
            None => look_through(&self.entries, wanted),
        }
    }

    /// Whether this is the id of a tunnel, or that of the recovery tunnel of one: of an attempt or of an answer.
    pub fn holds(&self, id: u16) -> bool
        ensures found { result ≡ (is_some (at self.now.places.entries id) || is_some (found_in self.now (Wanted.Recovered id))) }
        ensures end { (ts : List (ℕ × Tunnel)) → AreListed (λ i. listed_at self.now.places.entries i) (ids_of self.now.places.entries) ts → (is_some (at ts id) || is_some (recovered_by id ts)) ≡ result }
    {
        let main = self.contains(u32::from(id));
        main || self.least(Wanted::Recovered { line: id }).is_some()
    }

    /// Whether the end has as many tunnels as it may.
    pub fn is_full(&self) -> bool
        ensures { result ≡ nat_le 1024 (length self.now.places.entries) }
    {
        self.entries.len() >= MOST_TUNNELS
    }

    /// Makes room for a tunnel that is to be put at an id. Where memory is wanting, the tunnels are as before.
    pub fn make_room(&mut self, id: u16, listed: Listed) -> Result<(), NoMemory>
        ensures role { self.new.role ≡ self.old.role }
        ensures lns { self.new.lns ≡ self.old.lns }
        ensures places { self.new.places.entries ≡ self.old.places.entries }
        ensures room { OnOk result (HasRoom self.new.places id) }
    {
        let id = u32::from(id);
        self.indexes.make_room(id, &Some(listed))?;
        self.entries.make_room(id)
    }

    /// Lists a tunnel at an id that has room, as it was after so many of its turns. It takes no memory where room was made for it in the
    /// indexes too.
    pub fn put(&mut self, id: u16, listed: Listed, turns: u64)
        requires { HasRoom self.old.places id }
        ensures role { self.new.role ≡ self.old.role }
        ensures lns { self.new.lns ≡ self.old.lns }
        ensures put { self.new.places.entries ≡ put self.old.places.entries id (record { listed = listed; turns = turns }) }
    {
        let id = u32::from(id);
        let before = listed_in(&self.entries, id);
        self.indexes.change(id, &before, &Some(listed));
        self.entries.fill(id, Entry { listed, turns });
    }

    /// Notes the calls that a tunnel with this local id made. Nothing else is changed.
    pub fn note(&mut self, tunnel: u16, added: &[u16])
        ensures { self.new ≡ self.old }
    {
        note_all(&mut self.homes, tunnel, added);
    }

    /// The local id of the tunnel that made the call with this session id, 0 where none did. Both may be gone.
    pub fn home(&self, session: u16) -> u32 {
        match self.homes.get(usize::from(session)) {
            Some(tunnel) => u32::from(*tunnel),
            None => 0,
        }
    }

    /// Lists the tunnel with this id anew, as it was after so many of its turns, unless it was listed after more of them. Nothing else
    /// is changed.
    pub fn list(&mut self, id: u32, listed: Listed, turns: u64)
        ensures role { self.new.role ≡ self.old.role }
        ensures lns { self.new.lns ≡ self.old.lns }
        ensures listed { self.new.places.entries ≡ relisted listed turns id self.old.places.entries (at self.old.places.entries id) }
    {
        if let Some(before) = list_in(&mut self.entries, id, listed, turns) {
            self.indexes.change(id, &Some(before), &Some(listed));
        }
    }

    /// Takes out the tunnel with this id, if there is one.
    pub fn remove(&mut self, id: u32)
        ensures role { self.new.role ≡ self.old.role }
        ensures lns { self.new.lns ≡ self.old.lns }
        ensures removed { self.new.places.entries ≡ without self.old.places.entries id }
        ensures gone { at self.new.places.entries id ≡ None }
    {
        let before = listed_in(&self.entries, id);
        self.indexes.change(id, &before, &None);
        self.entries.remove(id);
    }
}
