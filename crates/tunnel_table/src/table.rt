//! A table of tunnels with its indexes.

ghost use Rattle.std.specs.Prelude.{ℕ, ◌≡◌, ◌≢◌, [], List, length, is_some, IfOk, OnOk, IsSome, IsTrue};
ghost use Rattle.std.specs.Option.{option_copied};
ghost use Rattle.std.specs.List.Sorted.{IsStrictlySortedBy};
ghost use Rattle.std.specs.Ordering.{nat_cmp};
ghost use Rattle.id_table.specs.Ids.{at, ids_of};
ghost use Rattle.id_table.specs.Tables.{HasRoom};
ghost use Rattle.end_model.specs.Tunnels.{Tunnel};
ghost use Rattle.end_model.specs.Turn.{with_turn};
ghost use Rattle.end_model.specs.End.{tunnels_after, is_known, known_as, is_in, least_in, has_line, recovered_by, is_answered, answered_to, is_recovering, are_recovering};
ghost use Rattle.id_table.specs.Order.{Ascends};
ghost use Rattle.std.specs.List.{AllByRecursion};
ghost use Rattle.tunnel_timers.specs.Due.{IsEarly, IsNoLater, LeavesOut, due_at, earliest_at, tunnel_due};
ghost use Rattle.tunnel_core.specs.Cores.{tunnel_of, made_of, HasId, IsTurn, HasRoomFor};
ghost use Rattle.tunnel_table.specs.Labels.{labels_in, AreKept};
ghost use Rattle.tunnel_table.specs.Plans.{turn_at, IsPlanned, IsGiven, HasPlace, after_plan};
ghost use Rattle.tunnel_table.specs.Tunnels.{tunnels_of};

use crate::finding::{first_answered, first_in, first_known, first_recovered, first_recovering};
use crate::indexes::Indexes;
use crate::labels::{Labels, labels_after, labels_of, stays_labelled};
use end_model::{Config, Role};
use id_table::Table;
use std::alloc::Global;
use std::marker::Model;
use tunnel_core::{Env, Planned, Task, TunnelCore};
use tunnel_fsm::TunnelState;
use wire_base::{NoMemory, Sequence};

/// Tunnels by local id, seen as their table. Beside it stand the indexes of all its tunnels.
#[derive(Drop)]
pub struct TunnelTable {
    table: Table<TunnelCore>,
    indexes: Indexes,
    /// A moment before which a tick does nothing for any of them, in milliseconds. As tunnels change it only falls, until they are
    /// looked at again.
    due: u64,
}

impl Model for TunnelTable {
    ghost use Rattle.id_table.specs.Tables.{Kept};
    ghost use Rattle.tunnel_core.specs.Cores.{Core};
    ghost use Rattle.tunnel_table.specs.Labels.{AreKept};
    ghost use Rattle.tunnel_table.specs.Tunnels.{tunnels_of};
    ghost use Rattle.tunnel_timers.specs.Due.{IsNoLater, tunnels_due};

    ghost Value = { Kept Core };

    ghost view = { λ t. t.table };

    ghost invariant = { λ t. AreKept t.indexes (tunnels_of t.table.entries) × IsNoLater t.due (tunnels_due (tunnels_of t.table.entries)) };
}

/// The labels of the tunnel with this id, if there is one.
#[tactic(auto, using(crate::specs::Tunnels::at_tunnels))]
fn labels_at(table: &Table<TunnelCore>, id: u32) -> Option<Labels>
    ensures { result ≡ labels_in (tunnels_of table.now.entries) id }
{
    table.get(id).map(labels_of)
}

/// Makes room in the indexes for what a tunnel becomes by a plan.
fn make_keys(
    indexes: &mut Indexes,
    id: u32,
    core: &TunnelCore,
    planned: &Planned,
) -> Result<(), NoMemory>
    ensures { (ts : List (ℕ × Tunnel)) → AreKept indexes.old ts → AreKept indexes.new ts }
{
    if planned.clears() {
        return Ok(());
    }
    indexes.make_keys(id, &labels_after(core, planned))
}

/// Plans a step of a tunnel, and makes room for what it changes, in the indexes too. What the tunnel stands for is as before.
fn plan_for(
    core: &mut TunnelCore,
    indexes: &mut Indexes,
    role: Role,
    config: &Config,
    env: &mut Env,
    id: u32,
    task: &Task<'_>,
) -> Result<Planned, NoMemory>
    requires { HasId task.now }
    ensures same { tunnel_of core.new ≡ tunnel_of core.old }
    ensures planned { IfOk result (λ p. IsTurn p core.old.recovery (turn_at role config.now task.now env.old (tunnel_of core.old))) }
    ensures room { IfOk result (λ p. HasRoomFor core.new p) }
    ensures given { OnOk result (env.new ≡ with_turn (turn_at role config.now task.now env.old (tunnel_of core.old)).turn env.old) }
    ensures kept { (ts : List (ℕ × Tunnel)) → AreKept indexes.old ts → AreKept indexes.new ts }
{
    let planned = core.plan(role, config, env, task)?;
    if !stays_labelled(core, &planned) {
        make_keys(indexes, id, core, &planned)?;
    }
    Ok(planned)
}

impl TunnelTable {
    /// No tunnels. It takes no memory.
    pub fn new(alloc: Global) -> TunnelTable
        ensures { result.entries ≡ [] }
    {
        TunnelTable {
            table: Table::new(alloc),
            indexes: Indexes::new(alloc),
            due: u64::MAX,
        }
    }

    /// The tunnels by local id, without the indexes.
    pub(crate) fn into_table(self) -> Table<TunnelCore>
        ensures { result ≡ self }
    {
        let TunnelTable { table, .. } = self;
        table
    }

    /// How many tunnels there are.
    pub fn len(&self) -> usize
        ensures { result ≡ length self.now.entries }
    {
        self.table.len()
    }

    /// The tunnel with this local id.
    pub fn get(&self, id: u32) -> Option<&TunnelCore>
        ensures { option_copied result ≡ at self.now.entries id }
    {
        self.table.get(id)
    }

    /// Whether a tunnel has this local id.
    pub fn contains(&self, id: u32) -> bool
        ensures { result ≡ is_some (at self.now.entries id) }
    {
        self.table.contains(id)
    }

    /// The local ids, in order: each is below those after it.
    pub fn ids(&self, alloc: Global) -> Result<Sequence<u32>, NoMemory>
        ensures all { IfOk result (λ ids. ids ≡ ids_of self.now.entries) }
        ensures ascend { IfOk result (λ ids. IsStrictlySortedBy nat_cmp ids) }
    {
        self.table.ids(alloc)
    }

    /// The local ids of the tunnels for which a tick may do something at a moment, in order: each that is left out isn't due. Where
    /// by the tunnels' bounds none is, it takes no memory.
    pub fn ids_due(&self, alloc: Global, moment: u64) -> Result<Sequence<u32>, NoMemory>
        ensures order { Ascends (tunnels_of self.now.entries) }
        ensures others { IfOk result (λ ids. LeavesOut (IsEarly (tunnels_of self.now.entries) moment) (ids_of (tunnels_of self.now.entries)) ids) }
        ensures ascend { IfOk result (λ ids. IsStrictlySortedBy nat_cmp ids) }
        ensures there { IfOk result (λ ids. AllByRecursion (λ i. IsSome (at (tunnels_of self.now.entries) i)) ids) }
    {
        if moment < self.due {
            return Ok(Sequence::new(alloc));
        }
        let ids = self.table.ids(alloc)?;
        those_due(&self.table, alloc, ids.as_slice(), moment)
    }

    /// Looks again at the tunnels, where a tick may do something at this moment, so that it is known when it next does. What the
    /// tunnels stand for is as before. Where memory is wanting, they are looked at with the next tick.
    pub fn look_again(&mut self, alloc: Global, moment: u64)
        ensures { tunnels_of self.new.entries ≡ tunnels_of self.old.entries }
    {
        if moment < self.due {
            return;
        }
        let Ok(ids) = self.table.ids(alloc) else {
            return;
        };
        look_at_all(&mut self.table, ids.as_slice(), moment);
        self.due = earliest_due(&self.table, ids.as_slice());
    }

    /// Plans a step of the tunnel with this id about this, and makes room for all that it changes. What the tunnels stand for is as before.
    pub fn plan(
        &mut self,
        role: Role,
        config: &Config,
        env: &mut Env,
        id: u32,
        task: &Task<'_>,
    ) -> Result<Planned, NoMemory>
        requires there { IsSome (at self.old.entries id) }
        requires id { HasId task.now }
        ensures same { tunnels_of self.new.entries ≡ tunnels_of self.old.entries }
        ensures others { (q : ℕ) → q ≢ id → at self.new.entries q ≡ at self.old.entries q }
        ensures planned { IfOk result (λ p. IsPlanned role config.now task.now env.old (at (tunnels_of self.old.entries) id) p) }
        ensures place { IfOk result (λ p. HasPlace self.new (id, p)) }
        ensures given { OnOk result (IsGiven role config.now task.now env.old (at (tunnels_of self.old.entries) id) env.new) }
    {
        let Some(core) = self.table.get_mut(id) else {
            unreachable!()
        };
        plan_for(core, &mut self.indexes, role, config, env, id, task)
    }

    /// Makes what was planned for the tunnel with this id. It takes no memory.
    pub fn make(&mut self, id: u32, planned: Planned)
        requires { HasPlace self.old (id, planned) }
        ensures made { tunnels_of self.new.entries ≡ after_plan (tunnels_of self.old.entries) (id, planned) (at (tunnels_of self.old.entries) id) }
        ensures others { (q : ℕ) → q ≢ id → at self.new.entries q ≡ at self.old.entries q }
    {
        if planned.clears() {
            let before = labels_at(&self.table, id);
            self.indexes.unlist(id, &before);
            self.table.remove(id);
            return;
        }
        let Some(core) = self.table.get_mut(id) else {
            unreachable!()
        };
        self.indexes.list_after(id, core, &planned);
        core.apply(planned);
        self.due = self.due.min(core.due());
    }

    /// Makes room for a tunnel that is new, for which this is planned. Where memory is wanting, the tunnels are as before.
    pub fn make_room(
        &mut self,
        id: u32,
        core: &TunnelCore,
        planned: &Planned,
    ) -> Result<(), NoMemory>
        ensures entries { self.new.entries ≡ self.old.entries }
        ensures made { OnOk result (HasRoom self.new id) }
    {
        make_keys(&mut self.indexes, id, core, planned)?;
        self.table.make_room(id)
    }

    /// Puts a tunnel that is new at an id that has room after what was planned for it, or leaves it out where the step removes
    /// it. It takes no memory where room was made for what is planned.
    pub fn make_new(&mut self, id: u32, core: TunnelCore, planned: Planned)
        requires planned { HasRoomFor core planned }
        requires room { HasRoom self.old id }
        ensures { tunnels_of self.new.entries ≡ tunnels_after (tunnels_of self.old.entries) id planned.cleared (made_of planned (tunnel_of core)) }
    {
        let before = labels_at(&self.table, id);
        if planned.clears() {
            self.indexes.unlist(id, &before);
            self.table.remove(id);
            return;
        }
        let after = labels_after(&core, &planned);
        self.indexes.list(id, &before, &after);
        let mut core = core;
        core.apply(planned);
        self.due = self.due.min(core.due());
        self.table.fill(id, core);
    }

    /// The least tunnel to a peer that has assigned this id. The index tells it in time in proportion to the logarithm of the
    /// number of tunnels. They are looked through only where it doesn't, as where memory was wanting for a step.
    #[tactic(auto, using(crate::specs::Tunnels::ids_tunnels), unfolding(end_model::specs::End::known_as))]
    pub fn known_as(&self, alloc: Global, peer: u32, remote: u16) -> Result<Option<u32>, NoMemory>
        ensures { IfOk result (λ found. found ≡ known_as peer remote (tunnels_of self.now.entries)) }
    {
        if let Some(id) = self.indexes.first_known(peer, remote) {
            return Ok(id);
        }
        let ids = self.table.ids(alloc)?;
        Ok(first_known(&self.table, peer, remote, ids.as_slice()))
    }

    /// The least current tunnel to a peer that is in a state, as fast.
    #[tactic(auto, using(crate::specs::Tunnels::ids_tunnels), unfolding(end_model::specs::End::least_in))]
    pub fn least_in(
        &self,
        alloc: Global,
        state: TunnelState,
        peer: u32,
    ) -> Result<Option<u32>, NoMemory>
        ensures { IfOk result (λ found. found ≡ least_in state peer (tunnels_of self.now.entries)) }
    {
        if let Some(id) = self.indexes.first_in(state, peer) {
            return Ok(id);
        }
        let ids = self.table.ids(alloc)?;
        Ok(first_in(&self.table, state, peer, ids.as_slice()))
    }

    /// The tunnel whose recovery tunnel has this local id, as fast.
    #[tactic(auto, using(crate::specs::Tunnels::ids_tunnels), unfolding(end_model::specs::End::recovered_by))]
    pub fn recovered_by(&self, alloc: Global, line: u16) -> Result<Option<u32>, NoMemory>
        ensures { IfOk result (λ found. found ≡ recovered_by line (tunnels_of self.now.entries)) }
    {
        if let Some(id) = self.indexes.first_recovered(line) {
            return Ok(id);
        }
        let ids = self.table.ids(alloc)?;
        Ok(first_recovered(&self.table, line, ids.as_slice()))
    }

    /// The tunnel whose end answers the attempt of a peer with this id, as fast.
    #[tactic(auto, using(crate::specs::Tunnels::ids_tunnels), unfolding(end_model::specs::End::answered_to))]
    pub fn answered_to(
        &self,
        alloc: Global,
        peer: u32,
        remote: u16,
    ) -> Result<Option<u32>, NoMemory>
        ensures { IfOk result (λ found. found ≡ answered_to peer remote (tunnels_of self.now.entries)) }
    {
        if let Some(id) = self.indexes.first_answered(peer, remote) {
            return Ok(id);
        }
        let ids = self.table.ids(alloc)?;
        Ok(first_answered(&self.table, peer, remote, ids.as_slice()))
    }

    /// Whether a tunnel to a peer is frozen or restored, as fast.
    #[tactic(auto, using(crate::specs::Tunnels::ids_tunnels), unfolding(end_model::specs::End::are_recovering))]
    pub fn are_recovering(&self, alloc: Global, peer: u32) -> Result<bool, NoMemory>
        ensures { IfOk result (λ found. found ≡ are_recovering peer (tunnels_of self.now.entries)) }
    {
        if let Some(found) = self.indexes.has_recovering(peer) {
            return Ok(found);
        }
        let ids = self.table.ids(alloc)?;
        Ok(first_recovering(&self.table, peer, ids.as_slice()).is_some())
    }
}

/// Whether a tick does nothing for the tunnel with this id, as far as it is known.
#[tactic(auto, using(crate::specs::Tunnels::at_tunnels))]
fn is_early(table: &Table<TunnelCore>, id: u32, moment: u64) -> bool
    ensures { IsTrue result → IsEarly (tunnels_of table.now.entries) moment id }
{
    match table.get(id) {
        Some(core) => moment < core.due(),
        None => true,
    }
}

/// Those of these tunnels for which a tick may do something.
fn those_due(
    table: &Table<TunnelCore>,
    alloc: Global,
    ids: &[u32],
    moment: u64,
) -> Result<Sequence<u32>, NoMemory>
    ensures { IfOk result (λ due. LeavesOut (IsEarly (tunnels_of table.now.entries) moment) ids.now due) }
{
    let mut due = Sequence::new(alloc);
    for id in ids {
        if !is_early(table, *id, moment) {
            due.push(*id)?;
        }
    }
    Ok(due)
}

/// When a tick next does something for the tunnel with this id, or earlier.
#[tactic(auto, using(crate::specs::Tunnels::at_tunnels))]
fn due_at(table: &Table<TunnelCore>, id: u32) -> u64
    ensures { IsNoLater result (due_at (λ t. tunnel_due t.1) id (at (tunnels_of table.now.entries) id)) }
{
    match table.get(id) {
        Some(core) => core.due(),
        None => u64::MAX,
    }
}

/// When a tick next does something for one of these tunnels, or earlier.
fn earliest_due(table: &Table<TunnelCore>, ids: &[u32]) -> u64
    ensures { IsNoLater result (earliest_at (λ t. tunnel_due t.1) (tunnels_of table.now.entries) ids.now) }
{
    let mut due = u64::MAX;
    for id in ids {
        due = due.min(due_at(table, *id));
    }
    due
}

/// Looks at the calls of a tunnel again, where something may be due for one of them.
fn look_at(table: &mut Table<TunnelCore>, id: u32, moment: u64)
    requires { Ascends (tunnels_of table.old.entries) }
    ensures { tunnels_of table.new.entries ≡ tunnels_of table.old.entries }
{
    if let Some(core) = table.get_mut(id) {
        core.look_again(moment);
    }
}

/// Looks at the calls of these tunnels again.
fn look_at_all(table: &mut Table<TunnelCore>, ids: &[u32], moment: u64)
    requires { Ascends (tunnels_of table.old.entries) }
    ensures { tunnels_of table.new.entries ≡ tunnels_of table.old.entries }
{
    for id in ids {
        look_at(table, *id, moment);
    }
}
