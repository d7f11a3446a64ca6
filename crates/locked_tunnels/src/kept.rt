//! A tunnel as it stands behind its lock.

ghost use Rattle.std.specs.Prelude.{◌≡◌, true, false, IfOk, IfSome};
ghost use Rattle.end_model.specs.Calls.{sessions_of};
ghost use Rattle.tunnel_calls.specs.Telling.{rows_of, RowsLead};
ghost use Rattle.tunnel_core.specs.Cores.{tunnel_of, made_of, HasRoomFor};
ghost use Rattle.tunnel_timers.specs.Due.{IsNoLater, tunnel_due};
ghost use Rattle.locked_tunnels.specs.Kept.{Kept, known};
ghost use Rattle.locked_tunnels.specs.Ticking.{TicksIdly};
ghost use Rattle.locked_tunnels.specs.Kinds.{made_by};

mod planning;

use due_laws::early_ticks_do_nothing;
use end_model::Role;
use session_looks::{CellChange, CellChanges};
use std::alloc::Global;
use std::marker::Model;
use std::mem;
use tunnel_core::{Planned, Rows, TunnelCore};
use wire_base::{NoMemory, Pairs, Sequence};

/// Local session ids of calls, in the order in which they were made.
pub(crate) type Added = Sequence<u16>;

/// A tunnel of an end, with what its last turn changed in the looks.
#[derive(Drop)]
pub struct KeptTunnel {
    pub(crate) alloc: Global,
    role: Role,
    core: TunnelCore,
    changes: CellChanges,
    gone: bool,
    /// The calls that the turn made which was planned last.
    added: Added,
    /// How many turns of it were made, as far as 64 bits can tell.
    turns: u64,
}

impl Model for KeptTunnel {
    ghost use Rattle.locked_tunnels.specs.Kept.{Kept};

    ghost Value = { Kept };

    ghost view = { λ k. record { role = k.role; core = k.core; changes = k.changes; gone = k.gone } };
}

impl KeptTunnel {
    /// A tunnel of an end of this kind, with what its last turn changed in the looks: nothing, where it is new. It takes no memory.
    pub fn new(alloc: Global, role: Role, core: TunnelCore, changes: CellChanges) -> KeptTunnel
        ensures { known result ≡ record { role = role; tunnel = tunnel_of core; changes = changes; gone = false } }
    {
        KeptTunnel {
            alloc,
            role,
            core,
            changes,
            gone: false,
            added: Added::new(alloc),
            turns: 0,
        }
    }

    /// Which end it is of.
    pub fn role(&self) -> Role
        ensures { result ≡ self.now.role }
    {
        self.role
    }

    /// The tunnel with its calls.
    pub fn core(&self) -> &TunnelCore
        ensures { result.now ≡ self.now.core }
    {
        &self.core
    }

    /// What its last turn changed in the looks, in order.
    pub fn changes(&self) -> &[CellChange]
        ensures { result.now ≡ self.now.changes }
    {
        self.changes.as_slice()
    }

    /// Whether its last turn removed it: no turn of it is made any more.
    pub fn is_gone(&self) -> bool
        ensures { result ≡ self.now.gone }
    {
        self.gone
    }

    /// The rows of the tables that each live call went through, in order of the session ids.
    pub fn rows(&self) -> Result<Rows, NoMemory>
        ensures { IfOk result (λ rows. rows ≡ rows_of self.now.core.calls.entries) }
    {
        self.core.rows()
    }

    /// The calls that are established, in order of the session ids: each by its own id and the one that the peer assigned.
    pub fn established(&self) -> Result<Pairs, NoMemory>
        ensures { IfOk result (λ pairs. pairs ≡ sessions_of self.now.core.calls.entries) }
    {
        self.core.established()
    }

    /// A law, whoever changed the tunnel: what `rows` tells of each live call are rows of the two tables of calls, which follow on each
    /// other from the state in which the call began, idle or established, and lead to its state.
    pub fn replays(&self)
        ensures { RowsLead self.now.core.calls.entries }
    {
        self.core.replays();
    }

    /// The local session ids of the calls that its last turn made, in the order in which they were drawn.
    pub(crate) fn added(&self) -> &[u16] {
        self.added.as_slice()
    }

    /// The same, taken out.
    pub(crate) fn take_added(&mut self) -> Added
        ensures { self.new ≡ self.old }
    {
        mem::replace(&mut self.added, Added::new(self.alloc))
    }

    /// How many turns of it were made, as far as 64 bits can tell.
    pub(crate) fn turns(&self) -> u64 {
        self.turns
    }

    /// A moment before which a tick does nothing for it, in milliseconds.
    pub(crate) fn due(&self) -> u64
        ensures { IsNoLater result (tunnel_due (tunnel_of self.now.core)) }
    {
        self.core.due()
    }

    /// Whether nothing is due for it yet at a moment, in milliseconds: its tick would do nothing.
    pub(crate) fn is_early(&self, moment: u64) -> bool
        ensures { result ≡ true → TicksIdly (known self.now) moment }
    {
        early_ticks_do_nothing();
        let due = self.due();
        moment < due
    }

    /// Looks at all calls where something was due for one at this moment, so that it is known again when something is. It leaves what the
    /// tunnel stands for.
    pub(crate) fn look_again(&mut self, moment: u64)
        ensures { self.new ≡ self.old }
    {
        self.core.look_again(moment);
    }

    /// Makes the planned turn, which changed this. It takes no memory.
    pub(crate) fn apply(&mut self, planned: Planned, changes: CellChanges)
        requires { HasRoomFor self.old.core planned }
        ensures { known self.new ≡ record { role = self.old.role; tunnel = made_of planned (tunnel_of self.old.core); changes = changes; gone = planned.cleared } }
    {
        self.gone = planned.clears();
        self.core.apply(planned);
        self.changes = changes;
        self.turns = self.turns.saturating_add(1);
    }

    /// Makes the turn that was planned, if any, which changed this in the looks. It takes no memory.
    pub(crate) fn make(&mut self, planned: Option<Planned>, changes: CellChanges)
        requires { IfSome planned (λ p. HasRoomFor self.old.core p) }
        ensures { known self.new ≡ made_by planned changes (known self.old) }
    {
        match planned {
            Some(planned) => self.apply(planned, changes),
            None => self.changes = changes,
        }
    }
}
