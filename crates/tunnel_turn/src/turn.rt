//! A tunnel in a step, with what the step gives so far. What the tunnel stands for is changed only afterwards.

ghost use Rattle.std.specs.Prelude.{◌≡◌, ◌≤◌, ◌<◌, IfOk, OnOk, true};
ghost use Rattle.id_source.specs.Spaces.{takes_id};
ghost use Rattle.end_model.specs.Tunnels.{turn_of};
ghost use Rattle.end_model.specs.Turn.{with_output, with_move, with_change, with_call, with_new, drops, ends_call, ends_all};
ghost use Rattle.end_model.specs.Openings.{with_local};
ghost use Rattle.tunnel_calls.specs.Replays.{replays};

use crate::env::{Env, Moves, Outputs};
use end_model::{Call, Control, Mode, Move, Out};
use id_source::{IdError, Ids};
use session_looks::{CellChange, CellChanges};
use session_query::Query;
use std::alloc::Global;
use std::marker::Model;
use wire_base::{Letter, NoMemory, Sequence, Why};

/// Calls with their sessions; a call that ended isn't there any more.
pub type Changed = Sequence<(u32, Option<Call>)>;

/// Letters that a step gives to a channel.
pub type Given = Sequence<Letter>;

/// A tunnel in a step, with what the step gave so far.
#[derive(Drop)]
pub struct Turn {
    pub alloc: Global,
    /// The moment of the step, in milliseconds, and its random block.
    pub moment: u64,
    pub block: [u8; 16],
    /// The mode that the tunnel had before the step.
    pub mode: Mode,
    pub control: Control,
    /// The sessions that the tunnel asks for since its last reset.
    pub query: Query,
    /// The letters that the step gave to the channel, in order.
    pub given: Given,
    /// How many of the tunnel's letters the step's Nr acknowledged.
    pub acked: usize,
    /// Whether the step took a letter of the peer.
    pub took: bool,
    /// Whether the step removed the tunnel.
    pub cleared: bool,
    /// The calls that the step made, changed or ended, with their sessions, in order.
    pub changed: Changed,
    /// The sessions of the calls that it made, and of those that it ended.
    pub added: Sequence<u16>,
    pub ended: Sequence<u32>,
    pub tunnels: Ids,
    pub sessions: Ids,
    pub recoveries: Ids,
    pub outputs: Outputs,
    pub changes: CellChanges,
    pub moves: Moves,
}

impl Model for Turn {
    ghost use Rattle.std.specs.Prelude.{◌≤◌};
    ghost use Rattle.end_model.specs.Tunnels.{Turn as Known};
    ghost use Rattle.tunnel_turn.specs.Changes.{AllCallsReplay};

    ghost Value = { Known };

    ghost view = { λ t. record { on = record { moment = t.moment; block = t.block; mode = t.mode }; ids = record { tunnels = t.tunnels; sessions = t.sessions; recoveries = t.recoveries }; control = t.control; query = t.query; given = t.given; acked = t.acked; took = t.took; cleared = t.cleared; changed = t.changed; added = t.added; outputs = t.outputs; changes = t.changes; moves = t.moves } };

    ghost invariant = { λ t. (t.tunnels.last ≤ 65535) × (t.sessions.last ≤ 65535) × AllCallsReplay t.changed };
}

impl Turn {
    /// A turn of a tunnel, in which nothing is done so far.
    pub fn new(alloc: Global, control: Control, query: Query, mode: Mode, env: &Env) -> Turn
        ensures { result ≡ record (turn_of control (record env.now { on = record env.now.on { mode = mode } })) { query = query } }
    {
        Turn {
            alloc,
            moment: env.moment,
            block: env.block,
            mode,
            control,
            query,
            given: Given::new(alloc),
            acked: 0,
            took: false,
            cleared: false,
            changed: Changed::new(alloc),
            added: Sequence::new(alloc),
            ended: Sequence::new(alloc),
            tunnels: env.tunnels,
            sessions: env.sessions,
            recoveries: env.recoveries,
            outputs: Outputs::new(alloc),
            changes: CellChanges::new(alloc),
            moves: Moves::new(alloc),
        }
    }

    /// Gives an output, behind the others.
    #[tactic(auto, unfolding(end_model::specs::Turn::with_output))]
    pub fn output(&mut self, out: Out) -> Result<(), NoMemory>
        ensures value { OnOk result (self.new ≡ with_output out self.old) }
        ensures same { self.new.control ≡ self.old.control }
    {
        self.outputs.push(out)
    }

    /// Tells what was done, behind what was done before.
    #[tactic(auto, unfolding(end_model::specs::Turn::with_move))]
    pub fn did(&mut self, done: Move) -> Result<(), NoMemory>
        ensures value { OnOk result (self.new ≡ with_move done self.old) }
        ensures same { self.new.control ≡ self.old.control }
    {
        self.moves.push(done)
    }

    /// Changes what is seen of a session.
    #[tactic(auto, unfolding(end_model::specs::Turn::with_change))]
    pub fn look(&mut self, change: CellChange) -> Result<(), NoMemory>
        ensures value { OnOk result (self.new ≡ with_change change self.old) }
        ensures same { self.new.control ≡ self.old.control }
    {
        self.changes.push(change)
    }

    /// The call of a session is another one from here on.
    #[tactic(auto, unfolding(end_model::specs::Turn::with_call))]
    pub fn change(&mut self, session: u16, call: Call) -> Result<(), NoMemory>
        requires { replays call ≡ true }
        ensures value { OnOk result (self.new ≡ with_call session call self.old) }
        ensures same { self.new.control ≡ self.old.control }
    {
        self.changed.push((u32::from(session), Some(call)))
    }

    /// A call is made, whose session is drawn.
    #[tactic(auto, unfolding(end_model::specs::Turn::with_new))]
    pub fn make(&mut self, session: u16, call: Call) -> Result<(), NoMemory>
        requires { replays call ≡ true }
        ensures value { OnOk result (self.new ≡ with_new session call self.old) }
        ensures same { self.new.control ≡ self.old.control }
    {
        let _drawn = self.sessions.take();
        self.added.push(session)?;
        self.changed.push((u32::from(session), Some(call)))
    }

    /// A call ends: it isn't there any more, and nothing is seen of it.
    #[tactic(auto, unfolding(end_model::specs::Turn::ends_call, end_model::specs::Turn::with_change, end_model::specs::Turn::with_output))]
    pub fn end_call(&mut self, session: u32) -> Result<(), NoMemory>
        ensures value { OnOk result (self.new ≡ ends_call session self.old) }
        ensures same { self.new.control ≡ self.old.control }
    {
        self.ended.push(session)?;
        self.changed.push((session, None))?;
        self.changes.push(CellChange::Kill { session })?;
        self.outputs.push(Out::Gone { session })
    }

    /// Each of these calls ends.
    #[tactic(auto, unfolding(end_model::specs::Turn::ends_all))]
    pub fn end_all(&mut self, sessions: &[u32]) -> Result<(), NoMemory>
        ensures value { OnOk result (self.new ≡ ends_all sessions.now self.old) }
        ensures same { self.new.control ≡ self.old.control }
    {
        for session in sessions {
            self.end_call(*session)?;
        }
        Ok(())
    }

    /// Ignores the input, and tells why.
    #[tactic(auto, unfolding(end_model::specs::Turn::drops))]
    pub fn drop_with(&mut self, why: Why) -> Result<(), NoMemory>
        ensures { OnOk result (self.new ≡ drops why self.old) }
    {
        self.output(Out::Drop { why })
    }

    /// The next tunnel id, which isn't drawn yet.
    pub fn next_tunnel(&self) -> Result<u32, IdError>
        ensures value { result ≡ takes_id self.now.ids.tunnels }
        ensures fits { IfOk result (λ id. (0 < id) × (id ≤ 65535)) }
    {
        let mut ids = self.tunnels;
        ids.take()
    }

    /// The next session id, which isn't drawn yet.
    pub fn next_session(&self) -> Result<u32, IdError>
        ensures value { result ≡ takes_id self.now.ids.sessions }
        ensures fits { IfOk result (λ id. (0 < id) × (id ≤ 65535)) }
    {
        let mut ids = self.sessions;
        ids.take()
    }

    /// The tunnel gets the id that is drawn.
    #[tactic(auto, unfolding(end_model::specs::Openings::with_local))]
    pub fn draw_tunnel(&mut self, local: u16)
        ensures value { self.new ≡ with_local local self.old }
        ensures same { self.new.control.channel ≡ self.old.control.channel }
    {
        let _drawn = self.tunnels.take();
        self.control.local = local;
    }
}
