//! A tunnel with its calls: an event is planned, and then made.

ghost use Rattle.std.specs.Prelude.{◌≡◌, ◌≤◌, ◌<◌, ◌++◌, length, false, option_map, unwrap_or, OnOk, OnErr, IfOk};
ghost use Rattle.end_model.specs.Sending.{settles};
ghost use Rattle.end_model.specs.Hearing.{first_said};
ghost use Rattle.std.specs.Option.{option_copied};
ghost use Rattle.session_query.specs.Queries.{is_complete};
ghost use Rattle.end_model.specs.Calls.{sessions_of};
ghost use Rattle.end_model.specs.Openings.{fresh};
ghost use Rattle.end_model.specs.Starting.{kept_control};
ghost use Rattle.end_model.specs.Tunnels.{new_tunnel, turn_of, turn_in, mode_of};
ghost use Rattle.end_model.specs.Turn.{with_turn};
ghost use Rattle.end_model.specs.Events.{with_calls, tunnel_after};
ghost use Rattle.tunnel_timers.specs.Due.{IsNoLater, tunnel_due};
ghost use Rattle.tunnel_calls.specs.Telling.{rows_of, RowsLead};
ghost use Rattle.tunnel_turn.specs.Changes.{AllCallsReplay};
ghost use Rattle.tunnel_core.specs.Cores.{tunnel_of, made_of, recovery_after, task_turn, beside, HasId, AllHaveRoom, HasRoomFor, IsTurn};

use crate::becoming::Becomes;
use crate::hearing::hear_opening;
use crate::task::Task;
use crate::tasks::run_task;
use control_channel::ChannelNumbers;
use control_message::Message;
use end_model::{Call, Config, Control, Mode, Role};
use id_table::Table;
use recovery_tunnel::Recovering;
use send_window::Letters;
use session_book::BookTunnel;
use session_query::Query;
use std::alloc::Global;
use std::marker::Model;
use tunnel_calls::{Rows, TunnelCalls};
use tunnel_fsm::TunnelState;
use tunnel_timers::{channel_due, recovery_due};
use tunnel_turn::env::Env;
use tunnel_turn::turn::{Changed, Given, Turn};
use wire_base::{NoMemory, Pairs, Sequence, Why};

/// What counts as the peer's receive window, in letters, as long as it isn't known (RFC 2661 section 4.4.3).
const WINDOW: u16 = 4;

/// What a step of a tunnel is about to change.
#[derive(Drop)]
pub struct Planned {
    /// The turn that the step is. It is handed on through some calls, so that it stands in a box.
    turn: Box<Turn>,
    /// What the recovery tunnel becomes, where the step is about that.
    recovery: Option<Becomes>,
}

impl Model for Planned {
    ghost use Rattle.tunnel_core.specs.Cores.{Plan};

    ghost Value = { Plan };

    ghost view = { λ p. record { control = p.turn.value.control; query = p.turn.value.query; acked = p.turn.value.acked; given = p.turn.value.given; cleared = p.turn.value.cleared; changed = p.turn.value.changed; added = p.turn.value.added; recovery = p.recovery } };
}

impl Planned {
    /// The tunnel after the step, apart from its calls.
    pub fn control(&self) -> &Control
        ensures { result.now ≡ self.now.control }
    {
        &self.turn.control
    }

    /// The tunnel's local id after the step, 0 where it drew none.
    pub fn local(&self) -> u16
        ensures { result ≡ self.now.control.local }
    {
        self.turn.control.local
    }

    /// Whether the step removes the tunnel with its calls.
    pub fn clears(&self) -> bool
        ensures { result ≡ self.now.cleared }
    {
        self.turn.cleared
    }

    /// What the recovery tunnel becomes, where the step is about that; else it stays.
    pub fn recovery(&self) -> Option<Option<&Recovering>>
        ensures { option_map (λ o. option_copied o) result ≡ self.now.recovery }
    {
        match &self.recovery {
            None => None,
            Some(after) => Some(after.get()),
        }
    }

    /// The local session ids of the calls that the step makes, in the order in which they are drawn.
    pub fn added(&self) -> &[u16]
        ensures { result.now ≡ self.now.added }
    {
        self.turn.added.as_slice()
    }
}

/// A tunnel of an end, with its calls.
#[derive(Drop)]
pub struct TunnelCore {
    alloc: Global,
    control: Control,
    /// Those that aren't acknowledged.
    letters: Letters,
    calls: TunnelCalls,
    recovery: Option<Recovering>,
    query: Query,
}

impl Model for TunnelCore {
    ghost use Rattle.tunnel_core.specs.Cores.{Core};

    ghost Value = { Core };

    ghost view = { λ c. record { control = c.control; letters = c.letters; calls = c.calls; recovery = c.recovery; query = c.query } };
}

/// The mode of a tunnel that has this recovery tunnel.
fn mode_by(recovery: Option<&Recovering>) -> Mode
    ensures { result ≡ mode_of (option_copied recovery.entry) }
{
    let Some(recovery) = recovery else {
        return Mode::Current;
    };
    if recovery.is_reset() {
        return Mode::Current;
    }
    match recovery {
        Recovering::ByAttempt(_) => Mode::Restored,
        Recovering::ByAnswer(_) => Mode::Frozen,
    }
}

/// Makes room in a table for each of these calls. Where memory is wanting, the calls are as before.
fn make_room(calls: &mut TunnelCalls, changed: &[(u32, Option<Call>)]) -> Result<(), NoMemory>
    ensures same { calls.new.entries ≡ calls.old.entries }
    ensures room { OnOk result (AllHaveRoom calls.new changed.now) }
{
    for (session, call) in changed {
        calls.make_room(*session, call.as_ref())?;
    }
    Ok(())
}

impl TunnelCore {
    /// A tunnel to a peer, an IPv4 address as a number, that is neither opened nor accepted yet, at a moment. It draws its
    /// id in its first step.
    pub fn idle(alloc: Global, peer: u32, moment: u64) -> TunnelCore
        ensures { tunnel_of result ≡ new_tunnel (fresh peer moment) }
    {
        TunnelCore {
            alloc,
            control: Control {
                local: 0,
                peer,
                remote: 0,
                state: TunnelState::Idle,
                channel: ChannelNumbers::new(0, 0, WINDOW),
                made: moment,
                heard: moment,
                closed: 0,
                flags: 0,
                mark: 0,
                challenge: None,
            },
            letters: Letters::new(alloc),
            calls: TunnelCalls::new(alloc),
            recovery: None,
            query: Query::none(),
        }
    }

    /// A tunnel that was kept, as its end starts at a moment: its channel does nothing until it is reset, and its calls come back in its
    /// first step.
    pub fn kept(alloc: Global, tunnel: &BookTunnel, moment: u64) -> TunnelCore
        requires { 0 < tunnel.now.window }
        ensures { tunnel_of result ≡ new_tunnel (kept_control moment tunnel.now) }
    {
        let mut channel = ChannelNumbers::new(0, 0, tunnel.window);
        channel.freeze();
        let mut core = TunnelCore::idle(alloc, tunnel.peer, moment);
        core.control.local = tunnel.local;
        core.control.remote = tunnel.remote;
        core.control.state = TunnelState::Established;
        core.control.channel = channel;
        core.control.flags = tunnel.flags;
        core.control.mark = tunnel.mark;
        core
    }

    /// The tunnel apart from its calls.
    pub fn control(&self) -> &Control
        ensures { result.now ≡ self.now.control }
    {
        &self.control
    }

    /// The calls, by session id.
    pub fn calls(&self) -> &Table<Call>
        ensures { result.now ≡ self.now.calls }
    {
        self.calls.table()
    }

    /// The rows of the tables that each live call went through, in order of the session ids.
    pub fn rows(&self) -> Result<Rows, NoMemory>
        ensures { IfOk result (λ rows. rows ≡ rows_of self.now.calls.entries) }
    {
        self.calls.rows()
    }

    /// The calls that are established, in order of the session ids: each by its own id and the one that the peer assigned.
    pub fn established(&self) -> Result<Pairs, NoMemory>
        ensures { IfOk result (λ pairs. pairs ≡ sessions_of self.now.calls.entries) }
    {
        self.calls.established()
    }

    /// A law: what `rows` tells of each live call are rows of the two tables of calls, which follow on each other from the state in
    /// which the call began, idle or established, and lead to its state.
    pub fn replays(&self)
        ensures { RowsLead self.now.calls.entries }
    {
        self.calls.replays();
    }

    /// Its recovery tunnel, as long as there is one.
    pub fn recovery(&self) -> Option<&Recovering>
        ensures { option_copied result ≡ self.now.recovery }
    {
        self.recovery.as_ref()
    }

    /// Whether it is known of each session that was established at its last reset whether the peer has it.
    pub fn is_complete(&self) -> bool
        ensures { result ≡ is_complete self.now.query }
    {
        self.query.complete()
    }

    /// Whether it is current, frozen or restored.
    pub fn mode(&self) -> Mode
        ensures { result ≡ mode_of self.now.recovery }
    {
        mode_by(self.recovery.as_ref())
    }

    /// A moment before which a tick does nothing for the tunnel, in milliseconds.
    pub fn due(&self) -> u64
        ensures { IsNoLater result (tunnel_due (tunnel_of self.now)) }
    {
        let main = channel_due(self.mode(), &self.control).min(self.calls.due());
        main.min(recovery_due(self.recovery()))
    }

    /// Looks at all calls where something may be due for one at this moment, so that it is known again when something is. It leaves
    /// what the tunnel stands for.
    pub fn look_again(&mut self, moment: u64)
        ensures { self.new ≡ self.old }
    {
        self.calls.look_again(moment);
    }

    /// Says what a step about this will change, makes all room for it, and writes what it gives into `env`. What the
    /// tunnel stands for is as before; where memory is wanting, `env` is too.
    pub fn plan(
        &mut self,
        role: Role,
        config: &Config,
        env: &mut Env,
        task: &Task<'_>,
    ) -> Result<Planned, NoMemory>
        requires { HasId task.now }
        ensures same { tunnel_of self.new ≡ tunnel_of self.old }
        ensures planned { IfOk result (λ p. IsTurn p self.old.recovery (task_turn role config.now (tunnel_of self.old) task.now (turn_in (tunnel_of self.old) env.old))) }
        ensures room { IfOk result (λ p. HasRoomFor self.new p) }
        ensures given { OnOk result (env.new ≡ with_turn (task_turn role config.now (tunnel_of self.old) task.now (turn_in (tunnel_of self.old) env.old)).turn env.old) }
        ensures kept { OnErr result (env.new ≡ env.old) }
    {
        let query = self.query.copy()?;
        let turn = Turn::new(self.alloc, self.control, query, self.mode(), env);
        let mut turn = Box::new(self.alloc, turn)?;
        let recovery = run_task(
            &mut turn,
            role,
            config,
            &self.letters,
            &self.calls,
            self.recovery.as_ref(),
            task,
        )?;
        self.planned(env, turn, recovery)
    }

    /// Plans the first step of a tunnel that is new, which its peer's first message makes, by what that says, as `plan` does by the
    /// event.
    pub fn plan_first(
        &mut self,
        role: Role,
        config: &Config,
        env: &mut Env,
        said: &Result<Message, Why>,
    ) -> Result<Planned, NoMemory>
        ensures same { tunnel_of self.new ≡ tunnel_of self.old }
        ensures planned { IfOk result (λ p. IsTurn p self.old.recovery (beside self.old.recovery (settles false self.old.letters.letters (first_said role config.now said.now (turn_in (tunnel_of self.old) env.old))))) }
        ensures room { IfOk result (λ p. HasRoomFor self.new p) }
        ensures given { OnOk result (env.new ≡ with_turn (settles false self.old.letters.letters (first_said role config.now said.now (turn_in (tunnel_of self.old) env.old))) env.old) }
        ensures kept { OnErr result (env.new ≡ env.old) }
    {
        let query = self.query.copy()?;
        let turn = Turn::new(self.alloc, self.control, query, self.mode(), env);
        let mut turn = Box::new(self.alloc, turn)?;
        hear_opening(&mut turn, role, config, &self.letters, said)?;
        self.planned(env, turn, None)
    }

    /// The plan of a step that is this turn, with all room for what it changes; what it gives is written into `env`.
    fn planned(
        &mut self,
        env: &mut Env,
        turn: Box<Turn>,
        recovery: Option<Becomes>,
    ) -> Result<Planned, NoMemory>
        ensures same { tunnel_of self.new ≡ tunnel_of self.old }
        ensures planned { IfOk result (λ p. IsTurn p self.old.recovery (beside (unwrap_or recovery self.old.recovery) turn.value)) }
        ensures room { IfOk result (λ p. HasRoomFor self.new p) }
        ensures given { OnOk result (env.new ≡ with_turn turn.value env.old) }
        ensures kept { OnErr result (env.new ≡ env.old) }
    {
        let mut turn = turn;
        make_room(&mut self.calls, turn.changed.as_slice())?;
        self.letters.reserve(turn.given.len())?;
        env.take_in(&mut turn)?;
        Ok(Planned { turn, recovery })
    }

    /// Makes the planned step. It takes no memory.
    pub fn apply(&mut self, planned: Planned)
        requires { HasRoomFor self.old planned }
        ensures { tunnel_of self.new ≡ made_of planned (tunnel_of self.old) }
    {
        let turn = Box::into_inner(planned.turn);
        self.control = turn.control;
        self.query = turn.query;
        self.letters.drop_first(turn.acked.min(self.letters.len()));
        give_all(&mut self.letters, turn.given);
        put_all(&mut self.calls, turn.changed);
        give_back(&mut self.calls, turn.ended.as_slice());
        if let Some(after) = planned.recovery {
            self.recovery = after.into_inner();
        }
    }

    /// A step about this. Where memory is wanting, the tunnel and `env` are as before.
    pub fn step(
        &mut self,
        role: Role,
        config: &Config,
        env: &mut Env,
        task: &Task<'_>,
    ) -> Result<(), NoMemory>
        requires { HasId task.now }
        ensures made { OnOk result (tunnel_of self.new ≡ tunnel_after (task_turn role config.now (tunnel_of self.old) task.now (turn_in (tunnel_of self.old) env.old)).turn self.old.letters.letters self.old.calls.entries (task_turn role config.now (tunnel_of self.old) task.now (turn_in (tunnel_of self.old) env.old)).recovery) }
        ensures given { OnOk result (env.new ≡ with_turn (task_turn role config.now (tunnel_of self.old) task.now (turn_in (tunnel_of self.old) env.old)).turn env.old) }
        ensures same { OnErr result (tunnel_of self.new ≡ tunnel_of self.old) }
        ensures kept { OnErr result (env.new ≡ env.old) }
    {
        let planned = self.plan(role, config, env, task)?;
        self.apply(planned);
        Ok(())
    }
}

/// Gives back the room of these calls, where they aren't there any more.
fn give_back(calls: &mut TunnelCalls, ended: &[u32])
    ensures { calls.new.entries ≡ calls.old.entries }
{
    for session in ended {
        calls.give_back(*session);
    }
}

/// Puts each of these calls into a table that has room for it, or takes it out where it ended. It takes no memory.
#[tactic(auto, unfolding(end_model::specs::Events::with_calls))]
fn put_all(calls: &mut TunnelCalls, changed: Changed)
    requires room { AllHaveRoom calls.old changed }
    requires replays { AllCallsReplay changed }
    ensures { calls.new.entries ≡ with_calls changed calls.old.entries }
{
    for (session, call) in changed.into_vec() {
        match call {
            Some(call) => calls.fill(session, call),
            None => calls.vacate(session),
        }
    }
}

/// Gives each of these letters to a channel that has room for them. It takes no memory.
fn give_all(letters: &mut Letters, given: Given)
    requires { length given ≤ letters.old.spare }
    ensures { letters.new.letters ≡ letters.old.letters ++ given }
{
    for letter in given.into_vec() {
        letters.put(letter);
    }
}
