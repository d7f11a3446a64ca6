//! The calls of a tunnel, by session id, with how many letters they owe, and with a moment before which none of them is due.
#![tactic(auto)]

ghost use Rattle.std.specs.Prelude.{◌≡◌, ◌<◌, ◌^◌, [], find, OnOk, IfOk, IfSome, true, option_copied, option_map};
ghost use Rattle.id_table.specs.Ids.{at, put, without, ids_of};
ghost use Rattle.id_table.specs.Tables.{HasRoom, KeepsRoom};
ghost use Rattle.end_model.specs.Calls.{owes, owed_by, are_too_many};
ghost use Rattle.end_model.specs.Owing.{owed_at};
ghost use Rattle.end_model.specs.Asking.{is_call_of, call_of, session_named};
ghost use Rattle.tunnel_timers.specs.Due.{IsNoLater, bound_of, call_due, calls_due, due_at, earliest_at};
ghost use Rattle.tunnel_calls.specs.Replays.{replays};

mod answering;
mod telling;

use call_fsm::CallState;
use end_model::Call;
use id_index::Index;
use id_table::Table;
use std::alloc::Global;
use std::marker::Model;
pub use telling::{CallRows, Rows};
use tunnel_timers::call_due;
use wire_base::{NoMemory, Sequence};

/// How many live calls a tunnel has at most.
const MOST_CALLS: usize = 4096;

/// How many letters the tunnel may still have to give for a call: its request, its connection and its end.
fn owes(state: CallState) -> u8
    ensures { result ≡ owes state }
{
    match state {
        CallState::Idle => 0,
        CallState::WaitTunnel => 3,
        CallState::WaitReply => 2,
        CallState::WaitConnect | CallState::Established => 1,
    }
}

fn owed_at(call: Option<&Call>) -> u8
    ensures { result ≡ owed_at (option_copied call.entry) }
{
    match call {
        Some(call) => owes(call.state),
        None => 0,
    }
}

/// The id that the peer assigned to a call.
fn remote_of(call: Option<&Call>) -> Option<u64>
    ensures { result ≡ option_map (λ c. c.remote) (option_copied call.entry) }
{
    match call {
        Some(call) => Some(u64::from(call.remote)),
        None => None,
    }
}

/// When something is due for the call of a session, if there is one.
fn due_at(session: u32, call: Option<&Call>) -> u64
    ensures { result ≡ bound_of (due_at (λ c. call_due c.0 c.1) session (option_copied call.entry)) }
{
    match call {
        Some(call) => call_due(session, call),
        None => u64::MAX,
    }
}

/// The calls of a tunnel by session id, seen as their table. The rows of each are rows of the tables of calls, follow on each other from the
/// state in which it began, and lead to its state. How many letters they owe is kept beside it, so that what it takes
/// to know it doesn't grow with the calls, and so is an index of the calls by the ids that the peer assigned.
#[derive(Drop)]
pub struct TunnelCalls {
    alloc: Global,
    table: Table<Call>,
    owed: u128,
    /// A moment before which none of them is due, in milliseconds. As calls change it only falls, until they are looked at again.
    due: u64,
    /// The sessions by the ids that the peer assigned.
    remotes: Index,
}

impl Model for TunnelCalls {
    ghost use Rattle.std.specs.Prelude.{◌≡◌};
    ghost use Rattle.id_table.specs.Tables.{Kept};
    ghost use Rattle.id_table.specs.Order.{Ascends};
    ghost use Rattle.end_model.specs.declared.tunnel.Call.{Call};
    ghost use Rattle.end_model.specs.Calls.{owed_by};
    ghost use Rattle.tunnel_timers.specs.Due.{IsNoLater, calls_due};
    ghost use Rattle.id_index.specs.Indexes.{Lists, IsWithin};
    ghost use Rattle.tunnel_calls.specs.Remotes.{remotes_of};
    ghost use Rattle.tunnel_calls.specs.Replays.{AllReplay};

    ghost Value = { Kept Call };

    ghost view = { λ c. c.table };

    ghost invariant = { λ c. Ascends c.table.entries × (c.owed ≡ owed_by c.table.entries) × IsWithin c.table.entries × Lists c.remotes (remotes_of c.table.entries) × IsNoLater c.due (calls_due c.table.entries) × AllReplay c.table.entries };
}

impl TunnelCalls {
    /// No calls, and no room. It takes no memory.
    pub fn new(alloc: Global) -> TunnelCalls
        ensures { result.entries ≡ [] }
    {
        TunnelCalls {
            alloc,
            table: Table::new(alloc),
            owed: 0,
            due: u64::MAX,
            remotes: Index::new(alloc),
        }
    }

    pub fn table(&self) -> &Table<Call>
        ensures { result.now ≡ self.now }
    {
        &self.table
    }

    /// The call with this session id. Its rows lead from where it began to its state.
    pub fn get(&self, session: u32) -> Option<&Call>
        ensures found { option_copied result ≡ at self.now.entries session }
        ensures replays { IfSome (option_copied result) (λ c. replays c ≡ true) }
    {
        self.table.get(session)
    }

    /// The session ids, in order.
    pub fn ids(&self, alloc: Global) -> Result<Sequence<u32>, NoMemory>
        ensures { IfOk result (λ ids. ids ≡ ids_of self.now.entries) }
    {
        self.table.ids(alloc)
    }

    /// The session of the first call to which the peer assigned this id. The index tells it in time in proportion to the
    /// logarithm of the number of calls. They are looked through only where room for this very id was made that no call took,
    /// as when memory was wanting for a step, or where a call was put without room for its id.
    #[tactic(auto, unfolding(end_model::specs::Asking::call_of))]
    pub fn call_of(&self, alloc: Global, remote: u16) -> Result<Option<u32>, NoMemory>
        ensures { IfOk result (λ session. session ≡ call_of self.now.entries remote) }
    {
        if let Some(session) = self.remotes.first(u64::from(remote)) {
            return Ok(session);
        }
        let sessions = self.ids(alloc)?;
        Ok(first_of(self, remote, sessions.as_slice()))
    }

    /// The session that a header names, or, where that is 0, the one of the call to which the peer assigned this id.
    #[tactic(auto, unfolding(end_model::specs::Asking::session_named))]
    pub fn session_named(&self, alloc: Global, session: u16, remote: u16) -> Result<u32, NoMemory>
        ensures { IfOk result (λ named. named ≡ session_named self.now.entries session remote) }
    {
        if session != 0 {
            return Ok(u32::from(session));
        }
        if remote == 0 {
            return Ok(0);
        }
        let found = self.call_of(alloc, remote)?;
        Ok(found.unwrap_or(0))
    }

    /// Whether the tunnel has as many calls as it may.
    pub fn are_too_many(&self) -> bool
        ensures { result ≡ are_too_many self.now.entries }
    {
        self.table.len() >= MOST_CALLS
    }

    /// How many letters the calls owe.
    pub fn owed(&self) -> u128
        ensures value { result ≡ owed_by self.now.entries }
        ensures within { result < 2 ^ 66 }
    {
        let _count = self.table.len();
        self.owed
    }

    /// A moment before which nothing is due for any of the calls, in milliseconds.
    pub fn due(&self) -> u64
        ensures { IsNoLater result (calls_due self.now.entries) }
    {
        let _count = self.table.len();
        self.due
    }

    /// Looks at all calls where that moment has come, so that it is the one at which something is due for one of them. Where memory is
    /// wanting, it stays.
    pub fn look_again(&mut self, moment: u64)
        ensures { self.new ≡ self.old }
    {
        if moment < self.due {
            return;
        }
        let Ok(sessions) = self.table.ids(self.alloc) else {
            return;
        };
        self.due = earliest_due(&self.table, sessions.as_slice());
    }

    /// Makes room for a call at a session id, and for the id that the peer assigned to it. Where memory is wanting, the calls are
    /// as before.
    pub fn make_room(&mut self, session: u32, call: Option<&Call>) -> Result<(), NoMemory>
        ensures entries { self.new.entries ≡ self.old.entries }
        ensures room { KeepsRoom self.old self.new }
        ensures made { OnOk result (HasRoom self.new session) }
    {
        self.remotes.make_key(session, remote_of(call))?;
        self.table.make_room(session)
    }

    /// Puts a call at a session id that has room, in place of the one there; its rows lead to its state. It takes no memory where room was
    /// made for this call, and else at most that of a key.
    pub fn fill(&mut self, session: u32, call: Call)
        requires room { HasRoom self.old session }
        requires replays { replays call ≡ true }
        ensures entries { self.new.entries ≡ put self.old.entries session call }
        ensures room { KeepsRoom self.old self.new }
    {
        let _count = self.table.len();
        let before = owed_at(self.table.get(session));
        self.owed += u128::from(owes(call.state));
        let known = remote_of(self.table.get(session));
        self.remotes
            .relabel(session, known, Some(u64::from(call.remote)));
        self.due = self.due.min(call_due(session, &call));
        self.table.fill(session, call);
        self.owed -= u128::from(before);
    }

    /// Takes out the call with a session id that has room, which stays. It takes no memory.
    pub fn vacate(&mut self, session: u32)
        requires { HasRoom self.old session }
        ensures entries { self.new.entries ≡ without self.old.entries session }
        ensures room { KeepsRoom self.old self.new }
    {
        let before = owed_at(self.table.get(session));
        self.owed -= u128::from(before);
        let known = remote_of(self.table.get(session));
        self.remotes.relabel(session, known, None);
        self.table.vacate(session);
    }

    /// Gives back the room of a session id that has no call.
    pub fn give_back(&mut self, session: u32)
        ensures { self.new.entries ≡ self.old.entries }
    {
        self.table.give_back(session);
    }
}

/// The first of these calls to which the peer assigned this id.
fn first_of(calls: &TunnelCalls, remote: u16, sessions: &[u32]) -> Option<u32>
    ensures { result ≡ find (λ s. is_call_of remote (at calls.now.entries s)) sessions.now }
{
    for session in sessions {
        if let Some(call) = calls.get(*session) {
            if call.remote == remote {
                return Some(*session);
            }
        }
    }
    None
}

/// When something is first due for one of these calls.
#[tactic(auto, using(tunnel_timers::specs::Bounds::bound_earlier_is), unfolding(tunnel_timers::specs::Due::earliest_at))]
fn earliest_due(table: &Table<Call>, sessions: &[u32]) -> u64
    ensures { result ≡ bound_of (earliest_at (λ c. call_due c.0 c.1) table.now.entries sessions.now) }
{
    let mut due = u64::MAX;
    for session in sessions {
        due = due.min(due_at(*session, table.get(*session)));
    }
    due
}
