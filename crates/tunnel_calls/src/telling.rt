//! What a tunnel tells of its calls: the rows of the tables that each went through, and which of them are established.

ghost use Rattle.std.specs.Prelude.{◌≡◌, ◌++◌, OnOk, IfOk, Some, flat_map};
ghost use Rattle.id_table.specs.Ids.{at};
ghost use Rattle.end_model.specs.Calls.{is_up, sessions_of};
ghost use Rattle.tunnel_calls.specs.Replays.{began};
ghost use Rattle.tunnel_calls.specs.Telling.{told_of, rows_of, rows_at, pairs_at, RowsLead};

use crate::TunnelCalls;
use call_fsm::CallState;
use end_model::{Call, CallSteps};
use id_table::Table;
use std::alloc::Global;
use wire_base::{NoMemory, Pair, Pairs, Sequence};

/// The rows of the tables that a live call went through (RFC 2661 section 7.4).
#[derive(Drop)]
pub struct CallRows {
    /// Its local session id.
    pub session: u32,
    /// The state in which it began: idle, or established where it was kept over a start.
    pub began: CallState,
    /// The rows, in order.
    pub steps: CallSteps,
}

/// The rows of each live call of a tunnel, in order of the session ids.
pub type Rows = Sequence<CallRows>;

fn began(call: &Call) -> CallState
    ensures { result ≡ began call.now }
{
    match call.steps.as_slice() {
        [] => call.state,
        [first, ..] => first.state,
    }
}

pub(crate) fn is_established(state: CallState) -> bool
    ensures { result ≡ is_up state }
{
    matches!(state, CallState::Established)
}

/// What is told of the call of a session.
fn told_of(alloc: Global, session: u32, call: &Call) -> Result<CallRows, NoMemory>
    ensures { IfOk result (λ told. told ≡ told_of (session, call.now)) }
{
    Ok(CallRows {
        session,
        began: began(call),
        steps: CallSteps::from_slice(alloc, call.steps.as_slice())?,
    })
}

/// What is told of the calls of these sessions.
fn rows_at(alloc: Global, calls: &Table<Call>, sessions: &[u32]) -> Result<Rows, NoMemory>
    ensures { IfOk result (λ rows. rows ≡ flat_map (λ s. rows_at s (at calls.now.entries s)) sessions.now) }
{
    let mut rows = Rows::new(alloc);
    for session in sessions {
        if let Some(call) = calls.get(*session) {
            rows.push(told_of(alloc, *session, call)?)?;
        }
    }
    Ok(rows)
}

/// Appends the pair of a session, where its call is established.
fn push_pair(pairs: &mut Pairs, session: u32, call: &Call) -> Result<(), NoMemory>
    ensures { OnOk result (pairs.new ≡ pairs.old ++ pairs_at session (Some call.now)) }
{
    if !is_established(call.state) {
        return Ok(());
    }
    pairs.push(Pair {
        sender: session,
        receiver: u32::from(call.remote),
    })
}

/// The pairs of those of these sessions whose calls are established.
fn pairs_at(alloc: Global, calls: &Table<Call>, sessions: &[u32]) -> Result<Pairs, NoMemory>
    ensures { IfOk result (λ pairs. pairs ≡ flat_map (λ s. pairs_at s (at calls.now.entries s)) sessions.now) }
{
    let mut pairs = Pairs::new(alloc);
    for session in sessions {
        if let Some(call) = calls.get(*session) {
            push_pair(&mut pairs, *session, call)?;
        }
    }
    Ok(pairs)
}

impl TunnelCalls {
    /// The rows of the tables that each call went through, in order of the session ids.
    pub fn rows(&self) -> Result<Rows, NoMemory>
        ensures { IfOk result (λ rows. rows ≡ rows_of self.now.entries) }
    {
        let sessions = self.table.ids(self.alloc)?;
        rows_at(self.alloc, &self.table, sessions.as_slice())
    }

    /// The calls that are established, in order of the session ids: each by its own id and the one that the peer assigned.
    pub fn established(&self) -> Result<Pairs, NoMemory>
        ensures { IfOk result (λ pairs. pairs ≡ sessions_of self.now.entries) }
    {
        let sessions = self.table.ids(self.alloc)?;
        pairs_at(self.alloc, &self.table, sessions.as_slice())
    }

    /// A law: what `rows` tells of each call are rows of the two tables of calls, which follow on each other from the state in which
    /// the call began, idle or established, and lead to the state of the live call of that session.
    pub fn replays(&self)
        ensures { RowsLead self.now.entries }
    {
        let _count = self.table.len();
    }
}
