//! Sessions that an end asks its peer for after a reset, and those that it is asked for (RFC 4951 sections 4.3.3 and 5.4).

ghost use Rattle.std.specs.Prelude.{◌≡◌, ◌≤◌, ◌++◌, Some, OnOk, IfOk, IfSome, IsTrue, length};
ghost use Rattle.control_message.specs.Pairs.{AreWrittenSessions};
ghost use Rattle.session_query.specs.Kept.{AreIds};
ghost use Rattle.session_query.specs.Queries.{next_batch, with_batch, answered, answers_to};
ghost use Rattle.end_model.specs.Calls.{sessions_of};
ghost use Rattle.end_model.specs.Channels.{has_room};
ghost use Rattle.end_model.specs.Querying.{queries, asks_more, asks_next, answered_query, answers_query, ended_of, unless_complete, took_answer, hears_answer};
ghost use Rattle.tunnel_turn.specs.Told.{SaysTold};

use crate::turn::Turn;
use control_message::Message;
use end_model::{AnsweredQuery, Move, Queried, TookAnswer};
use send_window::Letters;
use session_query::{FsrError, Query};
use std::alloc::Global;
use tunnel_calls::TunnelCalls;
use tunnel_timers::is_open;
use wire_base::{NoMemory, Pair, Pairs, Sequence, Why};

/// What the answer to a query tells.
#[derive(Drop)]
pub struct Heard {
    /// The sessions that the peer doesn't have, as they were asked for.
    pub gone: Pairs,
    /// The query, of which these are answered.
    pub query: Query,
}

/// These sessions are asked for, after which the query is this.
#[tactic(auto, unfolding(end_model::specs::Querying::queries))]
fn ask(turn: &mut Turn, pairs: Pairs, query: Query) -> Result<(), NoMemory>
    requires room { IsTrue (has_room turn.old.control) }
    requires written { AreWrittenSessions pairs }
    requires asked { query ≡ with_batch turn.old.query (Some pairs) }
    ensures { OnOk result (turn.new ≡ queries pairs turn.old) }
{
    let given = turn.next_place();
    let copy = Pairs::from_slice(turn.alloc, pairs.as_slice())?;
    turn.query = query;
    turn.did(Move::Queried(Queried {
        tunnel: turn.control.local,
        pairs: copy,
        given,
    }))?;
    turn.give(0, &Message::Fsq(pairs))
}

/// The next sessions are asked for, where none is unanswered.
#[tactic(auto, unfolding(end_model::specs::Querying::asks_more, end_model::specs::Querying::queries_by))]
pub fn ask_more(turn: &mut Turn) -> Result<(), NoMemory>
    ensures { OnOk result (turn.new ≡ asks_more turn.old) }
{
    let mut query = turn.query.copy()?;
    let Some(pairs) = query.next_fsq(turn.alloc)? else {
        return Ok(());
    };
    if !turn.has_room() {
        return turn.drop_with(Why::Queue);
    }
    ask(turn, pairs, query)
}

/// The same right behind a reset, and what the windows allow goes out.
#[tactic(auto, unfolding(end_model::specs::Querying::asks_next))]
pub fn ask_next(turn: &mut Turn, letters: &Letters) -> Result<(), NoMemory>
    ensures { OnOk result (turn.new ≡ asks_next letters.now.letters turn.old) }
{
    ask_more(turn)?;
    turn.settle(false, letters)
}

/// What the peer asked for is answered.
#[tactic(auto, unfolding(end_model::specs::Querying::answered_query))]
fn answer_now(turn: &mut Turn, asked: &[Pair], answers: Pairs) -> Result<(), NoMemory>
    requires room { IsTrue (has_room turn.old.control) }
    requires written { AreWrittenSessions answers }
    ensures { OnOk result (turn.new ≡ answered_query asked.now answers turn.old) }
{
    let (taken, given) = (turn.taken_place(), turn.next_place());
    let tunnel = turn.control.local;
    let pairs = Pairs::from_slice(turn.alloc, asked)?;
    let copy = Pairs::from_slice(turn.alloc, answers.as_slice())?;
    turn.take();
    turn.did(Move::AnsweredQuery(AnsweredQuery {
        tunnel,
        pairs,
        answers: copy,
        taken,
        given,
    }))?;
    turn.give(0, &Message::Fsr(answers))
}

/// Takes the query of the peer for these sessions, and answers it.
#[tactic(auto, unfolding(end_model::specs::Querying::answers_query))]
pub fn answer_query(turn: &mut Turn, calls: &TunnelCalls, asked: &[Pair]) -> Result<(), NoMemory>
    requires few { length asked.now ≤ 4094 }
    ensures { OnOk result (turn.new ≡ answers_query calls.now.entries asked.now turn.old) }
{
    if !turn.has_room() {
        return turn.drop_with(Why::Queue);
    }
    let answers = calls.answers(asked)?;
    answer_now(turn, asked, answers)
}

/// What an answer of the peer tells; nothing where it isn't one to what was asked for. Only an open tunnel has asked.
pub fn hear(turn: &Turn, answers: &[Pair]) -> Result<Option<Heard>, NoMemory>
    ensures { IfOk result (λ heard. SaysTold heard answers.now turn.now) }
{
    if !is_open(turn.control.state) {
        return Ok(None);
    }
    let mut query = turn.query.copy()?;
    match query.on_fsr(turn.alloc, answers) {
        Ok(gone) => Ok(Some(Heard { gone, query })),
        Err(FsrError::NotAsked { .. }) => Ok(None),
        Err(FsrError::NoMemory) => Err(NoMemory),
    }
}

/// Of sessions that the peer doesn't have those whose calls are still there.
#[tactic(auto, unfolding(end_model::specs::Querying::ended_of))]
fn ended_of(alloc: Global, calls: &TunnelCalls, gone: &[Pair]) -> Result<Sequence<u32>, NoMemory>
    ensures { IfOk result (λ ended. ended ≡ ended_of calls.now.entries gone.now) }
{
    let mut ended = Sequence::new(alloc);
    for pair in gone {
        if calls.has(pair.sender, pair.receiver) {
            ended.push(pair.sender)?;
        }
    }
    Ok(ended)
}

/// Nothing of a query is kept once all is answered.
fn unless_complete(query: Query) -> Query
    ensures { result ≡ unless_complete query }
{
    if query.complete() {
        return Query::none();
    }
    query
}

/// Takes the answer of the peer: the calls of the sessions that it doesn't have end.
#[tactic(auto, unfolding(end_model::specs::Querying::took_answer))]
fn take_heard(
    turn: &mut Turn,
    calls: &TunnelCalls,
    answers: &[Pair],
    heard: Heard,
) -> Result<(), NoMemory>
    requires { heard.query ≡ answered turn.old.query }
    ensures { OnOk result (turn.new ≡ took_answer calls.now.entries answers.now heard.gone turn.old) }
{
    let taken = turn.taken_place();
    let tunnel = turn.control.local;
    let pairs = Pairs::from_slice(turn.alloc, turn.query.unanswered())?;
    let answers = Pairs::from_slice(turn.alloc, answers)?;
    let ended = ended_of(turn.alloc, calls, heard.gone.as_slice())?;
    let copy = Sequence::from_slice(turn.alloc, ended.as_slice())?;
    turn.query = unless_complete(heard.query);
    turn.take();
    turn.did(Move::TookAnswer(TookAnswer {
        tunnel,
        pairs,
        answers,
        ended: copy,
        taken,
    }))?;
    turn.end_all(ended.as_slice())
}

/// The same, and the next sessions are asked for.
#[tactic(auto, unfolding(end_model::specs::Querying::hears_answer))]
pub fn take_answer(
    turn: &mut Turn,
    calls: &TunnelCalls,
    answers: &[Pair],
    heard: Heard,
) -> Result<(), NoMemory>
    requires { heard.query ≡ answered turn.old.query }
    ensures { OnOk result (turn.new ≡ hears_answer calls.now.entries answers.now heard.gone turn.old) }
{
    take_heard(turn, calls, answers, heard)?;
    ask_more(turn)
}
