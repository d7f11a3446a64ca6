//! What an end asks.

ghost use Rattle.std.specs.Prelude.{◌≡◌, ◌++◌, ◌==◌, [], ◌∷◌, length, take, option_copied, OnOk, OnErr, IfOk, IfSome};
ghost use Rattle.session_query.specs.Kept.{pairs_kept, AreIds};
ghost use Rattle.session_query.specs.Queries.{new_query, unanswered, next_batch, with_batch, agrees, place_agrees, difference, gone_if, gone_in, told_in, answered, is_complete};
ghost use Rattle.session_query.specs.Says.{SaysGone};

use std::alloc::Global;
use std::marker::Model;
use std::sync::ArcSlice;
use wire_base::{NoMemory, Pair, Pairs};

/// How many pairs a message asks for at most.
const BATCH: usize = 64;

/// Why an answer isn't taken.
#[derive(Clone, Copy, PartialEq, Eq, Debug)]
pub enum FsrError {
    /// It isn't the answer to what was asked for: this place is the first that differs, counted from 0; 0 where nothing is
    /// unanswered.
    NotAsked { at: usize },
    /// Memory was wanting.
    NoMemory,
}

/// The sessions that an end asks for, of how many of them it is known whether they are there, and of how many more it is asked. Copies
/// share the sessions.
#[derive(Drop)]
pub struct Query {
    /// Nothing where there are none.
    pairs: Option<ArcSlice<Pair>>,
    done: usize,
    asked: usize,
}

impl Model for Query {
    ghost use Rattle.std.specs.Prelude.{◌+◌, ◌≤◌, length};
    ghost use Rattle.session_query.specs.Kept.{pairs_kept};
    ghost use Rattle.session_query.specs.Queries.{Asking};

    ghost Value = { Asking };

    ghost view = { λ q. record { pairs = pairs_kept q.pairs; done = q.done; asked = q.asked } };

    ghost invariant = { λ q. q.done + q.asked ≤ length (pairs_kept q.pairs) };
}

/// Whether an answer is one to a pair.
fn agrees(asked: &Pair, answer: &Pair) -> bool
    ensures { result ≡ agrees asked.now answer.now }
{
    answer.receiver == asked.sender && (answer.sender == asked.receiver || answer.sender == 0)
}

/// Whether what stands at a place of what was asked for and of an answer agrees; where both are at their end, it does.
fn place_agrees(asked: Option<&Pair>, answer: Option<&Pair>) -> bool
    ensures { result ≡ place_agrees (option_copied asked.entry) (option_copied answer.entry) }
{
    match (asked, answer) {
        (Some(asked), Some(answer)) => agrees(asked, answer),
        (None, None) => true,
        _ => false,
    }
}

/// The first place at which answers aren't those to what was asked for.
#[tactic(auto, using(crate::proofs::Differences::one_agrees, crate::proofs::Differences::one_differs, crate::proofs::Differences::too_many, crate::proofs::Differences::all_agree))]
fn first_difference(asked: &[Pair], answers: &[Pair]) -> Option<usize>
    ensures { result ≡ difference asked.now answers.now 0 }
{
    for at in 0..asked.len() {
        if !place_agrees(asked.get(at), answers.get(at)) {
            return Some(at);
        }
    }
    if answers.len() > asked.len() {
        Some(asked.len())
    } else {
        None
    }
}

/// Appends a pair that was asked for, where it isn't there by its answer.
fn push_gone(gone: &mut Pairs, asked: Pair, answer: Pair) -> Result<(), NoMemory>
    ensures { OnOk result (gone.new ≡ gone.old ++ gone_if (answer.sender == 0) asked []) }
{
    if answer.sender == 0 {
        gone.push(asked)
    } else {
        Ok(())
    }
}

/// What was asked for and isn't there.
fn gone_in(alloc: Global, asked: &[Pair], answers: &[Pair]) -> Result<Pairs, NoMemory>
    requires { length asked.now ≡ length answers.now }
    ensures { IfOk result (λ gone. gone ≡ gone_in asked.now answers.now) }
{
    let mut gone = Pairs::new(alloc);
    for at in 0..asked.len() {
        push_gone(&mut gone, asked[at], answers[at])?;
    }
    Ok(gone)
}

/// Appends a session.
#[tactic(auto, using(crate::specs::Kept::ids_push))]
fn push_pair(pairs: &mut Pairs, pair: Pair) -> Result<(), NoMemory>
    ensures ok { OnOk result (pairs.new ≡ pairs.old ++ pair ∷ []) }
    ensures ids { OnOk result (AreIds pairs.old → AreIds pairs.new) }
{
    pairs.push(pair)
}

/// A copy of sessions.
fn copied(alloc: Global, pairs: &[Pair]) -> Result<Pairs, NoMemory>
    ensures same { IfOk result (λ copy. copy ≡ pairs.now) }
    ensures ids { IfOk result AreIds }
{
    let mut copy = Pairs::new(alloc);
    for pair in pairs {
        push_pair(&mut copy, *pair)?;
    }
    Ok(copy)
}

/// As many of these as a message asks for at most, from the front.
#[tactic(auto, using(crate::proofs::Batches::few))]
fn first_of(pairs: &[Pair]) -> &[Pair]
    ensures { result.now ≡ take 64 pairs.now }
{
    &pairs[..pairs.len().min(BATCH)]
}

/// The sessions, lent.
fn lent(pairs: &Option<ArcSlice<Pair>>) -> &[Pair]
    ensures { result.now ≡ pairs_kept pairs.now }
{
    match pairs {
        None => &[],
        Some(pairs) => pairs.as_slice(),
    }
}

/// The sessions, shared.
fn shared(pairs: &Option<ArcSlice<Pair>>) -> Result<Option<ArcSlice<Pair>>, NoMemory>
    ensures { IfOk result (λ same. pairs_kept same ≡ pairs_kept pairs.now) }
{
    match pairs {
        None => Ok(None),
        Some(pairs) => Ok(Some(pairs.clone()?)),
    }
}

impl Query {
    /// A question for no session. It takes no memory.
    pub fn none() -> Query
        ensures { result ≡ new_query [] }
    {
        Query {
            pairs: None,
            done: 0,
            asked: 0,
        }
    }

    /// A question for these sessions, the sender's ids being its own. For none it takes no memory.
    pub fn start(pairs: Pairs) -> Result<Query, NoMemory>
        ensures { IfOk result (λ q. q ≡ new_query pairs) }
    {
        if pairs.len() == 0 {
            return Ok(Query::none());
        }
        Ok(Query {
            pairs: Some(ArcSlice::from_vec(pairs.into_vec())?),
            done: 0,
            asked: 0,
        })
    }

    /// A copy, for which no session is copied: it fails only where too many share them.
    pub fn copy(&self) -> Result<Query, NoMemory>
        ensures { IfOk result (λ q. q ≡ self.now) }
    {
        Ok(Query {
            pairs: shared(&self.pairs)?,
            done: self.done,
            asked: self.asked,
        })
    }

    /// The sessions that it is asked for, and that aren't answered.
    pub fn unanswered(&self) -> &[Pair]
        ensures { result.now ≡ unanswered self.now }
    {
        &lent(&self.pairs)[self.done..self.done + self.asked]
    }

    /// A copy of the next batch.
    #[tactic(auto, using(crate::proofs::Batches::batch_is, crate::proofs::Batches::none_is, crate::proofs::Batches::over_is))]
    fn copy_batch(&self, alloc: Global) -> Result<Option<Pairs>, NoMemory>
        ensures batch { IfOk result (λ batch. batch ≡ next_batch self.now) }
        ensures ids { IfOk result (λ batch. IfSome batch AreIds) }
    {
        let pairs = lent(&self.pairs);
        if self.asked > 0 || self.done >= pairs.len() {
            return Ok(None);
        }
        let left = &pairs[self.done..];
        let batch = copied(alloc, first_of(left))?;
        Ok(Some(batch))
    }

    /// The next batch to ask for, 64 pairs at most; none exactly where one is unanswered, or no pair is left. Where memory is
    /// wanting, the query is as before.
    #[tactic(auto, using(crate::proofs::Batches::batch_fits))]
    pub fn next_fsq(&mut self, alloc: Global) -> Result<Option<Pairs>, NoMemory>
        ensures batch { IfOk result (λ batch. batch ≡ next_batch self.old) }
        ensures ids { IfOk result (λ batch. IfSome batch AreIds) }
        ensures ok { OnOk result (self.new ≡ with_batch self.old (next_batch self.old)) }
        ensures err { OnErr result (self.new ≡ self.old) }
    {
        let batch = self.copy_batch(alloc)?;
        if let Some(batch) = &batch {
            self.asked = batch.len();
        }
        Ok(batch)
    }

    /// Hears the answer to the batch that is unanswered, and gives the sessions that are gone, as they were asked for: those whose
    /// answer has 0 for its sender. An answer agrees with a pair that was asked for where its receiver's id is the pair's sender's,
    /// and its sender's is the pair's receiver's, or 0. Where it is refused, the query is as before.
    #[tactic(auto, using(crate::proofs::Differences::as_many), unfolding(crate::specs::Queries::told_in))]
    pub fn on_fsr(&mut self, alloc: Global, answers: &[Pair]) -> Result<Pairs, FsrError>
        // For callers: the answer as a function of the query and the pairs.
        ensures exact { SaysGone result (told_in self.old answers.now) }
        ensures ok { OnOk result (self.new ≡ answered self.old) }
        ensures err { OnErr result (self.new ≡ self.old) }
    {
        if self.asked == 0 {
            return Err(FsrError::NotAsked { at: 0 });
        }
        let asked = self.unanswered();
        if let Some(at) = first_difference(asked, answers) {
            return Err(FsrError::NotAsked { at });
        }
        match gone_in(alloc, asked, answers) {
            Ok(gone) => {
                self.done += self.asked;
                self.asked = 0;
                Ok(gone)
            }
            Err(NoMemory) => Err(FsrError::NoMemory),
        }
    }

    /// Whether of each session it is known whether it is there.
    pub fn complete(&self) -> bool
        ensures { result ≡ is_complete self.now }
    {
        self.done >= lent(&self.pairs).len()
    }
}
