//! What an end answers.

ghost use Rattle.std.specs.Prelude.{◌≡◌, if◌then◌else◌, IfOk};
ghost use Rattle.session_query.specs.Queries.{is_pair, is_here, answers_to};

use std::alloc::Global;
use wire_base::{NoMemory, Pair, Pairs};

/// Whether a session is the one that is asked for.
fn is_pair(asked: &Pair, pair: &Pair) -> bool
    ensures { result ≡ is_pair asked.now pair.now }
{
    pair.sender == asked.receiver && pair.receiver == asked.sender
}

fn is_here(here: &[Pair], asked: &Pair) -> bool
    ensures { result ≡ is_here here.now asked.now }
{
    here.iter().any(|pair| is_pair(asked, pair))
}

/// The answer to what the other end asks for of one session: the two ids exchanged, and 0 for the own one where the session isn't here.
pub fn answer_to(asked: &Pair, is_here: bool) -> Pair
    ensures { result ≡ record { sender = (if is_here then asked.now.receiver else 0); receiver = asked.now.sender } }
{
    let sender = if is_here { asked.receiver } else { 0 };
    Pair {
        sender,
        receiver: asked.sender,
    }
}

/// The answer to what the other end asks for: each pair with the two ids exchanged, and 0 for the own one where the session isn't
/// among these that are here. The ends, which find a session by its id, answer by `answer_to`.
pub fn answer_fsq(alloc: Global, asked: &[Pair], here: &[Pair]) -> Result<Pairs, NoMemory>
    ensures { IfOk result (λ answers. answers ≡ answers_to here.now asked.now) }
{
    let mut answers = Pairs::new(alloc);
    for pair in asked {
        answers.push(answer_to(pair, is_here(here, pair)))?;
    }
    Ok(answers)
}
