//! What a tunnel answers its peer, which asks after a recovery for the sessions that are still there (RFC 4951 section 5.4).

ghost use Rattle.std.specs.Prelude.{◌≡◌, IfOk};
ghost use Rattle.id_table.specs.Ids.{at};
ghost use Rattle.session_query.specs.Kept.{AreIds};
ghost use Rattle.session_query.specs.Queries.{answer_to, answers_to};
ghost use Rattle.end_model.specs.Calls.{sessions_of};
ghost use Rattle.end_model.specs.Querying.{has_remote};

use crate::TunnelCalls;
use crate::telling::is_established;
use session_query::answer_to;
use wire_base::{NoMemory, Pair, Pairs};

impl TunnelCalls {
    /// Whether the call of a session is established, and has this id of the peer.
    pub fn has(&self, session: u32, remote: u32) -> bool
        ensures { result ≡ has_remote remote (at self.now.entries session) }
    {
        match self.get(session) {
            None => false,
            Some(call) => is_established(call.state) && u32::from(call.remote) == remote,
        }
    }

    /// What is answered about one session, which is found by its id.
    fn answer_one(&self, asked: &Pair) -> Pair
        ensures { result ≡ answer_to (sessions_of self.now.entries) asked.now }
    {
        let _count = self.table.len();
        answer_to(asked, self.has(asked.receiver, asked.sender))
    }

    /// The answer to what the peer asks for: each session with its two ids exchanged, and 0 for the own one where no call is established
    /// with both.
    #[tactic(auto, using(session_query::specs::Kept::ids_push))]
    pub fn answers(&self, asked: &[Pair]) -> Result<Pairs, NoMemory>
        ensures answers { IfOk result (λ answers. answers ≡ answers_to (sessions_of self.now.entries) asked.now) }
        ensures ids { IfOk result AreIds }
    {
        let mut answers = Pairs::new(self.alloc);
        for pair in asked {
            answers.push(self.answer_one(pair))?;
        }
        Ok(answers)
    }
}
