//! The question which of its sessions the other end still has, after a recovery (RFC 4951 sections 4.3.3 and 5.4): batches of
//! pairs, one unanswered at a time, and what the answers tell. It knows no tunnel.
#![tactic(auto)]

ghost use Rattle.session_query.specs.Queries.{AreAskedInOrder};

mod answering;
mod query;

pub use answering::{answer_fsq, answer_to};
pub use query::{FsrError, Query};

/// A law: over whatever is asked and heard, the batches of a query are its pairs in order, each once.
pub fn pairs_are_asked_in_order()
    ensures { AreAskedInOrder }
{}
