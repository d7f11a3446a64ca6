//! A step's records are committed.

ghost use Rattle.step_ledger.specs.Committing.{Commits};
ghost use Rattle.step_records.specs.Leaving.{leaves};

use crate::records::step_records;
use crate::spaces::Spaces;
use end_model::Move;
use std::alloc::Global;
use step_ledger::{Ledger, StepFault};

/// Commits to a ledger what a step leaves in the checkpoint of its end: where it drew from these spaces before it, draws from those after
/// it, and made these moves. A step that leaves nothing commits no records, for which the ledger is asked as well.
#[tactic(auto, using(crate::proofs::Unmarked::leaves_unmarked))]
pub fn commit_step<L: Ledger>(
    alloc: Global,
    ledger: &mut L,
    before: &Spaces,
    after: &Spaces,
    moves: &[Move],
) -> Result<(), StepFault<L::Stop>>
    requires { L.can_commit ledger.old }
    ensures { Commits L.commits_to result (leaves before.now after.now moves.now) ledger.old ledger.new }
{
    let records = step_records(alloc, before, after, moves)?;
    match ledger.commit(records.as_slice()) {
        Ok(()) => Ok(()),
        Err(stop) => Err(StepFault::Uncommitted { stop }),
    }
}
