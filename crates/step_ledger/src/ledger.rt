//! A ledger of records.

ghost use Rattle.std.specs.Prelude.{⊤, ◌≡◌, List};
ghost use Rattle.std.specs.declared.result.Result.{Result};
ghost use Rattle.std.specs.List.{AllByRecursion};
ghost use Rattle.session_book.specs.Books.{Kept};
ghost use Rattle.session_book.specs.declared.record.Record.{Record};
ghost use Rattle.step_ledger.specs.Committing.{IsUnmarked};

use session_book::{Book, Record};
use wire_base::NoMemory as OutOfMemory;

/// Why a step wasn't made.
#[derive(Clone, Copy, PartialEq, Eq)]
pub enum StepFault<S> {
    /// Memory was wanting before anything was committed.
    NoMemory,
    /// The ledger stopped, and this is what it says. What of the step's records it has by then is for it to say.
    Uncommitted { stop: S },
}

impl<S> From<OutOfMemory> for StepFault<S> {
    ghost use Rattle.std.specs.Prelude.{◌≡◌};
    ghost use Rattle.step_ledger.specs.declared.ledger.StepFault.TheVariants.{NoMemory};

    ghost from_gives = { λ _ e. e ≡ NoMemory };

    fn from(_e: OutOfMemory) -> StepFault<S> {
        StepFault::NoMemory
    }
}

/// What is asked to commit the records that the steps of an end leave, before the step is made.
pub trait Ledger {
    /// Why records weren't committed.
    type Stop;

    /// Whether it may be asked to commit.
    ghost can_commit: { Self → Type 0 };

    /// How records are committed: the ledger before, the records, the answer, and the ledger after it.
    ghost commits_to: { Self → List Record → Result ⊤ Self.Stop → Self → Type 0 };

    /// Commits the records of a step, one behind the other; its condition is that no tunnel comes up with a mark. What comes of them,
    /// and how long they are kept, is for each ledger to say.
    fn commit(&mut self, records: &[Record]) -> Result<(), Self::Stop>
        requires ready { can_commit self.old }
        requires unmarked { AllByRecursion IsUnmarked records.now }
        ensures { commits_to self.old records.now result self.new };
}

/// A ledger that has the book of its records, over which an end starts.
pub trait BookedLedger: Ledger {
    /// Whether the book is that of all records.
    ghost can_lend: { Self → Type 0 };

    /// What that book has.
    ghost kept: { Self → Kept };

    /// The book of all records.
    fn book(&self) -> &Book
        requires { can_lend self.now }
        ensures { result.now.kept ≡ kept self.now };
}
