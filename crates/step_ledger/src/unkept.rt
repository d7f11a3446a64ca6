//! A ledger of which nothing is left.

use crate::ledger::Ledger;
use session_book::Record;
use wire_base::NoMemory;

/// A ledger that keeps nothing and never stops, for an end that isn't to be found again, as in a test or a measurement.
#[derive(Clone, Copy)]
pub struct Unkept;

impl Ledger for Unkept {
    ghost use Rattle.std.specs.Prelude.{⊤, ◌≡◌, Ok};

    type Stop = NoMemory;

    ghost can_commit = { λ _. ⊤ };

    ghost commits_to = { λ before _ result after. (result ≡ Ok tt) × (after ≡ before) };

    fn commit(&mut self, _records: &[Record]) -> Result<(), NoMemory> {
        Ok(())
    }
}
