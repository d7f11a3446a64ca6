//! Why no turn is made.

use wire_base::NoMemory as OutOfMemory;

/// Why a hub commits nothing any more.
#[derive(Clone, Copy, PartialEq, Eq)]
pub enum Stop {
    /// Its store failed.
    Fault,
    /// Its checkpoint has so many records, and with those that a turn would leave they pass the limit.
    Full { records: u32, wanted: u32 },
}

/// Why a turn wasn't made.
#[derive(Clone, Copy, PartialEq, Eq)]
pub enum StepError {
    /// The store failed as the turn was to be committed. The hub has stopped.
    StoreFault,
    /// The checkpoint has so many records, and with those that the turn would leave they pass the limit. The hub has stopped.
    StoreFull { records: u32 },
    /// The hub had stopped before.
    Halted,
    /// Memory was wanting, or the turn would leave more records than one turn may.
    NoMemory,
}

impl From<OutOfMemory> for StepError {
    ghost use Rattle.std.specs.Prelude.{◌≡◌};
    ghost use Rattle.step_hub.specs.declared.stop.StepError.TheVariants.{NoMemory};

    ghost from_gives = { λ _ e. e ≡ NoMemory };

    fn from(_e: OutOfMemory) -> StepError {
        StepError::NoMemory
    }
}
