//! Why a step of an end with its store wasn't made.

ghost use Rattle.std.specs.Prelude.{◌≡◌};
ghost use Rattle.stored_ends.specs.Steps.{stop_of, stops_of, unopened, unstarted};

use checkpoint_journal::JournalOpen;
use end_store::StoreStop;
use step_ledger::StepFault;

/// Why an end wasn't opened.
#[derive(Clone, Copy, PartialEq, Eq)]
pub enum OpenStop {
    /// The file isn't a journal of this kind at this node, or has a content that isn't in place: the first place, in bytes, that tells.
    NotJournal { at: u64 },
    /// The disk failed.
    StoreFault,
    /// The journal has so many records, and with those of the start they pass the limit.
    StoreFull { records: u32 },
    /// Memory was wanting.
    NoMemory,
}

/// Why a store wasn't opened, as its end tells it.
pub(crate) fn unopened(stop: JournalOpen) -> OpenStop
    ensures { result ≡ unopened stop }
{
    match stop {
        JournalOpen::NotJournal { at } => OpenStop::NotJournal { at },
        JournalOpen::StoreFault => OpenStop::StoreFault,
        JournalOpen::NoMemory => OpenStop::NoMemory,
    }
}

/// Why a start wasn't made over a store that was just opened, and so isn't halted.
pub(crate) fn unstarted(stop: StoreStop) -> OpenStop
    ensures { result ≡ unstarted stop }
{
    match stop {
        StoreStop::StoreFull { records } => OpenStop::StoreFull { records },
        StoreStop::StoreFault | StoreStop::Halted => OpenStop::StoreFault,
        StoreStop::NoMemory => OpenStop::NoMemory,
    }
}

/// Why a step wasn't made, in the words of the store.
fn stop_of(fault: StepFault<StoreStop>) -> StoreStop
    ensures { result ≡ stop_of fault }
{
    match fault {
        StepFault::NoMemory => StoreStop::NoMemory,
        StepFault::Uncommitted { stop } => stop,
    }
}

/// The answer of a step in the words of the store.
pub(crate) fn stops_of<T: Drop>(made: Result<T, StepFault<StoreStop>>) -> Result<T, StoreStop>
    ensures { result ≡ stops_of made }
{
    match made {
        Ok(given) => Ok(given),
        Err(fault) => Err(stop_of(fault)),
    }
}
