//! Why a turn wasn't settled.

ghost use Rattle.std.specs.Prelude.{◌≡◌};
ghost use Rattle.shared_store.specs.Settled.{stop_by, error_by};

use end_store::StoreStop;
use step_hub::{StepError, Stop};

/// The stop of a hub that had none, after its store refused so many records.
pub(crate) fn stop_by(stop: StoreStop, wanted: u32) -> Option<Stop>
    ensures { result ≡ stop_by stop wanted }
{
    match stop {
        StoreStop::StoreFault => Some(Stop::Fault),
        StoreStop::StoreFull { records } => Some(Stop::Full { records, wanted }),
        StoreStop::Halted | StoreStop::NoMemory => None,
    }
}

/// Why the turn isn't made.
pub(crate) fn error_by(stop: StoreStop) -> StepError
    ensures { result ≡ error_by stop }
{
    match stop {
        StoreStop::StoreFault => StepError::StoreFault,
        StoreStop::StoreFull { records } => StepError::StoreFull { records },
        StoreStop::Halted => StepError::Halted,
        StoreStop::NoMemory => StepError::NoMemory,
    }
}
