//! Why a text is no schedule.

ghost use Rattle.std.specs.Prelude.{◌≡◌};
ghost use Rattle.schedule_text.specs.declared.error.ScheduleError.TheVariants as errors;

use wire_base::NoMemory as OutOfMemory;

/// Why no schedule was read.
#[derive(Clone, Copy, Debug)]
pub enum ScheduleError {
    /// The first line that isn't in the grammar. Lines count from 1.
    BadLine { line: u64 },
    /// Memory was wanting.
    NoMemory,
}

impl From<OutOfMemory> for ScheduleError {
    ghost from_gives = { λ _ e. e ≡ errors.NoMemory };

    fn from(_e: OutOfMemory) -> ScheduleError {
        ScheduleError::NoMemory
    }
}
