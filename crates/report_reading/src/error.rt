//! Why a text is no report.

ghost use Rattle.std.specs.Prelude.{◌≡◌};
ghost use Rattle.report_reading.specs.declared.error.ReportError.TheVariants as errors;

use wire_base::NoMemory as OutOfMemory;

/// Why no report was read.
#[derive(Clone, Copy, Debug)]
pub enum ReportError {
    /// The first line that no report has. Lines of the report count from 1.
    BadLine { line: u64 },
    /// Memory was wanting.
    NoMemory,
}

impl From<OutOfMemory> for ReportError {
    ghost from_gives = { λ _ e. e ≡ errors.NoMemory };

    fn from(_e: OutOfMemory) -> ReportError {
        ReportError::NoMemory
    }
}
