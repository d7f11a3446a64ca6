//! How the program ends.

ghost use Rattle.std.specs.Prelude.{◌≡◌};
ghost use Rattle.l2tp_capture.specs.Exits.{status_of};

/// How the program ends. Each exit has the status that `l2tp` gives it.
#[derive(Clone, Copy, PartialEq, Eq)]
pub enum Exit {
    Ok,
    /// The words are no command.
    Usage,
    /// The first line of the text that no report has, counted from 1.
    BadLine { line: u64 },
    /// The source failed.
    ReadFault,
    /// The sink of the capture failed.
    WriteFault,
    /// The text passes a limit; so many lines are begun there.
    TooLong { lines: u64 },
    /// Memory was wanting.
    NoMemory,
}

impl Exit {
    /// The status of the process.
    pub fn status(&self) -> u8
        ensures { result ≡ status_of self.now }
    {
        match self {
            Exit::Ok => 0,
            Exit::Usage => 1,
            Exit::BadLine { .. } => 2,
            Exit::ReadFault => 5,
            Exit::WriteFault => 6,
            Exit::TooLong { .. } => 7,
            Exit::NoMemory => 20,
        }
    }
}
