//! Rows and the lines of their answers.

use std::alloc::{AllocError, Global};
use wire_base::{Bytes, NoMemory};

/// Why a row isn't answered.
#[derive(Clone, Copy, Debug)]
pub(crate) enum Fault {
    /// It isn't in the grammar of the rows.
    NotARow,
    NoMemory,
}

impl From<AllocError> for Fault {
    fn from(_e: AllocError) -> Fault {
        Fault::NoMemory
    }
}

impl From<NoMemory> for Fault {
    fn from(_e: NoMemory) -> Fault {
        Fault::NoMemory
    }
}

/// A line behind a mark.
pub(crate) fn marked(alloc: Global, mark: &[u8], line: &str) -> Result<Bytes, NoMemory> {
    let mut text = Bytes::from_slice(alloc, mark)?;
    text.push_slice(line.as_bytes())?;
    text.push_slice(b"\n")?;
    Ok(text)
}
