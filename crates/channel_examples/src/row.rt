//! The words of rows, and how answers are told.

use std::alloc::{AllocError, Global};
use std::fmt::Debug;
use wire_base::{Bytes, Letter, NoMemory};

/// Why a row isn't answered.
#[derive(Clone, Copy, Debug)]
pub(crate) enum Fault {
    /// It isn't in the grammar of the rows.
    NotARow,
    NoMemory,
}

impl From<AllocError> for Fault {
    fn from(_e: AllocError) -> Fault {
        Fault::NoMemory
    }
}

impl From<NoMemory> for Fault {
    fn from(_e: NoMemory) -> Fault {
        Fault::NoMemory
    }
}

/// A number of 16 bits.
pub(crate) fn short_of(digits: &str) -> Result<u16, Fault> {
    digits.parse::<u16>().map_err(|_| Fault::NotARow)
}

/// A number without end, or a moment in milliseconds.
pub(crate) fn long_of(digits: &str) -> Result<u64, Fault> {
    digits.parse::<u64>().map_err(|_| Fault::NotARow)
}

/// Two numbers of 16 bits.
pub(crate) fn shorts_of(words: &str) -> Result<(u16, u16), Fault> {
    match words.split_once(' ') {
        Some((first, second)) => Ok((short_of(first)?, short_of(second)?)),
        None => Err(Fault::NotARow),
    }
}

/// A letter of a session, without pairs.
pub(crate) fn letter(alloc: Global, session: u16) -> Letter {
    Letter {
        session,
        avps: Bytes::new(alloc),
    }
}

/// A value as Rust writes it.
pub(crate) fn told<T: Debug>(alloc: Global, value: &T) -> Result<String, Fault> {
    Ok(format!(in alloc; "{value:?}")?)
}
