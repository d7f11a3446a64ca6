//! The words of a row.

use avp_codec::AvpError;
use control_message::MessageError;
use hex::FromHex;
use std::alloc::{AllocError, Global};
use std::fmt::Debug;
use wire_base::{NoMemory, Sequence};

/// Why a row isn't answered.
#[derive(Clone, Copy, Debug)]
pub(crate) enum Fault {
    /// It isn't in the grammar of the rows.
    NotARow,
    NoMemory,
}

impl From<AllocError> for Fault {
    fn from(_e: AllocError) -> Fault {
        Fault::NoMemory
    }
}

impl From<NoMemory> for Fault {
    fn from(_e: NoMemory) -> Fault {
        Fault::NoMemory
    }
}

impl From<AvpError> for Fault {
    fn from(_e: AvpError) -> Fault {
        Fault::NotARow
    }
}

impl From<MessageError> for Fault {
    fn from(_e: MessageError) -> Fault {
        Fault::NotARow
    }
}

/// The words of a row, which are parted by one space.
#[derive(Drop)]
pub(crate) struct Row<'a> {
    pub(crate) alloc: Global,
    words: Sequence<&'a str>,
}

impl<'a> Row<'a> {
    pub(crate) fn read(alloc: Global, line: &'a str) -> Result<Row<'a>, Fault> {
        let mut words = Sequence::new(alloc);
        for word in line.split(' ') {
            words.push(word)?;
        }
        Ok(Row { alloc, words })
    }

    /// A word, from the place 0 on; an empty one where there is none.
    pub(crate) fn word(&self, place: usize) -> &str {
        match self.words.lend(place) {
            Some(word) => word,
            None => "",
        }
    }

    /// A number of 16 bits.
    pub(crate) fn short(&self, place: usize) -> Result<u16, Fault> {
        self.word(place).parse::<u16>().map_err(|_| Fault::NotARow)
    }

    /// A number of 32 bits.
    pub(crate) fn long(&self, place: usize) -> Result<u32, Fault> {
        self.word(place).parse::<u32>().map_err(|_| Fault::NotARow)
    }

    /// A moment, in milliseconds.
    pub(crate) fn moment(&self, place: usize) -> Result<u64, Fault> {
        self.word(place).parse::<u64>().map_err(|_| Fault::NotARow)
    }

    /// Sixteen bytes in hex digits, where such are there.
    pub(crate) fn digest(&self, place: usize) -> Option<[u8; 16]> {
        <[u8; 16] as FromHex>::from_hex(self.word(place)).ok()
    }
}

/// A value as Rust writes it.
pub(crate) fn told<T: Debug>(alloc: Global, value: &T) -> Result<String, Fault> {
    Ok(format!(in alloc; "{value:?}")?)
}
