//! The words of a row.

ghost use Rattle.std.specs.Prelude.{◌≤◌, length, IfOk, IfSome};

use hex::{FromHex, FromHexError};
use std::alloc::{AllocError, Global};
use wire_base::{Bytes, NoMemory, Sequence};

/// Why a row isn't answered.
#[derive(Clone, Copy, Debug)]
pub enum Fault {
    /// It isn't in the grammar of the rows.
    NotARow,
    NoMemory,
}

impl From<AllocError> for Fault {
    fn from(_e: AllocError) -> Fault {
        Fault::NoMemory
    }
}

impl From<NoMemory> for Fault {
    fn from(_e: NoMemory) -> Fault {
        Fault::NoMemory
    }
}

/// A word of a row, and the bytes that it spells in hex, none where it spells none.
#[derive(Drop)]
struct Word<'a> {
    word: &'a str,
    bytes: Bytes,
}

/// The words of a row, which are parted by one space. The call is at the place 0, and its arguments come from 1 on. What an
/// argument doesn't spell is 0, or no bytes.
#[derive(Drop)]
pub struct Row<'a> {
    pub alloc: Global,
    words: Sequence<Word<'a>>,
}

impl<'a> Row<'a> {
    pub fn read(alloc: Global, line: &'a str) -> Result<Row<'a>, Fault> {
        let mut words = Sequence::new(alloc);
        for word in line.split(' ') {
            let mut bytes = Bytes::new(alloc);
            match hex::decode(alloc, word) {
                Ok(cells) => bytes.push_slice(cells.as_slice())?,
                Err(FromHexError::OutOfMemory) => return Err(Fault::NoMemory),
                Err(_) => {}
            }
            words.push(Word { word, bytes })?;
        }
        Ok(Row { alloc, words })
    }

    pub fn word(&self, place: usize) -> &str {
        match self.words.lend(place) {
            Some(word) => word.word,
            None => "",
        }
    }

    /// A number of 8 bits in decimal.
    pub fn byte(&self, place: usize) -> u8 {
        self.word(place).parse::<u8>().unwrap_or(0)
    }

    /// A number of 16 bits in decimal.
    pub fn short(&self, place: usize) -> u16 {
        self.word(place).parse::<u16>().unwrap_or(0)
    }

    /// A number of 16 bits in decimal, where one is spelled.
    pub fn some_short(&self, place: usize) -> Option<u16> {
        self.word(place).parse::<u16>().ok()
    }

    /// A number of 32 bits in decimal.
    pub fn long(&self, place: usize) -> u32 {
        self.word(place).parse::<u32>().unwrap_or(0)
    }

    /// A number of 32 bits in decimal, where one is spelled.
    pub fn some_long(&self, place: usize) -> Option<u32> {
        self.word(place).parse::<u32>().ok()
    }

    /// Bytes in hex, which are no more than so many.
    pub fn bytes(&self, place: usize, most: usize) -> &[u8]
        ensures { length result.now ≤ most }
    {
        match self.words.lend(place) {
            Some(word) if word.bytes.len() <= most => word.bytes.as_slice(),
            _ => &[],
        }
    }

    /// Such bytes as a value.
    pub fn owned(&self, place: usize, most: usize) -> Result<Bytes, NoMemory>
        ensures { IfOk result (λ v. length v ≤ most) }
    {
        Bytes::from_slice(self.alloc, self.bytes(place, most))
    }

    /// Bytes in hex, where they are told: `none` tells none, and neither does a word that isn't there.
    pub fn some_bytes(&self, place: usize, most: usize) -> Option<&[u8]> {
        match self.word(place) {
            "" | "none" => None,
            _ => Some(self.bytes(place, most)),
        }
    }

    /// Such bytes as a value.
    pub fn some_owned(&self, place: usize, most: usize) -> Result<Option<Bytes>, NoMemory>
        ensures { IfOk result (λ value. IfSome value (λ v. length v ≤ most)) }
    {
        match self.word(place) {
            "" | "none" => Ok(None),
            _ => Ok(Some(self.owned(place, most)?)),
        }
    }

    /// So many bytes in hex.
    pub fn array<const N: usize>(&self, place: usize) -> [u8; N] {
        <[u8; N] as FromHex>::from_hex(self.word(place)).unwrap_or([0; N])
    }

    /// So many bytes in hex, where they are told.
    pub fn some_array<const N: usize>(&self, place: usize) -> Option<[u8; N]> {
        <[u8; N] as FromHex>::from_hex(self.word(place)).ok()
    }
}
