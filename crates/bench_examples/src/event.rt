//! The events that words tell.

use end_model::{Event, address_of};
use l2tp_datagram::Datagram;
use std::alloc::{AllocError, Global};
use wire_base::{Bytes, NoMemory};

/// Why a row isn't answered.
#[derive(Clone, Copy, Debug)]
pub enum Fault {
    /// It isn't in the grammar of the rows.
    NotARow,
    NoMemory,
}

impl From<AllocError> for Fault {
    fn from(_e: AllocError) -> Fault {
        Fault::NoMemory
    }
}

impl From<NoMemory> for Fault {
    fn from(_e: NoMemory) -> Fault {
        Fault::NoMemory
    }
}

/// A number of milliseconds.
pub(crate) fn number_of(digits: &str) -> Result<u32, Fault> {
    digits.parse::<u32>().map_err(|_| Fault::NotARow)
}

/// The number of a tunnel or of a session.
pub fn id_of(digits: &str) -> Result<u16, Fault> {
    digits.parse::<u16>().map_err(|_| Fault::NotARow)
}

/// The number of a node.
pub(crate) fn node_number(digits: &str) -> Result<u8, Fault> {
    digits.parse::<u8>().map_err(|_| Fault::NotARow)
}

/// The address of the node of a number.
fn peer_of(digits: &str) -> Result<u32, Fault> {
    Ok(address_of(node_number(digits)?))
}

/// The bytes of hex digits, or none for a `-`.
pub(crate) fn bytes_of(alloc: Global, digits: &str) -> Result<Bytes, Fault> {
    if digits == "-" {
        return Ok(Bytes::new(alloc));
    }
    match hex::decode(alloc, digits) {
        Ok(bytes) if !bytes.is_empty() => Ok(Bytes::from_slice(alloc, bytes.as_slice())?),
        _ => Err(Fault::NotARow),
    }
}

/// The event of a word and an id: an administrative close of a tunnel or of a call, or a subscriber that leaves.
fn event_of_id(word: &str, id: u16) -> Result<Event, Fault> {
    match word {
        "close" => Ok(Event::CloseTunnel { tunnel: id }),
        "drop" => Ok(Event::DropCall { session: id }),
        "hang" => Ok(Event::Hang { session: id }),
        _ => Err(Fault::NotARow),
    }
}

/// The event of a word, a number and bytes: a datagram of a node, or a frame of the subscriber's or of the network's for a session.
fn event_of_bytes(alloc: Global, word: &str, number: &str, bytes: Bytes) -> Result<Event, Fault> {
    match word {
        "from" => Ok(Event::Datagram {
            peer: peer_of(number)?,
            datagram: Datagram::read(alloc, bytes),
        }),
        "payload" => Ok(Event::Payload {
            session: id_of(number)?,
            frame: bytes,
        }),
        "lower" => Ok(Event::Lower {
            session: id_of(number)?,
            frame: bytes,
        }),
        _ => Err(Fault::NotARow),
    }
}

/// The event that words tell: an administrative open, a ring, an Ethernet frame, a word with what it is about, or the hex digits
/// of a datagram of the peer.
pub(crate) fn event_of(alloc: Global, peer: u32, words: &str) -> Result<Event, Fault> {
    match (words, words.split_once(' ')) {
        ("open", _) => Ok(Event::OpenTunnel),
        ("ring", _) => Ok(Event::Ring { port: 70 }),
        (_, Some(("frame", digits))) => Ok(Event::Frame {
            bytes: bytes_of(alloc, digits)?,
        }),
        (_, Some((word, about))) => match about.split_once(' ') {
            Some((number, digits)) => event_of_bytes(alloc, word, number, bytes_of(alloc, digits)?),
            None => event_of_id(word, id_of(about)?),
        },
        (_, None) => Ok(Event::Datagram {
            peer,
            datagram: Datagram::read(alloc, bytes_of(alloc, words)?),
        }),
    }
}
