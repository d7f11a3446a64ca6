//! A datagram with what stands at its front: its header is read once, and so are the pairs of a control message, as places in it.
#![tactic(auto)]

ghost use Rattle.std.specs.Prelude.{◌≡◌, ◌≤◌, true, length, Ok, IfOk, nat_eq};
ghost use Rattle.l2tp_header.specs.Reading.{header_of, body_of};
ghost use Rattle.l2tp_datagram.specs.Bodies.{AreRead, AreReadOf, LiesInside, IsShort, room_of};

use avp_codec::{AvpError, LentAvps, Places, read_places};
use l2tp_header::{Header, HeaderError, read_header};
use std::alloc::Global;
use std::marker::Model;
use wire_base::Bytes;

/// A datagram, seen as its bytes. Beside them stand its header and the places of its pairs (RFC 2661 sections 3.1 and 4.1), as they
/// were read.
#[derive(Drop)]
pub struct Datagram {
    bytes: Bytes,
    header: Result<Header, HeaderError>,
    places: Result<Places, AvpError>,
}

impl Model for Datagram {
    ghost use Rattle.std.specs.Prelude.{◌≡◌, ℕ, List};
    ghost use Rattle.l2tp_header.specs.Reading.{header_of, body_of};
    ghost use Rattle.l2tp_datagram.specs.Bodies.{AreReadOf, LiesInside, IsShort};

    ghost Value = { List ℕ };

    ghost view = { λ d. d.bytes };

    ghost invariant = { λ d. (d.header ≡ header_of d.bytes) × AreReadOf d.bytes d.header d.places × LiesInside d.bytes d.header × IsShort d.header };
}

/// The body of a control message, seen as its bytes, with its pairs.
#[derive(Drop)]
pub struct Body<'a> {
    bytes: &'a [u8],
    places: &'a Result<Places, AvpError>,
}

impl<'a> Model for Body<'a> {
    ghost use Rattle.std.specs.Prelude.{ℕ, ◌≤◌, List, length};
    ghost use Rattle.l2tp_datagram.specs.Bodies.{ArePlaces};

    ghost Value = { List ℕ };

    ghost view = { λ b. b.bytes.now };

    ghost invariant = { λ b. ArePlaces b.bytes.now b.places.now × (length b.bytes.now ≤ 65523) };
}

/// The places of the pairs of a datagram with this header, in its body.
fn places_in(
    alloc: Global,
    bytes: &[u8],
    header: &Result<Header, HeaderError>,
) -> Result<Places, AvpError>
    requires { LiesInside bytes.now header.now }
    ensures { AreReadOf bytes.now header.now result }
{
    match header {
        Ok(header) if header.control => read_places(alloc, &bytes[header.start..header.end]),
        _ => Ok(Places::new(alloc)),
    }
}

impl Datagram {
    /// Reads the header of a datagram, and the pairs of a control message. What is wrong with them, and that memory was wanting for the
    /// pairs, is told where they are asked for.
    pub fn read(alloc: Global, bytes: Bytes) -> Datagram
        ensures { result ≡ bytes }
    {
        let header = read_header(bytes.as_slice());
        let places = places_in(alloc, bytes.as_slice(), &header);
        Datagram {
            bytes,
            header,
            places,
        }
    }

    /// All of it.
    pub fn as_slice(&self) -> &[u8]
        ensures { result.now ≡ self.now }
    {
        self.bytes.as_slice()
    }

    /// Its header, or the first fault of it.
    pub fn header(&self) -> Result<Header, HeaderError>
        ensures value { result ≡ header_of self.now }
        ensures inside { LiesInside self.now result }
    {
        self.header
    }

    /// The body of a control message with this header.
    pub fn body(&self, header: &Header) -> Body<'_>
        requires header { header_of self.now ≡ Ok header.now }
        requires control { header.now.control ≡ true }
        ensures { result ≡ body_of self.now header.now }
    {
        Body {
            bytes: &self.bytes.as_slice()[header.start..header.end],
            places: &self.places,
        }
    }
}

impl<'a> Body<'a> {
    /// Its bytes.
    pub fn as_slice(&self) -> &[u8]
        ensures { result.now ≡ self.now }
    {
        self.bytes
    }

    /// Whether it has none: the message is an acknowledgement alone.
    pub fn is_empty(&self) -> bool
        ensures { result ≡ nat_eq (length self.now) 0 }
    {
        self.bytes.is_empty()
    }

    /// The pairs that it spells, or the first fault of them, or that memory was wanting as it was read. They take no more bytes than a
    /// control message has behind its header.
    pub fn pairs(&self) -> Result<LentAvps<'a>, AvpError>
        ensures read { AreRead self.now result }
        ensures room { IfOk result (λ avps. room_of avps ≤ 65523) }
    {
        match self.places {
            Ok(places) => Ok(LentAvps::new(self.bytes, places.as_slice())),
            Err(error) => Err(*error),
        }
    }
}
