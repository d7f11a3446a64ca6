//! Pairs that are lent from the bytes in which they stand.

ghost use Rattle.std.specs.Prelude.{◌≡◌, ◌∷◌, [], take, drop, IfOk, IsNone, MatchOption};
ghost use Rattle.avp_codec.specs.Places.{pair_in, pairs_in};

use crate::avp::{Avp, Avps};
use std::alloc::Global;
use std::marker::Model;
use wire_base::{Bytes, NoMemory, Sequence};

/// Where a pair stands in bytes, with what its head says.
#[derive(Clone, Copy, Debug)]
pub struct Place {
    pub mandatory: bool,
    pub hidden: bool,
    pub reserved: u8,
    pub vendor: u16,
    pub attribute: u16,
    /// Where its value begins, and how many bytes it has.
    pub start: usize,
    pub len: usize,
}

/// Places of pairs, in the order in which the pairs stand.
pub type Places = Sequence<Place>;

/// A pair of which the value is lent, seen as the pair.
#[derive(Drop)]
pub struct AvpRef<'a> {
    pub mandatory: bool,
    pub hidden: bool,
    pub reserved: u8,
    pub vendor: u16,
    pub attribute: u16,
    pub value: &'a [u8],
}

impl<'a> Model for AvpRef<'a> {
    ghost use Rattle.avp_codec.specs.declared.avp.Avp.{Avp as Known};

    ghost Value = { Known };

    ghost view = { λ a. record { mandatory = a.mandatory; hidden = a.hidden; reserved = a.reserved; vendor = a.vendor; attribute = a.attribute; value = a.value.now } };
}

/// Pairs that stand in bytes, and behind them pairs that own their values; seen as the list of them.
#[derive(Drop)]
pub struct LentAvps<'a> {
    bytes: &'a [u8],
    places: &'a [Place],
    owned: &'a [Avp],
}

impl<'a> Model for LentAvps<'a> {
    ghost use Rattle.std.specs.Prelude.{List, ◌++◌};
    ghost use Rattle.avp_codec.specs.declared.avp.Avp.{Avp as Known};
    ghost use Rattle.avp_codec.specs.Places.{pairs_in};

    ghost Value = { List Known };

    ghost view = { λ a. pairs_in a.bytes.now a.places.now ++ a.owned.now };
}

/// So many bytes from a place, as far as they are there.
fn part(bytes: &[u8], start: usize, len: usize) -> &[u8]
    ensures { result.now ≡ take len (drop start bytes.now) }
{
    if bytes.len() < start {
        return &[];
    }
    let (_, rest) = bytes.split_at(start);
    if rest.len() < len {
        return rest;
    }
    rest.split_at(len).0
}

impl Place {
    /// The pair that stands there.
    fn lend<'a>(&self, bytes: &'a [u8]) -> AvpRef<'a>
        ensures { result ≡ pair_in bytes.now self.now }
    {
        AvpRef {
            mandatory: self.mandatory,
            hidden: self.hidden,
            reserved: self.reserved,
            vendor: self.vendor,
            attribute: self.attribute,
            value: part(bytes, self.start, self.len),
        }
    }
}

impl Avp {
    /// The pair, with its value lent.
    pub fn lend(&self) -> AvpRef<'_>
        ensures { result ≡ self.now }
    {
        AvpRef {
            mandatory: self.mandatory,
            hidden: self.hidden,
            reserved: self.reserved,
            vendor: self.vendor,
            attribute: self.attribute,
            value: self.value.as_slice(),
        }
    }
}

impl<'a> AvpRef<'a> {
    /// A copy of the pair.
    pub fn copy(&self, alloc: Global) -> Result<Avp, NoMemory>
        ensures { IfOk result (λ a. a ≡ self.now) }
    {
        Ok(Avp {
            mandatory: self.mandatory,
            hidden: self.hidden,
            reserved: self.reserved,
            vendor: self.vendor,
            attribute: self.attribute,
            value: Bytes::from_slice(alloc, self.value)?,
        })
    }
}

impl<'a> LentAvps<'a> {
    /// The pairs at these places in bytes.
    pub fn new(bytes: &'a [u8], places: &'a [Place]) -> LentAvps<'a>
        ensures { result ≡ pairs_in bytes.now places.now }
    {
        LentAvps {
            bytes,
            places,
            owned: &[],
        }
    }

    /// Pairs that own their values.
    pub fn of(owned: &'a [Avp]) -> LentAvps<'a>
        ensures { result ≡ owned.now }
    {
        LentAvps {
            bytes: &[],
            places: &[],
            owned,
        }
    }

    /// All of them, lent again.
    pub fn lend(&self) -> LentAvps<'a>
        ensures { result ≡ self.now }
    {
        LentAvps {
            bytes: self.bytes,
            places: self.places,
            owned: self.owned,
        }
    }

    /// The first pair and those behind it, None where there is none.
    pub fn split_first(&self) -> Option<(AvpRef<'a>, LentAvps<'a>)>
        ensures { MatchOption result (self.now ≡ []) (λ p. self.now ≡ p.0 ∷ p.1) }
    {
        if let Some((place, places)) = self.places.split_first() {
            let rest = LentAvps {
                bytes: self.bytes,
                places,
                owned: self.owned,
            };
            return Some((place.lend(self.bytes), rest));
        }
        let (avp, owned) = self.owned.split_first()?;
        Some((avp.lend(), LentAvps::of(owned)))
    }

    /// Copies of them.
    pub fn copy(&self, alloc: Global) -> Result<Avps, NoMemory>
        ensures { IfOk result (λ avps. avps ≡ self.now) }
    {
        let mut avps = Avps::new(alloc);
        let mut rest = self.lend();
        while let Some((avp, behind)) = rest.split_first() {
            avps.push(avp.copy(alloc)?)?;
            rest = behind;
        }
        Ok(avps)
    }
}
