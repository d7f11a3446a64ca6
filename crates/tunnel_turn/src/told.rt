//! What the letter of a peer that opens, accepts or closes a tunnel tells of the peer.

ghost use Rattle.std.specs.Prelude.{◌≡◌, None};
ghost use Rattle.end_model.specs.Messages.{tells_id, told_by, flags_of};

use control_message::{Failover, Opening};
use std::marker::Model;
use wire_base::Bytes;

/// What a letter tells.
#[derive(Drop)]
pub struct Told<'a> {
    /// The challenge that the peer asks to be answered.
    pub asks: &'a Option<Bytes>,
    /// The tunnel id that it assigns, 0 where it tells none.
    pub remote: u16,
    /// Its receive window, in letters.
    pub window: u16,
    /// What it can recover, a set of bits (RFC 4951 section 5.1).
    pub flags: u16,
}

impl<'a> Model for Told<'a> {
    ghost use Rattle.end_model.specs.Messages.{Told as Says};

    ghost Value = { Says };

    ghost view = { λ t. record { asks = t.asks.now; remote = t.remote; window = t.window; flags = t.flags } };
}

fn flags_of(failover: &Option<Failover>) -> u16
    ensures { result ≡ flags_of failover.now }
{
    match failover {
        Some(failover) => failover.flags,
        None => 0,
    }
}

impl<'a> Told<'a> {
    /// What an SCCRQ or an SCCRP tells.
    pub fn by(opening: &'a Opening) -> Told<'a>
        ensures { result ≡ told_by opening.now }
    {
        Told {
            asks: &opening.challenge,
            remote: opening.tunnel,
            window: opening.window,
            flags: flags_of(&opening.failover),
        }
    }

    /// An id, and nothing else.
    pub fn id(asks: &'a Option<Bytes>, remote: u16) -> Told<'a>
        requires { asks.now ≡ None }
        ensures { result ≡ tells_id remote }
    {
        Told {
            asks,
            remote,
            window: 0,
            flags: 0,
        }
    }
}
