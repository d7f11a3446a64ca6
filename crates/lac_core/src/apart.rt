//! A LAC is taken apart.

ghost use Rattle.std.specs.Prelude.{◌≡◌, IfOk};
ghost use Rattle.end_core.specs.Apart.{IsApart};

use crate::Lac;
use end_core::EndParts;
use pppoe_session::Table;
use std::marker::Model;
use wire_base::NoMemory;

/// What a LAC knows of its hosts.
#[derive(Drop)]
pub struct LacAccess {
    /// The key of the cookies.
    pub key: [u8; 16],
    /// The hosts that were admitted, by the sessions of their calls.
    pub hosts: Table,
    /// The hosts of the calls that were kept over a start, by their sessions.
    pub kept: Table,
}

impl Model for LacAccess {
    ghost use Rattle.end_model.specs.Access.{Access};

    ghost Value = { Access };

    ghost view = { λ a. record { key = a.key; held = a.hosts; kept = a.kept } };
}

impl Lac {
    /// The LAC's tunnels, apart from them what they share, and its hosts. It is given up, also where memory is wanting.
    pub fn into_parts(self) -> Result<(EndParts, LacAccess), NoMemory>
        ensures parts { IfOk result (λ r. IsApart self.end r.0) }
        ensures access { IfOk result (λ r. r.1 ≡ self.access) }
    {
        let Lac {
            end,
            key,
            hosts,
            kept,
            ..
        } = self;
        let access = LacAccess { key, hosts, kept };
        let parts = end.into_parts()?;
        Ok((parts, access))
    }
}
