//! An LNS is taken apart.

ghost use Rattle.std.specs.Prelude.{IfOk};
ghost use Rattle.end_core.specs.Apart.{IsApart};

use crate::Lns;
use end_core::EndParts;
use wire_base::NoMemory;

impl Lns {
    /// The LNS's tunnels, and apart from them what they share. It is given up, also where memory is wanting.
    pub fn into_parts(self) -> Result<EndParts, NoMemory>
        ensures { IfOk result (λ parts. IsApart self parts) }
    {
        let Lns { end } = self;
        end.into_parts()
    }
}
