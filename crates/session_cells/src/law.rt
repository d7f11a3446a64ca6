//! The rule of the log, and what its steps tell.

use crate::entry::Entry;
use logbook::{Gain, Opening, Plain, Play, Rule};

/// The rule of the cells: each holds the word that the log gives it.
pub struct Law;

impl Rule<Entry, u64> for Law {
    ghost use Rattle.std.specs.Prelude.{[]};
    ghost use base.Fml.{ftrue};
    ghost use Rattle.session_cells.specs.Rules.{IsKept};

    ghost holds = { λ cells log. IsKept cells log };

    ghost first = { [] };

    ghost hinted = { λ n log. Unit {0} };

    ghost shows = { λ log. [] };

    ghost keeps = { λ names log. ftrue };

    ghost moves = { λ ask before after answer. Unit {0} };
}

/// Callers trade nothing.
pub struct Nothing;

impl Gain<Entry, u64> for Nothing {
    ghost use base.Fml.{ftrue};

    ghost after = { λ names about answer. ftrue };
}

/// A load.
pub struct Load;

impl Play<Entry, u64> for Load {
    ghost use Rattle.session_cells.specs.Rules.{Loads};

    ghost then = { Loads };
}

/// An exchange.
pub struct Exchange;

impl Play<Entry, u64> for Exchange {
    ghost use Rattle.session_cells.specs.Rules.{Exchanges};

    ghost then = { Exchanges };
}

/// What an exchange asks for: the entry.
impl Plain<Entry, Entry, u64> for Exchange {
    ghost use Rattle.std.specs.Prelude.{None};

    ghost ask = { λ entry. entry };

    ghost state = { λ entry. None };
}

/// The log of a new row.
pub struct Empty;

impl Opening<(), Entry> for Empty {
    ghost use Rattle.std.specs.Prelude.{[]};

    ghost log = { λ count about. [] };
}
