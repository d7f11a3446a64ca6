//! What a pool writes at its end.

ghost use Rattle.std.specs.Prelude.{◌≡◌, IfOk};
ghost use Rattle.pool_top.specs.Texts.{tally_text};

use node_top::push_line;
use std::alloc::Global;
use wire_base::{Bytes, NoMemory};
use worker_pool::Tally;

/// The three lines of a pool that made all its turns.
pub(crate) fn tally_text(alloc: Global, tally: Tally) -> Result<Bytes, NoMemory>
    ensures { IfOk result (λ text. text ≡ tally_text tally) }
{
    let mut text = Bytes::new(alloc);
    push_line(&mut text, b"taken ", tally.taken)?;
    push_line(&mut text, b"up ", tally.up)?;
    push_line(&mut text, b"dropped ", tally.dropped)?;
    Ok(text)
}
