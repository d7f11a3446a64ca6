//! The cells.

ghost use Rattle.std.specs.Prelude.{◌≡◌, ◌≤◌, vec_len};
ghost use Rattle.session_cells.specs.Rules.{row_of};

use crate::entry::Entry;
use crate::law::Law;
use logbook::{Seen, Word};

/// A row of cells that threads share, one for each session id from 0 on. Each is one word of 64 bits.
#[derive(Drop)]
pub struct Cells {
    pub(crate) words: Vec<Word<Entry, u64, Law>>,
    pub(crate) first: Seen<Entry, u64, Law>,
    ghost row: { words.items ≡ row_of first.book 0 (vec_len words) },
    ghost few: { vec_len words ≤ 65536 },
}
