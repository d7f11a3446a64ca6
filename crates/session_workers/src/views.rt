//! What passes know, for proofs alone: no value of these types is made.

use crate::finished::Finished;
use crate::item::Numbered;
use std::collections::LinkedList;

/// Which row of cells the items are of.
pub struct RowName {
    pub number: u64,
    pub log_name: u64,
    pub cells_name: u64,
}

/// What a pass knows of the items: whether it alone puts, of which row the items are, a beginning of what was put, the items that it
/// took, and its parts of the right to know what all took.
pub struct ItemView {
    pub opener: bool,
    pub parts: u64,
    pub row: Option<RowName>,
    pub known: LinkedList<Numbered>,
    pub taken: LinkedList<Numbered>,
}

/// What a pass made of the items that it took, handed over and collected, and its parts of the right to know all of it.
pub struct FinishedView {
    pub parts: u64,
    pub made: LinkedList<Finished>,
    pub gave: LinkedList<Finished>,
    pub got: LinkedList<Finished>,
}
