//! What is seen of sessions, in cells that threads share: one word for each session id. Their changes stand in one log, of
//! which each caller has seen a beginning.
//!
//! No call waits: whoever looks at a cell reads one word, and whoever changes one exchanges it, once where nobody else does so
//! at the same moment.
#![tactic(auto)]

mod cells;
mod entry;
mod killed;
mod law;
mod row;
mod seen;
mod word;

pub use cells::{Already, NotBound};
pub use entry::Entry;
pub use killed::Killed;
pub use row::Cells;
pub use seen::CellSeen;
