//! What an end has of its checkpoint: the journal on its disk, and the book that the journal's contents make. A record is on
//! the disk before the book is told, so whatever may be found on the disk later opens with a book of the records from before
//! and the first few of those that are being committed. Lent with its disk, a store is a ledger of steps.
#![tactic(auto)]

mod on_disk;
mod spelling;
mod store;

pub use on_disk::OnDisk;
pub use store::{Store, StoreStop};
