//! What a caller has seen of the log.

use crate::entry::Entry;
use crate::law::Law;
use logbook::Seen;

/// A beginning of the log that its holder has seen, and of which cells. It takes no bytes.
#[derive(Drop)]
pub struct CellSeen {
    pub(crate) seen: Seen<Entry, u64, Law>,
}
