//! The journal of an end's checkpoint: a file of records of one content of 31 bytes each, every one behind a gate of its
//! own. A content is committed by opening its gate once it is on the disk, so a crash at any moment leaves the records from
//! before the commit or these with the new one last, and nothing else. The file has two areas of records, of which one is in
//! use: a compaction writes a new list to the other one whole, and then chooses it by one byte, so a crash at any moment
//! leaves the old list or the new one.
#![tactic(auto)]

mod area;
mod compaction;
mod crash;
mod head;
mod journal;
mod laws;
mod open;
mod record;

pub use compaction::CompactStop;
pub use crash::{Reopened, commit_and_crash};
pub use journal::{Journal, JournalRoom, JournalStop};
pub use laws::{
    a_commit_spells_one_more, a_crash_leaves_one_list, a_crash_leaves_whole_commits,
    what_is_spelled_is_read,
};
pub use open::{JournalOpen, open_disk};
