//! The book of an end: what its checkpoint holds of its tunnels, calls and ids. It is the fold of the checkpoint's
//! records in order.
#![tactic(auto)]

ghost use Rattle.session_book.specs.Books.{EachContentIsAStep};
ghost use Rattle.session_book.specs.Spelling.{RecordsAreReadAgain, ContentsKeepTheBook, RecordsKeepItWhole};

mod book;
mod record;
mod writing;

pub use book::{Book, BookError};
pub use record::{BookCall, BookTunnel, KeptCalls, KeptTunnels, Record, read_record};
pub use writing::{call_down, call_up, ceiling, mark, tunnel_down, tunnel_up};

/// A law: where contents make a book, one content more makes the book that is one step further, or, where it isn't in
/// place, none, and its place is told. So a book that applies each content as it is committed is the book of the whole
/// checkpoint.
pub fn a_content_is_one_step()
    ensures { EachContentIsAStep }
{}

/// A law: the content that spells a record is read as that record, where the fields fit their bytes.
pub fn records_are_read_again()
    ensures { RecordsAreReadAgain }
{}

/// A law: the contents that a book is compacted to have that book, where what it holds fits together.
pub fn contents_keep_the_book()
    ensures { ContentsKeepTheBook }
{}

/// A law: what a book of no records holds fits together, and after each record that is in place and fits its bytes it does
/// so again.
pub fn records_keep_a_book_whole()
    ensures { RecordsKeepItWhole }
{}
