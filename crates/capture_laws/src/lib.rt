//! A law of reports and of how they are read: what the report of a run writes of what was sent is read as that.
#![tactic(auto)]

mod texts;

pub use texts::sent_texts_are_read;
