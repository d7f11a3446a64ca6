//! The text of a schedule's lines, as `schedule_text` reads it.
#![tactic(auto)]

mod writing;

pub use writing::write_schedule;
