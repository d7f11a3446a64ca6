//! Schedules that are drawn from a seed, as far as the world takes what is drawn, and what the run of such a one comes to.
#![tactic(auto)]

mod drawing;
mod draws;
mod making;
mod summary;
mod words;

pub use making::make_lines;
pub use summary::{Summary, summarize, summary_text};
pub use words::read_make;
