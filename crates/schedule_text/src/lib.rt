//! The text of a schedule: a list of lines, each of which tells the world one thing.
#![tactic(auto)]

mod error;
mod line;
mod line_reading;
mod parts;
mod reading;

pub use error::ScheduleError;
pub use line::{Line, Lines};
pub use reading::{lines_are_a_schedule, read_schedule};
