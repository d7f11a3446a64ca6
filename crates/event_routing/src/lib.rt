//! Which tunnel of an end an event is for, as its tunnels are listed, and what becomes of one that is for none.
#![tactic(auto)]

mod addressing;
mod answers;
mod events;
mod routes;

pub use addressing::addressed;
pub use answers::{Answer, Given, answer_event, declines, only};
pub use events::{copy_event, plain_event};
pub use routes::{Route, route_event};
