//! The outbox of a control channel (RFC 2661 section 5.8 and appendix A): the letters that are unacknowledged or unsent,
//! with the window that lets them go and the timer that repeats the oldest of them.
#![tactic(auto)]

ghost use Rattle.send_window.specs.History.{EachCallIsAStep, LendsByNumber, KeepsTheRest};

mod congestion;
mod letters;
mod outbox;
mod window;

pub use congestion::Congestion;
pub use letters::Letters;
pub use outbox::{Outbox, PutError};
pub use window::{LIMIT, SendWindow, Tick};

/// Each call is a step of the whole list of letters, whose numbers have no end: it answers as the whole list does, and
/// after every history of calls the outbox keeps the rest of it, from the first unacknowledged letter on.
pub fn keeps_the_rest()
    ensures step { EachCallIsAStep }
    ensures lends { LendsByNumber }
    ensures run { KeepsTheRest }
{}
