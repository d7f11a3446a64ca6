//! Recovery tunnels (RFC 4951 section 4.3): over a control connection of its own an end that was down attempts the recovery of
//! a tunnel, and the other end answers. Both say when the tunnel itself is to be reset, and to which numbers; they know nothing
//! else of it.
#![tactic(auto)]

ghost use Rattle.recovery_tunnel.specs.History.{AttemptTellsOnce, AnswerTellsOnce};

mod answer;
mod attempt;
mod connection;
mod either;
mod judging;
mod progress;
mod secrets;

pub use answer::Answer;
pub use attempt::Attempt;
pub use either::Recovering;
pub use judging::{Judged, judge};
pub use progress::Progress;

/// A law: over whatever calls are made of it, an attempt tells once at most to reset its tunnel, exactly where it counts as reset
/// then, and refuses once at most, exactly where it is closed then; and so does an answer.
pub fn tells_once()
    ensures attempt { AttemptTellsOnce }
    ensures answer { AnswerTellsOnce }
{}
