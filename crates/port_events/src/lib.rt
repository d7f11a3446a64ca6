//! An end between its ports: what waits on a port becomes an event, and what the end gives goes out.
#![tactic(auto)]

mod echo;
mod end;
mod feeding;
mod giving;
mod laws;
mod taking;

pub use echo::Echo;
pub use end::{EndStep, Event, Out, Outputs};
pub use feeding::{feed, feed_some};
pub use giving::{TurnFault, give_all};
pub use laws::events_follow;
pub use taking::{next_datagram, next_frame, next_lower};
