//! What the tunnels of an end share while each is changed by itself, as by threads that hold a tunnel each: where ids are drawn from,
//! and the checkpoint. A turn is lent what it works in, and what it leaves is committed before it is made.
#![tactic(auto)]

mod hub;
mod stop;

pub use hub::Hub;
pub use stop::{StepError, Stop};
