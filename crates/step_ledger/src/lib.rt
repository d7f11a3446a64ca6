//! What an end commits to before its step is seen: a ledger takes the records of the step, all of them or up to a stop of its own.
#![tactic(auto)]

mod ledger;
mod unkept;

pub use ledger::{BookedLedger, Ledger, StepFault};
pub use unkept::Unkept;
