//! Tests of turns behind locks, over a hub in memory. Proofs say what each call does; runs of a few calls show that this is what was
//! meant.
#![tactic(auto)]

mod hub;
mod signals;

pub use hub::MemoryHub;
pub use signals::Signals;

#[cfg(test)]
mod looking_tests;
#[cfg(test)]
mod messages;
#[cfg(test)]
mod quiet_tests;
#[cfg(test)]
mod recovery_tests;
#[cfg(test)]
mod steps;
#[cfg(test)]
mod table_tests;
#[cfg(test)]
mod tick_tests;
#[cfg(test)]
mod turn_tests;
