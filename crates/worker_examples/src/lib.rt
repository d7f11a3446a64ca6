//! The tests of the queues between threads, over an end whose tunnels stand behind locks and a hub in memory. Proofs say what each call
//! does; runs of a few calls show that this is what was meant.
#![tactic(auto)]

#[cfg(test)]
mod held;
#[cfg(test)]
mod held_tests;
#[cfg(test)]
mod queue_tests;
#[cfg(test)]
mod shared;
#[cfg(test)]
mod turn_tests;
