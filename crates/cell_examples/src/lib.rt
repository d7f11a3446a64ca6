//! The tests of the cells that threads share, and of the data messages that are judged by them. Proofs say what each call does;
//! runs of a few calls show that this is what was meant.
#![tactic(auto)]

#[cfg(test)]
mod cell_tests;
#[cfg(test)]
mod plane_tests;
