//! The tests of pools of workers, over an end whose tunnels stand behind locks and a hub in memory. Proofs say what each call does; runs
//! show that workers wake and end, and that this is what was meant.
#![tactic(auto)]

#[cfg(test)]
mod batch;
#[cfg(test)]
mod days;
#[cfg(test)]
mod gates;
#[cfg(test)]
mod idle_tests;
#[cfg(test)]
mod pool_tests;
#[cfg(test)]
mod pools;
