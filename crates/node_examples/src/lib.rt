//! The tests of nodes, each over a disk in memory: one over ports in memory, and two that speak over UDP. Proofs say what each call does; these
//! runs show what is sent and written.
#![tactic(auto)]

#[cfg(test)]
mod fault_tests;
#[cfg(test)]
mod node_tests;
#[cfg(test)]
mod pair_tests;
