//! The tests of a LAC and an LNS with their stores, over disks in memory. Proofs say what each call does; these runs show that this is
//! what was meant. The bytes of files were worked out by hand from the format of a checkpoint.
#![tactic(auto)]

#[cfg(test)]
mod pair;
#[cfg(test)]
mod sites;
#[cfg(test)]
mod stored_end_tests;
