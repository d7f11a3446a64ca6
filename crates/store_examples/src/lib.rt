//! The tests of an end's store, over disks in memory. Proofs say what each call does; these runs show that this is what was meant. The
//! bytes of files were worked out by hand from the format of a checkpoint.
#![tactic(auto)]

#[cfg(test)]
mod compaction_tests;
#[cfg(test)]
mod end_store_tests;
#[cfg(test)]
mod ledger_tests;
