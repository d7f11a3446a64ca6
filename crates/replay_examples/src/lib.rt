//! The tests of the disks that the nodes of a schedule have. Proofs say what each line does; these runs show which bytes that leaves. The
//! bytes of files were worked out by hand from the format of a checkpoint.
#![tactic(auto)]

#[cfg(test)]
mod disk_tests;
