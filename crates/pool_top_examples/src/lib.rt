//! The tests of pools over ports and a disk in memory, with workers in threads of their own. Proofs say what each call does; these runs show what
//! is sent and written, and that it is this whatever the schedule.
#![tactic(auto)]

#[cfg(test)]
mod call_tests;
#[cfg(test)]
mod gates;
#[cfg(test)]
mod pools;
#[cfg(test)]
mod stop_tests;
