//! The tests of the components that ends stand on: a module for each tested crate. Proofs say what each call does; runs of
//! a few calls show that this is what was meant, and each public call is run once where memory is ample. Ports and disks
//! fail at each of their calls in turn.
//!
//! The answers of journals and books were worked out by hand from the format of a checkpoint.
#![tactic(auto)]

#[cfg(test)]
mod checkpoint_journal_tests;
#[cfg(test)]
mod compaction_tests;
#[cfg(test)]
mod disk_core_tests;
#[cfg(test)]
mod id_index_tests;
#[cfg(test)]
mod id_source_tests;
#[cfg(test)]
mod judging;
#[cfg(test)]
mod node_notes_tests;
#[cfg(test)]
mod port_traits_tests;
#[cfg(test)]
mod pppoe_session_tests;
#[cfg(test)]
mod recv_window_tests;
#[cfg(test)]
mod session_book_tests;
#[cfg(test)]
mod session_query_tests;
