//! Tests of a node's ports: over the loopback, Unix sockets and a file, in memory with each call failing in turn, and of
//! turns, words and blocks.
#![tactic(auto)]

#[cfg(test)]
mod file_tests;
#[cfg(test)]
mod judging;
#[cfg(test)]
mod memory_tests;
#[cfg(test)]
mod stream_tests;
#[cfg(test)]
mod turn_tests;
#[cfg(test)]
mod udp_tests;
#[cfg(test)]
mod word_tests;
