//! The random blocks of a node: 16 bytes for each event, from a ChaCha20 generator of a 32-byte seed.
#![tactic(auto)]

mod blocks;
mod seed;

pub use blocks::next_block;
pub use seed::{generator_of_file, seeded};
