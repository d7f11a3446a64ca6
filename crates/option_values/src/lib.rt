//! The values of a command's options: numbers, IPv4 addresses, roles and secrets, as words spell them.
#![tactic(auto)]

mod values;

pub use values::{
    read_address, read_number, read_number_or, read_peer, read_role, read_secret, read_workers,
};
