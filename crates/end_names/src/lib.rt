//! What ends are called: the two kinds of ends, and the host names and addresses of nodes.
#![tactic(auto)]

mod names;
mod role;

pub use names::{
    address_of, calling_number, host_name, mac_of, node_of, subscriber, twelve_digits,
};
pub use role::Role;
