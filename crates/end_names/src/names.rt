//! Host names and addresses of nodes.

ghost use Rattle.std.specs.Prelude.{ℕ, ◌≡◌, ◌≤◌, List, length, IfOk};
ghost use Rattle.end_names.specs.Names.{host_name, role_name, address_of, node_of, subscriber, mac_of, calling_number};

use crate::role::Role;
use std::alloc::Global;
use wire_base::{Bytes, NoMemory};

/// The address 10.0.0.0, as a number.
const NETWORK: u32 = 0x0a00_0000;

fn role_name(role: Role) -> &'static [u8]
    ensures { result.now ≡ role_name role }
{
    match role {
        Role::Lac => b"lac",
        Role::Lns => b"lns",
    }
}

/// What a node calls itself: `lac` or `lns`, and its number in decimal.
#[tactic(auto, unfolding(crate::specs::Names::host_name))]
pub fn host_name(alloc: Global, role: Role, number: u8) -> Result<Bytes, NoMemory>
    ensures value { IfOk result (λ name. name ≡ host_name role number) }
    ensures short { IfOk result (λ name. length name ≤ 6) }
{
    let digits = number.to_string(alloc)?;
    let mut name = Bytes::from_slice(alloc, role_name(role))?;
    name.push_slice(digits.as_bytes())?;
    Ok(name)
}

/// The IPv4 address of a node, as a number: node n has 10.0.0.n.
#[tactic(auto, unfolding(crate::specs::Names::address_of))]
pub fn address_of(node: u8) -> u32
    ensures { result ≡ address_of node }
{
    NETWORK + u32::from(node)
}

/// The node that has an IPv4 address, by the last part of the address.
#[tactic(auto, unfolding(crate::specs::Names::node_of))]
pub fn node_of(address: u32) -> u8
    ensures { result ≡ node_of address }
{
    (address % 256) as u8
}

/// The six bytes of a subscriber that rings at a port, in place of an Ethernet address: ffff0000, and the port.
#[tactic(auto, unfolding(crate::specs::Names::subscriber, wire_base::specs::Numbers::u16_bytes))]
pub fn subscriber(port: u16) -> [u8; 6]
    ensures { result ≡ subscriber port }
{
    let high = (port / 256) as u8;
    let low = (port % 256) as u8;
    [0xff, 0xff, 0, 0, high, low]
}

/// The Ethernet address of a node: 020000000000, and the node's number.
#[tactic(auto, unfolding(crate::specs::Names::mac_of))]
pub fn mac_of(node: u8) -> [u8; 6]
    ensures { result ≡ mac_of node }
{
    [2, 0, 0, 0, 0, node]
}

/// The Calling Number of a call (RFC 2661 section 4.4.3): the subscriber's six bytes as hex digits.
#[tactic(auto, using(crate::specs::Names::six_is), unfolding(crate::specs::Names::calling_number))]
pub fn calling_number(alloc: Global, subscriber: &[u8; 6]) -> Result<Bytes, NoMemory>
    ensures { IfOk result (λ number. number ≡ calling_number subscriber.now) }
{
    let digits = hex::encode(alloc, subscriber)?;
    Bytes::from_slice(alloc, digits.as_bytes())
}

/// A law: a Calling Number has twelve digits.
pub fn twelve_digits()
    ensures { (subscriber : List ℕ) → length (calling_number subscriber) ≡ 12 }
{}
