//! Datagrams between nodes as Ethernet frames.

ghost use Rattle.std.specs.Prelude.{ℕ, ◌≡◌, ◌≤◌, ◌+◌, List, ◌++◌, length, IfOk, OnOk};
ghost use Rattle.std.specs.List.{AllByRecursion};
ghost use Rattle.wire_base.specs.Numbers.{u16_bytes};
ghost use Rattle.capture_file.specs.Sums.{IsByte, sum_from, sent_checksum, checksum};
ghost use Rattle.capture_file.specs.Frames.{most_payload, addresses, ipv4_front, ipv4_header, udp_front, pseudo_header, udp_covered, udp_header, ethernet_header, datagram_frame};

use crate::sums::checksum;
use end_names::{address_of, mac_of};
use std::alloc::Global;
use wire_base::{Bytes, NoMemory, put_u16, put_u32};

/// L2TP's port (RFC 2661 section 8.1).
const PORT: u16 = 1701;

/// The number of UDP in an IPv4 header.
const UDP: u8 = 17;

/// Appends the IPv4 addresses of two nodes, the sender's first.
fn put_addresses(out: &mut Bytes, from: u8, to: u8) -> Result<(), NoMemory>
    ensures { OnOk result (out.new ≡ out.old ++ addresses from to) }
{
    put_u32(out, address_of(from))?;
    put_u32(out, address_of(to))
}

/// Appends the header of an IPv4 packet, up to its checksum.
fn put_ipv4_front(out: &mut Bytes, id: u16, len: u16) -> Result<(), NoMemory>
    ensures { OnOk result (out.new ≡ out.old ++ ipv4_front id len) }
{
    out.push_slice(&[0x45, 0])?;
    put_u16(out, len)?;
    put_u16(out, id)?;
    out.push_slice(&[0, 0, 64, UDP])
}

/// The checksum of the header of an IPv4 packet.
fn ipv4_checksum(alloc: Global, id: u16, len: u16, from: u8, to: u8) -> Result<u16, NoMemory>
    ensures { IfOk result (λ sum. sum ≡ checksum (ipv4_front id len ++ u16_bytes 0 ++ addresses from to)) }
{
    let mut header = Bytes::new(alloc);
    put_ipv4_front(&mut header, id, len)?;
    put_u16(&mut header, 0)?;
    put_addresses(&mut header, from, to)?;
    Ok(checksum(header.as_slice()))
}

/// Appends the header of an IPv4 packet.
#[tactic(auto, unfolding(crate::specs::Frames::ipv4_header))]
fn put_ipv4_header(out: &mut Bytes, id: u16, len: u16, from: u8, to: u8) -> Result<(), NoMemory>
    ensures { OnOk result (out.new ≡ out.old ++ ipv4_header id len from to) }
{
    let sum = ipv4_checksum(out.allocator(), id, len, from, to)?;
    put_ipv4_front(out, id, len)?;
    put_u16(out, sum)?;
    put_addresses(out, from, to)
}

/// Appends the header of a UDP datagram, up to its checksum.
fn put_udp_front(out: &mut Bytes, len: u16) -> Result<(), NoMemory>
    ensures { OnOk result (out.new ≡ out.old ++ udp_front len) }
{
    put_u16(out, PORT)?;
    put_u16(out, PORT)?;
    put_u16(out, len)
}

/// Appends what stands before a UDP header for its checksum alone.
fn put_pseudo_header(out: &mut Bytes, from: u8, to: u8, len: u16) -> Result<(), NoMemory>
    ensures { OnOk result (out.new ≡ out.old ++ pseudo_header from to len) }
{
    put_addresses(out, from, to)?;
    out.push_slice(&[0, UDP])?;
    put_u16(out, len)
}

/// The length of a UDP datagram with its header.
fn udp_length(payload: &[u8]) -> u16
    requires { length payload.now ≤ most_payload }
    ensures { result ≡ 8 + length payload.now }
{
    (8 + payload.len()) as u16
}

/// The checksum as UDP sends it, which isn't 0.
fn sent_checksum(sum: u16) -> u16
    ensures { result ≡ sent_checksum sum }
{
    if sum == 0 { 65535 } else { sum }
}

/// The checksum of a UDP datagram.
#[tactic(auto, unfolding(crate::specs::Frames::udp_covered))]
fn udp_checksum(alloc: Global, from: u8, to: u8, payload: &[u8]) -> Result<u16, NoMemory>
    requires { length payload.now ≤ most_payload }
    ensures { IfOk result (λ sum. sum ≡ sent_checksum (checksum (udp_covered from to payload.now))) }
{
    let len = udp_length(payload);
    let mut covered = Bytes::new(alloc);
    put_pseudo_header(&mut covered, from, to, len)?;
    put_udp_front(&mut covered, len)?;
    put_u16(&mut covered, 0)?;
    covered.push_slice(payload)?;
    Ok(sent_checksum(checksum(covered.as_slice())))
}

/// Appends the header of a UDP datagram.
#[tactic(auto, unfolding(crate::specs::Frames::udp_header))]
fn put_udp_header(out: &mut Bytes, from: u8, to: u8, payload: &[u8]) -> Result<(), NoMemory>
    requires { length payload.now ≤ most_payload }
    ensures { OnOk result (out.new ≡ out.old ++ udp_header from to payload.now) }
{
    let sum = udp_checksum(out.allocator(), from, to, payload)?;
    put_udp_front(out, udp_length(payload))?;
    put_u16(out, sum)
}

/// Appends the header of an Ethernet frame with an IPv4 packet.
fn put_ethernet_header(out: &mut Bytes, from: u8, to: u8) -> Result<(), NoMemory>
    ensures { OnOk result (out.new ≡ out.old ++ ethernet_header from to) }
{
    out.push_slice(&mac_of(to))?;
    out.push_slice(&mac_of(from))?;
    put_u16(out, 0x0800)
}

/// The Ethernet frame that carries a packet with this number from a node to another: UDP between L2TP's ports, in IPv4, with both
/// checksums. Node n has the Ethernet address 020000000000 plus n and the IPv4 address 10.0.0.n. The identification is the low half
/// of the packet's number.
#[tactic(auto, unfolding(crate::specs::Frames::datagram_frame))]
pub fn datagram_frame(
    alloc: Global,
    packet: u32,
    from: u8,
    to: u8,
    payload: &[u8],
) -> Result<Bytes, NoMemory>
    requires { length payload.now ≤ most_payload }
    ensures value { IfOk result (λ frame. frame ≡ datagram_frame packet from to payload.now) }
    ensures size { IfOk result (λ frame. length frame ≡ 42 + length payload.now) }
{
    let mut frame = Bytes::new(alloc);
    put_ethernet_header(&mut frame, from, to)?;
    let len = 20 + udp_length(payload);
    put_ipv4_header(&mut frame, (packet % 65536) as u16, len, from, to)?;
    put_udp_header(&mut frame, from, to, payload)?;
    frame.push_slice(payload)?;
    Ok(frame)
}

/// A law: headers are right by their checksums. The words of an IPv4 header come to 65535, and so do those of a UDP datagram with what
/// stands before it for its checksum (RFC 1071 section 1).
pub fn checksums_are_right()
    ensures ipv4 { (id len from to : ℕ) → sum_from 0 (ipv4_header id len from to) ≡ 65535 }
    ensures udp { (from to : ℕ) (payload : List ℕ) → AllByRecursion IsByte payload →
        sum_from 0 (pseudo_header from to (8 + length payload) ++ udp_header from to payload ++ payload) ≡ 65535 }
{}
