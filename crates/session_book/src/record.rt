//! The records of a checkpoint as the 31 bytes of their contents.

ghost use Rattle.std.specs.Prelude.{◌≡◌, ◌+◌, ◌≤◌, IfSome};
ghost use Rattle.session_book.specs.Records.{number, is_zero_from, ceiling_of, tunnel_up_of, tunnel_down_of, call_up_of, call_down_of, mark_of, record_of};
ghost use Rattle.session_book.specs.Spelling.{FitsBytes};

use byteorder::{BigEndian, ByteOrder};

/// An established tunnel, as its end's book has it.
#[derive(Clone, Copy, PartialEq, Eq)]
pub struct BookTunnel {
    /// The tunnel id that this end assigned, and the one that the other end assigned (RFC 2661 section 3.1).
    pub local: u16,
    pub remote: u16,
    /// The other end's IPv4 address as a number.
    pub peer: u32,
    /// The receive window that the other end advertised, in messages (RFC 2661 section 4.4.3).
    pub window: u16,
    /// The flags of the Failover Capability that was agreed on (RFC 4951 section 5.1).
    pub flags: u16,
    /// The last draw number of a recovery, or 0 where there was none.
    pub mark: u32,
}

/// An established call, as its end's book has it.
#[derive(Clone, Copy, PartialEq, Eq)]
pub struct BookCall {
    /// The session id that this end assigned.
    pub local: u16,
    /// The local id of its tunnel.
    pub tunnel: u16,
    /// The session id that the other end assigned.
    pub remote: u16,
    /// The subscriber's Ethernet address, or zeros at an LNS.
    pub subscriber: [u8; 6],
    /// Whether its data messages are numbered (RFC 2661 section 4.4.6).
    pub sequenced: bool,
}

/// The tunnels of a book, in the order of their local ids.
pub type KeptTunnels = Vec<BookTunnel>;

/// The calls of a book, in the order of their local ids.
pub type KeptCalls = Vec<BookCall>;

/// A record of a checkpoint.
#[derive(Clone, Copy)]
pub enum Record {
    /// A space of ids may draw up to this number: space 1 has the tunnel ids, 2 the session ids, 3 the draw numbers.
    Ceiling { space: u8, number: u32 },
    /// A tunnel is established. Its mark is 0.
    TunnelUp(BookTunnel),
    /// A tunnel is gone, with its calls and its mark.
    TunnelDown { local: u16 },
    /// A call is established.
    CallUp(BookCall),
    /// A call is gone.
    CallDown { local: u16 },
    /// A tunnel has seen a recovery with this draw number.
    Mark { tunnel: u16, mark: u32 },
}

/// The record that a content spells: None exactly where its kind isn't known, a byte behind its fields isn't 0, or the
/// byte that says whether a call is sequenced is neither 0 nor 1.
#[tactic(auto, unfolding(crate::specs::Records::record_of))]
pub fn read_record(content: &[u8; 31]) -> Option<Record>
    ensures read { result ≡ record_of content.now }
    ensures fits { IfSome result FitsBytes }
{
    match content[0] {
        1 => read_ceiling(content),
        2 => read_tunnel_up(content),
        3 => read_tunnel_down(content),
        4 => read_call_up(content),
        5 => read_call_down(content),
        6 => read_mark(content),
        _ => None,
    }
}

// The number in two bytes, the highest first.
fn u16_at(content: &[u8; 31], at: usize) -> u16
    requires { at + 2 ≤ 31 }
    ensures { result ≡ number 2 content.now at }
{
    BigEndian::read_u16(&content[at..at + 2])
}

// The number in four bytes, the highest first.
fn u32_at(content: &[u8; 31], at: usize) -> u32
    requires { at + 4 ≤ 31 }
    ensures { result ≡ number 4 content.now at }
{
    BigEndian::read_u32(&content[at..at + 4])
}

// Whether all bytes from a place on are 0.
fn is_zero_from(content: &[u8; 31], at: usize) -> bool
    requires { at ≤ 31 }
    ensures { result ≡ is_zero_from content.now at }
{
    let (_, rest) = content.split_at(at);
    rest.iter().all(|byte| *byte == 0)
}

fn read_ceiling(content: &[u8; 31]) -> Option<Record>
    ensures read { result ≡ ceiling_of content.now }
    ensures fits { IfSome result FitsBytes }
{
    if !is_zero_from(content, 6) {
        return None;
    }
    Some(Record::Ceiling {
        space: content[1],
        number: u32_at(content, 2),
    })
}

fn read_tunnel_up(content: &[u8; 31]) -> Option<Record>
    ensures read { result ≡ tunnel_up_of content.now }
    ensures fits { IfSome result FitsBytes }
{
    if !is_zero_from(content, 13) {
        return None;
    }
    Some(Record::TunnelUp(BookTunnel {
        local: u16_at(content, 1),
        remote: u16_at(content, 3),
        peer: u32_at(content, 5),
        window: u16_at(content, 9),
        flags: u16_at(content, 11),
        mark: 0,
    }))
}

fn read_tunnel_down(content: &[u8; 31]) -> Option<Record>
    ensures read { result ≡ tunnel_down_of content.now }
    ensures fits { IfSome result FitsBytes }
{
    if !is_zero_from(content, 3) {
        return None;
    }
    Some(Record::TunnelDown {
        local: u16_at(content, 1),
    })
}

fn read_call_up(content: &[u8; 31]) -> Option<Record>
    ensures read { result ≡ call_up_of content.now }
    ensures fits { IfSome result FitsBytes }
{
    if !is_zero_from(content, 14) || content[13] > 1 {
        return None;
    }
    let mut subscriber = [0; 6];
    subscriber.copy_from_slice(&content[7..13]);
    Some(Record::CallUp(BookCall {
        local: u16_at(content, 1),
        tunnel: u16_at(content, 3),
        remote: u16_at(content, 5),
        subscriber,
        sequenced: content[13] == 1,
    }))
}

fn read_call_down(content: &[u8; 31]) -> Option<Record>
    ensures read { result ≡ call_down_of content.now }
    ensures fits { IfSome result FitsBytes }
{
    if !is_zero_from(content, 3) {
        return None;
    }
    Some(Record::CallDown {
        local: u16_at(content, 1),
    })
}

fn read_mark(content: &[u8; 31]) -> Option<Record>
    ensures read { result ≡ mark_of content.now }
    ensures fits { IfSome result FitsBytes }
{
    if !is_zero_from(content, 7) {
        return None;
    }
    Some(Record::Mark {
        tunnel: u16_at(content, 1),
        mark: u32_at(content, 3),
    })
}
