//! What PPP asks for and agrees on in a call.

ghost use Rattle.std.specs.Prelude.{◌≡◌};
ghost use Rattle.wire_base.specs.Words.{auth_word, auth_protocol};

/// How a subscriber shows who it is (RFC 1661 section 6.2).
#[derive(Clone, Copy, PartialEq, Eq)]
pub enum AuthKind {
    /// The Password Authentication Protocol: name and password are sent as they are (RFC 1334 section 2).
    Pap,
    /// The Challenge Handshake Authentication Protocol with MD5, its algorithm 5: the secret itself is never sent
    /// (RFC 1994 sections 3 and 4).
    Chap,
}

impl AuthKind {
    /// The word for it in schedules, in ASCII.
    pub fn word(&self) -> &'static [u8]
        ensures { result.now ≡ auth_word self.now }
    {
        match self {
            AuthKind::Pap => b"pap",
            AuthKind::Chap => b"chap",
        }
    }

    /// Its number among the protocols of PPP, by which LCP asks for it and its packets are known (RFC 1334 section 2.1,
    /// RFC 1994 section 3).
    pub fn protocol(&self) -> u16
        ensures { result ≡ auth_protocol self.now }
    {
        match self {
            AuthKind::Pap => 0xc023,
            AuthKind::Chap => 0xc223,
        }
    }
}

/// What LCP agreed on when it opened, without which its end can't go on (RFC 1661 section 5). An option that neither
/// end agreed on is 0.
#[derive(Clone, Copy)]
pub struct LcpResult {
    /// The magic number by which this end knows a loop in the line, 0 where it has none (RFC 1661 section 6.4).
    pub own_magic: u32,
    /// How many bytes this end takes in a packet, 0 where it hasn't asked for a number (RFC 1661 section 6.1).
    pub own_mru: u16,
    /// The peer's magic number, 0 where it has none.
    pub peer_magic: u32,
    /// How many bytes the peer takes in a packet, 0 where it hasn't asked for a number.
    pub peer_mru: u16,
    /// The identifier of the last Configure-Request that this end sent (RFC 1661 section 5.1).
    pub last_id: u8,
}

/// What is kept of a call's LCP, so that a node that starts again can go on with it.
#[derive(Clone, Copy)]
pub struct LcpKept {
    /// Whether LCP was open last.
    pub opened: bool,
    /// What it had agreed on then; all of it is 0 where it wasn't open.
    pub result: LcpResult,
}
