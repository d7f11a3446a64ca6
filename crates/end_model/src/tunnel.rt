//! What an end is, and what it knows of a call.

ghost use Rattle.std.specs.Prelude.{◌≡◌};
ghost use Rattle.end_model.specs.End.{new_config};

use call_fsm::{CallEvent, CallState};
use call_link::Link;
use control_channel::ChannelNumbers;
use session_looks::Look;
use tunnel_fsm::TunnelState;
use wire_base::{Bytes, Sequence};

/// What an end is told when it is made. Where `hide` is set there is a secret. It has no text for debugging, which would
/// show the secret.
#[derive(Drop)]
pub struct Config {
    /// The node's number, which its host name ends with.
    pub number: u8,
    /// The node's own IPv4 address, as a number.
    pub address: u32,
    /// At a LAC the IPv4 address of its LNS, as a number; 0 at an LNS.
    pub lns: u32,
    /// What both ends of a tunnel know (RFC 2661 section 5.1.1), 1 to 64 bytes.
    pub secret: Option<Bytes>,
    /// Whether calling numbers are hidden by the secret (RFC 2661 section 4.3).
    pub hide: bool,
}

impl Config {
    /// What an end of this number and address is told. At an LNS `lns` is 0.
    pub fn new(number: u8, address: u32, lns: u32, secret: Option<Bytes>, hide: bool) -> Config
        ensures { result ≡ new_config number address lns secret hide }
    {
        Config {
            number,
            address,
            lns,
            secret,
            hide,
        }
    }
}

/// The control part of a tunnel, apart from its calls and its letters.
#[derive(Clone, Copy)]
pub struct Control {
    /// The id that this end assigned, 0 before it is drawn.
    pub local: u16,
    /// The other end's IPv4 address, as a number.
    pub peer: u32,
    /// The id that the other end assigned, 0 while it isn't known.
    pub remote: u16,
    pub state: TunnelState,
    /// The numbers of its control channel.
    pub channel: ChannelNumbers,
    /// The moment at which it was made, and the one at which a control message of its peer last came, in milliseconds.
    pub made: u64,
    pub heard: u64,
    /// The moment at which it was closed, 0 as long as it isn't.
    pub closed: u64,
    /// What the other end can recover, a set of bits (RFC 4951 section 5.1): 1 for the control channel, 2 for data channels; 0 as
    /// long as it isn't known.
    pub flags: u16,
    /// The greatest draw number of a recovery of it that was answered or completed, 0 where there was none.
    pub mark: u32,
    /// What this end asked its peer to answer by the secret, when it opened or accepted the tunnel; None where it has no
    /// secret (RFC 2661 section 5.1.1).
    pub challenge: Option<[u8; 16]>,
}

/// What a tunnel's control channel does (RFC 4951 section 4.3). Data messages go on in each of these.
#[derive(Clone, Copy)]
pub enum Mode {
    /// It carries control messages.
    Current,
    /// Its end answers an attempt at its recovery: nothing is taken or sent.
    Frozen,
    /// Its end was down and attempts its recovery: nothing is taken or sent.
    Restored,
}

/// A row of a call's table that a call went through.
#[derive(Clone, Copy)]
pub struct CallStep {
    pub state: CallState,
    pub event: CallEvent,
    pub next: CallState,
}

/// The rows that a call went through, in order.
pub type CallSteps = Sequence<CallStep>;

/// A call of an end (RFC 2661 section 1.2).
#[derive(Drop)]
pub struct Call {
    /// The session id that the other end assigned, 0 while it isn't known.
    pub remote: u16,
    pub state: CallState,
    /// The moment at which it entered its state, in milliseconds.
    pub since: u64,
    /// Who it is for, at a LAC: the subscriber's Ethernet address, or for a port that rings ffff0000 and the port. Zeros at an
    /// LNS.
    pub subscriber: [u8; 6],
    /// The rows that it went through since it was idle.
    pub steps: CallSteps,
    /// Its PPP link, at an LNS from its connection on.
    pub link: Option<Link>,
    /// The number of the next data message that goes in it, at an LNS whose peer required sequencing (RFC 2661 section 5.4); None
    /// where data messages have none.
    pub sequence: Option<u16>,
}

/// Where a live call is, and what the data plane sees of it.
#[derive(Clone, Copy)]
pub struct CallPlace {
    /// The local id of its tunnel.
    pub tunnel: u16,
    pub look: Look,
}
