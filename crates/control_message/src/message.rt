//! Control messages, and why a list of pairs is none.

ghost use Rattle.std.specs.Prelude.{◌≡◌};
ghost use Rattle.control_message.specs.declared.message.MessageError.TheVariants as errors;

use wire_base::{Bytes, NoMemory, Pairs};

/// A control message (RFC 2661 section 6, RFC 4951 section 4.3.3).
#[derive(Debug, Drop)]
pub enum Message {
    /// Start-Control-Connection-Request, which opens a tunnel.
    Sccrq(Opening),
    /// Start-Control-Connection-Reply, which answers it.
    Sccrp(Opening),
    /// Start-Control-Connection-Connected, which ends the set-up, with Challenge Response to the challenge of the reply,
    /// where it is told.
    Scccn {
        response: Option<[u8; 16]>,
    },
    /// Stop-Control-Connection-Notification, which ends a tunnel: Assigned Tunnel ID of its maker, which is 0 where it
    /// has assigned none, and Result Code, with its Error Code where that is told (RFC 2661 section 4.4.2). A text
    /// behind them is passed over as it is read.
    StopCcn {
        tunnel: u16,
        result: u16,
        error: Option<u16>,
    },
    /// Hello, which asks whether the peer is still there.
    Hello,
    /// Outgoing-Call-Request, which asks for a call to be placed, with Assigned Session ID, by which its maker wants it
    /// to be addressed. It is only read, and what else it carries isn't looked at.
    Ocrq {
        session: u16,
    },
    /// Outgoing-Call-Reply, which accepts it. It is only read.
    Ocrp,
    /// Outgoing-Call-Connected, which tells that the call was answered. It is only read.
    Occn,
    /// Incoming-Call-Request, which announces a call: Assigned Session ID, by which its maker wants it to be addressed,
    /// Call Serial Number, and Calling Number, where it is told.
    Icrq {
        session: u16,
        serial: u32,
        calling: Option<Bytes>,
    },
    /// Incoming-Call-Reply, which accepts it, with Assigned Session ID.
    Icrp {
        session: u16,
    },
    /// Incoming-Call-Connected: Connect Speed in bits a second, Framing Type (1 for synchronous framing, 2 for
    /// asynchronous framing), and whether Sequencing Required is there.
    Iccn {
        speed: u32,
        framing: u32,
        sequenced: bool,
    },
    /// Call-Disconnect-Notify, which ends a call: Assigned Session ID of its maker, which is 0 where it has assigned
    /// none, and Result Code, with its Error Code where that is told (RFC 2661 section 4.4.2). A text behind them is
    /// passed over as it is read.
    Cdn {
        session: u16,
        result: u16,
        error: Option<u16>,
    },
    /// WAN-Error-Notify, which counts errors on a line: Call Errors has to be there, whatever its value, and isn't kept.
    /// It is only read.
    Wen,
    /// Set-Link-Info, which tells what PPP has agreed on: ACCM has to be there, whatever its value, and isn't kept. It is
    /// only read.
    Sli,
    /// Failover-Session-Query, which asks which sessions the receiver still has: a Failover Session State for each.
    Fsq(Pairs),
    /// Failover-Session-Response, which answers it: a Failover Session State for each session that was asked for, whose
    /// sender's id is 0 where the sender has no such session.
    Fsr(Pairs),
}

/// What the two ends of a tunnel tell each other as it is opened (RFC 2661 sections 6.1 and 6.2).
#[derive(Debug, Drop)]
pub struct Opening {
    /// Protocol Version: the version in the high byte, the revision in the low byte.
    pub version: u16,
    /// Framing Capabilities, a set of bits: 1 for synchronous framing, 2 for asynchronous framing.
    pub framing: u32,
    /// Host Name, which may be empty.
    pub name: Bytes,
    /// Assigned Tunnel ID, by which its maker wants to be addressed.
    pub tunnel: u16,
    /// Receive Window Size, in messages.
    pub window: u16,
    /// Failover Capability, where it is told.
    pub failover: Option<Failover>,
    /// Challenge, where it is told, of any bytes (RFC 2661 section 4.4.3).
    pub challenge: Option<Bytes>,
    /// Challenge Response to the challenge of the request, where a reply tells it (RFC 2661 section 4.4.3).
    pub response: Option<[u8; 16]>,
    /// Tunnel Recovery, where a request tells it: the tunnel that is to be recovered.
    pub recovery: Option<Recovery>,
    /// Suggested Control Sequence, where a reply to such a request tells it: the numbers with which the channel of the
    /// recovered tunnel is to begin.
    pub suggested: Option<Suggested>,
    /// This project's Draw Number, where it is told: the number that its maker drew for this attempt at a recovery, or
    /// for this answer to one. Of two attempts the one with the larger number is the later.
    pub attempt: Option<u32>,
}

/// Failover Capability, the attribute 76 of RFC 4951 section 5.1. Its layout, two bytes of flags and four of milliseconds,
/// is this project's profile of it.
#[derive(Clone, Copy, Debug)]
pub struct Failover {
    /// A set of bits: 1 for the control channel, 2 for data channels.
    pub flags: u16,
    /// The recovery time, in milliseconds.
    pub time: u32,
}

/// Tunnel Recovery, the attribute 77 of RFC 4951 section 5.2, by which a request names a tunnel that is to be recovered. Its
/// layout, two reserved bytes and two ids of four, is this project's profile of it.
#[derive(Clone, Copy, Debug)]
pub struct Recovery {
    /// The sender's id of the tunnel.
    pub sender: u32,
    /// The receiver's id of the tunnel.
    pub receiver: u32,
}

/// Suggested Control Sequence, the attribute 78 of RFC 4951 section 5.3, by which a reply tells the numbers with which
/// the control channel of a recovered tunnel begins. Its layout, two reserved bytes and two numbers of two, is this
/// project's profile of it.
#[derive(Clone, Copy, Debug)]
pub struct Suggested {
    /// The Ns that the receiver of the reply is to send first.
    pub ns: u16,
    /// The Ns that it is to expect first.
    pub nr: u16,
}

/// What a list of pairs says.
#[derive(Debug, Drop)]
pub enum Read {
    /// A message.
    Known(Message),
    /// A message of an unknown type that isn't mandatory, so that it is to be passed over (RFC 2661 section 4.4.1).
    Ignored { number: u16 },
}

/// The first fault of a list of pairs.
#[derive(Clone, Copy, Debug)]
pub enum MessageError {
    /// There is no Message Type, or the first one is hidden or hasn't two bytes.
    NoType,
    /// The message type is unknown and mandatory.
    UnknownType { number: u16 },
    /// A pair is unrecognised and mandatory.
    UnknownMandatory { vendor: u16, attribute: u16 },
    /// A pair that the message uses is hidden, and no Random Vector stands before it. An attribute 36 that is hidden
    /// itself is none (RFC 2661 section 4.3).
    HiddenWithoutVector { attribute: u16 },
    /// A value that the message uses is of a wrong length, is 0 where that is no value, or can't be uncovered.
    BadValue { attribute: u16 },
    /// The message needs the attribute, and it isn't there.
    Missing { attribute: u16 },
    /// Memory was wanting.
    NoMemory,
}

impl From<NoMemory> for MessageError {
    ghost from_gives = { λ _ e. e ≡ errors.NoMemory };

    fn from(_e: NoMemory) -> MessageError {
        MessageError::NoMemory
    }
}
