//! What a step does to a tunnel or a call. Nobody prints it: what holds of every run is said over it.

use session_book::{BookCall, BookTunnel};
use wire_base::{Bytes, Pairs, Sequence, Side};

/// The place of a letter in the list of letters that a tunnel was given, counted from 0.
#[derive(Clone, Copy)]
pub struct Place {
    pub number: u64,
}

/// A tunnel was opened to a peer, by an SCCRQ with this challenge.
#[derive(Clone, Copy)]
pub struct Opened {
    pub tunnel: u16,
    pub peer: u32,
    pub challenge: Option<[u8; 16]>,
    pub given: Place,
}

/// A tunnel was made by the SCCRQ of a peer that assigned an id and told its receive window, and answered by an SCCRP with
/// this challenge and this response.
#[derive(Clone, Copy)]
pub struct Accepted {
    pub tunnel: u16,
    pub peer: u32,
    pub remote: u16,
    pub window: u16,
    pub challenge: Option<[u8; 16]>,
    pub response: Option<[u8; 16]>,
    pub taken: Place,
    pub given: Place,
}

/// A tunnel learned by an SCCRP which id its peer assigned, which receive window it has and what it can recover, and was
/// connected by an SCCCN with this response.
#[derive(Clone, Copy)]
pub struct Connected {
    pub tunnel: u16,
    pub peer: u32,
    pub remote: u16,
    pub window: u16,
    /// A set of bits (RFC 4951 section 5.1): 1 for the control channel, 2 for data channels; 0 where the peer told none.
    pub flags: u16,
    pub response: Option<[u8; 16]>,
    pub taken: Place,
    pub given: Place,
}

/// A tunnel took its SCCCN. Its peer, the id that the peer assigned, the peer's receive window and what it can recover were
/// known before.
#[derive(Clone, Copy)]
pub struct Confirmed {
    pub tunnel: u16,
    pub peer: u32,
    pub remote: u16,
    pub window: u16,
    pub flags: u16,
    pub taken: Place,
}

/// A call of a subscriber was added to a tunnel: it is born.
#[derive(Clone, Copy)]
pub struct Added {
    pub tunnel: u16,
    pub session: u16,
    pub subscriber: [u8; 6],
}

/// A call that waited was asked for by an ICRQ. Where the end hides its Calling Number, `hidden` has the message's pairs as they
/// are spelled (RFC 2661 section 4.3).
#[derive(Drop)]
pub struct Requested {
    pub tunnel: u16,
    pub session: u16,
    pub subscriber: [u8; 6],
    pub hidden: Option<Bytes>,
    pub given: Place,
}

/// A call was made by the ICRQ for the peer's session, and answered by an ICRP.
#[derive(Clone, Copy)]
pub struct Replied {
    pub tunnel: u16,
    pub peer: u32,
    pub session: u16,
    pub remote: u16,
    pub taken: Place,
    pub given: Place,
}

/// The end that asked for a call learned by an ICRP which session its peer assigned, and connected the call by an ICCN.
#[derive(Clone, Copy)]
pub struct FirstUp {
    pub tunnel: u16,
    pub session: u16,
    pub remote: u16,
    pub subscriber: [u8; 6],
    pub taken: Place,
    pub given: Place,
}

/// The end that was asked for a call took its ICCN.
#[derive(Clone, Copy)]
pub struct SecondUp {
    pub tunnel: u16,
    pub session: u16,
    /// The session id that the peer assigned.
    pub remote: u16,
    /// Whether the ICCN had Sequencing Required (RFC 2661 section 4.4.6): the end numbers its data messages.
    pub sequenced: bool,
    pub taken: Place,
}

/// A call ended, and the peer was told by a CDN with this result code and error code (RFC 2661 section 4.4.2). `remote` is the
/// peer's session id, 0 where it isn't known.
#[derive(Clone, Copy)]
pub struct EndTold {
    pub tunnel: u16,
    pub session: u16,
    pub remote: u16,
    /// Whether the call was established, so that a checkpoint has it.
    pub booked: bool,
    pub result: u16,
    pub error: Option<u16>,
    pub given: Place,
}

/// A tunnel took a letter about a call that there isn't, and answered by a CDN with this result code and error code, which
/// names no call of this end (RFC 2661 section 4.4.3). `remote` is the session id that the letter told, 0 where it told none.
#[derive(Clone, Copy)]
pub struct Refused {
    pub tunnel: u16,
    pub remote: u16,
    pub result: u16,
    pub error: Option<u16>,
    pub taken: Place,
    pub given: Place,
}

/// A call ended by a CDN of the peer. Its id is one of a table's.
#[derive(Clone, Copy)]
pub struct EndHeard {
    pub tunnel: u16,
    pub session: u32,
    /// Whether the call was established.
    pub booked: bool,
    pub taken: Place,
}

/// A call ended of which the peer knows nothing.
#[derive(Clone, Copy)]
pub struct EndSilent {
    pub tunnel: u16,
    pub session: u16,
    /// Whether the call was established.
    pub booked: bool,
}

/// An SCCRQ, or an SCCRP that names no tunnel, was answered by a StopCCN of none of this end's (RFC 2661 section 7.2.1), with this
/// result code and error code, to the tunnel id that it told, and with this Nr.
#[derive(Clone, Copy)]
pub struct Declined {
    pub peer: u32,
    pub remote: u16,
    pub nr: u16,
    pub result: u16,
    pub error: Option<u16>,
}

/// A tunnel was closed with its calls, and the peer was told by a StopCCN with this result code and error code (RFC 2661 section
/// 4.4.2). `remote` is the peer's tunnel id, 0 where it isn't known.
#[derive(Clone, Copy)]
pub struct Closed {
    pub tunnel: u16,
    pub remote: u16,
    /// Whether the tunnel was established, so that a checkpoint has it.
    pub booked: bool,
    pub result: u16,
    pub error: Option<u16>,
    pub given: Place,
}

/// A tunnel that waited for its SCCRP took a letter that closes it with its calls, and the peer was told by a StopCCN with this
/// result code and error code. `remote` is the peer's tunnel id, as the letter tells it; 0 where it doesn't.
#[derive(Clone, Copy)]
pub struct Rejected {
    pub tunnel: u16,
    pub remote: u16,
    pub result: u16,
    pub error: Option<u16>,
    pub taken: Place,
    pub given: Place,
}

/// A tunnel took a StopCCN of its peer, and was closed with its calls.
#[derive(Clone, Copy)]
pub struct ClosedBy {
    pub tunnel: u16,
    /// Whether the tunnel was established.
    pub booked: bool,
    pub taken: Place,
}

/// A HELLO was given to a tunnel's channel.
#[derive(Clone, Copy)]
pub struct Greeted {
    pub tunnel: u16,
    pub given: Place,
}

/// A tunnel took a letter that changes nothing else.
#[derive(Clone, Copy)]
pub struct TookPlain {
    pub tunnel: u16,
    pub taken: Place,
}

/// A tunnel read which number its peer expects next, modulo 65536: the letters before it are acknowledged.
#[derive(Clone, Copy)]
pub struct NrRead {
    pub tunnel: u16,
    pub nr: u16,
}

/// A letter that was never on the wire went out.
#[derive(Clone, Copy)]
pub struct LetGo {
    pub tunnel: u16,
    pub sent: Place,
}

/// The oldest letter that isn't acknowledged went out again.
#[derive(Clone, Copy)]
pub struct Repeated {
    pub tunnel: u16,
    pub sent: Place,
}

/// The LCP end of a call made a step: it was opened, a packet came to it, or its timer ran out. What it sent is told before.
#[derive(Clone, Copy)]
pub struct Negotiated {
    pub tunnel: u16,
    pub session: u16,
}

/// A data message that was sent in a call had a number: the next one has the next.
#[derive(Clone, Copy)]
pub struct Counted {
    pub tunnel: u16,
    pub session: u16,
}

/// A tunnel that was kept over a crash is there again with its calls, and its recovery is attempted, over a recovery tunnel with this
/// local id and this draw number, by an SCCRQ with this challenge.
#[derive(Drop)]
pub struct Restored {
    pub tunnel: BookTunnel,
    pub calls: Sequence<BookCall>,
    pub attempt: u16,
    pub draw: u32,
    pub challenge: Option<[u8; 16]>,
}

/// A tunnel that was kept over a crash is given up with its calls.
#[derive(Clone, Copy)]
pub struct Forgot {
    pub tunnel: u16,
}

/// A peer's attempt at the recovery of a tunnel is answered: its channel is frozen, its calls that aren't established end, and an
/// SCCRP suggests the numbers to go on with. `attempt` is the peer's recovery tunnel with its draw number `asked`, `answer` this
/// end's with its own number `draw`.
#[derive(Clone, Copy)]
pub struct Froze {
    pub tunnel: u16,
    pub peer: u32,
    pub remote: u16,
    pub attempt: u16,
    pub answer: u16,
    pub asked: u32,
    pub draw: u32,
    /// The numbers that are suggested: of the next letter that this end expects, and of the next that it would send.
    pub expect: u16,
    pub send_from: u16,
    /// Whether the tunnel's mark rose.
    pub marked: bool,
}

/// The end that attempts a recovery took the SCCRP of its peer: the tunnel's channel begins anew with the numbers that it suggests,
/// and the SCCRP is confirmed.
#[derive(Clone, Copy)]
pub struct ResetAttempting {
    pub tunnel: u16,
    pub peer: u32,
    pub remote: u16,
    pub attempt: u16,
    pub answer: u16,
    /// The peer's draw number, 0 where it told none.
    pub draw: u32,
    pub send_from: u16,
    pub expect: u16,
    pub marked: bool,
}

/// The end that answers an attempt took the SCCCN of its peer: the tunnel's channel begins anew.
#[derive(Clone, Copy)]
pub struct ResetAnswering {
    pub tunnel: u16,
    pub peer: u32,
    pub remote: u16,
    pub answer: u16,
    pub attempt: u16,
    pub send_from: u16,
    pub expect: u16,
}

/// A tunnel asked by an FSQ for the next of the sessions that were established at its last reset, each by the own id and the one
/// that the peer assigned (RFC 4951 section 5.4).
#[derive(Drop)]
pub struct Queried {
    pub tunnel: u16,
    pub pairs: Pairs,
    pub given: Place,
}

/// A tunnel took an FSQ that asks for these sessions, and answered by an FSR with these pairs.
#[derive(Drop)]
pub struct AnsweredQuery {
    pub tunnel: u16,
    pub pairs: Pairs,
    pub answers: Pairs,
    pub taken: Place,
    pub given: Place,
}

/// A tunnel took the FSR that answers its last FSQ, which asked for these sessions: it has these answers.
#[derive(Drop)]
pub struct TookAnswer {
    pub tunnel: u16,
    pub pairs: Pairs,
    pub answers: Pairs,
    /// The calls that ended, since the peer doesn't have them, in the order of the pairs. They were established. Their ids are those
    /// of a table.
    pub ended: Sequence<u32>,
    pub taken: Place,
}

/// A PPP frame that was given for a call, or that its LCP end gave, was sent to the peer of its tunnel.
#[derive(Drop)]
pub struct FrameSent {
    pub tunnel: u16,
    pub peer: u32,
    pub session: u16,
    /// The session id that the peer assigned.
    pub remote: u16,
    /// The number of the data message, where the call's have one.
    pub number: Option<u16>,
    pub frame: Bytes,
}

/// A PPP frame that came from the peer of a call's tunnel was handed up.
#[derive(Drop)]
pub struct FrameUp {
    pub tunnel: u16,
    pub peer: u32,
    pub session: u16,
    pub side: Side,
    pub frame: Bytes,
}

/// What a step does to a tunnel or a call. Tunnels and sessions are those that the end itself assigned, but for `remote`.
#[derive(Drop)]
pub enum Move {
    Opened(Opened),
    Accepted(Accepted),
    Connected(Connected),
    Confirmed(Confirmed),
    Added(Added),
    Requested(Requested),
    Replied(Replied),
    FirstUp(FirstUp),
    SecondUp(SecondUp),
    Refused(Refused),
    EndTold(EndTold),
    EndHeard(EndHeard),
    EndSilent(EndSilent),
    Declined(Declined),
    Closed(Closed),
    Rejected(Rejected),
    ClosedBy(ClosedBy),
    /// A tunnel was removed with its calls, and its peer wasn't told; `booked` where it was established.
    Cleared { tunnel: u16, booked: bool },
    Greeted(Greeted),
    TookPlain(TookPlain),
    NrRead(NrRead),
    LetGo(LetGo),
    Repeated(Repeated),
    /// An acknowledgement alone was sent in the tunnel.
    Quiet { tunnel: u16 },
    Negotiated(Negotiated),
    Counted(Counted),
    FrameSent(FrameSent),
    FrameUp(FrameUp),
    Restored(Restored),
    Forgot(Forgot),
    Froze(Froze),
    ResetAttempting(ResetAttempting),
    ResetAnswering(ResetAnswering),
    Queried(Queried),
    AnsweredQuery(AnsweredQuery),
    TookAnswer(TookAnswer),
    /// The recovery tunnel of a tunnel sent, took, was acknowledged, or closed itself.
    RecoveryWentOn { tunnel: u16 },
    /// The recovery tunnel of a tunnel that was reset is gone.
    RecoveryEnded { tunnel: u16 },
    /// A control message of a tunnel that is frozen or restored was heard, and not looked at.
    Ignored { tunnel: u16 },
}
