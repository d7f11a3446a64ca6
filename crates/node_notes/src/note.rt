//! What an operator is told, and by which move.

ghost use Rattle.std.specs.Prelude.{◌≡◌, Some};
ghost use Rattle.node_notes.specs.Notes.{told, cleared, note_of};
ghost use Rattle.node_notes.specs.declared.note.Note.TheVariants as note;

use end_model::{EndTold, Move};
use session_book::BookTunnel;
use wire_base::Cause;

/// What a peer was told by a StopCCN or a CDN (RFC 2661 section 4.4.2).
#[derive(Clone, Copy)]
pub struct Told {
    pub result: u16,
    pub error: Option<u16>,
    /// The cause that the step told with it.
    pub cause: Option<Cause>,
}

/// What an operator is told. Tunnels and calls go by the ids that this end assigned; `remote` is the one that the peer assigned.
#[derive(Clone, Copy)]
pub enum Note {
    /// A tunnel is established, to a peer, an IPv4 address as a number.
    TunnelUp {
        tunnel: u16,
        peer: u32,
        remote: u16,
    },
    /// A tunnel was closed with its calls, and its peer told.
    TunnelClosed {
        tunnel: u16,
        told: Told,
    },
    /// Its peer closed it, with its calls.
    TunnelClosedBy {
        tunnel: u16,
    },
    /// A tunnel that was kept over a crash is there again with its calls, and its recovery is attempted (RFC 4951 section 4.3).
    TunnelRestored {
        tunnel: u16,
        peer: u32,
        remote: u16,
    },
    /// The attempt of its peer at its recovery is answered: until it is done, no letter goes or is taken. Its calls that weren't
    /// established ended with it.
    TunnelFrozen {
        tunnel: u16,
    },
    /// It was restored or frozen, and its channel begins anew.
    TunnelRecovered {
        tunnel: u16,
    },
    /// An established tunnel is gone with its calls, and its peer wasn't told.
    TunnelLost {
        tunnel: u16,
    },
    /// A tunnel is no longer kept which was closed before, or was never established; with its calls.
    TunnelRemoved {
        tunnel: u16,
    },
    /// A call is established. At a LAC its subscriber is known: an Ethernet address, or ffff0000 and the port that rang.
    CallUp {
        call: u16,
        tunnel: u16,
        remote: u16,
        subscriber: Option<[u8; 6]>,
    },
    /// A call ended, and the peer was told.
    CallGone {
        call: u16,
        tunnel: u16,
        told: Told,
    },
    /// The peer ended it. Its id is one of a table's.
    CallGoneBy {
        call: u32,
        tunnel: u16,
    },
    /// A call ended, and the peer wasn't told: it knows nothing of it, or the tunnel was restored or frozen.
    CallLeft {
        call: u16,
        tunnel: u16,
    },
    /// A call ended, since the peer answered, behind a recovery, that it doesn't have it. Its id is one of a table's.
    CallMissing {
        call: u32,
        tunnel: u16,
    },
}

/// A tunnel that is established.
fn tunnel_up(tunnel: u16, peer: u32, remote: u16) -> Note
    ensures { result ≡ note.TunnelUp tunnel peer remote }
{
    Note::TunnelUp {
        tunnel,
        peer,
        remote,
    }
}

/// A tunnel that was kept, and is there again.
fn restored(kept: &BookTunnel) -> Note
    ensures { result ≡ note.TunnelRestored kept.now.local kept.now.peer kept.now.remote }
{
    Note::TunnelRestored {
        tunnel: kept.local,
        peer: kept.peer,
        remote: kept.remote,
    }
}

/// A tunnel that this end closed, and what its peer was told.
fn closed(tunnel: u16, code: u16, error: Option<u16>, cause: Option<Cause>) -> Note
    ensures { result ≡ note.TunnelClosed tunnel (told code error cause) }
{
    Note::TunnelClosed {
        tunnel,
        told: Told {
            result: code,
            error,
            cause,
        },
    }
}

/// A call that ended, and what its peer was told.
fn gone(end: &EndTold, cause: Option<Cause>) -> Note
    ensures { result ≡ note.CallGone end.now.session end.now.tunnel (told end.now.result end.now.error cause) }
{
    Note::CallGone {
        call: end.session,
        tunnel: end.tunnel,
        told: Told {
            result: end.result,
            error: end.error,
            cause,
        },
    }
}

/// A call that is established.
fn call_up(call: u16, tunnel: u16, remote: u16, subscriber: Option<[u8; 6]>) -> Note
    ensures { result ≡ note.CallUp call tunnel remote subscriber }
{
    Note::CallUp {
        call,
        tunnel,
        remote,
        subscriber,
    }
}

/// A tunnel that is removed, and was established or wasn't.
fn cleared(tunnel: u16, booked: bool) -> Option<Note>
    ensures { result ≡ Some (cleared tunnel booked) }
{
    if !booked {
        return Some(Note::TunnelRemoved { tunnel });
    }
    Some(Note::TunnelLost { tunnel })
}

/// What an operator is told of a move with which the step told a cause, if anything.
#[tactic(auto, unfolding(crate::specs::Notes::note_of))]
pub(crate) fn note_of(step: &Move, cause: Option<Cause>) -> Option<Note>
    ensures { result ≡ note_of step.now cause }
{
    match step {
        Move::Connected(up) => Some(tunnel_up(up.tunnel, up.peer, up.remote)),
        Move::Confirmed(up) => Some(tunnel_up(up.tunnel, up.peer, up.remote)),
        Move::Closed(end) => Some(closed(end.tunnel, end.result, end.error, cause)),
        Move::Rejected(end) => Some(closed(end.tunnel, end.result, end.error, cause)),
        Move::ClosedBy(end) => Some(Note::TunnelClosedBy { tunnel: end.tunnel }),
        Move::Cleared { tunnel, booked } => cleared(*tunnel, *booked),
        Move::FirstUp(up) => Some(call_up(up.session, up.tunnel, up.remote, Some(up.subscriber))),
        Move::SecondUp(up) => Some(call_up(up.session, up.tunnel, up.remote, None)),
        Move::EndTold(end) => Some(gone(end, cause)),
        Move::EndHeard(end) => Some(Note::CallGoneBy {
            call: end.session,
            tunnel: end.tunnel,
        }),
        Move::EndSilent(end) => Some(Note::CallLeft {
            call: end.session,
            tunnel: end.tunnel,
        }),
        Move::Restored(back) => Some(restored(&back.tunnel)),
        Move::Forgot(gone) => Some(Note::TunnelLost {
            tunnel: gone.tunnel,
        }),
        Move::Froze(frozen) => Some(Note::TunnelFrozen {
            tunnel: frozen.tunnel,
        }),
        Move::ResetAttempting(reset) => Some(Note::TunnelRecovered {
            tunnel: reset.tunnel,
        }),
        Move::ResetAnswering(reset) => Some(Note::TunnelRecovered {
            tunnel: reset.tunnel,
        }),
        _ => None,
    }
}
