//! The rows of the table (RFC 1661 section 4.1), a function for each event.

ghost use Rattle.std.specs.Prelude.{◌≡◌};
ghost use Rattle.lcp_end.specs.Table.{entry};
ghost use Rattle.lcp_end.specs.declared.table.LcpEvent.TheVariants as events;

use crate::table::{LcpActions, LcpState};

/// The next state, and what is done.
type Entry = (LcpState, LcpActions);

const NONE: LcpActions = LcpActions {
    tlu: false,
    tld: false,
    tls: false,
    tlf: false,
    irc: false,
    zrc: false,
    scr: false,
    sca: false,
    scn: false,
    stq: false,
    sta: false,
    scj: false,
    ser: false,
};

/// The lower layer is up.
pub(crate) fn up(state: LcpState) -> Entry
    ensures { result ≡ entry state events.Up }
{
    match state {
        LcpState::Initial => (LcpState::Closed, NONE),
        LcpState::Starting => (
            LcpState::ReqSent,
            LcpActions {
                irc: true,
                scr: true,
                ..NONE
            },
        ),
        _ => (state, NONE),
    }
}

/// The lower layer is down.
pub(crate) fn down(state: LcpState) -> Entry
    ensures { result ≡ entry state events.Down }
{
    match state {
        LcpState::Closed | LcpState::Closing => (LcpState::Initial, NONE),
        LcpState::Stopped => (LcpState::Starting, LcpActions { tls: true, ..NONE }),
        LcpState::Stopping | LcpState::ReqSent | LcpState::AckRcvd | LcpState::AckSent => (
            LcpState::Starting,
            NONE,
        ),
        LcpState::Opened => (LcpState::Starting, LcpActions { tld: true, ..NONE }),
        _ => (state, NONE),
    }
}

/// The link is to be opened.
pub(crate) fn opens(state: LcpState) -> Entry
    ensures { result ≡ entry state events.Opens }
{
    match state {
        LcpState::Initial => (LcpState::Starting, LcpActions { tls: true, ..NONE }),
        LcpState::Closed => (
            LcpState::ReqSent,
            LcpActions {
                irc: true,
                scr: true,
                ..NONE
            },
        ),
        LcpState::Closing => (LcpState::Stopping, NONE),
        _ => (state, NONE),
    }
}

/// The link is to be closed.
pub(crate) fn closes(state: LcpState) -> Entry
    ensures { result ≡ entry state events.Closes }
{
    match state {
        LcpState::Starting => (LcpState::Initial, LcpActions { tlf: true, ..NONE }),
        LcpState::Stopped => (LcpState::Closed, NONE),
        LcpState::Stopping => (LcpState::Closing, NONE),
        LcpState::ReqSent | LcpState::AckRcvd | LcpState::AckSent => (
            LcpState::Closing,
            LcpActions {
                irc: true,
                stq: true,
                ..NONE
            },
        ),
        LcpState::Opened => (
            LcpState::Closing,
            LcpActions {
                tld: true,
                irc: true,
                stq: true,
                ..NONE
            },
        ),
        _ => (state, NONE),
    }
}

/// The timer ran out, with restarts left.
pub(crate) fn timed_out(state: LcpState) -> Entry
    ensures { result ≡ entry state events.ToMore }
{
    match state {
        LcpState::Closing => (LcpState::Closing, LcpActions { stq: true, ..NONE }),
        LcpState::Stopping => (LcpState::Stopping, LcpActions { stq: true, ..NONE }),
        LcpState::ReqSent | LcpState::AckRcvd => (
            LcpState::ReqSent,
            LcpActions { scr: true, ..NONE },
        ),
        LcpState::AckSent => (LcpState::AckSent, LcpActions { scr: true, ..NONE }),
        _ => (state, NONE),
    }
}

/// The timer ran out, with no restart left.
pub(crate) fn timed_out_last(state: LcpState) -> Entry
    ensures { result ≡ entry state events.ToLast }
{
    match state {
        LcpState::Closing => (LcpState::Closed, LcpActions { tlf: true, ..NONE }),
        LcpState::Stopping | LcpState::ReqSent | LcpState::AckRcvd | LcpState::AckSent => (
            LcpState::Stopped,
            LcpActions { tlf: true, ..NONE },
        ),
        _ => (state, NONE),
    }
}

/// A Configure-Request that is fine.
pub(crate) fn good_request(state: LcpState) -> Entry
    ensures { result ≡ entry state events.RcrGood }
{
    match state {
        LcpState::Closed => (LcpState::Closed, LcpActions { sta: true, ..NONE }),
        LcpState::Stopped => (
            LcpState::AckSent,
            LcpActions {
                irc: true,
                scr: true,
                sca: true,
                ..NONE
            },
        ),
        LcpState::ReqSent | LcpState::AckSent => (
            LcpState::AckSent,
            LcpActions { sca: true, ..NONE },
        ),
        LcpState::AckRcvd => (
            LcpState::Opened,
            LcpActions {
                sca: true,
                tlu: true,
                ..NONE
            },
        ),
        LcpState::Opened => (
            LcpState::AckSent,
            LcpActions {
                tld: true,
                scr: true,
                sca: true,
                ..NONE
            },
        ),
        _ => (state, NONE),
    }
}

/// A Configure-Request that isn't.
pub(crate) fn bad_request(state: LcpState) -> Entry
    ensures { result ≡ entry state events.RcrBad }
{
    match state {
        LcpState::Closed => (LcpState::Closed, LcpActions { sta: true, ..NONE }),
        LcpState::Stopped => (
            LcpState::ReqSent,
            LcpActions {
                irc: true,
                scr: true,
                scn: true,
                ..NONE
            },
        ),
        LcpState::ReqSent | LcpState::AckSent => (
            LcpState::ReqSent,
            LcpActions { scn: true, ..NONE },
        ),
        LcpState::AckRcvd => (LcpState::AckRcvd, LcpActions { scn: true, ..NONE }),
        LcpState::Opened => (
            LcpState::ReqSent,
            LcpActions {
                tld: true,
                scr: true,
                scn: true,
                ..NONE
            },
        ),
        _ => (state, NONE),
    }
}

/// A Configure-Ack.
pub(crate) fn acknowledged(state: LcpState) -> Entry
    ensures { result ≡ entry state events.Rca }
{
    match state {
        LcpState::Closed => (LcpState::Closed, LcpActions { sta: true, ..NONE }),
        LcpState::Stopped => (LcpState::Stopped, LcpActions { sta: true, ..NONE }),
        LcpState::ReqSent => (LcpState::AckRcvd, LcpActions { irc: true, ..NONE }),
        LcpState::AckRcvd => (LcpState::ReqSent, LcpActions { scr: true, ..NONE }),
        LcpState::AckSent => (
            LcpState::Opened,
            LcpActions {
                irc: true,
                tlu: true,
                ..NONE
            },
        ),
        LcpState::Opened => (
            LcpState::ReqSent,
            LcpActions {
                tld: true,
                scr: true,
                ..NONE
            },
        ),
        _ => (state, NONE),
    }
}

/// A Configure-Nak or a Configure-Reject.
pub(crate) fn refused(state: LcpState) -> Entry
    ensures { result ≡ entry state events.Rcn }
{
    match state {
        LcpState::Closed => (LcpState::Closed, LcpActions { sta: true, ..NONE }),
        LcpState::Stopped => (LcpState::Stopped, LcpActions { sta: true, ..NONE }),
        LcpState::ReqSent => (
            LcpState::ReqSent,
            LcpActions {
                irc: true,
                scr: true,
                ..NONE
            },
        ),
        LcpState::AckRcvd => (LcpState::ReqSent, LcpActions { scr: true, ..NONE }),
        LcpState::AckSent => (
            LcpState::AckSent,
            LcpActions {
                irc: true,
                scr: true,
                ..NONE
            },
        ),
        LcpState::Opened => (
            LcpState::ReqSent,
            LcpActions {
                tld: true,
                scr: true,
                ..NONE
            },
        ),
        _ => (state, NONE),
    }
}

/// A Terminate-Request.
pub(crate) fn terminated(state: LcpState) -> Entry
    ensures { result ≡ entry state events.Rtr }
{
    match state {
        LcpState::Closed => (LcpState::Closed, LcpActions { sta: true, ..NONE }),
        LcpState::Stopped => (LcpState::Stopped, LcpActions { sta: true, ..NONE }),
        LcpState::Closing => (LcpState::Closing, LcpActions { sta: true, ..NONE }),
        LcpState::Stopping => (LcpState::Stopping, LcpActions { sta: true, ..NONE }),
        LcpState::ReqSent | LcpState::AckRcvd | LcpState::AckSent => (
            LcpState::ReqSent,
            LcpActions { sta: true, ..NONE },
        ),
        LcpState::Opened => (
            LcpState::Stopping,
            LcpActions {
                tld: true,
                zrc: true,
                sta: true,
                ..NONE
            },
        ),
        _ => (state, NONE),
    }
}

/// A Terminate-Ack.
pub(crate) fn termination_acknowledged(state: LcpState) -> Entry
    ensures { result ≡ entry state events.Rta }
{
    match state {
        LcpState::Closing => (LcpState::Closed, LcpActions { tlf: true, ..NONE }),
        LcpState::Stopping => (LcpState::Stopped, LcpActions { tlf: true, ..NONE }),
        LcpState::AckRcvd => (LcpState::ReqSent, NONE),
        LcpState::Opened => (
            LcpState::ReqSent,
            LcpActions {
                tld: true,
                scr: true,
                ..NONE
            },
        ),
        _ => (state, NONE),
    }
}

/// A packet with an unknown code.
pub(crate) fn unknown_code(state: LcpState) -> Entry
    ensures { result ≡ entry state events.Ruc }
{
    match state {
        LcpState::Closed => (LcpState::Closed, LcpActions { scj: true, ..NONE }),
        LcpState::Stopped => (LcpState::Stopped, LcpActions { scj: true, ..NONE }),
        LcpState::Closing => (LcpState::Closing, LcpActions { scj: true, ..NONE }),
        LcpState::Stopping => (LcpState::Stopping, LcpActions { scj: true, ..NONE }),
        LcpState::ReqSent => (LcpState::ReqSent, LcpActions { scj: true, ..NONE }),
        LcpState::AckRcvd => (LcpState::AckRcvd, LcpActions { scj: true, ..NONE }),
        LcpState::AckSent => (LcpState::AckSent, LcpActions { scj: true, ..NONE }),
        LcpState::Opened => (LcpState::Opened, LcpActions { scj: true, ..NONE }),
        _ => (state, NONE),
    }
}

/// A reject that the link can do with.
pub(crate) fn good_reject(state: LcpState) -> Entry
    ensures { result ≡ entry state events.RxjGood }
{
    match state {
        LcpState::AckRcvd => (LcpState::ReqSent, NONE),
        _ => (state, NONE),
    }
}

/// A reject that the link can't do with.
pub(crate) fn bad_reject(state: LcpState) -> Entry
    ensures { result ≡ entry state events.RxjBad }
{
    match state {
        LcpState::Closed | LcpState::Closing => (
            LcpState::Closed,
            LcpActions { tlf: true, ..NONE },
        ),
        LcpState::Stopped
        | LcpState::Stopping
        | LcpState::ReqSent
        | LcpState::AckRcvd
        | LcpState::AckSent => (LcpState::Stopped, LcpActions { tlf: true, ..NONE }),
        LcpState::Opened => (
            LcpState::Stopping,
            LcpActions {
                tld: true,
                irc: true,
                stq: true,
                ..NONE
            },
        ),
        _ => (state, NONE),
    }
}

/// An Echo-Request.
pub(crate) fn echo(state: LcpState) -> Entry
    ensures { result ≡ entry state events.Rxr }
{
    match state {
        LcpState::Opened => (LcpState::Opened, LcpActions { ser: true, ..NONE }),
        _ => (state, NONE),
    }
}
