//! The tables of tunnels and calls (RFC 2661 section 7), each pair of a state and an event.

use bench_examples::Fault;
use call_fsm::{CallAction, CallEvent, CallState, lac_advance, lns_advance};
use std::alloc::Global;
use std::fmt::Debug;
use tunnel_fsm::{TunnelAction, TunnelEvent, TunnelState, advance};
use wire_base::Bytes;

const TUNNEL_STATES: [TunnelState; 5] = [
    TunnelState::Idle,
    TunnelState::WaitCtlReply,
    TunnelState::WaitCtlConn,
    TunnelState::Established,
    TunnelState::Closed,
];

const TUNNEL_EVENTS: [TunnelEvent; 9] = [
    TunnelEvent::LocalOpen,
    TunnelEvent::SccrqAcc,
    TunnelEvent::SccrqNotAcc,
    TunnelEvent::SccrpAcc,
    TunnelEvent::SccrpNotAcc,
    TunnelEvent::ScccnAcc,
    TunnelEvent::ScccnNotAcc,
    TunnelEvent::AdminClose,
    TunnelEvent::StopCcnCame,
];

const CALL_STATES: [CallState; 5] = [
    CallState::Idle,
    CallState::WaitTunnel,
    CallState::WaitReply,
    CallState::WaitConnect,
    CallState::Established,
];

const CALL_EVENTS: [CallEvent; 11] = [
    CallEvent::Ring,
    CallEvent::TunnelOpen,
    CallEvent::IcrqAcc,
    CallEvent::IcrqNotAcc,
    CallEvent::IcrpAcc,
    CallEvent::IcrpNotAcc,
    CallEvent::IccnAcc,
    CallEvent::IccnNotAcc,
    CallEvent::CdnCame,
    CallEvent::Close,
    CallEvent::LineDrop,
];

fn tunnel_word(action: TunnelAction) -> &'static [u8] {
    match action {
        TunnelAction::Nothing => b"-",
        TunnelAction::SendSccrq => b"SCCRQ",
        TunnelAction::SendSccrp => b"SCCRP",
        TunnelAction::SendScccn => b"SCCCN",
        TunnelAction::SendStopCcn => b"StopCCN",
        TunnelAction::CleanUp => b"clean",
    }
}

fn call_word(action: CallAction) -> &'static [u8] {
    match action {
        CallAction::Nothing => b"-",
        CallAction::SendIcrq => b"ICRQ",
        CallAction::SendIcrp => b"ICRP",
        CallAction::SendIccn => b"ICCN",
        CallAction::SendCdn => b"CDN",
        CallAction::CleanUp => b"clean",
        CallAction::DropSession => b"drop",
    }
}

/// Appends the line of an event: its name, the action that it makes or the state in which it came, and the next state.
pub(crate) fn push_cell<T: Debug>(
    alloc: Global,
    text: &mut Bytes,
    event: &T,
    word: &[u8],
    next: &[u8],
) -> Result<(), Fault> {
    let name = format!(in alloc; "{event:?} ")?;
    text.push_slice(name.as_bytes())?;
    text.push_slice(word)?;
    text.push_slice(b" ")?;
    text.push_slice(next)?;
    text.push_slice(b"\n")?;
    Ok(())
}

/// The lines of a tunnel's state, by its word.
pub(crate) fn tunnel_row(alloc: Global, word: &str) -> Result<Bytes, Fault> {
    let mut text = Bytes::new(alloc);
    for state in TUNNEL_STATES {
        if state.word() == word.as_bytes() {
            for event in TUNNEL_EVENTS {
                let (next, action) = advance(state, event);
                push_cell(alloc, &mut text, &event, tunnel_word(action), next.word())?;
            }
        }
    }
    if text.len() == 0 {
        return Err(Fault::NotARow);
    }
    Ok(text)
}

/// The lines of a call's state at a LAC, or at an LNS.
pub(crate) fn call_row(alloc: Global, is_lac: bool, word: &str) -> Result<Bytes, Fault> {
    let mut text = Bytes::new(alloc);
    for state in CALL_STATES {
        if state.word() == word.as_bytes() {
            for event in CALL_EVENTS {
                let (next, action) = if is_lac {
                    lac_advance(state, event)
                } else {
                    lns_advance(state, event)
                };
                push_cell(alloc, &mut text, &event, call_word(action), next.word())?;
            }
        }
    }
    if text.len() == 0 {
        return Err(Fault::NotARow);
    }
    Ok(text)
}
