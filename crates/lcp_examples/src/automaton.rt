//! The table of the automaton (RFC 1661 section 4.1).

use crate::row::Fault;
use lcp_end::{LcpActions, LcpEvent, lcp_advance};
use std::alloc::Global;
use wire_base::{Bytes, NoMemory};

const EVENTS: [LcpEvent; 16] = [
    LcpEvent::Up,
    LcpEvent::Down,
    LcpEvent::Opens,
    LcpEvent::Closes,
    LcpEvent::ToMore,
    LcpEvent::ToLast,
    LcpEvent::RcrGood,
    LcpEvent::RcrBad,
    LcpEvent::Rca,
    LcpEvent::Rcn,
    LcpEvent::Rtr,
    LcpEvent::Rta,
    LcpEvent::Ruc,
    LcpEvent::RxjGood,
    LcpEvent::RxjBad,
    LcpEvent::Rxr,
];

/// The names of the actions, each with a comma behind it.
fn names(alloc: Global, a: &LcpActions) -> Result<Bytes, NoMemory> {
    let named: [(bool, &str); 13] = [
        (a.tld, "tld,"),
        (a.tls, "tls,"),
        (a.tlf, "tlf,"),
        (a.irc, "irc,"),
        (a.zrc, "zrc,"),
        (a.scr, "scr,"),
        (a.stq, "str,"),
        (a.sca, "sca,"),
        (a.scn, "scn,"),
        (a.sta, "sta,"),
        (a.scj, "scj,"),
        (a.ser, "ser,"),
        (a.tlu, "tlu,"),
    ];
    let mut text = Bytes::new(alloc);
    for (is_done, name) in named {
        if is_done {
            text.push_slice(name.as_bytes())?;
        }
    }
    Ok(text)
}

/// Appends an entry as the standard prints it: the actions, if there are any, and the next state.
fn push_entry(
    alloc: Global,
    text: &mut Bytes,
    next: u8,
    actions: &LcpActions,
) -> Result<(), NoMemory> {
    let names = names(alloc, actions)?;
    text.push_slice(b" ")?;
    if let Some((_, but_last)) = names.as_slice().split_last() {
        text.push_slice(but_last)?;
        text.push_slice(b"/")?;
    }
    text.push_slice(&[b'0' + next % 10])
}

/// Appends the line of an event: its name, and the entry of each state from 0 to 9.
fn push_event(alloc: Global, text: &mut Bytes, event: LcpEvent) -> Result<(), Fault> {
    let name = format!(in alloc; "{event:?}")?;
    text.push_slice(name.as_bytes())?;
    for state in 0..10u8 {
        let (next, actions) = lcp_advance(state, event);
        push_entry(alloc, text, next, &actions)?;
    }
    text.push_slice(b"\n")?;
    Ok(())
}

/// The whole table.
pub(crate) fn table_row(alloc: Global) -> Result<Bytes, Fault> {
    let mut text = Bytes::new(alloc);
    for event in EVENTS {
        push_event(alloc, &mut text, event)?;
    }
    Ok(text)
}
