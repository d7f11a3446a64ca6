//! What an end tells when it is asked: whether an event fits it, what is seen of a session, its tables, and of a tunnel which rows its
//! calls went through, and which of them are established.

use crate::tables::push_cell;
use bench_examples::{Bench, Fault, id_of, push_number};
use end_core::{CallRow, TunnelRow};
use end_model::{Mode, node_of};
use session_looks::Look;
use std::alloc::Global;
use tunnel_core::{CallRows, TunnelCore};
use wire_base::{Bytes, NoMemory};

/// Appends words that are numbers, each behind a space.
fn push_numbers(alloc: Global, text: &mut Bytes, numbers: &[u32]) -> Result<(), NoMemory> {
    for number in numbers {
        text.push_slice(b" ")?;
        push_number(alloc, text, *number)?;
    }
    Ok(())
}

/// Whether the event of words fits, or the word of why it doesn't.
pub(crate) fn fits_row(alloc: Global, bench: &Bench, words: &str) -> Result<Bytes, Fault> {
    let mut text = Bytes::new(alloc);
    match bench.fits(alloc, words)? {
        None => text.push_slice(b"fits")?,
        Some(why) => text.push_slice(why.word())?,
    }
    text.push_slice(b"\n")?;
    Ok(text)
}

/// What the data plane sees of a session, with the tunnel and the node of its peer.
pub(crate) fn look_row(alloc: Global, bench: &Bench, session: &str) -> Result<Bytes, Fault> {
    let (word, known) = match bench.look(id_of(session)?) {
        Look::Unborn => (b"unborn".as_slice(), None),
        Look::Bound { tunnel, peer } => (b"bound".as_slice(), Some((tunnel, peer))),
        Look::Established { tunnel, peer } => (b"established".as_slice(), Some((tunnel, peer))),
        Look::Dead => (b"dead".as_slice(), None),
    };
    let mut text = Bytes::from_slice(alloc, word)?;
    if let Some((tunnel, peer)) = known {
        let numbers = [u32::from(tunnel), u32::from(node_of(peer))];
        push_numbers(alloc, &mut text, &numbers)?;
    }
    text.push_slice(b"\n")?;
    Ok(text)
}

fn mode_word(mode: Mode) -> &'static [u8] {
    match mode {
        Mode::Current => b"current",
        Mode::Frozen => b"frozen",
        Mode::Restored => b"restored",
    }
}

/// Appends the line of a call: its ids at this end and at the other, and its state.
fn push_call(alloc: Global, text: &mut Bytes, call: &CallRow) -> Result<(), NoMemory> {
    text.push_slice(b"call")?;
    let numbers = [u32::from(call.local), u32::from(call.remote)];
    push_numbers(alloc, text, &numbers)?;
    text.push_slice(b" ")?;
    text.push_slice(call.state.word())?;
    text.push_slice(b"\n")
}

/// Appends the line of a tunnel: its id, the node of its peer, its id there, its state and its mode, and whether it is complete.
fn push_tunnel(alloc: Global, text: &mut Bytes, tunnel: &TunnelRow) -> Result<(), NoMemory> {
    text.push_slice(b"tunnel")?;
    let numbers = [
        u32::from(tunnel.local),
        u32::from(node_of(tunnel.peer)),
        u32::from(tunnel.remote),
    ];
    push_numbers(alloc, text, &numbers)?;
    text.push_slice(b" ")?;
    text.push_slice(tunnel.state.word())?;
    text.push_slice(b" ")?;
    text.push_slice(mode_word(tunnel.mode))?;
    text.push_slice(if tunnel.complete {
        b" complete\n"
    } else {
        b"\n"
    })
}

/// The end's tunnels, each with its calls behind it.
pub(crate) fn tables_row(alloc: Global, bench: &Bench) -> Result<Bytes, Fault> {
    let mut text = Bytes::new(alloc);
    let rows = bench.rows(alloc)?;
    for tunnel in rows.as_slice() {
        push_tunnel(alloc, &mut text, tunnel)?;
        for call in tunnel.calls.as_slice() {
            push_call(alloc, &mut text, call)?;
        }
    }
    Ok(text)
}

/// The tunnel of an id in digits.
fn tunnel_of<'a>(bench: &'a Bench, tunnel: &str) -> Result<&'a TunnelCore, Fault> {
    bench.tunnel(id_of(tunnel)?).ok_or(Fault::NotARow)
}

/// Appends the lines of a call: its id with the state in which it began, and behind it the rows that it went through.
fn push_rows(alloc: Global, text: &mut Bytes, call: &CallRows) -> Result<(), Fault> {
    text.push_slice(b"call")?;
    push_numbers(alloc, text, &[call.session])?;
    text.push_slice(b" ")?;
    text.push_slice(call.began.word())?;
    text.push_slice(b"\n")?;
    for step in call.steps.as_slice() {
        push_cell(
            alloc,
            text,
            &step.event,
            step.state.word(),
            step.next.word(),
        )?;
    }
    Ok(())
}

/// The calls of a tunnel, each with the rows that it went through.
pub(crate) fn rows_row(alloc: Global, bench: &Bench, tunnel: &str) -> Result<Bytes, Fault> {
    let mut text = Bytes::new(alloc);
    let rows = tunnel_of(bench, tunnel)?.rows()?;
    for call in rows.as_slice() {
        push_rows(alloc, &mut text, call)?;
    }
    Ok(text)
}

/// The calls of a tunnel that are established, each by its id at this end and at the other.
pub(crate) fn pairs_row(alloc: Global, bench: &Bench, tunnel: &str) -> Result<Bytes, Fault> {
    let mut text = Bytes::new(alloc);
    let pairs = tunnel_of(bench, tunnel)?.established()?;
    for pair in pairs.as_slice() {
        text.push_slice(b"pair")?;
        push_numbers(alloc, &mut text, &[pair.sender, pair.receiver])?;
        text.push_slice(b"\n")?;
    }
    Ok(text)
}
