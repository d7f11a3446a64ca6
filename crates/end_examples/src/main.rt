//! Rows of an end: each line of the input is an event, or asks something, and the output has the line behind a `>`, and then what
//! the end gives or tells, line by line. A line that begins with `#` is a remark, which is told as it is.
//!
//! The messages that come are those of a peer that isn't this program: they have pairs that it doesn't write, and were worked
//! out by hand from RFC 2661, as was what has to be given for them. Nodes, tunnel ids and session ids differ from one another.
#![tactic(auto)]

mod asked;
mod tables;

use asked::{fits_row, look_row, pairs_row, rows_row, tables_row};
use bench_examples::{Bench, Fault};
use std::alloc::Global;
use std::io;
use std::io::{ErrorKind, Print};
use tables::{call_row, tunnel_row};
use wire_base::{Bytes, NoMemory};

/// The lines that a row leads to.
fn answer(alloc: Global, bench: &mut Bench, row: &str) -> Result<Bytes, Fault> {
    match row.split_once(' ') {
        Some(("fits", words)) => fits_row(alloc, bench, words),
        Some(("look", session)) => look_row(alloc, bench, session),
        Some(("rows", tunnel)) => rows_row(alloc, bench, tunnel),
        Some(("pairs", tunnel)) => pairs_row(alloc, bench, tunnel),
        Some(("tunnel", state)) => tunnel_row(alloc, state),
        Some(("lac", state)) => call_row(alloc, true, state),
        Some(("lns", state)) => call_row(alloc, false, state),
        None if row == "tables" => tables_row(alloc, bench),
        _ => bench.run(alloc, row),
    }
}

/// A line behind a mark.
fn marked(alloc: Global, mark: &[u8], line: &str) -> Result<Bytes, NoMemory> {
    let mut text = Bytes::from_slice(alloc, mark)?;
    text.push_slice(line.as_bytes())?;
    text.push_slice(b"\n")?;
    Ok(text)
}

/// The lines of the output for a line of the input.
fn tell(alloc: Global, bench: &mut Bench, line: &str) -> Result<Bytes, Fault> {
    if line.starts_with('#') {
        return Ok(marked(alloc, b"", line)?);
    }
    let mut text = marked(alloc, b"> ", line)?;
    let told = answer(alloc, bench, line)?;
    text.push_slice(told.as_slice())?;
    Ok(text)
}

/// Tells a line. One that is no row is the last: it ends the program with another status than 0.
fn tell_line(rt: &HostRuntime, bench: &mut Bench, line: &str) -> io::Result<()> {
    match tell(rt.alloc(), bench, line) {
        Ok(told) => rt.write_all(told.as_slice()),
        Err(fault) => {
            println!(rt; "{fault:?}: {line}")?;
            Err(io::Error::from(ErrorKind::InvalidInput))
        }
    }
}

fn main(rt: HostRuntime) -> io::Result<()> {
    let mut bench = Bench::lns(rt.alloc()).map_err(|_| io::Error::from(ErrorKind::OutOfMemory))?;
    for line in rt.lines(rt.alloc()) {
        tell_line(&rt, &mut bench, line?.as_str())?;
    }
    Ok(())
}
