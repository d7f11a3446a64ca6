//! Rows of LCP: each line of the input is a call of the LCP end of a link, or asks something, and the output has the line behind
//! a `>`, and then what the end gives or tells, line by line. A line that begins with `#` is a remark, which is told as it is.
//!
//! The table is that of RFC 1661 section 4.1, and the packets and the answers to them were worked out by hand from that standard.
#![tactic(auto)]

mod automaton;
mod link;
mod row;

use automaton::table_row;
use lcp_end::LcpEnd;
use link::link_row;
use row::{Fault, marked};
use std::alloc::Global;
use std::io;
use std::io::{ErrorKind, Print};
use wire_base::Bytes;

/// The lines of the output for a line of the input.
fn tell(alloc: Global, end: &mut LcpEnd, line: &str) -> Result<Bytes, Fault> {
    if line.starts_with('#') {
        return Ok(marked(alloc, b"", line)?);
    }
    let mut text = marked(alloc, b"> ", line)?;
    let told = match line {
        "table" => table_row(alloc)?,
        _ => link_row(alloc, end, line)?,
    };
    text.push_slice(told.as_slice())?;
    Ok(text)
}

/// Tells a line. One that is no row is the last: it ends the program with another status than 0.
fn tell_line(rt: &HostRuntime, end: &mut LcpEnd, line: &str) -> io::Result<()> {
    match tell(rt.alloc(), end, line) {
        Ok(told) => rt.write_all(told.as_slice()),
        Err(fault) => {
            println!(rt; "{fault:?}: {line}")?;
            Err(io::Error::from(ErrorKind::InvalidInput))
        }
    }
}

fn main(rt: HostRuntime) -> io::Result<()> {
    let mut end = LcpEnd::new(0);
    for line in rt.lines(rt.alloc()) {
        tell_line(&rt, &mut end, line?.as_str())?;
    }
    Ok(())
}
