//! Rows of recovery tunnels: each line of the input is a call of one end, an attempt or an answer, which a row begins anew, and the
//! output has the line behind a `>`, and then what the call answers. A line that begins with `#` is a remark, which is told as it is.
//!
//! The letters were written down byte by byte from RFC 2661 section 4.4 and RFC 4951 section 5, in this project's profile of it,
//! and the responses are another MD5's.
#![tactic(auto)]

mod end;
mod end_rows;
mod row;

use end::End;
use end_rows::answer;
use row::{Fault, Row};
use std::alloc::Global;
use std::io;
use std::io::{ErrorKind, Print};

/// What a row answers.
fn told(alloc: Global, end: &mut Option<End>, line: &str) -> Result<String, Fault> {
    answer(end, &Row::read(alloc, line)?)
}

/// Tells a line. One that is no row is the last: it ends the program with another status than 0.
fn tell_line(rt: &HostRuntime, end: &mut Option<End>, line: &str) -> io::Result<()> {
    if line.starts_with('#') {
        return println!(rt; "{line}");
    }
    match told(rt.alloc(), end, line) {
        Ok(told) => println!(rt; "> {line}\n{told}"),
        Err(fault) => {
            println!(rt; "{fault:?}: {line}")?;
            Err(io::Error::from(ErrorKind::InvalidInput))
        }
    }
}

fn main(rt: HostRuntime) -> io::Result<()> {
    let mut end = None;
    for line in rt.lines(rt.alloc()) {
        tell_line(&rt, &mut end, line?.as_str())?;
    }
    Ok(())
}
