//! Rows of control channels: each line of the input is a call of one of two channels, the ends of a tunnel, or of an outbox
//! alone, and the output has the line behind a `>`, and then what the call answers, as Rust writes it. A line that begins with
//! `#` is a remark, which is told as it is.
//!
//! The answers were worked out by hand from RFC 2661 section 5.8 and its appendix A.
#![tactic(auto)]

mod channel_rows;
mod outbox_rows;
mod row;

use channel_rows::channel_row;
use control_channel::Channel;
use outbox_rows::outbox_row;
use row::Fault;
use send_window::Outbox;
use std::alloc::Global;
use std::io;
use std::io::{ErrorKind, Print};

/// What the rows call.
#[derive(Drop)]
struct Bench {
    one: Channel,
    other: Channel,
    outbox: Outbox,
}

/// What the call of a row answers.
fn answer(alloc: Global, bench: &mut Bench, row: &str) -> Result<String, Fault> {
    match row.split_once(' ') {
        Some(("one", words)) => channel_row(alloc, &mut bench.one, words),
        Some(("other", words)) => channel_row(alloc, &mut bench.other, words),
        Some(("outbox", words)) => outbox_row(alloc, &mut bench.outbox, words),
        _ => Err(Fault::NotARow),
    }
}

/// Tells a line. One that is no row is the last: it ends the program with another status than 0.
fn tell_line(rt: &HostRuntime, bench: &mut Bench, line: &str) -> io::Result<()> {
    if line.starts_with('#') {
        return println!(rt; "{line}");
    }
    match answer(rt.alloc(), bench, line) {
        Ok(told) => println!(rt; "> {line}\n{told}"),
        Err(fault) => {
            println!(rt; "{fault:?}: {line}")?;
            Err(io::Error::from(ErrorKind::InvalidInput))
        }
    }
}

fn main(rt: HostRuntime) -> io::Result<()> {
    let mut bench = Bench {
        one: Channel::new(rt.alloc(), 0, 0, 4),
        other: Channel::new(rt.alloc(), 0, 0, 4),
        outbox: Outbox::new(rt.alloc(), 0, 4),
    };
    for line in rt.lines(rt.alloc()) {
        tell_line(&rt, &mut bench, line?.as_str())?;
    }
    Ok(())
}
