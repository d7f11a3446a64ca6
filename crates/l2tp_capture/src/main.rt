//! The program `l2tp_capture`: it reads a report of `l2tp replay` and writes what was sent as a capture file.
//!
//! `main` makes the real objects and calls the top call, which carries the theorem.
#![tactic(auto)]

mod capture;
mod exit;
mod texts;
mod top;
mod words;

use crate::exit::Exit;
use port_traits::{StdSink, StdSource};
use std::env;
use std::io::ErrorKind;
use std::process::ExitCode;

/// The words after the program's name. One that isn't UTF-8 makes a command line that is no command: it stands as an empty word.
fn command_words(rt: &HostRuntime) -> Result<Vec<String>, Exit> {
    match env::args(rt) {
        Ok(words) => {
            let mut words = words;
            let _program = words.next();
            words.collect(rt.alloc()).map_err(|_| Exit::NoMemory)
        }
        Err(error) if error.kind() == ErrorKind::OutOfMemory => Err(Exit::NoMemory),
        Err(_) => Err(Exit::Usage),
    }
}

fn main(rt: HostRuntime) -> ExitCode {
    let words = match command_words(&rt) {
        Ok(words) => words,
        Err(exit) => return ExitCode::from(exit.status()),
    };
    let mut source = StdSource::new(rt.stdin());
    let mut out = StdSink::new(rt.stdout());
    let mut err = StdSink::new(rt.stderr());
    let exit = top::capture_top(
        rt.alloc(),
        words.as_slice(),
        &mut source,
        &mut out,
        &mut err,
    );
    ExitCode::from(exit.status())
}
