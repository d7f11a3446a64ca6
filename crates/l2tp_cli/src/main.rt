//! The program `l2tp`: `replay` runs a schedule over both ends of L2TP tunnels and writes its report, `make` draws one from a seed, and `node`
//! and `pool` run one end over UDP, `pool` with workers in threads of their own.
//!
//! `main` makes the real objects and calls a top call, which carries the theorem.
#![tactic(auto)]

mod answer;
mod exit;
mod making;
mod node;
mod texts;
mod top;
mod words;

use crate::exit::Exit;
use crate::making::make_top;
use crate::node::{Command, run_command};
use crate::top::replay_top;
use port_traits::{StdSink, StdSource};
use std::env;
use std::io::ErrorKind;
use std::process::ExitCode;
use std::sync::Wait;
use std::thread::Threads;

/// The words after the program's name. One that isn't UTF-8 makes a command line that is no command, as no words do.
fn command_words(rt: &HostRuntime) -> Result<Vec<String>, Exit> {
    match env::args(rt) {
        Ok(words) => {
            let mut words = words;
            let _program = words.next();
            words.collect(rt.alloc()).map_err(|_| Exit::NoMemory)
        }
        Err(error) if error.kind() == ErrorKind::OutOfMemory => Err(Exit::NoMemory),
        Err(_) => Ok(Vec::new(rt.alloc())),
    }
}

/// Does what the words ask for, and gives the status of the process. The first word tells which call is made.
fn run<T: Threads + Wait + Sync>(rt: &HostRuntime, threads: &T, words: &[String]) -> u8 {
    let mut sink = StdSink::new(rt.stdout());
    let first = match words.first() {
        Some(word) => word.as_str(),
        None => "",
    };
    if first == "make" {
        make_top(rt.alloc(), words, &mut sink).status()
    } else if first == "node" {
        run_command(rt, threads, Command::Node, words)
    } else if first == "pool" {
        run_command(rt, threads, Command::Pool, words)
    } else {
        let mut source = StdSource::new(rt.stdin());
        replay_top(rt.alloc(), words, &mut source, &mut sink).status()
    }
}

fn main(rt: HostRuntime) -> ExitCode {
    let status = match command_words(&rt) {
        Ok(words) => run(&rt, &rt, words.as_slice()),
        Err(exit) => exit.status(),
    };
    ExitCode::from(status)
}
