//! The program `pool_bench`: so many data messages go through a pool of workers, while so many calls a second are set up whose commits
//! are held. It is there to be measured: by `bench_pool`.
//!
//!   pool_bench FRAMES WORKERS [CALLS HOLD PACE]
//!   pool_bench --version
//!
//! CALLS is how many calls are set up in a second, HOLD for how many milliseconds each commit of the hub in memory is held, and PACE how
//! many data messages come in a second; each is 0 where it isn't said, and without PACE each data message comes as soon as the one before
//! was put. It prints how many frames went up, and on standard error how many calls were set up meanwhile.
#![tactic(auto)]

mod hub;
mod load;
mod messages;
mod words;

use crate::hub::HeldHub;
use crate::load::{Load, Loaded, Open};
use crate::words::{Measure, read_measure};
use end_model::{Config, Role};
use locked_examples::MemoryHub;
use session_workers::open_shared;
use std::alloc::Global;
use std::env;
use std::process::ExitCode;
use std::sync::Wait;
use std::thread::Threads;
use std::time::Clock;
use worker_pool::{open_pool, pool_run};

/// Runs a pool of the LNS 2 at 10.0.0.2 over a hub in memory, and nothing where memory is wanting.
fn run<R: Threads + Wait + Clock + Sync>(
    rt: &R,
    alloc: Global,
    measure: Measure,
) -> Option<Loaded> {
    let config = Config::new(2, 0x0a00_0002, 0, None, false);
    let hub = HeldHub::new(MemoryHub::new(alloc, config, false), rt, measure.hold);
    let opened = open_shared(alloc, Role::Lns, 0, Vec::new(alloc), hub).ok()?;
    let (pool, mut pass) = open_pool(opened.0, opened.1);
    let mut load = Load::new(rt, alloc, measure);
    let tally = pool_run(rt, &pool, &mut pass, measure.workers, &Open, &mut load);
    Some(load.loaded(tally.up))
}

/// Writes what a pool did.
fn tell(rt: &HostRuntime, loaded: Loaded) -> ExitCode {
    let told = eprintln!(rt; "calls {}, refused {}", loaded.calls, loaded.refused);
    match told.and(println!(rt; "up {}", loaded.up)) {
        Ok(()) => ExitCode::SUCCESS,
        Err(_) => ExitCode::from(6),
    }
}

/// Answers words that spell no measure: with the version, where they ask for it.
fn answer(rt: &HostRuntime, words: &[String]) -> ExitCode {
    if let [_, word] = words
        && word.as_str() == "--version"
    {
        return match println!(rt; "pool_bench 0.1.0") {
            Ok(()) => ExitCode::SUCCESS,
            Err(_) => ExitCode::from(6),
        };
    }
    match eprintln!(rt; "usage: pool_bench FRAMES WORKERS [CALLS HOLD PACE]") {
        Ok(()) => ExitCode::from(2),
        Err(_) => ExitCode::from(6),
    }
}

/// The measure that the words spell.
fn measure_of(words: &[String]) -> Option<Measure> {
    match words {
        [_, frames, workers] => read_measure(frames.as_str(), workers.as_str(), "0", "0", "0"),
        [_, frames, workers, calls, hold, pace] => read_measure(
            frames.as_str(),
            workers.as_str(),
            calls.as_str(),
            hold.as_str(),
            pace.as_str(),
        ),
        _ => None,
    }
}

fn main(rt: HostRuntime) -> ExitCode {
    let Ok(words) = env::args(&rt) else {
        return ExitCode::from(1);
    };
    let Ok(words) = words.collect::<Vec<String>>(rt.alloc()) else {
        return ExitCode::from(20);
    };
    let Some(measure) = measure_of(words.as_slice()) else {
        return answer(&rt, words.as_slice());
    };
    match run(&rt, rt.alloc(), measure) {
        Some(loaded) => tell(&rt, loaded),
        None => ExitCode::from(20),
    }
}
