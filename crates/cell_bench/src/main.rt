//! The program `cell_bench`: what a data message costs that is judged by a cell, done so many times by each of so many threads over
//! the same cells. It is there to be measured: by `bench_cells`.
//!
//!   cell_bench WHAT TIMES [THREADS]
//!   cell_bench --version
//!
//! WHAT is one of
//!
//!   none        takes in a header that was read before: the loop alone
//!   decided     takes in what was decided before: the same for the two below that decide
//!   header      reads the header of a data message
//!   look        looks the established cell of a data message up, and decides by its header
//!   carry       both: reads the header, looks the cell up and decides
//!
//! or `long_header` or `long_carry`: the same of data messages whose headers have a length. THREADS is 1, 2 or 4, and 1 where it isn't
//! said. It prints how many turns of all threads went well: of `look` and `carry`, how many frames went up to the network.
#![tactic(auto)]

ghost use Rattle.std.specs.Prelude.{◌≡◌, ◌≤◌, ◌*◌, ◌^◌, IfSome, IsTrue};
ghost use Rattle.cell_bench.specs.Counting.{is_certain, threads_of};

mod rounds;
mod sample;
mod shares;
mod tally;
mod words;

use crate::sample::samples;
use crate::shares::{open_bench, share};
use crate::tally::Tally;
use crate::words::{Measure, read_measure};
use std::alloc::Global;
use std::process::ExitCode;
use std::thread::Threads;
use std::{env, str};

/// How many turns of the measure went well, and nothing where memory is wanting.
fn count<R: Threads + Sync>(rt: &R, alloc: Global, measure: &Measure) -> Option<Tally>
    requires { measure.now.times ≤ 2 ^ 60 }
    ensures most { IfSome result (λ t. t.up ≤ threads_of measure.now.threads * measure.now.times) }
    ensures certain { IfSome result (λ t. IsTrue (is_certain measure.now.what) → t.up ≡ threads_of measure.now.threads * measure.now.times) }
{
    let samples = samples(alloc, measure.long)?;
    let bench = open_bench(alloc)?;
    Some(share(rt, &bench, &samples, measure))
}

/// Writes how many turns went well, and why one didn't.
fn tell(rt: &HostRuntime, tally: Tally) -> ExitCode {
    let told = match tally.why {
        None => println!(rt; "up {}", tally.up),
        Some(why) => println!(rt;
            "up {}, dropped: {}",
            tally.up,
            str::from_utf8(why.word()).unwrap_or("")
        ),
    };
    match told {
        Ok(()) => ExitCode::SUCCESS,
        Err(_) => ExitCode::from(6),
    }
}

/// Answers words that spell no measure: with the version, where they ask for it.
fn answer(rt: &HostRuntime, words: &[String]) -> ExitCode {
    if let [_, word] = words
        && word.as_str() == "--version"
    {
        return match println!(rt; "cell_bench 0.1.0") {
            Ok(()) => ExitCode::SUCCESS,
            Err(_) => ExitCode::from(6),
        };
    }
    match eprintln!(rt;
        "usage: cell_bench none|decided|header|look|carry|long_header|long_carry TIMES [1|2|4]"
    ) {
        Ok(()) => ExitCode::from(2),
        Err(_) => ExitCode::from(6),
    }
}

/// The measure that the words spell.
fn measure_of(words: &[String]) -> Option<Measure>
    ensures { IfSome result (λ m. m.times ≤ 2 ^ 60) }
{
    match words {
        [_, what, times] => read_measure(what.as_str(), times.as_str(), None),
        [_, what, times, threads] => {
            read_measure(what.as_str(), times.as_str(), Some(threads.as_str()))
        }
        _ => None,
    }
}

fn main(rt: HostRuntime) -> ExitCode {
    let Ok(words) = env::args(&rt) else {
        return ExitCode::from(1);
    };
    let Ok(words) = words.collect::<Vec<String>>(rt.alloc()) else {
        return ExitCode::from(20);
    };
    let Some(measure) = measure_of(words.as_slice()) else {
        return answer(&rt, words.as_slice());
    };
    match count(&rt, rt.alloc(), &measure) {
        Some(tally) => tell(&rt, tally),
        None => ExitCode::from(20),
    }
}
