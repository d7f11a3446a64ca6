//! The work of several threads over the same cells.

ghost use Rattle.std.specs.Prelude.{◌≡◌, ◌≤◌, ◌*◌, ◌^◌, IsTrue};
ghost use Rattle.session_cells.specs.Tokens.{IsOf, count_of};
ghost use Rattle.cell_bench.specs.Counting.{is_certain, threads_of};

use crate::rounds::{carry_up, look_up, read_headers, take_decided, take_headers};
use crate::sample::{PEER, SAMPLES, SESSION, Sample, TUNNEL};
use crate::tally::Tally;
use crate::words::{Measure, ThreadCount, What};
use session_cells::{CellSeen, Cells};
use std::alloc::Global;
use std::thread::{Threads, join};

/// Cells for all sessions, of which one is established, and what was seen of them.
#[derive(Drop)]
pub struct Bench {
    cells: Cells,
    seen: CellSeen,
    ghost all: { count_of cells ≡ 65536 },
    ghost of: { IsOf cells seen },
}

/// The bench, if memory isn't wanting.
pub fn open_bench(alloc: Global) -> Option<Bench> {
    let (cells, mut seen) = Cells::open_cells(alloc, 65_536).ok()?;
    cells.bind(&mut seen, SESSION, TUNNEL, PEER).ok()?;
    cells.establish(&mut seen, SESSION).ok()?;
    Some(Bench { cells, seen })
}

/// The turns of one thread: how many went well.
fn turns(bench: &Bench, samples: &[Sample; SAMPLES], what: What, times: u64) -> Tally
    requires { times ≤ 2 ^ 60 }
    ensures most { result.up ≤ times }
    ensures certain { IsTrue (is_certain what) → result.up ≡ times }
{
    let mut seen = bench.cells.seen_again(&bench.seen);
    match what {
        What::Nothing => Tally::of(take_headers(samples, times)),
        What::Header => Tally::of(read_headers(samples, times)),
        What::Decided => take_decided(samples, times),
        What::Look => look_up(&bench.cells, &mut seen, samples, times),
        What::Carry => carry_up(&bench.cells, &mut seen, samples, times),
    }
}

/// The turns of two threads.
fn turns_of_two<R: Threads + Sync>(
    rt: &R,
    bench: &Bench,
    samples: &[Sample; SAMPLES],
    what: What,
    times: u64,
) -> Tally
    requires { times ≤ 2 ^ 60 }
    ensures most { result.up ≤ 2 * times }
    ensures certain { IsTrue (is_certain what) → result.up ≡ 2 * times }
{
    let (one, two) = join(
        rt,
        ||
            requires { times ≤ 2 ^ 60 }
        { turns(bench, samples, what, times) },
        ||
            requires { times ≤ 2 ^ 60 }
        { turns(bench, samples, what, times) },
    );
    one.with(two)
}

/// The turns of so many threads: how many went well.
pub fn share<R: Threads + Sync>(
    rt: &R,
    bench: &Bench,
    samples: &[Sample; SAMPLES],
    measure: &Measure,
) -> Tally
    requires { measure.now.times ≤ 2 ^ 60 }
    ensures most { result.up ≤ threads_of measure.now.threads * measure.now.times }
    ensures certain { IsTrue (is_certain measure.now.what) → result.up ≡ threads_of measure.now.threads * measure.now.times }
{
    let what = measure.what;
    let times = measure.times;
    match measure.threads {
        ThreadCount::One => turns(bench, samples, what, times),
        ThreadCount::Two => turns_of_two(rt, bench, samples, what, times),
        ThreadCount::Four => {
            let (one, two) = join(
                rt,
                ||
                    requires { times ≤ 2 ^ 60 }
                { turns_of_two(rt, bench, samples, what, times) },
                ||
                    requires { times ≤ 2 ^ 60 }
                { turns_of_two(rt, bench, samples, what, times) },
            );
            one.with(two)
        }
    }
}
