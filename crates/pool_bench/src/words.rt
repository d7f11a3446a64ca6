//! What is measured, by the words of the command line.

ghost use Rattle.std.specs.Prelude.{◌≤◌};

use option_values::read_number;

/// What is measured.
#[derive(Clone, Copy)]
pub struct Measure {
    /// How many data messages go through the pool.
    pub frames: u64,
    pub workers: u32,
    /// How many calls are set up in a second.
    pub calls: u64,
    /// For how many milliseconds each commit is held.
    pub hold: u64,
    /// How many data messages come in a second; 0 where each comes as soon as the one before was put.
    pub pace: u64,
    pub ghost few: { workers ≤ 64 },
    pub ghost paced: { calls ≤ 1000 },
}

/// The measure that words spell.
pub fn read_measure(
    frames: &str,
    workers: &str,
    calls: &str,
    hold: &str,
    pace: &str,
) -> Option<Measure> {
    let frames = read_number(frames, 0, 1 << 40)?;
    let workers = read_number(workers, 0, 64)? as u32;
    let calls = read_number(calls, 0, 1_000)?;
    let hold = read_number(hold, 0, 1_000)?;
    let pace = read_number(pace, 0, 10_000_000)?;
    Some(Measure {
        frames,
        workers,
        calls,
        hold,
        pace,
    })
}
