//! The loops, each of which does one thing so many times.

ghost use Rattle.std.specs.Prelude.{◌≡◌, ◌≤◌, ◌^◌, IfOk};
ghost use Rattle.session_cells.specs.Tokens.{IsOf, Later, log_of, count_of};
ghost use Rattle.session_cells.specs.Logs.{look_after};
ghost use Rattle.data_plane.specs.Carries.{role_of, carry_of};
ghost use Rattle.cell_bench.specs.Counting.{is_ours};

use crate::sample::{SAMPLES, Sample, is_ours};
use crate::tally::Tally;
use data_plane::{Carry, carry_in, carry_look};
use l2tp_header::{Header, HeaderError, read_header};
use session_cells::{CellSeen, Cells};

/// The data message of a turn.
fn sample_of(samples: &[Sample; SAMPLES], turn: u64) -> &Sample {
    &samples[(turn % 4) as usize]
}

/// Whether a header was read that is for the call, with a frame behind it. So all that a data message's header has is read here.
fn is_read(read: Result<Header, HeaderError>) -> bool
    ensures { IfOk read (λ h. result ≡ is_ours h) }
{
    match read {
        Ok(header) => is_ours(&header),
        Err(_) => false,
    }
}

/// What becomes of a data message by what is seen of its session.
fn look_once(cells: &Cells, seen: &mut CellSeen, sample: &Sample) -> Carry
    requires all { count_of cells.now ≡ 65536 }
    requires of { IsOf cells.now seen.old }
    ensures later { Later cells.now seen.old seen.new }
    ensures exact { result ≡ carry_of (role_of sample.now.lns) (look_after (log_of seen.new) sample.now.header.session) sample.now.peer sample.now.header sample.now.datagram }
{
    let look = cells.lookup(seen, sample.header.session);
    carry_look(
        look,
        sample.lns,
        sample.peer,
        &sample.header,
        sample.datagram.as_slice(),
    )
}

/// The same from the datagram alone, whose header is read.
fn carry_once(cells: &Cells, seen: &mut CellSeen, sample: &Sample) -> Carry
    requires all { count_of cells.now ≡ 65536 }
    requires of { IsOf cells.now seen.old }
    ensures later { Later cells.now seen.old seen.new }
    ensures exact { result ≡ carry_of (role_of sample.now.lns) (look_after (log_of seen.new) sample.now.header.session) sample.now.peer sample.now.header sample.now.datagram }
{
    // so that the proof knows that it is below 65,536
    let _session = sample.header.session;
    carry_in(
        cells,
        seen,
        sample.lns,
        sample.peer,
        sample.datagram.as_slice(),
    )
}

/// Takes in so many times a header that was read before.
pub fn take_headers(samples: &[Sample; SAMPLES], times: u64) -> u64
    ensures { result ≡ times }
{
    let mut count = 0;
    for turn in 0..times {
        if is_read(sample_of(samples, turn).read) {
            count += 1;
        }
    }
    count
}

/// Reads so many headers.
pub fn read_headers(samples: &[Sample; SAMPLES], times: u64) -> u64
    ensures { result ≡ times }
{
    let mut count = 0;
    for turn in 0..times {
        if is_read(read_header(sample_of(samples, turn).datagram.as_slice())) {
            count += 1;
        }
    }
    count
}

/// Takes in so many times what was decided before.
pub fn take_decided(samples: &[Sample; SAMPLES], times: u64) -> Tally
    requires { times ≤ 2 ^ 60 }
    ensures { result.up ≡ times }
{
    let mut tally = Tally::of(0);
    for turn in 0..times {
        tally.take(sample_of(samples, turn).carry);
    }
    tally
}

/// Looks so many times, and tells how many frames went up.
pub fn look_up(cells: &Cells, seen: &mut CellSeen, samples: &[Sample; SAMPLES], times: u64) -> Tally
    requires all { count_of cells.now ≡ 65536 }
    requires of { IsOf cells.now seen.old }
    requires few { times ≤ 2 ^ 60 }
    ensures later { Later cells.now seen.old seen.new }
    ensures most { result.up ≤ times }
{
    let mut tally = Tally::of(0);
    for turn in 0..times {
        tally.take(look_once(cells, seen, sample_of(samples, turn)));
    }
    tally
}

/// Judges so many datagrams, and tells how many frames went up.
pub fn carry_up(
    cells: &Cells,
    seen: &mut CellSeen,
    samples: &[Sample; SAMPLES],
    times: u64,
) -> Tally
    requires all { count_of cells.now ≡ 65536 }
    requires of { IsOf cells.now seen.old }
    requires few { times ≤ 2 ^ 60 }
    ensures later { Later cells.now seen.old seen.new }
    ensures most { result.up ≤ times }
{
    let mut tally = Tally::of(0);
    for turn in 0..times {
        tally.take(carry_once(cells, seen, sample_of(samples, turn)));
    }
    tally
}
