//! How much was put and finished at a moment.

ghost use Rattle.std.specs.Prelude.{◌≡◌, true};
ghost use Rattle.worker_pool.specs.Counting.{counts_of, IsExact, IsEven};

use crate::pass::PoolPass;

/// What a pass counted up to a moment. A count at 2^64 - 1 stands still.
#[derive(Clone, Copy)]
pub(crate) struct Counts {
    puts: u64,
    taken: u64,
    collected: u64,
}

pub(crate) fn counts_in(pass: &PoolPass) -> Counts
    ensures { result ≡ counts_of pass.now }
{
    Counts {
        puts: pass.puts,
        taken: pass.tally.taken,
        collected: pass.collected,
    }
}

/// Neither count stands still.
fn is_exact(counts: &Counts) -> bool
    ensures { result ≡ true → IsExact counts.now }
{
    counts.taken < u64::MAX && counts.collected < u64::MAX
}

/// As many items were taken or collected between the two moments as were put, by counts that don't stand still.
pub(crate) fn is_even(then: &Counts, now: &Counts) -> bool
    ensures { result ≡ true → IsEven then.now now.now }
{
    let before = u128::from(then.taken) + u128::from(then.collected) + u128::from(now.puts);
    let after = u128::from(now.taken) + u128::from(now.collected) + u128::from(then.puts);
    is_exact(then) && is_exact(now) && before == after
}
