//! Items are counted.

ghost use Rattle.std.specs.Prelude.{◌≡◌, ◌+◌};

use std::sync::Wait;

/// One more. A count at its end waits, so that it is exact wherever it is told: that takes more items than there are numbers for.
pub(crate) fn one_more<W: Wait>(rt: &W, count: u64) -> u64
    ensures { result ≡ count + 1 }
{
    for _ in rt.forever() {
        if count < u64::MAX {
            return count + 1;
        }
    }
    unreachable!()
}
