//! What is counted.

ghost use Rattle.std.specs.Prelude.{◌≡◌, ◌<◌, ◌≤◌, ◌+◌, ◌^◌, if◌then◌else◌};
ghost use Rattle.cell_bench.specs.Counting.{is_up};

use data_plane::Carry;
use wire_base::{Side, Why};

/// Whether a frame goes up to the network, and isn't empty.
pub fn goes_up(carry: Carry) -> bool
    ensures { result ≡ is_up carry }
{
    match carry {
        Carry::Up {
            side: Side::Net,
            start,
            end,
            ..
        } => start < end,
        _ => false,
    }
}

/// How many frames went up to the network, and why one was dropped, if any was. All that is decided is read here, so that
/// no compiler can leave a part of it out.
#[derive(Clone, Copy)]
pub struct Tally {
    pub up: u64,
    pub why: Option<Why>,
}

impl Tally {
    /// So many that went up.
    pub fn of(up: u64) -> Tally
        ensures { result.up ≡ up }
    {
        Tally { up, why: None }
    }

    /// Takes in what becomes of a data message.
    pub fn take(&mut self, carry: Carry)
        requires { self.old.up < 2 ^ 60 }
        ensures { self.new.up ≡ self.old.up + (if is_up carry then 1 else 0) }
    {
        if let Carry::Dropped { why } = carry {
            self.why = Some(why);
        }
        if goes_up(carry) {
            self.up += 1;
        }
    }

    /// Both together.
    pub fn with(&self, other: Tally) -> Tally
        requires { (self.now.up ≤ 2 ^ 61) × (other.up ≤ 2 ^ 61) }
        ensures { result.up ≡ self.now.up + other.up }
    {
        Tally {
            up: self.up + other.up,
            why: self.why.or(other.why),
        }
    }
}
