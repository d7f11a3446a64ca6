//! How many items were taken, and what became of their datagrams.

ghost use Rattle.std.specs.Prelude.{◌≡◌, []};
ghost use Rattle.session_workers.specs.Done.{carried_of};
ghost use Rattle.worker_pool.specs.Tallies.{up_in, dropped_in, tally_of, counted, added};

use data_plane::Carry;
use session_workers::{Done, Finished};

/// How many items were taken, of how many a frame goes up, and how many were dropped; the others are control messages, whether their
/// turns were made or refused. Each number stands still at 2^64 - 1.
#[derive(Clone, Copy)]
pub struct Tally {
    pub taken: u64,
    pub up: u64,
    pub dropped: u64,
}

/// How many frames go up, and how many are dropped.
fn ways(done: &Done) -> (u64, u64)
    ensures { (result.0 ≡ up_in (carried_of done.now)) × (result.1 ≡ dropped_in (carried_of done.now)) }
{
    match done {
        Done::Carried {
            carry: Carry::Up { .. },
        } => (1, 0),
        Done::Carried {
            carry: Carry::Dropped { .. },
        } => (0, 1),
        Done::Turned { .. } | Done::Failed { .. } => (0, 0),
    }
}

impl Tally {
    pub(crate) fn none() -> Tally
        ensures { result ≡ tally_of [] }
    {
        Tally {
            taken: 0,
            up: 0,
            dropped: 0,
        }
    }

    pub(crate) fn count(&mut self, finished: &Finished)
        ensures { self.new ≡ counted self.old finished.now }
    {
        let (up, dropped) = ways(&finished.done);
        self.taken = self.taken.saturating_add(1);
        self.up = self.up.saturating_add(up);
        self.dropped = self.dropped.saturating_add(dropped);
    }

    /// Both together.
    pub(crate) fn with(&self, other: &Tally) -> Tally
        ensures { result ≡ added self.now other.now }
    {
        Tally {
            taken: self.taken.saturating_add(other.taken),
            up: self.up.saturating_add(other.up),
            dropped: self.dropped.saturating_add(other.dropped),
        }
    }
}
