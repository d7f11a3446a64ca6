//! The count of an object's calls, some of which fail, and of those that ask for what waits.

ghost use Rattle.std.specs.Prelude.{◌≡◌, ◌≤◌};
ghost use Rattle.wire_base.specs.Causes.{HasCause, Rose};
ghost use Rattle.port_traits.specs.Packets.{Asks};

use port_traits::Fails;
use wire_base::Failed;

/// One more, as long as it can be told.
pub(crate) fn once_more(asked: Option<u64>) -> Option<u64>
    ensures { Asks asked result }
{
    match asked {
        Some(count) => count.checked_add(1),
        None => None,
    }
}

/// The calls that fail, counted from 1, the calls so far and those that failed.
#[derive(Drop)]
pub(crate) struct Calls {
    pub(crate) fails: Fails,
    pub(crate) calls: u64,
    pub(crate) faults: u64,
}

impl Calls {
    /// No call yet.
    pub(crate) fn new(fails: Fails) -> Calls
        ensures { result ≡ record { fails = fails; calls = 0; faults = 0 } }
    {
        Calls {
            fails,
            calls: 0,
            faults: 0,
        }
    }

    /// Counts a call that failed.
    pub(crate) fn fail(&mut self) -> Failed
        ensures rose { Rose self.old.faults self.new.faults }
        ensures later { self.old.faults ≤ self.new.faults }
        ensures others { self.new.calls ≡ self.old.calls }
    {
        self.faults = self.faults.saturating_add(1);
        Failed
    }

    /// Counts a call, and whether it fails.
    pub(crate) fn count(&mut self) -> Result<(), Failed>
        ensures cause { HasCause self.old.faults self.new.faults result }
    {
        self.calls = self.calls.saturating_add(1);
        if self.fails.as_slice().contains(&self.calls) {
            return Err(self.fail());
        }
        Ok(())
    }
}
