//! The system's clock.

ghost use Rattle.std.specs.Prelude.{◌≡◌};

use port_traits::Clock;

/// The system's clock that never goes back. Where it can't be read, it stands still.
#[derive(Drop)]
pub struct StdClock<R: std::time::Clock> {
    system: R,
    last: u64,
}

impl<R: std::time::Clock> StdClock<R> {
    /// A clock that wasn't read yet.
    pub fn new(system: R) -> StdClock<R>
        ensures { result ≡ record { system = system; last = 0 } }
    {
        StdClock { system, last: 0 }
    }
}

impl<R: std::time::Clock> Clock for StdClock<R> {
    ghost last = { λ s. s.last };

    fn now(&mut self) -> u64 {
        if let Ok(time) = self.system.monotonic() {
            let millis = u64::try_from(time.as_millis()).unwrap_or(u64::MAX);
            self.last = self.last.max(millis);
        }
        self.last
    }
}
