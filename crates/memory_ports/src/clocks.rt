//! A clock in memory, which gives the moments of a list.

ghost use Rattle.std.specs.Prelude.{◌≡◌};
ghost use Rattle.port_traits.specs.Packets.{DontFall};

use crate::queue::Queue;
use port_traits::Clock;
use std::marker::Model;
use wire_base::Sequence;

/// Moments in milliseconds.
pub type Moments = Sequence<u64>;

/// A clock that gives the moments of a list, and after it the last one again, or 0 where the list is empty.
#[derive(Drop)]
pub struct ManualClock {
    left: Queue<u64>,
    last: u64,
}

impl Model for ManualClock {
    ghost use Rattle.port_traits.specs.Packets.{Moments, DontFall};

    ghost Value = { Moments };

    ghost view = { λ s. record { left = s.left; last = s.last } };

    ghost invariant = { λ s. DontFall s.last s.left };
}

impl ManualClock {
    /// A clock of these moments, which don't fall.
    pub fn new(moments: Moments) -> ManualClock
        requires { DontFall 0 moments }
        ensures { result ≡ record { left = moments; last = 0 } }
    {
        ManualClock {
            left: Queue::new(moments),
            last: 0,
        }
    }
}

impl Clock for ManualClock {
    ghost use Rattle.std.specs.Prelude.{Some};

    ghost gives = { λ s. Some s };

    ghost last = { λ s. s.last };

    #[tactic(auto, using(crate::proofs::Waits::moments_rise, crate::proofs::Waits::moments_go_on))]
    fn now(&mut self) -> u64 {
        let moment = self.left.first().copied().unwrap_or(self.last);
        self.left.pass();
        self.last = moment;
        moment
    }
}
