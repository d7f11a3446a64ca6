//! An end that sends each datagram back, for tests and measurements of what is around an end.

use crate::end::{EndStep, Event, Out, Outputs};
use std::alloc::Global;
use wire_base::NoMemory;

/// Sends each datagram back to the peer from which it came, and does nothing else. It stops only where memory is wanting.
#[derive(Drop)]
pub struct Echo {
    alloc: Global,
}

impl Echo {
    /// An end that holds nothing.
    pub fn new(alloc: Global) -> Echo {
        Echo { alloc }
    }
}

impl EndStep for Echo {
    ghost use Rattle.std.specs.Prelude.{⊤, ◌≡◌};
    ghost use Rattle.port_events.specs.Echoes.{EchoesBack};

    type Stop = NoMemory;

    ghost ready = { λ _. ⊤ };

    ghost steps = { EchoesBack };

    ghost stops = { λ before _ _ _ _ after. after ≡ before };

    fn step(&mut self, _now: u64, _block: [u8; 16], event: Event) -> Result<Outputs, NoMemory> {
        let mut outs = Outputs::new(self.alloc);
        if let Event::Datagram { peer, bytes } = event {
            outs.push(Out::Send { peer, bytes })?;
        }
        Ok(outs)
    }
}
