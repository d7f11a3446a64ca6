//! The ports of a node as one value.

use crate::ports::Ports;
use block_source::next_block;
use port_events::{Event, TurnFault, next_datagram, next_frame, next_lower};
use port_traits::{Clock, Ether, Link, Uplink};
use rand_core::Rng;
use std::alloc::Global;

/// The ports of a node, its clock and its generator, each by value.
#[derive(Drop)]
pub struct NodePorts<L: Link, E: Ether, U: Uplink, C: Clock, R: Rng> {
    pub alloc: Global,
    pub link: L,
    pub ether: E,
    pub up: U,
    pub clock: C,
    pub rng: R,
}

impl<L: Link, E: Ether, U: Uplink, C: Clock, R: Rng> Ports for NodePorts<L, E, U, C, R> {
    ghost use Rattle.port_events.specs.Feeding.{given};
    ghost use Rattle.port_turn.specs.Turns.{waits, asked};
    ghost use Rattle.held_ports.specs.Around.{around, port_counts};

    ghost around = { λ p. around (R.stream p.rng) (C.gives p.clock) (given (L.given p.link) (E.given p.ether) (U.given p.up)) (waits (L.waiting p.link) (E.waiting p.ether) (U.waiting p.up)) (asked (L.asked p.link) (E.asked p.ether) (U.asked p.up)) };

    ghost counts = { λ p. port_counts (L.faults p.link) (E.faults p.ether) (U.faults p.up) };

    fn moment(&mut self) -> u64 {
        self.clock.now()
    }

    fn block(&mut self) -> [u8; 16] {
        next_block(&mut self.rng)
    }

    fn next_datagram<Stop>(&mut self) -> Result<Option<Event>, TurnFault<Stop>> {
        next_datagram(self.alloc, &mut self.link)
    }

    fn next_frame<Stop>(&mut self) -> Result<Option<Event>, TurnFault<Stop>> {
        next_frame(self.alloc, &mut self.ether)
    }

    fn next_lower<Stop>(&mut self) -> Result<Option<Event>, TurnFault<Stop>> {
        next_lower(self.alloc, &mut self.up)
    }

    fn send<Stop>(&mut self, peer: u32, bytes: &[u8]) -> Result<(), TurnFault<Stop>> {
        match self.link.send(peer, bytes) {
            Ok(()) => Ok(()),
            Err(_) => Err(TurnFault::LinkFault),
        }
    }

    fn send_frame<Stop>(&mut self, bytes: &[u8]) -> Result<(), TurnFault<Stop>> {
        match self.ether.send(bytes) {
            Ok(()) => Ok(()),
            Err(_) => Err(TurnFault::EtherFault),
        }
    }

    fn send_up<Stop>(&mut self, session: u16, frame: &[u8]) -> Result<(), TurnFault<Stop>> {
        match self.up.send(session, frame) {
            Ok(()) => Ok(()),
            Err(_) => Err(TurnFault::UplinkFault),
        }
    }
}
