//! A port that may be missing: nothing waits on it, and it takes all and keeps nothing.

use crate::packets::{Ether, Lowered, Uplink};
use wire_base::Failed;

impl<E: Ether> Ether for Option<E> {
    ghost use Rattle.port_traits.specs.Optional.{waiting_of, given_of, asked_of, faults_of};

    ghost waiting = { waiting_of E.waiting };

    ghost given = { given_of E.given };

    ghost asked = { asked_of E.asked };

    ghost faults = { faults_of E.faults };

    fn recv(&mut self, buf: &mut [u8; 2048]) -> Result<Option<usize>, Failed> {
        match self {
            Some(port) => port.recv(buf),
            None => Ok(None),
        }
    }

    fn send(&mut self, frame: &[u8]) -> Result<(), Failed> {
        match self {
            Some(port) => port.send(frame),
            None => Ok(()),
        }
    }
}

impl<U: Uplink> Uplink for Option<U> {
    ghost use Rattle.port_traits.specs.Optional.{waiting_of, given_of, asked_of, faults_of};

    ghost waiting = { waiting_of U.waiting };

    ghost given = { given_of U.given };

    ghost asked = { asked_of U.asked };

    ghost faults = { faults_of U.faults };

    fn recv(&mut self, buf: &mut [u8; 2048]) -> Result<Option<Lowered>, Failed> {
        match self {
            Some(port) => port.recv(buf),
            None => Ok(None),
        }
    }

    fn send(&mut self, session: u16, frame: &[u8]) -> Result<(), Failed> {
        match self {
            Some(port) => port.send(session, frame),
            None => Ok(()),
        }
    }
}
