//! A clock that lets an idle node rest: before it gives a moment it waits until a port can be read, for some milliseconds
//! at most. It doesn't wait where a port gave something since the moment before.

ghost use Rattle.std.specs.Prelude.{◌≡◌};

use libc::net::{POLLIN, poll};
use libc::types::pollfd;
use port_traits::{Arrived, Clock, Ether, Link, Lowered, Uplink};
use std::cell::Cell;
use std::net::Net;
use stream_ports::{UnixEther, UnixUplink};
use wire_base::Failed;

/// What a port stands on.
pub trait Descriptor {
    /// The system's descriptor, or -1 where the port isn't open yet.
    fn descriptor(&self) -> i32;
}

impl<R: Net + Drop> Descriptor for UnixEther<R> {
    fn descriptor(&self) -> i32 {
        UnixEther::descriptor(self)
    }
}

impl<R: Net + Drop> Descriptor for UnixUplink<R> {
    fn descriptor(&self) -> i32 {
        UnixUplink::descriptor(self)
    }
}

/// The descriptors of a node's ports, -1 where one isn't open, and whether a port gave something since the clock was read.
#[derive(Drop)]
pub struct Watch {
    link: Cell<i32>,
    ether: Cell<i32>,
    uplink: Cell<i32>,
    took: Cell<bool>,
}

impl Watch {
    /// Nothing is open yet.
    pub fn new() -> Watch {
        Watch {
            link: Cell::new(-1),
            ether: Cell::new(-1),
            uplink: Cell::new(-1),
            took: Cell::new(false),
        }
    }

    /// Watches the link.
    pub fn link<P: Descriptor>(&self, port: P) -> Watched<'_, P>
        ensures { result.port ≡ port }
    {
        Watched {
            port,
            descriptor: &self.link,
            took: &self.took,
        }
    }

    /// Watches the Ethernet port.
    pub fn ether<P: Descriptor>(&self, port: P) -> Watched<'_, P>
        ensures { result.port ≡ port }
    {
        Watched {
            port,
            descriptor: &self.ether,
            took: &self.took,
        }
    }

    /// Watches the uplink.
    pub fn uplink<P: Descriptor>(&self, port: P) -> Watched<'_, P>
        ensures { result.port ≡ port }
    {
        Watched {
            port,
            descriptor: &self.uplink,
            took: &self.took,
        }
    }

    /// Waits until one of the ports can be read, for so many milliseconds at most; not at all where one gave something.
    fn rest(&self, most: i32) {
        if self.took.replace(false) {
            return;
        }
        let mut asked = [
            readable(self.link.get()),
            readable(self.ether.get()),
            readable(self.uplink.get()),
        ];
        let _ready = poll(&mut asked, most);
    }
}

/// Asks whether a descriptor can be read; -1 is passed over.
fn readable(fd: i32) -> pollfd {
    pollfd {
        fd,
        events: POLLIN,
        revents: 0,
    }
}

/// A port that is watched.
#[derive(Drop)]
pub struct Watched<'a, P: Descriptor> {
    port: P,
    descriptor: &'a Cell<i32>,
    took: &'a Cell<bool>,
}

impl<'a, P: Descriptor> Watched<'a, P> {
    /// The port.
    pub fn port(&self) -> &P
        ensures { result.now ≡ self.now.port }
    {
        &self.port
    }

    /// Notes what the port stands on, and whether it gave something.
    fn note(&self, gave: bool) {
        self.descriptor.set(self.port.descriptor());
        if gave {
            self.took.set(true);
        }
    }
}

impl<'a, P: Link + Descriptor> Link for Watched<'a, P> {
    ghost waiting = { λ s. P.waiting s.port };

    ghost given = { λ s. P.given s.port };

    ghost asked = { λ s. P.asked s.port };

    ghost faults = { λ s. P.faults s.port };

    fn recv(&mut self, buf: &mut [u8; 2048]) -> Result<Option<Arrived>, Failed> {
        let got = self.port.recv(buf)?;
        self.note(got.is_some());
        Ok(got)
    }

    fn send(&mut self, peer: u32, bytes: &[u8]) -> Result<(), Failed> {
        self.port.send(peer, bytes)
    }
}

impl<'a, P: Ether + Descriptor> Ether for Watched<'a, P> {
    ghost waiting = { λ s. P.waiting s.port };

    ghost given = { λ s. P.given s.port };

    ghost asked = { λ s. P.asked s.port };

    ghost faults = { λ s. P.faults s.port };

    fn recv(&mut self, buf: &mut [u8; 2048]) -> Result<Option<usize>, Failed> {
        let got = self.port.recv(buf)?;
        self.note(got.is_some());
        Ok(got)
    }

    fn send(&mut self, frame: &[u8]) -> Result<(), Failed> {
        self.port.send(frame)
    }
}

impl<'a, P: Uplink + Descriptor> Uplink for Watched<'a, P> {
    ghost waiting = { λ s. P.waiting s.port };

    ghost given = { λ s. P.given s.port };

    ghost asked = { λ s. P.asked s.port };

    ghost faults = { λ s. P.faults s.port };

    fn recv(&mut self, buf: &mut [u8; 2048]) -> Result<Option<Lowered>, Failed> {
        let got = self.port.recv(buf)?;
        self.note(got.is_some());
        Ok(got)
    }

    fn send(&mut self, session: u16, frame: &[u8]) -> Result<(), Failed> {
        self.port.send(session, frame)
    }
}

/// A clock that rests before it gives a moment.
#[derive(Drop)]
pub struct RestingClock<'a, C: Clock> {
    clock: C,
    watch: &'a Watch,
    most: i32,
}

impl<'a, C: Clock> RestingClock<'a, C> {
    /// A clock that rests for so many milliseconds at most.
    pub fn new(clock: C, watch: &'a Watch, most: i32) -> RestingClock<'a, C>
        ensures { result.clock ≡ clock }
    {
        RestingClock { clock, watch, most }
    }
}

impl<'a, C: Clock> Clock for RestingClock<'a, C> {
    ghost gives = { λ s. C.gives s.clock };

    ghost last = { λ s. C.last s.clock };

    fn now(&mut self) -> u64 {
        self.watch.rest(self.most);
        self.clock.now()
    }
}
