//! Links in memory: one whose given calls fail, and one that never fails.

ghost use Rattle.std.specs.Prelude.{◌≡◌, ◌≤◌, ◌++◌, ◌∷◌, [], drop, slice_get, option_map, IfSome, OnOk, OnErr};
ghost use Rattle.port_traits.specs.Packets.{arrived, cut_datagram};

use crate::counting::{Calls, once_more};
use crate::queue::Queue;
use port_traits::{Arrived, Datagram, Datagrams, Fails, Link, copy_front};
use std::alloc::Global;
use std::marker::Model;
use wire_base::{Bytes, Failed, NoMemory};

/// Takes the first datagram that waits.
#[tactic(auto, using(crate::proofs::Firsts::cut_first))]
fn take_datagram(waiting: &mut Queue<Datagram>, buf: &mut [u8; 2048]) -> Option<Arrived>
    ensures bound { IfSome result (λ a. a.len ≤ 2048) }
    ensures first { arrived result buf.new ≡ option_map cut_datagram (slice_get waiting.old 0) }
    ensures left { waiting.new ≡ drop 1 waiting.old }
{
    let Some(first) = waiting.first() else {
        waiting.pass();
        return None;
    };
    let peer = first.peer;
    let len = copy_front(buf, first.bytes.as_slice());
    waiting.pass();
    Some(Arrived { peer, len })
}

/// Appends a copy of a datagram.
fn keep_datagram(
    given: &mut Datagrams,
    alloc: Global,
    peer: u32,
    bytes: &[u8],
) -> Result<(), NoMemory>
    ensures ok { OnOk result (given.new ≡ given.old ++ (record { peer = peer; bytes = bytes.now }) ∷ []) }
    ensures err { OnErr result (given.new ≡ given.old) }
{
    let bytes = Bytes::from_slice(alloc, bytes)?;
    given.push(Datagram { peer, bytes })
}

/// Datagrams that wait, and those that were sent, whose given calls fail.
#[derive(Drop)]
pub struct MemoryLink {
    waiting: Queue<Datagram>,
    given: Datagrams,
    asked: Option<u64>,
    calls: Calls,
    alloc: Global,
}

impl Model for MemoryLink {
    ghost use Rattle.port_traits.specs.declared.packets.Datagram.{Datagram};
    ghost use Rattle.memory_ports.specs.Ports.{Porting};

    ghost Value = { Porting Datagram };

    ghost view = { λ s. record { waiting = s.waiting; given = s.given; asked = s.asked; fails = s.calls.fails; calls = s.calls.calls; faults = s.calls.faults } };
}

impl MemoryLink {
    ghost use Rattle.memory_ports.specs.Ports.{porting};

    /// These datagrams wait, and these calls fail.
    pub fn new(alloc: Global, waiting: Datagrams, fails: Fails) -> MemoryLink
        ensures { result ≡ porting waiting fails }
    {
        MemoryLink {
            waiting: Queue::new(waiting),
            given: Datagrams::new(alloc),
            asked: Some(0),
            calls: Calls::new(fails),
            alloc,
        }
    }

    /// What it was given.
    pub fn given(&self) -> &[Datagram]
        ensures { result.now ≡ self.now.given }
    {
        self.given.as_slice()
    }
}

impl Link for MemoryLink {
    ghost use Rattle.std.specs.Prelude.{Some};

    ghost waiting = { λ s. Some s.waiting };

    ghost given = { λ s. Some s.given };

    ghost asked = { λ s. s.asked };

    ghost faults = { λ s. s.faults };

    fn recv(&mut self, buf: &mut [u8; 2048]) -> Result<Option<Arrived>, Failed> {
        self.asked = once_more(self.asked);
        self.calls.count()?;
        Ok(take_datagram(&mut self.waiting, buf))
    }

    fn send(&mut self, peer: u32, bytes: &[u8]) -> Result<(), Failed> {
        self.calls.count()?;
        match keep_datagram(&mut self.given, self.alloc, peer, bytes) {
            Ok(()) => Ok(()),
            Err(_) => Err(self.calls.fail()),
        }
    }
}

/// Datagrams that wait, and those that were sent. It never fails, and tells what it was given as
/// long as there was memory for all of it.
#[derive(Drop)]
pub struct SteadyLink {
    waiting: Queue<Datagram>,
    given: Datagrams,
    asked: Option<u64>,
    tells: bool,
    alloc: Global,
}

impl Model for SteadyLink {
    ghost use Rattle.port_traits.specs.declared.packets.Datagram.{Datagram};
    ghost use Rattle.memory_ports.specs.Ports.{Keeping, told};

    ghost Value = { Keeping Datagram };

    ghost view = { λ s. record { waiting = s.waiting; given = told s.tells s.given; asked = s.asked } };
}

impl SteadyLink {
    ghost use Rattle.memory_ports.specs.Ports.{keeping};

    /// These datagrams wait.
    pub fn new(alloc: Global, waiting: Datagrams) -> SteadyLink
        ensures { result ≡ keeping waiting }
    {
        SteadyLink {
            waiting: Queue::new(waiting),
            given: Datagrams::new(alloc),
            asked: Some(0),
            tells: true,
            alloc,
        }
    }

    /// What it was given, if there was memory for all of it.
    pub fn given(&self) -> Option<&[Datagram]>
        ensures { option_map (λ given. given.now) result ≡ self.now.given }
    {
        if self.tells {
            Some(self.given.as_slice())
        } else {
            None
        }
    }
}

/// Its count of faults is the constant 0, so none of its calls answers `Failed`.
impl Link for SteadyLink {
    ghost use Rattle.std.specs.Prelude.{Some};

    ghost waiting = { λ s. Some s.waiting };

    ghost given = { λ s. s.given };

    ghost asked = { λ s. s.asked };

    ghost faults = { λ _. 0 };

    fn recv(&mut self, buf: &mut [u8; 2048]) -> Result<Option<Arrived>, Failed> {
        self.asked = once_more(self.asked);
        Ok(take_datagram(&mut self.waiting, buf))
    }

    fn send(&mut self, peer: u32, bytes: &[u8]) -> Result<(), Failed> {
        self.tells = self.tells && keep_datagram(&mut self.given, self.alloc, peer, bytes).is_ok();
        Ok(())
    }
}
