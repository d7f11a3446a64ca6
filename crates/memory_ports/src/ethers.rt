//! Ethernet ports in memory: one whose given calls fail, and one that never fails.

ghost use Rattle.std.specs.Prelude.{◌≡◌, ◌≤◌, ◌++◌, ◌∷◌, [], drop, slice_get, option_map, IfSome, OnOk, OnErr};
ghost use Rattle.port_traits.specs.Packets.{came, cut_frame};

use crate::counting::{Calls, once_more};
use crate::queue::Queue;
use port_traits::{Ether, Fails, Frames, copy_front};
use std::alloc::Global;
use std::marker::Model;
use wire_base::{Bytes, Failed, NoMemory};

/// Takes the first frame that waits.
#[tactic(auto, using(crate::proofs::Firsts::cut_first_frame))]
fn take_frame(waiting: &mut Queue<Bytes>, buf: &mut [u8; 2048]) -> Option<usize>
    ensures bound { IfSome result (λ len. len ≤ 2048) }
    ensures first { came result buf.new ≡ option_map cut_frame (slice_get waiting.old 0) }
    ensures left { waiting.new ≡ drop 1 waiting.old }
{
    let Some(first) = waiting.first() else {
        waiting.pass();
        return None;
    };
    let len = copy_front(buf, first.as_slice());
    waiting.pass();
    Some(len)
}

/// Appends a copy of a frame.
fn keep_frame(given: &mut Frames, alloc: Global, frame: &[u8]) -> Result<(), NoMemory>
    ensures ok { OnOk result (given.new ≡ given.old ++ frame.now ∷ []) }
    ensures err { OnErr result (given.new ≡ given.old) }
{
    given.push(Bytes::from_slice(alloc, frame)?)
}

/// Ethernet frames that wait, and those that were sent, whose given calls fail.
#[derive(Drop)]
pub struct MemoryEther {
    waiting: Queue<Bytes>,
    given: Frames,
    asked: Option<u64>,
    calls: Calls,
    alloc: Global,
}

impl Model for MemoryEther {
    ghost use Rattle.std.specs.Prelude.{List, ℕ};
    ghost use Rattle.memory_ports.specs.Ports.{Porting};

    ghost Value = { Porting (List ℕ) };

    ghost view = { λ s. record { waiting = s.waiting; given = s.given; asked = s.asked; fails = s.calls.fails; calls = s.calls.calls; faults = s.calls.faults } };
}

impl MemoryEther {
    ghost use Rattle.memory_ports.specs.Ports.{porting};

    /// These frames wait, and these calls fail.
    pub fn new(alloc: Global, waiting: Frames, fails: Fails) -> MemoryEther
        ensures { result ≡ porting waiting fails }
    {
        MemoryEther {
            waiting: Queue::new(waiting),
            given: Frames::new(alloc),
            asked: Some(0),
            calls: Calls::new(fails),
            alloc,
        }
    }

    /// What it was given.
    pub fn given(&self) -> &[Bytes]
        ensures { result.now ≡ self.now.given }
    {
        self.given.as_slice()
    }
}

impl Ether for MemoryEther {
    ghost use Rattle.std.specs.Prelude.{Some};

    ghost waiting = { λ s. Some s.waiting };

    ghost given = { λ s. Some s.given };

    ghost asked = { λ s. s.asked };

    ghost faults = { λ s. s.faults };

    fn recv(&mut self, buf: &mut [u8; 2048]) -> Result<Option<usize>, Failed> {
        self.asked = once_more(self.asked);
        self.calls.count()?;
        Ok(take_frame(&mut self.waiting, buf))
    }

    fn send(&mut self, frame: &[u8]) -> Result<(), Failed> {
        self.calls.count()?;
        match keep_frame(&mut self.given, self.alloc, frame) {
            Ok(()) => Ok(()),
            Err(_) => Err(self.calls.fail()),
        }
    }
}

/// Ethernet frames that wait, and those that were sent. It never fails, and tells what it was given as
/// long as there was memory for all of it.
#[derive(Drop)]
pub struct SteadyEther {
    waiting: Queue<Bytes>,
    given: Frames,
    asked: Option<u64>,
    tells: bool,
    alloc: Global,
}

impl Model for SteadyEther {
    ghost use Rattle.std.specs.Prelude.{List, ℕ};
    ghost use Rattle.memory_ports.specs.Ports.{Keeping, told};

    ghost Value = { Keeping (List ℕ) };

    ghost view = { λ s. record { waiting = s.waiting; given = told s.tells s.given; asked = s.asked } };
}

impl SteadyEther {
    ghost use Rattle.memory_ports.specs.Ports.{keeping};

    /// These frames wait.
    pub fn new(alloc: Global, waiting: Frames) -> SteadyEther
        ensures { result ≡ keeping waiting }
    {
        SteadyEther {
            waiting: Queue::new(waiting),
            given: Frames::new(alloc),
            asked: Some(0),
            tells: true,
            alloc,
        }
    }

    /// What it was given, if there was memory for all of it.
    pub fn given(&self) -> Option<&[Bytes]>
        ensures { option_map (λ given. given.now) result ≡ self.now.given }
    {
        if self.tells {
            Some(self.given.as_slice())
        } else {
            None
        }
    }
}

/// Its count of faults is the constant 0, so none of its calls answers `Failed`.
impl Ether for SteadyEther {
    ghost use Rattle.std.specs.Prelude.{Some};

    ghost waiting = { λ s. Some s.waiting };

    ghost given = { λ s. s.given };

    ghost asked = { λ s. s.asked };

    ghost faults = { λ _. 0 };

    fn recv(&mut self, buf: &mut [u8; 2048]) -> Result<Option<usize>, Failed> {
        self.asked = once_more(self.asked);
        Ok(take_frame(&mut self.waiting, buf))
    }

    fn send(&mut self, frame: &[u8]) -> Result<(), Failed> {
        self.tells = self.tells && keep_frame(&mut self.given, self.alloc, frame).is_ok();
        Ok(())
    }
}
