//! Uplinks in memory: one whose given calls fail, and one that never fails.

ghost use Rattle.std.specs.Prelude.{◌≡◌, ◌≤◌, ◌++◌, ◌∷◌, [], drop, slice_get, option_map, IfSome, OnOk, OnErr};
ghost use Rattle.port_traits.specs.Packets.{lowered, cut_lower};

use crate::counting::{Calls, once_more};
use crate::queue::Queue;
use port_traits::{Fails, LowerFrame, LowerFrames, Lowered, Uplink, copy_front};
use std::alloc::Global;
use std::marker::Model;
use wire_base::{Bytes, Failed, NoMemory};

/// Takes the first network frame that waits.
#[tactic(auto, using(crate::proofs::Firsts::cut_first_lower))]
fn take_lower(waiting: &mut Queue<LowerFrame>, buf: &mut [u8; 2048]) -> Option<Lowered>
    ensures bound { IfSome result (λ l. l.len ≤ 2048) }
    ensures first { lowered result buf.new ≡ option_map cut_lower (slice_get waiting.old 0) }
    ensures left { waiting.new ≡ drop 1 waiting.old }
{
    let Some(first) = waiting.first() else {
        waiting.pass();
        return None;
    };
    let session = first.session;
    let len = copy_front(buf, first.frame.as_slice());
    waiting.pass();
    Some(Lowered { session, len })
}

/// Appends a copy of a network frame.
fn keep_lower(
    given: &mut LowerFrames,
    alloc: Global,
    session: u16,
    frame: &[u8],
) -> Result<(), NoMemory>
    ensures ok { OnOk result (given.new ≡ given.old ++ (record { session = session; frame = frame.now }) ∷ []) }
    ensures err { OnErr result (given.new ≡ given.old) }
{
    let frame = Bytes::from_slice(alloc, frame)?;
    given.push(LowerFrame { session, frame })
}

/// Network frames that wait, and those that were sent, whose given calls fail.
#[derive(Drop)]
pub struct MemoryUplink {
    waiting: Queue<LowerFrame>,
    given: LowerFrames,
    asked: Option<u64>,
    calls: Calls,
    alloc: Global,
}

impl Model for MemoryUplink {
    ghost use Rattle.port_traits.specs.declared.packets.LowerFrame.{LowerFrame};
    ghost use Rattle.memory_ports.specs.Ports.{Porting};

    ghost Value = { Porting LowerFrame };

    ghost view = { λ s. record { waiting = s.waiting; given = s.given; asked = s.asked; fails = s.calls.fails; calls = s.calls.calls; faults = s.calls.faults } };
}

impl MemoryUplink {
    ghost use Rattle.memory_ports.specs.Ports.{porting};

    /// These frames wait, and these calls fail.
    pub fn new(alloc: Global, waiting: LowerFrames, fails: Fails) -> MemoryUplink
        ensures { result ≡ porting waiting fails }
    {
        MemoryUplink {
            waiting: Queue::new(waiting),
            given: LowerFrames::new(alloc),
            asked: Some(0),
            calls: Calls::new(fails),
            alloc,
        }
    }

    /// What it was given.
    pub fn given(&self) -> &[LowerFrame]
        ensures { result.now ≡ self.now.given }
    {
        self.given.as_slice()
    }
}

impl Uplink for MemoryUplink {
    ghost use Rattle.std.specs.Prelude.{Some};

    ghost waiting = { λ s. Some s.waiting };

    ghost given = { λ s. Some s.given };

    ghost asked = { λ s. s.asked };

    ghost faults = { λ s. s.faults };

    fn recv(&mut self, buf: &mut [u8; 2048]) -> Result<Option<Lowered>, Failed> {
        self.asked = once_more(self.asked);
        self.calls.count()?;
        Ok(take_lower(&mut self.waiting, buf))
    }

    fn send(&mut self, session: u16, frame: &[u8]) -> Result<(), Failed> {
        self.calls.count()?;
        match keep_lower(&mut self.given, self.alloc, session, frame) {
            Ok(()) => Ok(()),
            Err(_) => Err(self.calls.fail()),
        }
    }
}

/// Network frames that wait, and those that were sent. It never fails, and tells what it was given as
/// long as there was memory for all of it.
#[derive(Drop)]
pub struct SteadyUplink {
    waiting: Queue<LowerFrame>,
    given: LowerFrames,
    asked: Option<u64>,
    tells: bool,
    alloc: Global,
}

impl Model for SteadyUplink {
    ghost use Rattle.port_traits.specs.declared.packets.LowerFrame.{LowerFrame};
    ghost use Rattle.memory_ports.specs.Ports.{Keeping, told};

    ghost Value = { Keeping LowerFrame };

    ghost view = { λ s. record { waiting = s.waiting; given = told s.tells s.given; asked = s.asked } };
}

impl SteadyUplink {
    ghost use Rattle.memory_ports.specs.Ports.{keeping};

    /// These frames wait.
    pub fn new(alloc: Global, waiting: LowerFrames) -> SteadyUplink
        ensures { result ≡ keeping waiting }
    {
        SteadyUplink {
            waiting: Queue::new(waiting),
            given: LowerFrames::new(alloc),
            asked: Some(0),
            tells: true,
            alloc,
        }
    }

    /// What it was given, if there was memory for all of it.
    pub fn given(&self) -> Option<&[LowerFrame]>
        ensures { option_map (λ given. given.now) result ≡ self.now.given }
    {
        if self.tells {
            Some(self.given.as_slice())
        } else {
            None
        }
    }
}

/// Its count of faults is the constant 0, so none of its calls answers `Failed`.
impl Uplink for SteadyUplink {
    ghost use Rattle.std.specs.Prelude.{Some};

    ghost waiting = { λ s. Some s.waiting };

    ghost given = { λ s. s.given };

    ghost asked = { λ s. s.asked };

    ghost faults = { λ _. 0 };

    fn recv(&mut self, buf: &mut [u8; 2048]) -> Result<Option<Lowered>, Failed> {
        self.asked = once_more(self.asked);
        Ok(take_lower(&mut self.waiting, buf))
    }

    fn send(&mut self, session: u16, frame: &[u8]) -> Result<(), Failed> {
        self.tells = self.tells && keep_lower(&mut self.given, self.alloc, session, frame).is_ok();
        Ok(())
    }
}
