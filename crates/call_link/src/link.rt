//! The link of a call.

ghost use Rattle.std.specs.Prelude.{◌≡◌, IfOk};
ghost use Rattle.call_link.specs.Link.{magic_of, new_link, is_due, due_of, in_64_bits};
ghost use Rattle.call_link.specs.Turns.{Opens, Ticks, Hears, link_after, is_first_open, end_by, turned, still, linked};

use crate::env::LinkEnv;
use crate::frames::{Frames, frames_of, is_for_link};
use crate::lcp::{LcpStep, hear_lcp, open_lcp, tick_lcp};
use crate::turn::LinkTurn;
use byteorder::{BigEndian, ByteOrder};
use lcp_end::{LcpEnd, LcpOut};
use std::alloc::Global;
use std::marker::Model;
use wire_base::{Cause, NoMemory};

/// The PPP link of an LNS's call (RFC 1661). A call of it changes nothing: the link after it is in the turn that it gives.
#[derive(Clone, Copy)]
pub struct Link {
    lcp: LcpEnd,
    /// Whether frames of the network pass: LCP was open in the call before.
    network: bool,
    /// Whether it told that the call is to end.
    over: bool,
}

impl Model for Link {
    ghost use Rattle.call_link.specs.Link.{Link as Known};

    ghost Value = { Known };

    ghost view = { λ l. record { lcp = l.lcp; network = l.network; over = l.over } };

    ghost inverse = { λ k. record { lcp = k.lcp; network = k.network; over = k.over } };
}

impl Link {
    /// The link of a call that was just connected, before it is opened. LCP asks for a magic number of the step's block.
    pub fn new(env: &LinkEnv) -> Link
        ensures { result ≡ new_link env.now }
    {
        Link {
            lcp: LcpEnd::new(magic_of(&env.block)),
            network: false,
            over: false,
        }
    }

    /// Whether frames of the network pass.
    pub fn is_open(&self) -> bool
        ensures { result ≡ self.now.network }
    {
        self.network
    }

    /// Whether its timer ran out, so that a tick does something.
    pub fn is_due(&self, moment: u64) -> bool
        ensures { result ≡ is_due moment self.now }
    {
        !self.over && self.lcp.is_due(moment)
    }

    /// The moment from which on its timer has run out, in milliseconds; None where nothing is waited for. The last moment of 64 bits
    /// stands for all behind it.
    pub fn due(&self) -> Option<u64>
        ensures { result ≡ in_64_bits (due_of self.now) }
    {
        if self.over {
            return None;
        }
        self.lcp.due()
    }

    /// The link as a step of its LCP end leaves it.
    fn after(&self, step: &LcpStep) -> Link
        ensures { result ≡ link_after self.now step.now }
    {
        Link {
            lcp: step.lcp,
            network: self.network || step.out.up,
            over: step.out.finished,
        }
    }

    /// Whether LCP is open for the first time in the call.
    fn is_first_open(&self, out: &LcpOut) -> bool
        ensures { result ≡ is_first_open self.now out.now }
    {
        out.up && !self.network
    }

    /// What comes of a step of its LCP end.
    fn turn(&self, alloc: Global, step: &LcpStep) -> Result<LinkTurn, NoMemory>
        ensures { IfOk result (λ t. t ≡ turned self.now step.now) }
    {
        Ok(LinkTurn {
            link: self.after(step),
            frames: frames_of(alloc, step.out.packets.as_slice())?,
            opens: self.is_first_open(&step.out),
            ends: end_by(step.out.finished),
            up: step.out.up,
            down: step.out.down,
        })
    }

    /// Nothing comes of a call. It takes no memory.
    fn still(&self, alloc: Global) -> LinkTurn
        ensures { result ≡ still self.now }
    {
        LinkTurn {
            link: *self,
            frames: Frames::new(alloc),
            opens: false,
            ends: None,
            up: false,
            down: false,
        }
    }

    /// The call was connected: the link is to be opened.
    #[tactic(auto, unfolding(crate::specs::Turns::linked))]
    pub fn open(&self, alloc: Global, env: &LinkEnv) -> Result<LinkTurn, NoMemory>
        ensures { IfOk result (λ t. t ≡ linked env.now Opens self.now) }
    {
        if self.over {
            return Ok(self.still(alloc));
        }
        let step = open_lcp(alloc, env, self.lcp)?;
        self.turn(alloc, &step)
    }

    /// Time passes. Before the timer runs out nothing comes of it.
    #[tactic(auto, unfolding(crate::specs::Turns::linked))]
    pub fn tick(&self, alloc: Global, env: &LinkEnv) -> Result<LinkTurn, NoMemory>
        ensures { IfOk result (λ t. t ≡ linked env.now Ticks self.now) }
    {
        if self.over {
            return Ok(self.still(alloc));
        }
        let step = tick_lcp(alloc, env, self.lcp)?;
        self.turn(alloc, &step)
    }

    /// A PPP frame came up the call, from its protocol field on. One that isn't for the link is ignored.
    #[tactic(auto, unfolding(crate::specs::Turns::linked))]
    pub fn hear(&self, alloc: Global, env: &LinkEnv, frame: &[u8]) -> Result<LinkTurn, NoMemory>
        ensures { IfOk result (λ t. t ≡ linked env.now (Hears frame.now) self.now) }
    {
        if self.over || !is_for_link(frame) {
            return Ok(self.still(alloc));
        }
        let step = hear_lcp(alloc, env, frame, self.lcp)?;
        self.turn(alloc, &step)
    }
}

/// The magic number that the LCP end of a new link asks for.
fn magic_of(block: &[u8; 16]) -> u32
    ensures { result ≡ magic_of block.now }
{
    BigEndian::read_u32(&block[12..])
}

/// Why the call is to end, where LCP is finished or isn't.
fn end_by(finished: bool) -> Option<Cause>
    ensures { result ≡ end_by finished }
{
    if finished { Some(Cause::Lcp) } else { None }
}
