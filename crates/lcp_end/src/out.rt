//! What an end gives to the layers around it.

ghost use Rattle.std.specs.Prelude.{◌≡◌, [], OnOk, OnErr};
ghost use Rattle.lcp_end.specs.Steps.{no_output, joined};

use lcp_wire::Packets;
use std::alloc::Global;
use wire_base::NoMemory;

/// What an end gives to the layers around it.
#[derive(Drop)]
pub struct LcpOut {
    /// The LCP packets that are to be sent, in order, each from its code on.
    pub packets: Packets,
    /// The link was opened.
    pub up: bool,
    /// The link is open no more.
    pub down: bool,
    /// The link is done with: it was closed, or the peer was given up.
    pub finished: bool,
}

impl LcpOut {
    /// Nothing. It takes no memory.
    pub fn new(alloc: Global) -> LcpOut
        ensures { result ≡ no_output }
    {
        LcpOut {
            packets: Packets::new(alloc),
            up: false,
            down: false,
            finished: false,
        }
    }

    /// Adds what a step gave, behind the rest. Where memory is wanting, both are as before.
    pub(crate) fn take_in(&mut self, given: &mut LcpOut) -> Result<(), NoMemory>
        ensures ok { OnOk result (self.new ≡ joined self.old given.old) }
        ensures emptied { OnOk result (given.new.packets ≡ []) }
        ensures err { OnErr result (self.new ≡ self.old) }
        ensures stays { OnErr result (given.new ≡ given.old) }
    {
        self.packets.append(&mut given.packets)?;
        self.up = self.up || given.up;
        self.down = self.down || given.down;
        self.finished = self.finished || given.finished;
        Ok(())
    }
}
