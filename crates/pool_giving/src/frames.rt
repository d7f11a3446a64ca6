//! The frame to a subscriber.

ghost use Rattle.std.specs.Prelude.{◌≡◌, ◌≤◌, ◌++◌, [], length, OnOk, Some};
ghost use Rattle.pppoe_wire.specs.Spelling.{head_bytes};
ghost use Rattle.node_run.specs.Outs.{session_frame};
ghost use Rattle.pool_giving.specs.Hosts.{session_head};

use end_names::mac_of;
use std::alloc::Global;
use std::marker::Model;
use wire_base::NoMemory;

/// The bytes of one Ethernet frame, whose room is kept for the next one.
#[derive(Drop)]
pub struct FrameRoom {
    cells: Vec<u8>,
}

impl Model for FrameRoom {
    ghost use Rattle.std.specs.Prelude.{ℕ, List};

    ghost Value = { List ℕ };

    ghost view = { λ r. r.cells.items };
}

impl FrameRoom {
    /// No frame yet. It takes no memory.
    pub fn new(alloc: Global) -> FrameRoom
        ensures { result ≡ [] }
    {
        FrameRoom {
            cells: Vec::new(alloc),
        }
    }

    /// The frame.
    pub fn as_slice(&self) -> &[u8]
        ensures { result.now ≡ self.now }
    {
        self.cells.as_slice()
    }

    /// Writes the head of a session frame with a payload of so many bytes, in the place of what was there.
    #[tactic(auto, unfolding(pppoe_wire::specs::Spelling::head_bytes, wire_base::specs::Numbers::u16_bytes))]
    fn write_head(
        &mut self,
        node: u8,
        host: &[u8; 6],
        session: u16,
        said: u16,
    ) -> Result<(), NoMemory>
        ensures { OnOk result (self.new ≡ head_bytes (session_head node host.now session said)) }
    {
        self.cells.clear();
        self.cells.extend_from_slice(host)?;
        self.cells.extend_from_slice(&mac_of(node))?;
        self.cells.extend_from_slice(&[0x88, 0x64])?;
        self.cells.extend_from_slice(&[0x11, 0x00])?;
        self.cells.extend_from_slice(&session.to_be_bytes())?;
        self.cells.extend_from_slice(&said.to_be_bytes())?;
        Ok(())
    }

    /// Writes the PPPoE session frame (RFC 2516 section 6) of a PPP frame, from its protocol field on, to a host, in the place of what was
    /// there. Condition: the frame has at most the 65,535 bytes that LENGTH counts.
    pub fn write(
        &mut self,
        node: u8,
        host: &[u8; 6],
        session: u16,
        frame: &[u8],
    ) -> Result<(), NoMemory>
        requires { length frame.now ≤ 65535 }
        ensures { OnOk result (session_frame node session frame.now host.now ≡ Some self.new) }
    {
        self.write_head(node, host, session, frame.len() as u16)?;
        self.cells.extend_from_slice(frame)?;
        Ok(())
    }
}
