//! Data packets that are carried in two steps: a load looks at what is known of a packet's session and holds its frame, and a hand-up gives it.

ghost use Rattle.std.specs.Prelude.{◌≡◌, ◌++◌, ◌+◌, false, OnOk, IfOk, IsSome, is_some, IsOk, slice_get, Ok, Err, None, Some, ℕ};
ghost use Rattle.id_table.specs.Ids.{at, put};
ghost use Rattle.l2tp_header.specs.Reading.{header_of};
ghost use Rattle.end_names.specs.Names.{address_of};
ghost use Rattle.world_model.specs.Texts.{entry_text};
ghost use Rattle.world_model.specs.World.{birth_of, declared, block_of, held_at, held_line, loads_by, loads, taken_up, hand_entry, hands};
ghost use Rattle.schedule_replay.specs.Counting.{ups_with};
ghost use Rattle.schedule_replay.specs.Fault.{LeadsTo, Says};
ghost use Rattle.schedule_replay.specs.Serving.{ShowsBehind, loaded_line, heard_at, passes};

use crate::fault::LineFault;
use crate::held::{HeldFrames, Loaded};
use crate::kinds::Moved;
use crate::node::{Node, Unmade};
use crate::state::{State, block_of};
use end_model::{Event, address_of};
use l2tp_header::read_header;
use report_text::{push_drop, push_held, push_up};
use session_looks::{carry_look, frame_of, header_why};
use wire_base::{Bytes, NoMemory, Side, Why};
use world_model::{Held, Packet};

impl State {
    /// Puts a frame under a number among those that a node holds.
    fn keep(&mut self, node: u8, number: u32, frame: Held) -> Result<(), NoMemory>
        ensures world { OnOk result (self.new.world ≡ record self.old.world { held = put self.old.world.held node (put (held_at self.old.world node) number frame) }) }
        ensures report { self.new.report ≡ self.old.report }
        ensures ups { self.new.ups ≡ self.old.ups }
    {
        let node = u32::from(node);
        if let Some(frames) = self.held.get_mut(node) {
            return frames.insert(number, frame);
        }
        let mut frames = HeldFrames::new(self.alloc);
        frames.insert(number, frame)?;
        self.held.insert(node, frames)
    }

    /// One more frame is held at a node, in a line.
    #[tactic(auto, unfolding(world_model::specs::World::held_line))]
    fn hold(&mut self, line: u64, node: u8, frame: Held) -> Result<(), NoMemory>
        ensures { OnOk result (LeadsTo (held_line self.old.world line node frame) self.old self.new) }
    {
        self.loads = self.loads.saturating_add(1);
        let number = self.loads;
        self.keep(node, number, frame)?;
        push_held(&mut self.report, line, node, number)
    }

    /// What comes of a load of a packet at the node that it is for, by what is seen of its session there.
    #[tactic(auto, unfolding(world_model::specs::World::loads_by, world_model::specs::World::held_or_dropped, world_model::specs::World::birth_of))]
    fn judge(&self, node: u8, addressee: &Node, packet: &Packet) -> Result<Loaded, NoMemory>
        requires { at self.now.world.nodes node ≡ Some addressee.now }
        ensures { IfOk result (λ l. (line : ℕ) → loads_by self.now.world line node addressee.now.end (address_of packet.now.from) packet.now.bytes (header_of packet.now.bytes) ≡ loaded_line self.now.world line node l) }
    {
        let bytes = packet.bytes.as_slice();
        let header = match read_header(bytes) {
            Err(error) => {
                return Ok(Loaded::Dropped {
                    why: header_why(error),
                });
            }
            Ok(header) if header.control => return Ok(Loaded::Control),
            Ok(header) => header,
        };
        let end = addressee.end.end();
        let session = header.session;
        let frame = frame_of(&bytes[header.start..header.end]);
        let look = end.look(session);
        match carry_look(end.role(), look, address_of(packet.from), &header, frame) {
            Err(why) => Ok(Loaded::Dropped { why }),
            Ok(way) => {
                let frame = Held {
                    session,
                    birth: self.birth_of(node, session),
                    tunnel: way.tunnel,
                    peer: way.peer,
                    side: way.side,
                    frame: Bytes::from_slice(self.alloc, frame)?,
                };
                Ok(Loaded::Passes { frame })
            }
        }
    }

    /// A data packet by its place, counted from 0, is loaded at a node, in a line.
    #[tactic(auto, unfolding(world_model::specs::World::loads, world_model::specs::World::loads_it))]
    pub(crate) fn load(&mut self, line: u64, node: u8, place: usize) -> Result<(), LineFault>
        ensures { Says result (loads self.old.world line node (slice_get self.old.world.packets place) (declared (at self.old.world.nodes node))) self.old self.new }
    {
        let at = match self.running(node) {
            Ok(at) => at,
            Err(why) => return Err(LineFault::unfit(why)),
        };
        let Some(packet) = self.packets.lend(place) else {
            return Err(LineFault::unfit(Why::Packet));
        };
        if packet.to != node {
            return Err(LineFault::unfit(Why::Packet));
        }
        match self.judge(node, at, packet)? {
            Loaded::Passes { frame } => {
                self.hold(line, node, frame)?;
                Ok(())
            }
            Loaded::Dropped { why } => {
                push_drop(&mut self.report, line, node, why)?;
                Ok(())
            }
            Loaded::Control => Err(LineFault::unfit(Why::Packet)),
        }
    }

    /// Whether a node holds a frame with this number.
    fn holds(&self, node: u8, number: u32) -> bool
        ensures { result ≡ is_some (at (held_at self.now.world node) number) }
    {
        match self.held.get(u32::from(node)) {
            Some(frames) => frames.contains(number),
            None => false,
        }
    }

    /// Takes out a frame that a node holds.
    fn take_held(&mut self, node: u8, number: u32) -> Held
        requires { IsSome (at (held_at self.old.world node) number) }
        ensures frame { at (held_at self.old.world node) number ≡ Some result }
        ensures taken { self.new ≡ record self.old { world = taken_up self.old.world node number } }
    {
        let Some(frames) = self.held.get_mut(u32::from(node)) else {
            unreachable!()
        };
        let Some(frame) = frames.remove(number) else {
            unreachable!()
        };
        frame
    }

    /// A frame that a node held is handed up, in a line.
    fn hand_up(&mut self, line: u64, node: u8, frame: &Held) -> Result<(), NoMemory>
        ensures { OnOk result (self.new ≡ record self.old { report = self.old.report ++ entry_text (hand_entry line node frame.now); ups = ups_with self.old.ups (hand_entry line node frame.now) }) }
    {
        self.ups = self.ups.saturating_add(1);
        push_up(
            &mut self.report,
            line,
            node,
            frame.session,
            frame.birth,
            frame.side,
            frame.frame.as_slice(),
        )
    }

    /// What came of a node's step on a frame that it held, in a line, behind the frame itself where the step was made.
    fn show_behind(
        &mut self,
        line: u64,
        node: u8,
        frame: &Held,
        made: Result<Moved, Unmade>,
    ) -> Result<(), LineFault>
        ensures { ShowsBehind result made line node frame.now self.old self.new }
    {
        if made.is_ok() {
            self.hand_up(line, node, frame)?;
        }
        self.show_made(line, node, made)
    }

    /// A node hears a frame of LCP that it held, in a line, at the moment of its clock.
    #[tactic(auto, using(crate::proofs::Handing::heard_says), unfolding(crate::specs::Serving::heard_at))]
    fn hear(&mut self, line: u64, node: u8, frame: &Held) -> Result<(), LineFault>
        requires { IsSome (at self.old.world.nodes node) }
        ensures { Says result (heard_at self.old.world line node frame.now (at self.old.world.nodes node)) self.old self.new }
    {
        let packet = Bytes::from_slice(self.alloc, frame.frame.as_slice())?;
        let event = Event::Lcp {
            session: frame.session,
            packet,
        };
        let Some(at) = self.nodes.get_mut(u32::from(node)) else {
            unreachable!()
        };
        let made = at.step(block_of(node, line), &event);
        self.show_behind(line, node, frame, made)
    }

    /// A frame that a node held goes up, in a line: one of LCP is heard by the call's LCP end.
    fn pass(&mut self, line: u64, node: u8, frame: &Held) -> Result<(), LineFault>
        requires { IsOk (declared (at self.old.world.nodes node)) }
        ensures { Says result (passes self.old.world line node frame.now (at self.old.world.nodes node)) self.old self.new }
    {
        match frame.side {
            Side::Sub | Side::Net => {
                self.hand_up(line, node, frame)?;
                Ok(())
            }
            Side::Lcp => self.hear(line, node, frame),
        }
    }

    /// A frame that a node holds is handed up, in a line.
    #[tactic(auto, using(crate::proofs::Handing::hand_says))]
    pub(crate) fn hand(&mut self, line: u64, node: u8, number: u32) -> Result<(), LineFault>
        ensures { Says result (hands self.old.world line node number (declared (at self.old.world.nodes node))) self.old self.new }
    {
        if let Err(why) = self.running(node) {
            return Err(LineFault::unfit(why));
        }
        if !self.holds(node, number) {
            return Err(LineFault::unfit(Why::Hand));
        }
        let frame = self.take_held(node, number);
        self.pass(line, node, &frame)
    }
}
