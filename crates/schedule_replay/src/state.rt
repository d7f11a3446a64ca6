//! The world's state, and what a line does to it.

ghost use Rattle.std.specs.Prelude.{◌≡◌, ◌==◌, ◌++◌, ◌+◌, length, false, ℕ, count_by, OnOk, IfOk, IfSome, MatchResult, IsSome, is_some, IsOk, slice_get, Ok, Err, None, Some, Option};
ghost use Rattle.id_table.specs.Ids.{at};
ghost use Rattle.end_names.specs.Names.{address_of, node_of};
ghost use Rattle.world_model.specs.Texts.{send_text, entry_text, entries_text};
ghost use Rattle.world_model.specs.World.{World, standing_of, epoch_sent, too_old, sent, birth_of, with_birth, is_born, moved, moved_all, shown, shown_all, entry_of, entries_of, declared, lac_at, lns_at, down_at, with_call, later, added, block_of, stepped, arrival, refused_by, delivers, farewell_in, framed, loads, crashed, armed, started, line as line_of};
ghost use Rattle.world_model.specs.Run.{tables};
ghost use Rattle.schedule_replay.specs.Counting.{ups_with, ups_after, agreements_of};
ghost use Rattle.schedule_replay.specs.Fault.{new_told, Says};
ghost use Rattle.schedule_replay.specs.Serving.{served_at, reply_entries, frames_unfit, start_unfit, IsPlain, ShowsMade, OpensAt};
ghost use Rattle.schedule_replay.specs.Kinds.{of_role, fitting};

use crate::fault::LineFault;
use crate::held::HeldFrames;
use crate::kinds::Moved;
use crate::node::{Node, Unmade, config_of, copy_secret, count_at};
use crate::tables::{push_agreement_table, push_end_table};
use byteorder::{BigEndian, ByteOrder};
use end_model::{Control, ControlOrigin, Event, Move, Origin, Out, Role, address_of, node_of};
use id_table::Table;
use l2tp_datagram::Datagram;
use lac_core::Outputs;
use report_text::{
    is_past, push_cause, push_drop, push_farewell, push_frame, push_gone, push_send, push_stopped,
    push_up,
};
use schedule_text::Line;
use std::alloc::Global;
use std::marker::Model;
use wire_base::{Bytes, NoMemory, Sequence, Why};
use world_model::{Packet, Refusal, StopAt};

/// The world's state.
#[derive(Drop)]
pub(crate) struct State {
    pub(crate) alloc: Global,
    pub(crate) nodes: Table<Node>,
    pub(crate) packets: Sequence<Packet>,
    born: u64,
    /// The frames that are held, by node.
    pub(crate) held: Table<HeldFrames>,
    /// How many frames were held so far.
    pub(crate) loads: u32,
    /// How many frames were handed up.
    pub(crate) ups: u64,
    pub(crate) report: Bytes,
}

impl Model for State {
    ghost use Rattle.schedule_replay.specs.Fault.{Told};

    ghost Value = { Told };

    ghost view = { λ w. record { world = record { nodes = w.nodes.entries; packets = w.packets; born = w.born; held = w.held.entries; loads = w.loads }; report = w.report; ups = w.ups } };
}

impl State {
    pub(crate) fn new(alloc: Global) -> State
        ensures { result ≡ new_told }
    {
        State {
            alloc,
            nodes: Table::new(alloc),
            packets: Sequence::new(alloc),
            born: 0,
            held: Table::new(alloc),
            loads: 0,
            ups: 0,
            report: Bytes::new(alloc),
        }
    }

    /// The report so far.
    pub(crate) fn report(&self) -> &[u8]
        ensures { result.now ≡ self.now.report }
    {
        self.report.as_slice()
    }

    /// How many packets were sent so far.
    pub(crate) fn packets(&self) -> u64
        ensures { result ≡ length self.now.world.packets }
    {
        self.packets.len() as u64
    }

    /// How many calls were born so far.
    pub(crate) fn births(&self) -> u64
        ensures { result ≡ self.now.world.born }
    {
        self.born
    }

    /// How many frames were handed up so far.
    pub(crate) fn ups(&self) -> u64
        ensures { result ≡ self.now.ups }
    {
        self.ups
    }

    /// How many `agree` lines the table at the end would have.
    #[tactic(auto, unfolding(crate::specs::Counting::agreements_of))]
    pub(crate) fn agreements(&self) -> Result<u64, NoMemory>
        ensures { IfOk result (λ count. count ≡ agreements_of self.now.world) }
    {
        let mut table = Bytes::new(self.alloc);
        push_agreement_table(self.alloc, &mut table, &self.nodes)?;
        Ok(count_lines(table.as_slice()))
    }

    /// The report so far, for good.
    pub(crate) fn into_report(self) -> Bytes
        ensures { result ≡ self.report }
    {
        self.report
    }

    /// A datagram that a node sends, in a line.
    #[tactic(auto, unfolding(world_model::specs::World::sent))]
    fn send(
        &mut self,
        line: u64,
        from: u8,
        to: u8,
        bytes: Bytes,
        origin: Origin,
    ) -> Result<(), NoMemory>
        ensures world { OnOk result (self.new.world ≡ sent self.old.world from to bytes origin) }
        ensures report { OnOk result (self.new.report ≡ self.old.report ++ send_text line (length self.old.world.packets + 1) from to bytes) }
        ensures ups { self.new.ups ≡ self.old.ups }
    {
        let number = self.packets.as_slice().len() as u64 + 1;
        let epoch = self.epoch_sent(from, &origin);
        push_send(&mut self.report, line, number, from, to, bytes.as_slice())?;
        self.packets.push(Packet {
            from,
            to,
            bytes,
            origin,
            epoch,
        })
    }

    /// The PADT to the host of a node's call that ended, where a host had it.
    fn farewell(&self, node: u8, session: u32) -> Option<[u8; 20]>
        ensures { result ≡ farewell_in session (at self.now.world.nodes node) }
    {
        let node = self.nodes.get(u32::from(node))?;
        node.end.farewell(session)
    }

    /// An output of a node's step, in a line.
    #[tactic(auto, unfolding(world_model::specs::World::shown, world_model::specs::World::entry_of))]
    fn show(&mut self, line: u64, node: u8, out: Out) -> Result<(), NoMemory>
        ensures world { OnOk result (self.new.world ≡ shown node self.old.world out) }
        ensures report { OnOk result (self.new.report ≡ self.old.report ++ entry_text (entry_of line node self.old.world out)) }
        ensures ups { OnOk result (self.new.ups ≡ ups_with self.old.ups (entry_of line node self.old.world out)) }
    {
        match out {
            Out::Send {
                peer,
                bytes,
                origin,
            } => self.send(line, node, node_of(peer), bytes, origin),
            Out::Up {
                session,
                side,
                frame,
            } => {
                self.ups = self.ups.saturating_add(1);
                let birth = self.birth_of(node, session);
                push_up(
                    &mut self.report,
                    line,
                    node,
                    session,
                    birth,
                    side,
                    frame.as_slice(),
                )
            }
            Out::Gone { session } => {
                let padt = self.farewell(node, session);
                push_gone(&mut self.report, line, node, session)?;
                push_farewell(&mut self.report, line, node, &padt)
            }
            Out::Drop { why } => push_drop(&mut self.report, line, node, why),
            Out::Cause { cause } => push_cause(&mut self.report, line, node, cause),
        }
    }

    #[tactic(auto, unfolding(world_model::specs::World::shown_all, world_model::specs::World::entries_of))]
    fn show_all(&mut self, line: u64, node: u8, outputs: Outputs) -> Result<(), NoMemory>
        ensures world { OnOk result (self.new.world ≡ shown_all node outputs self.old.world) }
        ensures report { OnOk result (self.new.report ≡ self.old.report ++ entries_text (entries_of line node outputs self.old.world)) }
        ensures ups { OnOk result (self.new.ups ≡ ups_after self.old.ups (entries_of line node outputs self.old.world)) }
    {
        for out in outputs.into_vec() {
            self.show(line, node, out)?;
        }
        Ok(())
    }

    /// The birth of a node's call, 0 where there is none.
    #[tactic(auto, unfolding(world_model::specs::World::birth_of))]
    pub(crate) fn birth_of(&self, node: u8, session: u16) -> u64
        ensures { result ≡ birth_of self.now.world node session }
    {
        match self.nodes.get(u32::from(node)) {
            Some(node) => count_at(&node.births, u32::from(session)),
            None => 0,
        }
    }

    /// A node's call is of this birth.
    #[tactic(auto, unfolding(world_model::specs::World::with_birth))]
    fn set_birth(&mut self, node: u8, session: u16, birth: u64) -> Result<(), NoMemory>
        ensures world { OnOk result (self.new.world ≡ with_birth self.old.world node session birth) }
        ensures report { self.new.report ≡ self.old.report }
        ensures ups { self.new.ups ≡ self.old.ups }
    {
        let Some(node) = self.nodes.get_mut(u32::from(node)) else {
            return Ok(());
        };
        node.bear(session, birth)
    }

    /// A call is born at a node.
    #[tactic(auto, unfolding(world_model::specs::World::is_born))]
    fn bear(&mut self, node: u8, session: u16) -> Result<(), NoMemory>
        ensures world { OnOk result (self.new.world ≡ is_born self.old.world node session) }
        ensures report { self.new.report ≡ self.old.report }
        ensures ups { self.new.ups ≡ self.old.ups }
    {
        self.born = self.born.saturating_add(1);
        self.set_birth(node, session, self.born)
    }

    /// A move of a node: it may give a birth to a call, or an epoch to a tunnel.
    #[tactic(auto, unfolding(world_model::specs::World::moved))]
    fn follow(&mut self, node: u8, done: &Move) -> Result<(), NoMemory>
        ensures world { OnOk result (self.new.world ≡ moved node self.old.world done.now) }
        ensures report { self.new.report ≡ self.old.report }
        ensures ups { self.new.ups ≡ self.old.ups }
    {
        match done {
            Move::Added(added) => self.bear(node, added.session),
            Move::Replied(replied) => {
                let birth = self.birth_of(node_of(replied.peer), replied.remote);
                self.set_birth(node, replied.session, birth)
            }
            Move::Froze(froze) => self.make_epoch(node, froze),
            Move::ResetAttempting(reset) => {
                let epoch = self.answer(node_of(reset.peer), reset.answer);
                self.enter_epoch(node, reset.tunnel, epoch)
            }
            Move::ResetAnswering(reset) => {
                let epoch = self.answer(node, reset.answer);
                self.enter_epoch(node, reset.tunnel, epoch)
            }
            _ => Ok(()),
        }
    }

    #[tactic(auto, unfolding(world_model::specs::World::moved_all))]
    fn follow_all(&mut self, node: u8, moves: &[Move]) -> Result<(), NoMemory>
        ensures world { OnOk result (self.new.world ≡ moved_all node moves.now self.old.world) }
        ensures report { self.new.report ≡ self.old.report }
        ensures ups { self.new.ups ≡ self.old.ups }
    {
        for done in moves {
            self.follow(node, done)?;
        }
        Ok(())
    }

    /// The answer to a host, in a line, where there is one.
    fn reply(&mut self, line: u64, node: u8, reply: &Option<Bytes>) -> Result<(), NoMemory>
        ensures world { self.new.world ≡ self.old.world }
        ensures report { OnOk result (self.new.report ≡ self.old.report ++ entries_text (reply_entries line node reply.now)) }
        ensures ups { OnOk result (self.new.ups ≡ ups_after self.old.ups (reply_entries line node reply.now)) }
    {
        match reply {
            Some(frame) => push_frame(&mut self.report, line, node, frame.as_slice()),
            None => Ok(()),
        }
    }

    /// What a step of a node gave, in a line: its moves are followed, and its outputs and its reply are shown.
    #[tactic(auto, using(crate::proofs::Serving::both_text, crate::proofs::Serving::both_ups))]
    fn show_step(&mut self, line: u64, node: u8, moved: Moved) -> Result<(), NoMemory>
        ensures world { OnOk result (self.new.world ≡ shown_all node moved.outputs (moved_all node moved.moves self.old.world)) }
        ensures report { OnOk result (self.new.report ≡ self.old.report ++ entries_text (entries_of line node moved.outputs (moved_all node moved.moves self.old.world) ++ reply_entries line node moved.reply)) }
        ensures ups { OnOk result (self.new.ups ≡ ups_after self.old.ups (entries_of line node moved.outputs (moved_all node moved.moves self.old.world) ++ reply_entries line node moved.reply)) }
    {
        self.follow_all(node, moved.moves.as_slice())?;
        self.show_all(line, node, moved.outputs)?;
        self.reply(line, node, &moved.reply)
    }

    /// What came of a node's step, in a line.
    pub(crate) fn show_made(
        &mut self,
        line: u64,
        node: u8,
        made: Result<Moved, Unmade>,
    ) -> Result<(), LineFault>
        ensures { ShowsMade result made line node self.old self.new }
    {
        match made {
            Ok(moved) => {
                self.show_step(line, node, moved)?;
                Ok(())
            }
            Err(Unmade::Cut) => {
                self.held.remove(u32::from(node));
                push_stopped(&mut self.report, line, node)?;
                Ok(())
            }
            Err(Unmade::Full { records }) => Err(LineFault::Refused {
                refusal: Refusal::StoreFull { records },
            }),
            Err(Unmade::NoMemory) => Err(LineFault::NoMemory),
        }
    }

    /// What a node's step on an event does, in a line, at the moment of its clock.
    #[tactic(auto, using(crate::proofs::Serving::made_says), unfolding(crate::specs::Serving::served_at, crate::specs::Serving::served_line))]
    fn serve(&mut self, line: u64, node: u8, event: &Event) -> Result<(), LineFault>
        requires { IsSome (at self.old.world.nodes node) }
        ensures { Says result (served_at self.old.world line node event.now (at self.old.world.nodes node)) self.old self.new }
    {
        let Some(at) = self.nodes.get_mut(u32::from(node)) else {
            unreachable!()
        };
        let made = at.step(block_of(node, line), event);
        self.show_made(line, node, made)
    }

    /// A step on an event that isn't of a node's access, in a line, at the moment of the clock of the node, which is up.
    #[tactic(auto, using(crate::proofs::Serving::plain_says))]
    fn step(&mut self, line: u64, node: u8, event: &Event) -> Result<(), LineFault>
        requires there { IsOk (declared (at self.old.world.nodes node)) }
        requires plain { IsPlain event.now }
        ensures { Says result (stepped self.old.world line node event.now None (declared (at self.old.world.nodes node))) self.old self.new }
    {
        self.serve(line, node, event)
    }

    /// Why a frame can't come to a node: it isn't a LAC, or is down.
    fn no_frames(&self, node: u8) -> Option<Why>
        ensures { result ≡ frames_unfit (at self.now.world.nodes node) }
    {
        match self.nodes.get(u32::from(node)) {
            Some(at) if at.is_lac() => {
                if !at.up {
                    Some(Why::Down)
                } else if at.end.has_hosts() {
                    None
                } else {
                    Some(Why::Node)
                }
            }
            _ => Some(Why::Node),
        }
    }

    /// An Ethernet frame comes to a node, in a line.
    #[tactic(auto, using(crate::proofs::Serving::frame_says, crate::proofs::Serving::frame_unfit))]
    fn take_frame(&mut self, line: u64, node: u8, bytes: &Bytes) -> Result<(), LineFault>
        ensures { Says result (framed self.old.world line node bytes.now (lac_at (at self.old.world.nodes node))) self.old self.new }
    {
        if let Some(why) = self.no_frames(node) {
            return Err(LineFault::unfit(why));
        }
        let bytes = Bytes::from_slice(self.alloc, bytes.as_slice())?;
        self.serve(line, node, &Event::Frame { bytes })
    }

    /// A new node, with this tunnel secret, which hides its calling numbers by it where `hide` is set.
    #[tactic(auto, unfolding(world_model::specs::World::added))]
    fn add(
        &mut self,
        line: u64,
        node: u8,
        role: Role,
        lns: u32,
        secret: &Option<Bytes>,
        hide: bool,
    ) -> Result<(), LineFault>
        ensures { Says result (added self.old.world line node role lns secret.now hide) self.old self.new }
    {
        if self.nodes.contains(u32::from(node)) {
            return Err(LineFault::unfit(Why::Twice));
        }
        let secret = copy_secret(self.alloc, secret)?;
        let config = config_of(node, lns, secret, hide);
        let new = Node::new(self.alloc, role, config, block_of(node, line))?;
        self.nodes.insert(u32::from(node), new)?;
        Ok(())
    }

    /// The node, where it is declared, and up.
    pub(crate) fn running(&self, node: u8) -> Result<&Node, Why>
        ensures { MatchResult result (λ x. declared (at self.now.world.nodes node) ≡ Ok x.now) (λ e. declared (at self.now.world.nodes node) ≡ Err e) }
    {
        match self.nodes.get(u32::from(node)) {
            Some(at) if at.up => Ok(at),
            Some(_) => Err(Why::Down),
            None => Err(Why::Node),
        }
    }

    /// An event of a node, in a line.
    #[tactic(auto, unfolding(world_model::specs::World::stepped))]
    fn step_fitting(&mut self, line: u64, node: u8, event: &Event) -> Result<(), LineFault>
        requires { IsPlain event.now }
        ensures { Says result (stepped self.old.world line node event.now None (fitting event.now (declared (at self.old.world.nodes node)))) self.old self.new }
    {
        match self.running(node) {
            Ok(at) => {
                if let Some(why) = at.end.fits(event) {
                    return Err(LineFault::unfit(why));
                }
                self.step(line, node, event)
            }
            Err(why) => Err(LineFault::unfit(why)),
        }
    }

    /// An event of a node of this kind, in a line.
    #[tactic(auto, unfolding(world_model::specs::World::stepped))]
    fn step_of(&mut self, line: u64, node: u8, role: Role, event: &Event) -> Result<(), LineFault>
        requires { IsPlain event.now }
        ensures { Says result (stepped self.old.world line node event.now None (fitting event.now (of_role role (at self.old.world.nodes node)))) self.old self.new }
    {
        match self.nodes.get(u32::from(node)) {
            Some(at) if at.end.end().role() == role => self.step_fitting(line, node, event),
            _ => Err(LineFault::unfit(Why::Node)),
        }
    }

    /// The subscriber of a LAC's call sends a frame, in a line.
    #[tactic(auto, using(crate::specs::Kinds::payload_fits))]
    fn send_up(&mut self, line: u64, node: u8, session: u16, frame: &Bytes) -> Result<(), LineFault>
        ensures { Says result (stepped self.old.world line node (Event.Payload session frame.now) None (with_call session (lac_at (at self.old.world.nodes node)))) self.old self.new }
    {
        let frame = Bytes::from_slice(self.alloc, frame.as_slice())?;
        self.step_of(line, node, Role::Lac, &Event::Payload { session, frame })
    }

    /// The network sends a frame down an LNS's call, in a line.
    #[tactic(auto, using(crate::specs::Kinds::lower_fits))]
    fn send_down(
        &mut self,
        line: u64,
        node: u8,
        session: u16,
        frame: &Bytes,
    ) -> Result<(), LineFault>
        ensures { Says result (stepped self.old.world line node (Event.Lower session frame.now) None (with_call session (lns_at (at self.old.world.nodes node)))) self.old self.new }
    {
        let frame = Bytes::from_slice(self.alloc, frame.as_slice())?;
        self.step_of(line, node, Role::Lns, &Event::Lower { session, frame })
    }

    /// A packet by its place, counted from 0, and the node that it is for, or why it can't be delivered.
    #[tactic(auto, unfolding(world_model::specs::World::arrival, world_model::specs::World::addressee_of))]
    fn arrival(&self, place: usize) -> Result<(&Packet, &Node), Why>
        ensures exact { MatchResult result (λ a. arrival self.now.world (slice_get self.now.world.packets place) ≡ Ok (a.0.now, a.1.now)) (λ e. arrival self.now.world (slice_get self.now.world.packets place) ≡ Err e) }
        ensures there { IfOk result (λ a. declared (at self.now.world.nodes a.0.now.to) ≡ Ok a.1.now) }
    {
        let Some(packet) = self.packets.lend(place) else {
            return Err(Why::Packet);
        };
        match self.running(packet.to) {
            Ok(node) => Ok((packet, node)),
            Err(why) => Err(why),
        }
    }

    /// A packet reaches its addressee, in a line.
    #[tactic(auto, using(crate::proofs::Serving::arrival_says), unfolding(world_model::specs::World::delivers, world_model::specs::World::delivers_it, world_model::specs::World::arrives))]
    fn deliver(&mut self, line: u64, place: usize) -> Result<(), LineFault>
        ensures { Says result (delivers self.old.world line (slice_get self.old.world.packets place)) self.old self.new }
    {
        let (packet, addressee) = match self.arrival(place) {
            Ok(found) => found,
            Err(why) => return Err(LineFault::unfit(why)),
        };
        let datagram = copy_of(self.alloc, packet)?;
        if let Some(refusal) = refused_by(packet, &datagram, addressee)? {
            return Err(LineFault::Refused { refusal });
        }
        let node = packet.to;
        let peer = address_of(packet.from);
        self.step(line, node, &Event::Datagram { peer, datagram })
    }

    /// A node's clock goes on by so many milliseconds, and it ticks.
    #[tactic(auto, unfolding(world_model::specs::World::stepped))]
    fn tick(&mut self, line: u64, node: u8, milliseconds: u32) -> Result<(), LineFault>
        ensures { Says result (stepped self.old.world line node Event.Tick None (later milliseconds (declared (at self.old.world.nodes node)))) self.old self.new }
    {
        if let Err(why) = self.running(node) {
            return Err(LineFault::unfit(why));
        }
        let Some(at) = self.nodes.get_mut(u32::from(node)) else {
            unreachable!()
        };
        at.pass(milliseconds);
        let made = at.step(block_of(node, line), &Event::Tick);
        self.show_made(line, node, made)
    }

    /// A node crashes, in a line.
    #[tactic(auto, unfolding(world_model::specs::World::crashed))]
    fn crash(&mut self, line: u64, node: u8) -> Result<(), LineFault>
        ensures { Says result (crashed self.old.world line node (declared (at self.old.world.nodes node))) self.old self.new }
    {
        if let Err(why) = self.running(node) {
            return Err(LineFault::unfit(why));
        }
        let Some(at) = self.nodes.get_mut(u32::from(node)) else {
            unreachable!()
        };
        at.fall(block_of(node, line))?;
        self.held.remove(u32::from(node));
        Ok(())
    }

    /// What the disk of a node holds, None where it isn't declared.
    pub(crate) fn file(&self, node: u8) -> Option<&[u8]>
        ensures declared { is_some result ≡ is_some (at self.now.world.nodes node) }
        ensures opens { IfSome result (λ file. IfSome (at self.now.world.nodes node) (λ x. OpensAt x file.now)) }
    {
        match self.nodes.get(u32::from(node)) {
            Some(at) => Some(at.file()),
            None => None,
        }
    }

    /// A stop is armed at a node, in a line, at this call of its commit.
    #[tactic(auto, unfolding(world_model::specs::World::armed))]
    fn arm(&mut self, node: u8, stop: StopAt, call: u8) -> Result<(), LineFault>
        ensures { Says result (armed self.old.world node stop (declared (at self.old.world.nodes node))) self.old self.new }
    {
        if let Err(why) = self.running(node) {
            return Err(LineFault::unfit(why));
        }
        let Some(at) = self.nodes.get_mut(u32::from(node)) else {
            unreachable!()
        };
        at.arm(stop, call);
        Ok(())
    }

    /// Why a node can't start: it isn't declared, or is up.
    fn no_start(&self, node: u8) -> Option<Why>
        ensures { result ≡ start_unfit (at self.now.world.nodes node) }
    {
        match self.nodes.get(u32::from(node)) {
            Some(at) if at.up => Some(Why::Up),
            Some(_) => None,
            None => Some(Why::Node),
        }
    }

    /// A node that is down starts again, in a line.
    fn start(&mut self, line: u64, node: u8) -> Result<(), LineFault>
        ensures { Says result (started self.old.world line node (down_at (at self.old.world.nodes node))) self.old self.new }
    {
        if let Some(why) = self.no_start(node) {
            return Err(LineFault::unfit(why));
        }
        let Some(at) = self.nodes.get_mut(u32::from(node)) else {
            unreachable!()
        };
        let made = at.start(block_of(node, line));
        self.show_made(line, node, made)
    }

    /// A line with its number, counted from 1.
    #[tactic(auto, using(crate::specs::Kinds::open_fits, crate::specs::Kinds::ring_fits, crate::specs::Kinds::hang_fits, crate::specs::Kinds::drop_fits, crate::specs::Kinds::close_fits), unfolding(world_model::specs::World::line))]
    pub(crate) fn line(&mut self, number: u64, line: &Line) -> Result<(), LineFault>
        ensures { Says result (line_of self.old.world number line.now) self.old self.new }
    {
        match line {
            Line::Remark { .. } => Ok(()),
            Line::Lac {
                node,
                lns,
                secret,
                hide,
            } => self.add(number, *node, Role::Lac, address_of(*lns), secret, *hide),
            Line::Lns { node, secret } => self.add(number, *node, Role::Lns, 0, secret, false),
            Line::OpenUp { node } => self.step_of(number, *node, Role::Lac, &Event::OpenTunnel),
            Line::Close { node, tunnel } => {
                let tunnel = *tunnel;
                self.step_fitting(number, *node, &Event::CloseTunnel { tunnel })
            }
            Line::Ring { node, port } => {
                let port = *port;
                self.step_of(number, *node, Role::Lac, &Event::Ring { port })
            }
            Line::Frame { node, bytes } => self.take_frame(number, *node, bytes),
            Line::FromSub {
                node,
                session,
                frame,
            } => self.send_up(number, *node, *session, frame),
            Line::Down {
                node,
                session,
                frame,
            } => self.send_down(number, *node, *session, frame),
            Line::Deliver { packet } => self.deliver(number, packet.saturating_sub(1) as usize),
            Line::Hang { node, session } => {
                let session = *session;
                self.step_of(number, *node, Role::Lac, &Event::Hang { session })
            }
            Line::DropCall { node, session } => {
                let session = *session;
                self.step_fitting(number, *node, &Event::DropCall { session })
            }
            Line::Load { node, packet } => {
                self.load(number, *node, packet.saturating_sub(1) as usize)
            }
            Line::Hand { node, number: held } => self.hand(number, *node, *held),
            Line::Tick { node, milliseconds } => self.tick(number, *node, *milliseconds),
            Line::Crash { node } => self.crash(number, *node),
            Line::Stop {
                node,
                commit,
                call,
                kept,
            } => {
                let stop = StopAt {
                    commit: *commit,
                    kept: *kept,
                };
                self.arm(*node, stop, *call)
            }
            Line::Start { node } => self.start(number, *node),
        }
    }

    /// Appends the tables at the end.
    #[tactic(auto, unfolding(world_model::specs::Run::tables))]
    pub(crate) fn finish(&mut self) -> Result<(), NoMemory>
        ensures { OnOk result (self.new ≡ record self.old { report = self.old.report ++ tables self.old.world }) }
    {
        push_end_table(self.alloc, &mut self.report, &self.nodes)?;
        push_agreement_table(self.alloc, &mut self.report, &self.nodes)
    }
}

/// How many lines a table has.
fn count_lines(table: &[u8]) -> u64
    ensures { result ≡ count_by (λ c. c == 10) table.now }
{
    table.iter().filter(|byte| **byte == b'\n').count() as u64
}

/// A packet's datagram, which is read here, once.
fn copy_of(alloc: Global, packet: &Packet) -> Result<Datagram, NoMemory>
    ensures { IfOk result (λ datagram. datagram ≡ packet.now.bytes) }
{
    let bytes = Bytes::from_slice(alloc, packet.bytes.as_slice())?;
    Ok(Datagram::read(alloc, bytes))
}

/// Why a control message that was sent in this epoch is refused by the tunnel of a node that it is for, if it is.
#[tactic(auto, unfolding(world_model::specs::World::too_old, world_model::specs::World::standing_of))]
fn too_old(
    epoch: u64,
    origin: &ControlOrigin,
    node: &Node,
    tunnel: Option<Control>,
) -> Option<Refusal>
    ensures { (w : World) (n : ℕ) → at w.nodes n ≡ Some node.now → result ≡ too_old epoch origin.now w n tunnel }
{
    let tunnel = tunnel?;
    let standing = node.standing(u32::from(tunnel.local));
    is_past(epoch, origin, standing, &tunnel)
}

/// Why a packet is refused by the node that it is for, if it is.
#[tactic(auto, unfolding(world_model::specs::World::refused_by))]
fn refused_by(
    packet: &Packet,
    datagram: &Datagram,
    node: &Node,
) -> Result<Option<Refusal>, NoMemory>
    requires { datagram.now ≡ packet.now.bytes }
    ensures { IfOk result (λ r. (w : World) → at w.nodes packet.now.to ≡ Some node.now → r ≡ refused_by w packet.now node.now packet.now.origin) }
{
    match &packet.origin {
        Origin::Control(origin) => {
            let reached = node.end.end().reached(address_of(packet.from), datagram)?;
            Ok(too_old(packet.epoch, origin, node, reached))
        }
        Origin::Recovery { .. } | Origin::Data { .. } => Ok(None),
    }
}

/// The random bytes of a step: the node, and the line, in 8 bytes each, the highest first.
#[tactic(auto, unfolding(world_model::specs::World::block_of))]
pub(crate) fn block_of(node: u8, line: u64) -> [u8; 16]
    ensures { result ≡ block_of node line }
{
    let mut block = [0u8; 16];
    BigEndian::write_u64(&mut block[..8], u64::from(node));
    BigEndian::write_u64(&mut block[8..], line);
    block
}
