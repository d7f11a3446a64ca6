//! The LCP end of one link.

ghost use Rattle.std.specs.Prelude.{◌≡◌, ◌≤◌, length, OnOk, OnErr, IfOk, IfSome};
ghost use Rattle.std.specs.Result.{result_ok};
ghost use Rattle.lcp_wire.specs.Reading.{packet_of};
ghost use Rattle.lcp_end.specs.Packets.{ArePackets};
ghost use Rattle.lcp_end.specs.Steps.{fresh, is_opened, joined, opened, closed, is_timed, is_due, due_of, time_out, ticked, after_heard, after_read, after_packet};

use crate::hearing::hear;
use crate::options::not_zero;
use crate::out::LcpOut;
use crate::state::EndState;
use crate::table::{LcpEvent, LcpState};
use crate::turn::Turn;
use lcp_wire::{Lcp, LcpError, read_lcp};
use std::alloc::Global;
use std::marker::Model;
use wire_base::NoMemory;

/// How long an answer is waited for, in milliseconds.
const WAIT: u64 = 3000;

/// How long a packet may be, in bytes.
const LONGEST: usize = 2048;

/// The LCP end of one link (RFC 1661): it asks for an MRU of 1,492 bytes and a magic number, and takes an MRU from 64 to
/// 1,492 bytes and a magic number. Packets are given and taken from their code on, without the protocol number. Moments
/// are in milliseconds; where a given one is below a kept one, no time has passed. Where memory is wanting, a call
/// changes nothing.
#[derive(Clone, Copy)]
pub struct LcpEnd {
    kept: EndState,
}

impl Model for LcpEnd {
    ghost use Rattle.lcp_end.specs.declared.state.EndState.{EndState};

    ghost Value = { EndState };

    ghost view = { λ e. e.kept };

    ghost inverse = { λ k. record { kept = k } };
}

impl LcpEnd {
    /// An end whose link isn't opened yet, with a random magic number to ask for; in place of 0 it asks for 1.
    pub fn new(magic: u32) -> LcpEnd
        ensures { result ≡ fresh magic }
    {
        LcpEnd {
            kept: EndState {
                state: LcpState::Initial,
                asks_mru: true,
                magic: Some(not_zero(magic)),
                restarts: 0,
                since: 0,
                last_id: 0,
                request: 0,
                naks: 0,
            },
        }
    }

    /// Whether the link carries frames of the network's protocols: the automaton is in Opened.
    pub fn is_open(&self) -> bool
        ensures { result ≡ is_opened self.now }
    {
        self.kept.state.number() == 9
    }

    /// Whether an answer was waited for long enough, so that a tick does something.
    pub fn is_due(&self, now: u64) -> bool
        ensures { result ≡ is_due now self.now }
    {
        is_due(&self.kept, now)
    }

    /// The moment from which on it was waited for long enough, in milliseconds; None where nothing is waited for.
    pub fn due(&self) -> Option<u64>
        ensures { result ≡ due_of self.now }
    {
        if !is_timed(&self.kept) {
            return None;
        }
        Some(self.kept.since.saturating_add(WAIT))
    }

    // What a step gave is given on, and the end is as after it.
    fn finish(&mut self, mut turn: Turn, out: &mut LcpOut) -> Result<(), NoMemory>
        ensures ok { OnOk result (self.new ≡ turn.kept) }
        ensures given { OnOk result (out.new ≡ joined out.old turn.out) }
        ensures packets { ArePackets turn.out.packets }
        ensures err { OnErr result (self.new ≡ self.old) }
        ensures not_given { OnErr result (out.new ≡ out.old) }
    {
        out.take_in(&mut turn.out)?;
        self.kept = turn.kept;
        Ok(())
    }

    /// The link is to be opened, and the layer below it is up: a Configure-Request is sent.
    #[tactic(auto, unfolding(crate::specs::Steps::opened))]
    pub fn open_link(&mut self, alloc: Global, now: u64, out: &mut LcpOut) -> Result<(), NoMemory>
        ensures ok { OnOk result (self.new ≡ (opened now self.old).kept) }
        ensures given { OnOk result (out.new ≡ joined out.old (opened now self.old).out) }
        ensures packets { OnOk result (ArePackets (opened now self.old).out.packets) }
        ensures err { OnErr result (self.new ≡ self.old) }
        ensures not_given { OnErr result (out.new ≡ out.old) }
    {
        let mut turn = Turn::new(alloc, self.kept);
        turn.step(LcpEvent::Opens, now)?;
        turn.step(LcpEvent::Up, now)?;
        self.finish(turn, out)
    }

    /// The link is to be closed: where it was opened, a Terminate-Request is sent.
    #[tactic(auto, unfolding(crate::specs::Steps::closed))]
    pub fn close_link(&mut self, alloc: Global, now: u64, out: &mut LcpOut) -> Result<(), NoMemory>
        ensures ok { OnOk result (self.new ≡ (closed now self.old).kept) }
        ensures given { OnOk result (out.new ≡ joined out.old (closed now self.old).out) }
        ensures packets { OnOk result (ArePackets (closed now self.old).out.packets) }
        ensures err { OnErr result (self.new ≡ self.old) }
        ensures not_given { OnErr result (out.new ≡ out.old) }
    {
        let mut turn = Turn::new(alloc, self.kept);
        turn.step(LcpEvent::Closes, now)?;
        self.finish(turn, out)
    }

    /// Takes a packet. The block is random. One of more than 2,048 bytes is ignored, and one that can't be read.
    #[tactic(auto, unfolding(crate::specs::Steps::after_packet, crate::specs::Steps::after_read, crate::specs::Steps::after_heard))]
    pub fn on_packet(
        &mut self,
        alloc: Global,
        packet: &[u8],
        block: &[u8; 16],
        now: u64,
        out: &mut LcpOut,
    ) -> Result<(), NoMemory>
        ensures ok { OnOk result (self.new ≡ (after_packet packet.now block.now now self.old).kept) }
        ensures given { OnOk result (out.new ≡ joined out.old (after_packet packet.now block.now now self.old).out) }
        ensures packets { OnOk result (ArePackets (after_packet packet.now block.now now self.old).out.packets) }
        ensures err { OnErr result (self.new ≡ self.old) }
        ensures not_given { OnErr result (out.new ≡ out.old) }
    {
        let turn = heard_turn(alloc, self.kept, packet, block, now)?;
        self.finish(turn, out)
    }

    /// The moment is this: where an answer was waited for 3 seconds, a request is sent again, or the peer is given up.
    #[tactic(auto, unfolding(crate::specs::Steps::ticked))]
    pub fn on_tick(&mut self, alloc: Global, now: u64, out: &mut LcpOut) -> Result<(), NoMemory>
        ensures ok { OnOk result (self.new ≡ (ticked now self.old).kept) }
        ensures given { OnOk result (out.new ≡ joined out.old (ticked now self.old).out) }
        ensures packets { OnOk result (ArePackets (ticked now self.old).out.packets) }
        ensures err { OnErr result (self.new ≡ self.old) }
        ensures not_given { OnErr result (out.new ≡ out.old) }
    {
        let mut turn = Turn::new(alloc, self.kept);
        if is_due(&self.kept, now) {
            turn.step(time_out(&self.kept), now)?;
        }
        self.finish(turn, out)
    }
}

/// Whether an answer is waited for.
fn is_timed(kept: &EndState) -> bool
    ensures { result ≡ is_timed kept.now }
{
    let state = kept.state.number();
    4 <= state && state <= 8
}

/// Whether an answer was waited for long enough.
fn is_due(kept: &EndState, now: u64) -> bool
    ensures { result ≡ is_due now kept.now }
{
    is_timed(kept) && WAIT <= now.saturating_sub(kept.since)
}

fn time_out(kept: &EndState) -> LcpEvent
    ensures { result ≡ time_out kept.now }
{
    if kept.restarts > 0 {
        LcpEvent::ToMore
    } else {
        LcpEvent::ToLast
    }
}

/// The packet, where it can be read.
fn packet_in(alloc: Global, packet: &[u8]) -> Result<Option<Lcp>, NoMemory>
    ensures value { IfOk result (λ p. p ≡ result_ok (packet_of packet.now)) }
    ensures short { IfOk result (λ p. IfSome p (λ p. length p.body ≤ length packet.now)) }
{
    match read_lcp(alloc, packet) {
        Ok(read) => Ok(Some(read)),
        Err(LcpError::NoMemory) => Err(NoMemory),
        Err(LcpError::Short | LcpError::Length { .. }) => Ok(None),
    }
}

/// The step of an end to which a packet came.
#[tactic(auto, unfolding(crate::specs::Steps::after_packet, crate::specs::Steps::after_read, crate::specs::Steps::after_heard))]
fn heard_turn(
    alloc: Global,
    kept: EndState,
    packet: &[u8],
    block: &[u8; 16],
    now: u64,
) -> Result<Turn, NoMemory>
    ensures { IfOk result (λ t. t ≡ after_packet packet.now block.now now kept) }
{
    if packet.len() > LONGEST {
        return Ok(Turn::new(alloc, kept));
    }
    let Some(read) = packet_in(alloc, packet)? else {
        return Ok(Turn::new(alloc, kept));
    };
    let Some(heard) = hear(alloc, block, kept, &read)? else {
        return Ok(Turn::new(alloc, kept));
    };
    let mut turn = Turn::new(alloc, heard.kept);
    let actions = turn.step(heard.event, now)?;
    turn.answer(actions, &heard.answer)?;
    Ok(turn)
}
