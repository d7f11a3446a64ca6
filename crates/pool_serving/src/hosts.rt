//! Ethernet frames that come to a LAC.

ghost use Rattle.std.specs.Prelude.{◌≡◌};
ghost use Rattle.session_workers.specs.Passes.{known_of};
ghost use Rattle.worker_pool.specs.Pools.{IsCaller};
ghost use Rattle.port_events.specs.Giving.{Blames};
ghost use Rattle.pppoe_discovery.specs.Told.{IsAdmission};
ghost use Rattle.host_frames.specs.Frames.{IsAnswerable};
ghost use Rattle.pool_turns.specs.Turns.{Draws};
ghost use Rattle.pool_giving.specs.Hosts.{KeepsTold};
ghost use Rattle.pool_serving.specs.Handing.{InStep, IsStill};

use crate::desk::{Desk, PoolFault};
use end_model::{Event, Out};
use end_names::mac_of;
use held_ports::Ports;
use host_frames::{HostFrame, read_host_frame, refusal_in};
use locked_tunnels::{has_call, next_session, turn_one};
use pool_giving::give_turn;
use port_events::TurnFault;
use pppoe_discovery::{Discovered, write_pads};
use session_workers::Gate;
use std::sync::Wait;
use step_hub::Hub;
use wire_base::{Bytes, NoMemory};
use worker_pool::{Pool, PoolPass};

impl<G: Gate> Desk<G> {
    /// A turn of the tunnel that an event is for, with a block that was drawn for it.
    pub(crate) fn run_with<W: Wait, H: Hub, P: Ports>(
        &mut self,
        rt: &W,
        pool: &Pool<H>,
        pass: &mut PoolPass,
        ports: &mut P,
        now: u64,
        block: [u8; 16],
        event: &Event,
    ) -> Result<(), PoolFault>
        requires { IsCaller pool.now pass.old }
        ensures of { IsCaller pool.now pass.new }
        ensures still { IsStill pass.old pass.new }
        ensures counts { (self.new.given ≡ self.old.given) × (self.new.puts ≡ self.old.puts) }
        ensures told { KeepsTold self.old.hosts self.new.hosts }
        ensures grows { Draws 0 (P.around ports.old) (P.around ports.new) }
        ensures cause { Blames (P.counts ports.old).link (P.counts ports.new).link (P.counts ports.old).ether (P.counts ports.new).ether (P.counts ports.old).up (P.counts ports.new).up result }
    {
        match turn_one(
            rt,
            &pool.shared.locked,
            &mut pass.pass.seen,
            now,
            block,
            event,
        ) {
            Ok(turned) => give_turn(ports, &self.hosts, turned.outputs().as_slice()),
            Err(error) => Err(TurnFault::Stopped { stop: error }),
        }
    }

    /// Whether a call is live.
    fn is_live<W: Wait, H: Hub>(
        &self,
        rt: &W,
        pool: &Pool<H>,
        pass: &mut PoolPass,
        session: Option<u16>,
    ) -> Result<bool, NoMemory>
        requires { IsCaller pool.now pass.old }
        ensures of { IsCaller pool.now pass.new }
        ensures still { IsStill pass.old pass.new }
    {
        match session {
            None => Ok(false),
            Some(session) => has_call(rt, &pool.shared.locked, &mut pass.pass.seen, session),
        }
    }

    /// The PADS that answers a host which rang: with the session that it got, or with the cause for which it got none.
    fn pads(&self, asked: &Discovered, got: Option<u16>, outputs: &[Out]) -> Result<Bytes, NoMemory>
        requires { IsAdmission asked.now }
    {
        let mac = mac_of(self.hosts.number());
        match got {
            Some(session) => write_pads(self.alloc, &mac, asked, session, None),
            None => write_pads(self.alloc, &mac, asked, 0, Some(refusal_in(outputs))),
        }
    }

    /// Where its call is live a host keeps the session, and isn't the holder of one before; otherwise the session is taken back.
    fn keep_host(&mut self, live: bool, next: Option<u16>, held: bool, before: Option<u16>)
        ensures counts { (self.new.given ≡ self.old.given) × (self.new.puts ≡ self.old.puts) }
        ensures told { KeepsTold self.old.hosts self.new.hosts }
    {
        if live {
            self.hosts.forget(before);
        } else {
            self.hosts.let_go(next, held);
        }
    }

    /// A host rings, with a block that was drawn for it: a call over a tunnel to the LNS, of which the host gets the session, where a call is
    /// made. What the turn gives goes out first, and then the PADS that answers the host (RFC 2516 section 5.4). Sessions are drawn by the
    /// calling thread alone, so that the one that is drawn next before the turn is that of its call.
    fn ring<W: Wait, H: Hub, P: Ports>(
        &mut self,
        rt: &W,
        pool: &Pool<H>,
        pass: &mut PoolPass,
        ports: &mut P,
        now: u64,
        block: [u8; 16],
        asked: &Discovered,
        before: Option<u16>,
    ) -> Result<(), PoolFault>
        requires of { IsCaller pool.now pass.old }
        requires admission { IsAdmission asked.now }
        ensures of { IsCaller pool.now pass.new }
        ensures still { IsStill pass.old pass.new }
        ensures counts { (self.new.given ≡ self.old.given) × (self.new.puts ≡ self.old.puts) }
        ensures told { KeepsTold self.old.hosts self.new.hosts }
        ensures grows { Draws 0 (P.around ports.old) (P.around ports.new) }
        ensures cause { Blames (P.counts ports.old).link (P.counts ports.new).link (P.counts ports.old).ether (P.counts ports.new).ether (P.counts ports.old).up (P.counts ports.new).up result }
    {
        let Discovered::Admit { src, uniq, .. } = asked else {
            unreachable!()
        };
        let next = next_session(rt, &pool.shared.locked);
        let Ok(held) = self.hosts.hold_some(next, *src, uniq) else {
            return Err(TurnFault::NoMemory);
        };
        let event = Event::Admitted { mac: *src };
        let turned = match turn_one(
            rt,
            &pool.shared.locked,
            &mut pass.pass.seen,
            now,
            block,
            &event,
        ) {
            Ok(turned) => turned,
            Err(error) => {
                self.hosts.let_go(next, held);
                return Err(TurnFault::Stopped { stop: error });
            }
        };
        give_turn(ports, &self.hosts, turned.outputs().as_slice())?;
        let Ok(live) = self.is_live(rt, pool, pass, next) else {
            return Err(TurnFault::NoMemory);
        };
        let got = if live { next } else { None };
        self.keep_host(live, next, held, before);
        match self.pads(asked, got, turned.outputs().as_slice()) {
            Ok(frame) => ports.send_frame(frame.as_slice()),
            Err(_) => Err(TurnFault::NoMemory),
        }
    }

    /// A host that was admitted wants a call, or gets that of its first PADR again, where it is live.
    fn want<W: Wait, H: Hub, P: Ports>(
        &mut self,
        rt: &W,
        pool: &Pool<H>,
        pass: &mut PoolPass,
        ports: &mut P,
        now: u64,
        block: [u8; 16],
        asked: &Discovered,
        before: Option<u16>,
    ) -> Result<(), PoolFault>
        requires of { IsCaller pool.now pass.old }
        requires admission { IsAdmission asked.now }
        ensures of { IsCaller pool.now pass.new }
        ensures still { IsStill pass.old pass.new }
        ensures counts { (self.new.given ≡ self.old.given) × (self.new.puts ≡ self.old.puts) }
        ensures told { KeepsTold self.old.hosts self.new.hosts }
        ensures grows { Draws 0 (P.around ports.old) (P.around ports.new) }
        ensures cause { Blames (P.counts ports.old).link (P.counts ports.new).link (P.counts ports.old).ether (P.counts ports.new).ether (P.counts ports.old).up (P.counts ports.new).up result }
    {
        let Ok(live) = self.is_live(rt, pool, pass, before) else {
            return Err(TurnFault::NoMemory);
        };
        if !live {
            return self.ring(rt, pool, pass, ports, now, block, asked, before);
        }
        match self.pads(asked, before, &[]) {
            Ok(frame) => ports.send_frame(frame.as_slice()),
            Err(_) => Err(TurnFault::NoMemory),
        }
    }

    /// What a frame leads to, with a block that was drawn for it.
    fn enter_with<W: Wait, H: Hub, P: Ports>(
        &mut self,
        rt: &W,
        pool: &Pool<H>,
        pass: &mut PoolPass,
        ports: &mut P,
        now: u64,
        block: [u8; 16],
        found: HostFrame,
    ) -> Result<(), PoolFault>
        requires of { IsCaller pool.now pass.old }
        requires wants { IsAnswerable found }
        ensures of { IsCaller pool.now pass.new }
        ensures still { IsStill pass.old pass.new }
        ensures counts { (self.new.given ≡ self.old.given) × (self.new.puts ≡ self.old.puts) }
        ensures told { KeepsTold self.old.hosts self.new.hosts }
        ensures grows { Draws 0 (P.around ports.old) (P.around ports.new) }
        ensures cause { Blames (P.counts ports.old).link (P.counts ports.new).link (P.counts ports.old).ether (P.counts ports.new).ether (P.counts ports.old).up (P.counts ports.new).up result }
    {
        match found {
            HostFrame::Ignored { .. } => Ok(()),
            HostFrame::Answered { frame, .. } => ports.send_frame(frame.as_slice()),
            HostFrame::InCall {
                session,
                is_host,
                event,
            } => match self.is_live(rt, pool, pass, Some(session)) {
                Ok(live) if live && is_host => {
                    self.run_with(rt, pool, pass, ports, now, block, &event)
                }
                Ok(_) => Ok(()),
                Err(_) => Err(TurnFault::NoMemory),
            },
            HostFrame::Wants { asked, before } => {
                self.want(rt, pool, pass, ports, now, block, &asked, before)
            }
        }
    }

    /// An Ethernet frame comes to a LAC, from its destination address on: it is answered, or it is an event of a call (RFC 2516).
    pub(crate) fn enter<W: Wait, H: Hub, P: Ports>(
        &mut self,
        rt: &W,
        pool: &Pool<H>,
        pass: &mut PoolPass,
        ports: &mut P,
        now: u64,
        bytes: Bytes,
    ) -> Result<(), PoolFault>
        requires { IsCaller pool.now pass.old }
        ensures of { IsCaller pool.now pass.new }
        ensures step { InStep self.old self.new pass.old pass.new }
        ensures known { known_of pass.new.pass ≡ known_of pass.old.pass }
        ensures draws { Draws 1 (P.around ports.old) (P.around ports.new) }
        ensures cause { Blames (P.counts ports.old).link (P.counts ports.new).link (P.counts ports.old).ether (P.counts ports.new).ether (P.counts ports.old).up (P.counts ports.new).up result }
    {
        let block = ports.block();
        let number = self.hosts.number();
        let access = self.hosts.access();
        let Ok(found) = read_host_frame(self.alloc, access, number, bytes.as_slice()) else {
            return Err(TurnFault::NoMemory);
        };
        self.enter_with(rt, pool, pass, ports, now, block, found)
    }
}
