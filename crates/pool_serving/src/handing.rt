//! What is finished goes to the ports.

ghost use Rattle.std.specs.Prelude.{◌≡◌, ◌+◌, IfOk, IfErr};
ghost use Rattle.wire_base.specs.declared.letter.Side.TheVariants as sides;
ghost use Rattle.worker_pool.specs.Pools.{IsCaller};
ghost use Rattle.port_events.specs.declared.giving.TurnFault.TheVariants as faults;
ghost use Rattle.port_events.specs.Giving.{Blames};
ghost use Rattle.pool_turns.specs.Turns.{Draws};
ghost use Rattle.session_cells.specs.Tokens.{log_of};
ghost use Rattle.pool_serving.specs.Faults.{has_stopped, OnCalm};
ghost use Rattle.pool_giving.specs.Hosts.{KeepsTold};
ghost use Rattle.pool_serving.specs.Handing.{host_of, HandsUp, HandsOver, IsStill};

use crate::counting::one_more;
use crate::cutting::between;
use crate::desk::{Desk, PoolFault};
use data_plane::Carry;
use end_model::Event;
use held_ports::Ports;
use locked_tunnels::{subscriber_of, turn_one};
use pool_giving::{give_frame, give_turn};
use port_events::TurnFault;
use session_looks::Look;
use session_workers::{Done, Finished, Gate};
use std::sync::Wait;
use step_hub::{Hub, StepError};
use wire_base::{Bytes, Side};
use worker_pool::{Pool, PoolPass};

/// Why a pool stops whose turn was refused.
fn refused(error: StepError) -> PoolFault
    ensures { result ≡ faults.Stopped error }
{
    TurnFault::Stopped { stop: error }
}

impl<G: Gate> Desk<G> {
    /// Asks the tunnel of a call for its subscriber, and keeps what it tells. Nothing is told where the call has ended.
    fn ask<W: Wait, H: Hub>(
        &mut self,
        rt: &W,
        pool: &Pool<H>,
        tunnel: u16,
        session: u16,
    ) -> Result<(), PoolFault>
        ensures counts { (self.new.given ≡ self.old.given) × (self.new.puts ≡ self.old.puts) }
        ensures told { KeepsTold self.old.hosts self.new.hosts }
        ensures fault { IfErr result (λ fault. fault ≡ faults.NoMemory) }
    {
        match subscriber_of(rt, &pool.shared.locked, tunnel, session) {
            Ok(None) => Ok(()),
            Ok(Some(who)) => match self.hosts.tell(session, who) {
                Ok(()) => Ok(()),
                Err(_) => Err(TurnFault::NoMemory),
            },
            Err(_) => Err(TurnFault::NoMemory),
        }
    }

    /// The six bytes of the subscriber of a call: kept from when its tunnel told them, or asked for. None where the call has ended.
    fn host_of<W: Wait, H: Hub>(
        &mut self,
        rt: &W,
        pool: &Pool<H>,
        pass: &mut PoolPass,
        session: u16,
    ) -> Result<Option<[u8; 6]>, PoolFault>
        requires { IsCaller pool.now pass.old }
        ensures of { IsCaller pool.now pass.new }
        ensures still { IsStill pass.old pass.new }
        ensures counts { (self.new.given ≡ self.old.given) × (self.new.puts ≡ self.old.puts) }
        ensures told { KeepsTold self.old.hosts self.new.hosts }
        ensures is { IfOk result (λ host. host ≡ host_of self.new.hosts (log_of pass.new.pass.seen) session) }
        ensures fault { IfErr result (λ fault. fault ≡ faults.NoMemory) }
    {
        let locked = &pool.shared.locked;
        let tunnel = match locked.cells.lookup(&mut pass.pass.seen, session) {
            Look::Bound { tunnel, .. } | Look::Established { tunnel, .. } => tunnel,
            Look::Unborn | Look::Dead => return Ok(None),
        };
        if self.hosts.told(session).is_none() {
            self.ask(rt, pool, tunnel, session)?;
        }
        Ok(self.hosts.told(session))
    }

    /// A frame for the subscriber of a call goes to the Ethernet port, and to none where the call has ended.
    fn hand_to_host<W: Wait, H: Hub, P: Ports>(
        &mut self,
        rt: &W,
        pool: &Pool<H>,
        pass: &mut PoolPass,
        ports: &mut P,
        session: u16,
        frame: &[u8],
    ) -> Result<(), PoolFault>
        requires { IsCaller pool.now pass.old }
        ensures of { IsCaller pool.now pass.new }
        ensures still { IsStill pass.old pass.new }
        ensures counts { (self.new.given ≡ self.old.given) × (self.new.puts ≡ self.old.puts) }
        ensures told { KeepsTold self.old.hosts self.new.hosts }
        ensures handed { OnCalm result (HandsUp (has_stopped result) self.new.hosts (log_of pass.new.pass.seen) session sides.Sub frame.now (P.around ports.old) (P.around ports.new)) }
        ensures grows { Draws 0 (P.around ports.old) (P.around ports.new) }
        ensures cause { Blames (P.counts ports.old).link (P.counts ports.new).link (P.counts ports.old).ether (P.counts ports.new).ether (P.counts ports.old).up (P.counts ports.new).up result }
    {
        let host = self.host_of(rt, pool, pass, session)?;
        let node = self.hosts.number();
        give_frame(ports, &mut self.room, node, host, session, Side::Sub, frame)
    }

    /// An LCP packet of a call is heard in a turn of the call's tunnel, and what that gives goes to the ports.
    fn hear<W: Wait, H: Hub, P: Ports>(
        &mut self,
        rt: &W,
        pool: &Pool<H>,
        pass: &mut PoolPass,
        ports: &mut P,
        session: u16,
        packet: &[u8],
        now: u64,
        block: [u8; 16],
    ) -> Result<(), PoolFault>
        requires { IsCaller pool.now pass.old }
        ensures of { IsCaller pool.now pass.new }
        ensures still { IsStill pass.old pass.new }
        ensures same { self.new ≡ self.old }
        ensures handed { OnCalm result (HandsUp (has_stopped result) self.new.hosts (log_of pass.new.pass.seen) session sides.Lcp packet.now (P.around ports.old) (P.around ports.new)) }
        ensures grows { Draws 0 (P.around ports.old) (P.around ports.new) }
        ensures cause { Blames (P.counts ports.old).link (P.counts ports.new).link (P.counts ports.old).ether (P.counts ports.new).ether (P.counts ports.old).up (P.counts ports.new).up result }
    {
        let Ok(packet) = Bytes::from_slice(self.alloc, packet) else {
            return Err(TurnFault::NoMemory);
        };
        let event = Event::Lcp { session, packet };
        match turn_one(
            rt,
            &pool.shared.locked,
            &mut pass.pass.seen,
            now,
            block,
            &event,
        ) {
            Ok(turned) => give_turn(ports, &self.hosts, turned.outputs().as_slice()),
            Err(error) => Err(refused(error)),
        }
    }

    /// A frame that a worker let pass goes to its side.
    fn hand_up<W: Wait, H: Hub, P: Ports>(
        &mut self,
        rt: &W,
        pool: &Pool<H>,
        pass: &mut PoolPass,
        ports: &mut P,
        session: u16,
        side: Side,
        frame: &[u8],
        now: u64,
        block: [u8; 16],
    ) -> Result<(), PoolFault>
        requires { IsCaller pool.now pass.old }
        ensures of { IsCaller pool.now pass.new }
        ensures still { IsStill pass.old pass.new }
        ensures counts { (self.new.given ≡ self.old.given) × (self.new.puts ≡ self.old.puts) }
        ensures told { KeepsTold self.old.hosts self.new.hosts }
        ensures handed { OnCalm result (HandsUp (has_stopped result) self.new.hosts (log_of pass.new.pass.seen) session side frame.now (P.around ports.old) (P.around ports.new)) }
        ensures grows { Draws 0 (P.around ports.old) (P.around ports.new) }
        ensures cause { Blames (P.counts ports.old).link (P.counts ports.new).link (P.counts ports.old).ether (P.counts ports.new).ether (P.counts ports.old).up (P.counts ports.new).up result }
    {
        match side {
            Side::Net => ports.send_up(session, frame),
            Side::Sub => self.hand_to_host(rt, pool, pass, ports, session, frame),
            Side::Lcp => self.hear(rt, pool, pass, ports, session, frame, now, block),
        }
    }

    /// What is finished goes to the ports: the frame of a data message that goes up, or what a turn gave. A turn that was refused gives
    /// nothing, and stops the pool.
    pub(crate) fn hand_on<W: Wait, H: Hub, P: Ports>(
        &mut self,
        rt: &W,
        pool: &Pool<H>,
        pass: &mut PoolPass,
        ports: &mut P,
        finished: &Finished,
    ) -> Result<(), PoolFault>
        requires { IsCaller pool.now pass.old }
        ensures of { IsCaller pool.now pass.new }
        ensures still { IsStill pass.old pass.new }
        ensures counts { (self.new.given ≡ self.old.given) × (self.new.puts ≡ self.old.puts) }
        ensures told { KeepsTold self.old.hosts self.new.hosts }
        ensures handed { OnCalm result (HandsOver (has_stopped result) self.new.hosts pass.new finished.now (P.around ports.old) (P.around ports.new)) }
        ensures grows { Draws 0 (P.around ports.old) (P.around ports.new) }
        ensures cause { Blames (P.counts ports.old).link (P.counts ports.new).link (P.counts ports.old).ether (P.counts ports.new).ether (P.counts ports.old).up (P.counts ports.new).up result }
    {
        let item = &finished.item;
        match &finished.done {
            Done::Carried {
                carry: Carry::Up {
                    session,
                    side,
                    start,
                    end,
                },
            } => {
                let frame = between(item.bytes.as_slice(), *start, *end);
                let (now, block) = (item.now, item.block);
                self.hand_up(rt, pool, pass, ports, *session, *side, frame, now, block)
            }
            Done::Carried {
                carry: Carry::Dropped { .. },
            } => Ok(()),
            Done::Turned { turned } => give_turn(ports, &self.hosts, turned.outputs().as_slice()),
            Done::Failed { error } => Err(refused(*error)),
        }
    }

    /// An item that the calling thread was given is counted.
    pub(crate) fn count<W: Wait>(&mut self, rt: &W)
        ensures { self.new ≡ record self.old { given = self.old.given + 1 } }
    {
        self.given = one_more(rt, self.given);
    }

    /// An item that the calling thread worked or collected is counted, and goes to the ports.
    pub(crate) fn take_back<W: Wait, H: Hub, P: Ports>(
        &mut self,
        rt: &W,
        pool: &Pool<H>,
        pass: &mut PoolPass,
        ports: &mut P,
        finished: &Finished,
    ) -> Result<(), PoolFault>
        requires { IsCaller pool.now pass.old }
        ensures of { IsCaller pool.now pass.new }
        ensures still { IsStill pass.old pass.new }
        ensures given { self.new.given ≡ self.old.given + 1 }
        ensures puts { self.new.puts ≡ self.old.puts }
        ensures told { KeepsTold self.old.hosts self.new.hosts }
        ensures handed { OnCalm result (HandsOver (has_stopped result) self.new.hosts pass.new finished.now (P.around ports.old) (P.around ports.new)) }
        ensures grows { Draws 0 (P.around ports.old) (P.around ports.new) }
        ensures cause { Blames (P.counts ports.old).link (P.counts ports.new).link (P.counts ports.old).ether (P.counts ports.new).ether (P.counts ports.old).up (P.counts ports.new).up result }
    {
        self.count(rt);
        self.hand_on(rt, pool, pass, ports, finished)
    }
}
