//! Turns of the calling thread.

ghost use Rattle.std.specs.Prelude.{ℕ, List, Option, Some, ◌≡◌, ◌++◌, OnOk, OnErr, length, false};
ghost use Rattle.port_events.specs.declared.end.Event.{Event as Came};
ghost use Rattle.session_workers.specs.Passes.{known_of};
ghost use Rattle.worker_pool.specs.Pools.{IsCaller};
ghost use Rattle.port_events.specs.Giving.{Blames};
ghost use Rattle.port_turn.specs.Turns.{Turn};
ghost use Rattle.port_events.specs.Feeding.{some_of};
ghost use Rattle.pool_turns.specs.Turns.{Put, Draws, first_block, put_of, TakesLink, TakesEther, TakesUplink, StopsAtLink, StopsAtEther, StopsAtUplink, MakesTurn, Runs, StopsIn, Begins, MayBegin, Serves, BreaksOff};
ghost use Rattle.pool_serving.specs.Handing.{InStep, puts_in};

use crate::desk::{Desk, PoolFault};
use end_model::Event;
use held_ports::Ports;
use locked_tunnels::{Turned, tick_all};
use pool_giving::give_turn;
use port_events::{Event as Waiting, TurnFault};
use session_workers::Gate;
use std::sync::Wait;
use step_hub::Hub;
use wire_base::Sequence;
use worker_pool::{Pool, PoolPass};

impl<G: Gate> Desk<G> {
    /// An event is a turn of the tunnel that it is for, with the next block, and what that gives goes to the ports.
    pub(crate) fn run<W: Wait, H: Hub, P: Ports>(
        &mut self,
        rt: &W,
        pool: &Pool<H>,
        pass: &mut PoolPass,
        ports: &mut P,
        now: u64,
        event: &Event,
    ) -> Result<(), PoolFault>
        requires { IsCaller pool.now pass.old }
        ensures of { IsCaller pool.now pass.new }
        ensures step { InStep self.old self.new pass.old pass.new }
        ensures known { known_of pass.new.pass ≡ known_of pass.old.pass }
        ensures draws { Draws 1 (P.around ports.old) (P.around ports.new) }
        ensures cause { Blames (P.counts ports.old).link (P.counts ports.new).link (P.counts ports.old).ether (P.counts ports.new).ether (P.counts ports.old).up (P.counts ports.new).up result }
    {
        let block = ports.block();
        self.run_with(rt, pool, pass, ports, now, block, event)
    }

    /// What turns gave goes to the ports, one after the other.
    fn give_turns<P: Ports>(&self, ports: &mut P, turns: &[Turned]) -> Result<(), PoolFault>
        ensures grows { Draws 0 (P.around ports.old) (P.around ports.new) }
        ensures cause { Blames (P.counts ports.old).link (P.counts ports.new).link (P.counts ports.old).ether (P.counts ports.new).ether (P.counts ports.old).up (P.counts ports.new).up result }
    {
        for turned in turns {
            give_turn(ports, &self.hosts, turned.outputs().as_slice())?;
        }
        Ok(())
    }

    /// Time passes: a turn of each tunnel by id, with the next block. What they give goes to the ports, also where one was refused.
    fn tick<W: Wait, H: Hub, P: Ports>(
        &mut self,
        rt: &W,
        pool: &Pool<H>,
        pass: &mut PoolPass,
        ports: &mut P,
        now: u64,
    ) -> Result<(), PoolFault>
        requires { IsCaller pool.now pass.old }
        ensures of { IsCaller pool.now pass.new }
        ensures step { InStep self.old self.new pass.old pass.new }
        ensures known { known_of pass.new.pass ≡ known_of pass.old.pass }
        ensures draws { Draws 1 (P.around ports.old) (P.around ports.new) }
        ensures cause { Blames (P.counts ports.old).link (P.counts ports.new).link (P.counts ports.old).ether (P.counts ports.new).ether (P.counts ports.old).up (P.counts ports.new).up result }
    {
        let block = ports.block();
        let mut turns = Sequence::new(self.alloc);
        let ticked = tick_all(
            rt,
            &pool.shared.locked,
            &mut pass.pass.seen,
            now,
            block,
            &mut turns,
        );
        self.give_turns(ports, turns.as_slice())?;
        match ticked {
            Ok(()) => Ok(()),
            Err(error) => Err(TurnFault::Stopped { stop: error }),
        }
    }

    /// The next block is let go.
    fn skip_block<P: Ports>(&self, ports: &mut P)
        ensures draws { Draws 1 (P.around ports.old) (P.around ports.new) }
        ensures counts { P.counts ports.new ≡ P.counts ports.old }
    {
        let _ = ports.block();
    }

    /// What the link gave is put, where it is a datagram.
    fn put_taken<W: Wait, H: Hub, P: Ports>(
        &mut self,
        rt: &W,
        pool: &Pool<H>,
        pass: &mut PoolPass,
        ports: &mut P,
        now: u64,
        event: Waiting,
    ) -> Result<(), PoolFault>
        requires { IsCaller pool.now pass.old }
        ensures of { IsCaller pool.now pass.new }
        ensures step { InStep self.old self.new pass.old pass.new }
        ensures ok { OnOk result (puts_in pass.new ≡ puts_in pass.old ++ put_of now (first_block (P.around ports.old).stream) (Some event)) }
        ensures err { OnErr result (puts_in pass.new ≡ puts_in pass.old) }
        ensures draws { Draws 1 (P.around ports.old) (P.around ports.new) }
        ensures cause { Blames (P.counts ports.old).link (P.counts ports.new).link (P.counts ports.old).ether (P.counts ports.new).ether (P.counts ports.old).up (P.counts ports.new).up result }
    {
        match event {
            Waiting::Datagram { peer, bytes } => {
                self.put_datagram(rt, pool, pass, ports, now, peer, bytes)
            }
            Waiting::Frame { .. } | Waiting::Lower { .. } | Waiting::Open | Waiting::Tick => {
                self.skip_block(ports);
                Ok(())
            }
        }
    }

    /// The datagram that was taken, if one was, is put.
    fn put_some<W: Wait, H: Hub, P: Ports>(
        &mut self,
        rt: &W,
        pool: &Pool<H>,
        pass: &mut PoolPass,
        ports: &mut P,
        now: u64,
        event: Option<Waiting>,
    ) -> Result<(), PoolFault>
        requires { IsCaller pool.now pass.old }
        ensures of { IsCaller pool.now pass.new }
        ensures step { InStep self.old self.new pass.old pass.new }
        ensures ok { OnOk result (puts_in pass.new ≡ puts_in pass.old ++ put_of now (first_block (P.around ports.old).stream) event) }
        ensures err { OnErr result (puts_in pass.new ≡ puts_in pass.old) }
        ensures draws { Draws (length (some_of event)) (P.around ports.old) (P.around ports.new) }
        ensures cause { Blames (P.counts ports.old).link (P.counts ports.new).link (P.counts ports.old).ether (P.counts ports.new).ether (P.counts ports.old).up (P.counts ports.new).up result }
    {
        match event {
            Some(event) => self.put_taken(rt, pool, pass, ports, now, event),
            None => Ok(()),
        }
    }

    /// What another port gave is a turn of the calling thread.
    fn run_taken<W: Wait, H: Hub, P: Ports>(
        &mut self,
        rt: &W,
        pool: &Pool<H>,
        pass: &mut PoolPass,
        ports: &mut P,
        now: u64,
        event: Waiting,
    ) -> Result<(), PoolFault>
        requires { IsCaller pool.now pass.old }
        ensures of { IsCaller pool.now pass.new }
        ensures step { InStep self.old self.new pass.old pass.new }
        ensures known { known_of pass.new.pass ≡ known_of pass.old.pass }
        ensures draws { Draws 1 (P.around ports.old) (P.around ports.new) }
        ensures cause { Blames (P.counts ports.old).link (P.counts ports.new).link (P.counts ports.old).ether (P.counts ports.new).ether (P.counts ports.old).up (P.counts ports.new).up result }
    {
        match event {
            Waiting::Frame { bytes } => {
                if self.lns {
                    self.run(rt, pool, pass, ports, now, &Event::Frame { bytes })
                } else {
                    self.enter(rt, pool, pass, ports, now, bytes)
                }
            }
            Waiting::Lower { session, frame } => {
                self.run(rt, pool, pass, ports, now, &Event::Lower { session, frame })
            }
            Waiting::Datagram { .. } | Waiting::Open | Waiting::Tick => {
                self.skip_block(ports);
                Ok(())
            }
        }
    }

    /// What else was taken, if it was, is a turn of the calling thread.
    fn run_some<W: Wait, H: Hub, P: Ports>(
        &mut self,
        rt: &W,
        pool: &Pool<H>,
        pass: &mut PoolPass,
        ports: &mut P,
        now: u64,
        event: Option<Waiting>,
    ) -> Result<(), PoolFault>
        requires { IsCaller pool.now pass.old }
        ensures of { IsCaller pool.now pass.new }
        ensures step { InStep self.old self.new pass.old pass.new }
        ensures known { known_of pass.new.pass ≡ known_of pass.old.pass }
        ensures draws { Draws (length (some_of event)) (P.around ports.old) (P.around ports.new) }
        ensures cause { Blames (P.counts ports.old).link (P.counts ports.new).link (P.counts ports.old).ether (P.counts ports.new).ether (P.counts ports.old).up (P.counts ports.new).up result }
    {
        match event {
            Some(event) => self.run_taken(rt, pool, pass, ports, now, event),
            None => Ok(()),
        }
    }

    /// Takes the datagram that waits, if one does, and puts it.
    fn from_link<W: Wait, H: Hub, P: Ports>(
        &mut self,
        rt: &W,
        pool: &Pool<H>,
        pass: &mut PoolPass,
        ports: &mut P,
        now: u64,
    ) -> Result<(), PoolFault>
        requires { IsCaller pool.now pass.old }
        ensures of { IsCaller pool.now pass.new }
        ensures step { InStep self.old self.new pass.old pass.new }
        ensures ok { OnOk result ((got : Option Came) × (ps : List Put) × TakesLink now got ps (P.around ports.old) (P.around ports.new) × (puts_in pass.new ≡ puts_in pass.old ++ ps)) }
        ensures err { OnErr result (StopsAtLink (P.around ports.old) (P.around ports.new) × (puts_in pass.new ≡ puts_in pass.old)) }
        ensures cause { Blames (P.counts ports.old).link (P.counts ports.new).link (P.counts ports.old).ether (P.counts ports.new).ether (P.counts ports.old).up (P.counts ports.new).up result }
    {
        let got = ports.next_datagram()?;
        self.put_some(rt, pool, pass, ports, now, got)
    }

    /// Takes the Ethernet frame that waits, if one does.
    fn from_ether<W: Wait, H: Hub, P: Ports>(
        &mut self,
        rt: &W,
        pool: &Pool<H>,
        pass: &mut PoolPass,
        ports: &mut P,
        now: u64,
    ) -> Result<(), PoolFault>
        requires { IsCaller pool.now pass.old }
        ensures of { IsCaller pool.now pass.new }
        ensures step { InStep self.old self.new pass.old pass.new }
        ensures known { known_of pass.new.pass ≡ known_of pass.old.pass }
        ensures ok { OnOk result ((got : Option Came) × TakesEther got (P.around ports.old) (P.around ports.new)) }
        ensures err { OnErr result (StopsAtEther (P.around ports.old) (P.around ports.new)) }
        ensures cause { Blames (P.counts ports.old).link (P.counts ports.new).link (P.counts ports.old).ether (P.counts ports.new).ether (P.counts ports.old).up (P.counts ports.new).up result }
    {
        let got = ports.next_frame()?;
        self.run_some(rt, pool, pass, ports, now, got)
    }

    /// Takes the network frame that waits, if one does.
    fn from_uplink<W: Wait, H: Hub, P: Ports>(
        &mut self,
        rt: &W,
        pool: &Pool<H>,
        pass: &mut PoolPass,
        ports: &mut P,
        now: u64,
    ) -> Result<(), PoolFault>
        requires { IsCaller pool.now pass.old }
        ensures of { IsCaller pool.now pass.new }
        ensures step { InStep self.old self.new pass.old pass.new }
        ensures known { known_of pass.new.pass ≡ known_of pass.old.pass }
        ensures ok { OnOk result ((got : Option Came) × TakesUplink got (P.around ports.old) (P.around ports.new)) }
        ensures err { OnErr result (StopsAtUplink (P.around ports.old) (P.around ports.new)) }
        ensures cause { Blames (P.counts ports.old).link (P.counts ports.new).link (P.counts ports.old).ether (P.counts ports.new).ether (P.counts ports.old).up (P.counts ports.new).up result }
    {
        let got = ports.next_lower()?;
        self.run_some(rt, pool, pass, ports, now, got)
    }

    /// Collects what is finished, and lets time pass. It is idle where no datagram was put in this turn.
    fn pass_time<W: Wait, H: Hub, P: Ports>(
        &mut self,
        rt: &W,
        pool: &Pool<H>,
        pass: &mut PoolPass,
        ports: &mut P,
        now: u64,
        idle: bool,
    ) -> Result<(), PoolFault>
        requires { IsCaller pool.now pass.old }
        ensures of { IsCaller pool.now pass.new }
        ensures step { InStep self.old self.new pass.old pass.new }
        ensures known { known_of pass.new.pass ≡ known_of pass.old.pass }
        ensures ok { OnOk result (Draws 1 (P.around ports.old) (P.around ports.new)) }
        ensures err { OnErr result ((n : ℕ) × Draws n (P.around ports.old) (P.around ports.new)) }
        ensures cause { Blames (P.counts ports.old).link (P.counts ports.new).link (P.counts ports.old).ether (P.counts ports.new).ether (P.counts ports.old).up (P.counts ports.new).up result }
    {
        self.collect_due(rt, pool, pass, ports, idle)?;
        self.tick(rt, pool, pass, ports, now)
    }

    /// A turn: reads the clock, takes a datagram, an Ethernet frame and a network frame, each where one waits, collects what is finished,
    /// and lets time pass. The datagram is put for a worker, and each other event is a turn of the calling thread.
    pub(crate) fn turn<W: Wait, H: Hub, P: Ports>(
        &mut self,
        rt: &W,
        pool: &Pool<H>,
        pass: &mut PoolPass,
        ports: &mut P,
    ) -> Result<(), PoolFault>
        requires { IsCaller pool.now pass.old }
        ensures of { IsCaller pool.now pass.new }
        ensures step { InStep self.old self.new pass.old pass.new }
        ensures ok { OnOk result ((t : Turn) × (ps : List Put) × MakesTurn t ps (P.around ports.old) (P.around ports.new) × (puts_in pass.new ≡ puts_in pass.old ++ ps)) }
        ensures err { OnErr result ((ps : List Put) × StopsIn ps (P.around ports.old) (P.around ports.new) × (puts_in pass.new ≡ puts_in pass.old ++ ps)) }
        ensures cause { Blames (P.counts ports.old).link (P.counts ports.new).link (P.counts ports.old).ether (P.counts ports.new).ether (P.counts ports.old).up (P.counts ports.new).up result }
    {
        let now = ports.moment();
        let before = self.puts;
        self.from_link(rt, pool, pass, ports, now)?;
        self.from_ether(rt, pool, pass, ports, now)?;
        self.from_uplink(rt, pool, pass, ports, now)?;
        let idle = self.puts == before;
        self.pass_time(rt, pool, pass, ports, now, idle)
    }

    /// Opens a tunnel, where one is to be, at a moment of its own.
    fn begin<W: Wait, H: Hub, P: Ports>(
        &mut self,
        rt: &W,
        pool: &Pool<H>,
        pass: &mut PoolPass,
        ports: &mut P,
        opens: bool,
    ) -> Result<(), PoolFault>
        requires { IsCaller pool.now pass.old }
        ensures of { IsCaller pool.now pass.new }
        ensures step { InStep self.old self.new pass.old pass.new }
        ensures known { known_of pass.new.pass ≡ known_of pass.old.pass }
        ensures ok { OnOk result (Begins opens (P.around ports.old) (P.around ports.new)) }
        ensures err { OnErr result (MayBegin opens (P.around ports.old) (P.around ports.new)) }
        ensures cause { Blames (P.counts ports.old).link (P.counts ports.new).link (P.counts ports.old).ether (P.counts ports.new).ether (P.counts ports.old).up (P.counts ports.new).up result }
    {
        if opens {
            let now = ports.moment();
            self.run(rt, pool, pass, ports, now, &Event::OpenTunnel)
        } else {
            Ok(())
        }
    }

    /// Makes so many turns.
    fn make_turns<W: Wait, H: Hub, P: Ports>(
        &mut self,
        rt: &W,
        pool: &Pool<H>,
        pass: &mut PoolPass,
        ports: &mut P,
        turns: u64,
    ) -> Result<(), PoolFault>
        requires { IsCaller pool.now pass.old }
        ensures of { IsCaller pool.now pass.new }
        ensures step { InStep self.old self.new pass.old pass.new }
        ensures ok { OnOk result ((ts : List Turn) × (ps : List Put) × (length ts ≡ turns) × Runs ts ps (P.around ports.old) (P.around ports.new) × (puts_in pass.new ≡ puts_in pass.old ++ ps)) }
        ensures err { OnErr result ((ps : List Put) × BreaksOff false turns ps (P.around ports.old) (P.around ports.new) × (puts_in pass.new ≡ puts_in pass.old ++ ps)) }
        ensures cause { Blames (P.counts ports.old).link (P.counts ports.new).link (P.counts ports.old).ether (P.counts ports.new).ether (P.counts ports.old).up (P.counts ports.new).up result }
    {
        for _ in 0..turns {
            self.turn(rt, pool, pass, ports)?;
        }
        Ok(())
    }

    /// Opens a tunnel, where one is to be, and makes so many turns. All that it takes from the link it puts, in order, each once and at its
    /// moment, unless it stops.
    pub(crate) fn serve_all<W: Wait, H: Hub, P: Ports>(
        &mut self,
        rt: &W,
        pool: &Pool<H>,
        pass: &mut PoolPass,
        ports: &mut P,
        opens: bool,
        turns: u64,
    ) -> Result<(), PoolFault>
        requires { IsCaller pool.now pass.old }
        ensures of { IsCaller pool.now pass.new }
        ensures step { InStep self.old self.new pass.old pass.new }
        ensures ok { OnOk result ((ps : List Put) × Serves opens turns ps (P.around ports.old) (P.around ports.new) × (puts_in pass.new ≡ puts_in pass.old ++ ps)) }
        ensures err { OnErr result ((ps : List Put) × BreaksOff opens turns ps (P.around ports.old) (P.around ports.new) × (puts_in pass.new ≡ puts_in pass.old ++ ps)) }
        ensures cause { Blames (P.counts ports.old).link (P.counts ports.new).link (P.counts ports.old).ether (P.counts ports.new).ether (P.counts ports.old).up (P.counts ports.new).up result }
    {
        self.begin(rt, pool, pass, ports, opens)?;
        self.make_turns(rt, pool, pass, ports, turns)
    }
}
