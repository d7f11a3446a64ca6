//! Datagrams are put for workers, and what is finished is collected.

ghost use Rattle.std.specs.Prelude.{◌≡◌, ◌++◌, ◌∷◌, [], OnOk, OnErr, IfErr};
ghost use Rattle.session_cells.specs.Tokens.{log_of, IsOf};
ghost use Rattle.session_workers.specs.Passes.{known_of};
ghost use Rattle.worker_pool.specs.Pools.{IsCaller};
ghost use Rattle.port_events.specs.Giving.{Blames};
ghost use Rattle.pool_turns.specs.Turns.{Draws, first_block};
ghost use Rattle.pool_serving.specs.Handing.{InStep, puts_in};

use crate::counting::one_more;
use crate::desk::{Desk, PoolFault};
use held_ports::Ports;
use session_cells::CellSeen;
use session_workers::{Gate, Item, Worked};
use std::sync::Wait;
use std::thread;
use step_hub::Hub;
use wire_base::Bytes;
use worker_pool::{Pool, PoolPass, collect, put, work_one};

/// How many finished items are collected at a time: as many as may wait.
const PLACES: u32 = 1_024;

/// How often the calling thread looks for what workers are about to finish. That takes about as long as to wake one.
const LOOKS: u32 = 512;

impl<G: Gate> Desk<G> {
    /// Works an item, where one waits, and gives it to the ports.
    fn work<W: Wait, H: Hub, P: Ports>(
        &mut self,
        rt: &W,
        pool: &Pool<H>,
        pass: &mut PoolPass,
        ports: &mut P,
    ) -> Result<(), PoolFault>
        requires { IsCaller pool.now pass.old }
        ensures of { IsCaller pool.now pass.new }
        ensures step { InStep self.old self.new pass.old pass.new }
        ensures known { known_of pass.new.pass ≡ known_of pass.old.pass }
        ensures grows { Draws 0 (P.around ports.old) (P.around ports.new) }
        ensures cause { Blames (P.counts ports.old).link (P.counts ports.new).link (P.counts ports.old).ether (P.counts ports.new).ether (P.counts ports.old).up (P.counts ports.new).up result }
    {
        match work_one(rt, pool, pass, &self.gate) {
            Worked::Empty => {
                thread::yield_now();
                Ok(())
            }
            Worked::Done(finished) => self.take_back(rt, pool, pass, ports, &finished),
        }
    }

    /// Puts an item, where there is room for it; its bytes come back where there is none.
    fn try_put<W: Wait, H: Hub>(
        &mut self,
        rt: &W,
        pool: &Pool<H>,
        pass: &mut PoolPass,
        peer: u32,
        bytes: Bytes,
        now: u64,
        block: [u8; 16],
    ) -> Result<(), Bytes>
        requires { IsCaller pool.now pass.old }
        ensures of { IsCaller pool.now pass.new }
        ensures step { InStep self.old self.new pass.old pass.new }
        ensures ok { OnOk result (puts_in pass.new ≡ puts_in pass.old ++ record { peer = peer; bytes = bytes; now = now; block = block } ∷ []) }
        ensures err { OnErr result (known_of pass.new.pass ≡ known_of pass.old.pass) }
        ensures back { IfErr result (λ back. back ≡ bytes) }
    {
        let item = Item {
            seen: pool.shared.locked.cells.seen_again(&pass.pass.seen),
            lns: self.lns,
            peer,
            bytes,
            now,
            block,
        };
        match put(rt, pool, pass, item) {
            Ok(()) => {
                self.puts = one_more(rt, self.puts);
                Ok(())
            }
            Err(full) => Err(full.item.bytes),
        }
    }

    /// Puts an item, and works until there is room for it: there may be no worker. Where what is worked stops the pool, it isn't put.
    fn put_item<W: Wait, H: Hub, P: Ports>(
        &mut self,
        rt: &W,
        pool: &Pool<H>,
        pass: &mut PoolPass,
        ports: &mut P,
        peer: u32,
        bytes: Bytes,
        now: u64,
        block: [u8; 16],
    ) -> Result<(), PoolFault>
        requires { IsCaller pool.now pass.old }
        ensures of { IsCaller pool.now pass.new }
        ensures step { InStep self.old self.new pass.old pass.new }
        ensures ok { OnOk result (puts_in pass.new ≡ puts_in pass.old ++ record { peer = peer; bytes = bytes; now = now; block = block } ∷ []) }
        ensures err { OnErr result (puts_in pass.new ≡ puts_in pass.old) }
        ensures grows { Draws 0 (P.around ports.old) (P.around ports.new) }
        ensures cause { Blames (P.counts ports.old).link (P.counts ports.new).link (P.counts ports.old).ether (P.counts ports.new).ether (P.counts ports.old).up (P.counts ports.new).up result }
    {
        let mut waiting = bytes;
        for _ in rt.forever() {
            match self.try_put(rt, pool, pass, peer, waiting, now, block) {
                Ok(()) => return Ok(()),
                Err(back) => waiting = back,
            }
            self.work(rt, pool, pass, ports)?;
        }
        unreachable!()
    }

    /// Puts a datagram from a peer for a worker, with the moment of its turn and the next block.
    pub(crate) fn put_datagram<W: Wait, H: Hub, P: Ports>(
        &mut self,
        rt: &W,
        pool: &Pool<H>,
        pass: &mut PoolPass,
        ports: &mut P,
        now: u64,
        peer: u32,
        bytes: Bytes,
    ) -> Result<(), PoolFault>
        requires { IsCaller pool.now pass.old }
        ensures of { IsCaller pool.now pass.new }
        ensures step { InStep self.old self.new pass.old pass.new }
        ensures ok { OnOk result (puts_in pass.new ≡ puts_in pass.old ++ record { peer = peer; bytes = bytes; now = now; block = first_block (P.around ports.old).stream } ∷ []) }
        ensures err { OnErr result (puts_in pass.new ≡ puts_in pass.old) }
        ensures draws { Draws 1 (P.around ports.old) (P.around ports.new) }
        ensures cause { Blames (P.counts ports.old).link (P.counts ports.new).link (P.counts ports.old).ether (P.counts ports.new).ether (P.counts ports.old).up (P.counts ports.new).up result }
    {
        let block = ports.block();
        self.put_item(rt, pool, pass, ports, peer, bytes, now, block)
    }

    /// Collects an item, where one is finished, and gives it to the ports; tells whether there was one.
    fn collect_one<W: Wait, H: Hub, P: Ports>(
        &mut self,
        rt: &W,
        pool: &Pool<H>,
        pass: &mut PoolPass,
        ports: &mut P,
    ) -> Result<bool, PoolFault>
        requires { IsCaller pool.now pass.old }
        ensures of { IsCaller pool.now pass.new }
        ensures step { InStep self.old self.new pass.old pass.new }
        ensures known { known_of pass.new.pass ≡ known_of pass.old.pass }
        ensures grows { Draws 0 (P.around ports.old) (P.around ports.new) }
        ensures cause { Blames (P.counts ports.old).link (P.counts ports.new).link (P.counts ports.old).ether (P.counts ports.new).ether (P.counts ports.old).up (P.counts ports.new).up result }
    {
        match collect(rt, pool, pass) {
            None => Ok(false),
            Some(finished) => {
                self.take_back(rt, pool, pass, ports, &finished)?;
                Ok(true)
            }
        }
    }

    /// Collects what is finished, and gives it to the ports.
    fn collect_all<W: Wait, H: Hub, P: Ports>(
        &mut self,
        rt: &W,
        pool: &Pool<H>,
        pass: &mut PoolPass,
        ports: &mut P,
    ) -> Result<(), PoolFault>
        requires { IsCaller pool.now pass.old }
        ensures of { IsCaller pool.now pass.new }
        ensures step { InStep self.old self.new pass.old pass.new }
        ensures known { known_of pass.new.pass ≡ known_of pass.old.pass }
        ensures grows { Draws 0 (P.around ports.old) (P.around ports.new) }
        ensures cause { Blames (P.counts ports.old).link (P.counts ports.new).link (P.counts ports.old).ether (P.counts ports.new).ether (P.counts ports.old).up (P.counts ports.new).up result }
    {
        for _ in 0..PLACES {
            if !self.collect_one(rt, pool, pass, ports)? {
                return Ok(());
            }
        }
        Ok(())
    }

    /// Collects until all that was put came back, or it has looked so often: what workers are about to finish isn't to wait until the
    /// calling thread has rested.
    fn collect_rest<W: Wait, H: Hub, P: Ports>(
        &mut self,
        rt: &W,
        pool: &Pool<H>,
        pass: &mut PoolPass,
        ports: &mut P,
    ) -> Result<(), PoolFault>
        requires { IsCaller pool.now pass.old }
        ensures of { IsCaller pool.now pass.new }
        ensures step { InStep self.old self.new pass.old pass.new }
        ensures known { known_of pass.new.pass ≡ known_of pass.old.pass }
        ensures grows { Draws 0 (P.around ports.old) (P.around ports.new) }
        ensures cause { Blames (P.counts ports.old).link (P.counts ports.new).link (P.counts ports.old).ether (P.counts ports.new).ether (P.counts ports.old).up (P.counts ports.new).up result }
    {
        for _ in 0..LOOKS {
            if self.given >= self.puts {
                return Ok(());
            }
            if !self.collect_one(rt, pool, pass, ports)? {
                thread::yield_now();
            }
        }
        Ok(())
    }

    /// Collects what is finished, and, where nothing came for the workers, what they are about to finish.
    pub(crate) fn collect_due<W: Wait, H: Hub, P: Ports>(
        &mut self,
        rt: &W,
        pool: &Pool<H>,
        pass: &mut PoolPass,
        ports: &mut P,
        idle: bool,
    ) -> Result<(), PoolFault>
        requires { IsCaller pool.now pass.old }
        ensures of { IsCaller pool.now pass.new }
        ensures step { InStep self.old self.new pass.old pass.new }
        ensures known { known_of pass.new.pass ≡ known_of pass.old.pass }
        ensures grows { Draws 0 (P.around ports.old) (P.around ports.new) }
        ensures cause { Blames (P.counts ports.old).link (P.counts ports.new).link (P.counts ports.old).ether (P.counts ports.new).ether (P.counts ports.old).up (P.counts ports.new).up result }
    {
        if idle {
            self.collect_rest(rt, pool, pass, ports)
        } else {
            self.collect_all(rt, pool, pass, ports)
        }
    }
}
