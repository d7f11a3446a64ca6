//! What the calling thread of a pool holds.

ghost use Rattle.std.specs.Prelude.{◌≡◌, ◌+◌, length, None};
ghost use Rattle.session_workers.specs.Passes.{items_of, finished_of, known_of, gave_of};
ghost use Rattle.worker_pool.specs.Pools.{IsCaller, HasParts, ends_of};
ghost use Rattle.pool_serving.specs.Faults.{is_of_port, is_cut_off, then_fault, fault_then, told_by, has_stopped, OnCalm};
ghost use Rattle.pool_serving.specs.Handing.{HandsOver};
ghost use Rattle.pool_serving.specs.Serving.{PoolServes, ServesPutting};
ghost use Rattle.pool_serving.specs.declared.serving.PoolServing.{PoolServing as Holding};

use crate::desk::{Desk, PoolFault};
use held_ports::Ports;
use port_events::TurnFault;
use session_workers::{Finished, Gate};
use std::sync::Wait;
use step_hub::Hub;
use worker_pool::{Pool, PoolPass, Serving};

/// What the calling thread of a pool holds: the ports and a desk, both lent, how many turns it is to make, whether it opens a tunnel before
/// them, and why it takes and puts nothing more, once that is so. It owns no memory, so whoever lent the ports has them back at its end.
#[derive(Drop)]
pub struct PoolServing<'a, P: Ports, G: Gate> {
    pub ports: &'a mut P,
    pub desk: &'a mut Desk<G>,
    pub turns: u64,
    pub opens: bool,
    pub fault: Option<PoolFault>,
}

/// Whether it is a fault of a port: then nothing more goes to any.
fn is_of_port(fault: &PoolFault) -> bool
    ensures { result ≡ is_of_port fault.now }
{
    matches!(
        fault,
        TurnFault::LinkFault | TurnFault::EtherFault | TurnFault::UplinkFault
    )
}

/// The fault that counts of an earlier and a later one: the first of a port, and else the first.
fn then_fault(earlier: Option<PoolFault>, later: PoolFault) -> PoolFault
    ensures { result ≡ then_fault earlier later }
{
    match earlier {
        None => later,
        Some(earlier) => {
            if is_of_port(&earlier) || !is_of_port(&later) {
                earlier
            } else {
                later
            }
        }
    }
}

/// Why it stops, where it does.
fn fault_of(outcome: Result<(), PoolFault>) -> Option<PoolFault>
    ensures { told_by result ≡ outcome }
{
    match outcome {
        Ok(()) => None,
        Err(fault) => Some(fault),
    }
}

/// The fault that counts after another outcome.
fn fault_then(earlier: Option<PoolFault>, outcome: Result<(), PoolFault>) -> Option<PoolFault>
    ensures { result ≡ fault_then earlier outcome }
{
    match outcome {
        Ok(()) => earlier,
        Err(fault) => Some(then_fault(earlier, fault)),
    }
}

impl<'a, P: Ports, G: Gate> PoolServing<'a, P, G> {
    /// Whether a port failed.
    fn is_cut_off(&self) -> bool
        ensures { result ≡ is_cut_off self.now.fault }
    {
        match &self.fault {
            Some(fault) => is_of_port(fault),
            None => false,
        }
    }
}

impl<'a, H: Hub, P: Ports, G: Gate> Serving<H> for PoolServing<'a, P, G> {
    ghost given = { λ s. s.desk.now.given };

    ghost puts = { λ s. s.desk.now.puts };

    ghost serves = { PoolServes P.around P.counts };

    fn serve<W: Wait>(&mut self, rt: &W, pool: &Pool<H>, pass: &mut PoolPass)
        requires of { IsCaller pool.now pass.old }
        ensures of { IsCaller pool.now pass.new }
        ensures same { (gave_of pass.new.pass ≡ gave_of pass.old.pass) × HasParts pass.old pass.new }
        ensures given { self.new.desk.now.given + ends_of pass.old ≡ self.old.desk.now.given + ends_of pass.new }
        ensures puts { self.new.desk.now.puts + length (known_of pass.old.pass) ≡ self.old.desk.now.puts + length (known_of pass.new.pass) }
        ensures serves { PoolServes P.around P.counts self.old self.new }
        ensures putting { self.old.fault ≡ None → ServesPutting P.around P.counts self.old self.new pass.old pass.new }
    {
        if self.fault.is_some() {
            return;
        }
        let (opens, turns) = (self.opens, self.turns);
        let outcome = self
            .desk
            .serve_all(rt, pool, pass, self.ports, opens, turns);
        self.fault = fault_of(outcome);
    }

    fn finished<W: Wait>(&mut self, rt: &W, pool: &Pool<H>, pass: &mut PoolPass, finished: Finished)
        requires of { IsCaller pool.now pass.old }
        ensures of { IsCaller pool.now pass.new }
        ensures still { (items_of pass.new.pass ≡ items_of pass.old.pass) × (finished_of pass.new.pass ≡ finished_of pass.old.pass) }
        ensures given { self.new.desk.now.given ≡ self.old.desk.now.given + 1 }
        ensures puts { self.new.desk.now.puts ≡ self.old.desk.now.puts }
        ensures serves { (s : Holding P G) → PoolServes P.around P.counts s self.old → PoolServes P.around P.counts s self.new }
        // Unless a port failed, exactly what the item comes to went to the ports, and nothing else.
        ensures handed { OnCalm (told_by self.new.fault) (HandsOver (has_stopped (told_by self.new.fault)) self.new.desk.now.hosts pass.new finished (P.around self.old.ports.now) (P.around self.new.ports.now)) }
    {
        if self.is_cut_off() {
            self.desk.count(rt);
            return;
        }
        let outcome = self.desk.take_back(rt, pool, pass, self.ports, &finished);
        self.fault = fault_then(self.fault, outcome);
    }
}
