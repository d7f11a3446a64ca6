//! The answers to a host that wants a call, and who holds the sessions.

ghost use Rattle.std.specs.Prelude.{◌≡◌, IfOk, OnOk, OnErr, find, option_copied};
ghost use Rattle.pppoe_discovery.specs.Told.{IsAdmission};
ghost use Rattle.pppoe_session.specs.Subscribers.{subscriber};
ghost use Rattle.end_model.specs.Access.{forgets, holds, refusal_in, ring_cause};
ghost use Rattle.lac_core.specs.Entering.{AreRefusals, frame_for, is_refused, let_go};

use end_model::Out;
use pppoe_discovery::{Discovered, write_pads};
use pppoe_session::{AdmitError, Table};
use std::alloc::Global;
use wire_base::{Bytes, Cause, NoMemory};

/// The PADS that refuse a PADR (RFC 2516 section 5.4), one for each cause for which a ring may be refused.
#[derive(Drop)]
pub struct Refusals {
    tunnels: Bytes,
    calls: Bytes,
    queue: Bytes,
    recovering: Bytes,
    ids: Bytes,
}

/// The PADS from an address that refuse a PADR.
pub fn write_refusals(
    alloc: Global,
    mac: &[u8; 6],
    asked: &Discovered,
) -> Result<Refusals, NoMemory>
    requires { IsAdmission asked.now }
    ensures { IfOk result (AreRefusals mac.now asked.now) }
{
    Ok(Refusals {
        tunnels: write_pads(alloc, mac, asked, 0, Some(Cause::Tunnels))?,
        calls: write_pads(alloc, mac, asked, 0, Some(Cause::Calls))?,
        queue: write_pads(alloc, mac, asked, 0, Some(Cause::Queue))?,
        recovering: write_pads(alloc, mac, asked, 0, Some(Cause::Recovering))?,
        ids: write_pads(alloc, mac, asked, 0, Some(Cause::Ids))?,
    })
}

/// The first output that tells a cause.
fn first_refused(outputs: &[Out]) -> Option<&Out>
    ensures { option_copied result ≡ find is_refused outputs.now }
{
    outputs.iter().find(|out| matches!(out, Out::Cause { .. }))
}

/// The cause for which a ring is refused, where this one is told.
fn ring_cause(cause: Cause) -> Cause
    ensures { result ≡ ring_cause cause }
{
    match cause {
        Cause::Tunnels | Cause::Calls | Cause::Queue | Cause::Recovering => cause,
        _ => Cause::Ids,
    }
}

/// The cause for which a ring was refused, by what the step gave.
#[tactic(auto, using(crate::proofs::Entering::refusal_found))]
fn refusal_in(outputs: &[Out]) -> Cause
    ensures { result ≡ refusal_in outputs.now }
{
    match first_refused(outputs) {
        Some(Out::Cause { cause }) => ring_cause(*cause),
        _ => Cause::Ids,
    }
}

impl Refusals {
    /// The one for what the step gave.
    pub fn choose(self, outputs: &[Out]) -> Bytes
        ensures { result ≡ frame_for self (refusal_in outputs.now) }
    {
        match refusal_in(outputs) {
            Cause::Tunnels => self.tunnels,
            Cause::Calls => self.calls,
            Cause::Queue => self.queue,
            Cause::Recovering => self.recovering,
            _ => self.ids,
        }
    }
}

fn copy_uniq(alloc: Global, uniq: &Option<Bytes>) -> Result<Option<Bytes>, NoMemory>
    ensures { IfOk result (λ copy. copy ≡ uniq.now) }
{
    match uniq {
        Some(uniq) => Ok(Some(Bytes::from_slice(alloc, uniq.as_slice())?)),
        None => Ok(None),
    }
}

/// Gives a session to a host where nobody holds it, and tells whether it did.
pub fn hold(
    hosts: &mut Table,
    alloc: Global,
    session: u16,
    mac: [u8; 6],
    uniq: &Option<Bytes>,
) -> Result<bool, NoMemory>
    ensures held { OnOk result (hosts.new ≡ holds hosts.old session (subscriber mac uniq.now)) }
    ensures undone { IfOk result (λ given. let_go given session hosts.new ≡ hosts.old) }
    ensures err { OnErr result (hosts.new ≡ hosts.old) }
{
    let uniq = copy_uniq(alloc, uniq)?;
    match hosts.admit(mac, session, uniq) {
        Ok(()) => Ok(true),
        Err(AdmitError::Taken { .. }) => Ok(false),
        Err(AdmitError::NoMemory) => Err(NoMemory),
    }
}

/// Takes a session back, where it was given. It takes no memory.
pub fn take_back(hosts: &mut Table, session: u16, given: bool)
    ensures { hosts.new ≡ let_go given session hosts.old }
{
    if given {
        hosts.drop_one(session);
    }
}

/// Forgets who had a session before, where there is one. It takes no memory.
pub fn forget(hosts: &mut Table, before: Option<u16>)
    ensures { hosts.new ≡ forgets before hosts.old }
{
    if let Some(session) = before {
        hosts.drop_one(session);
    }
}
