//! The hosts of the calls that were kept over a start.

ghost use Rattle.std.specs.Prelude.{◌≡◌, [], IfOk, OnOk};
ghost use Rattle.end_model.specs.Starting.{is_port, kept_host, kept_hosts};

use crate::answers::hold;
use pppoe_session::Table;
use session_book::BookCall;
use std::alloc::Global;
use wire_base::NoMemory;

/// Whether the six bytes of a subscriber stand for a port: no host has an address that begins so.
fn is_port(subscriber: &[u8]) -> bool
    ensures { result ≡ is_port subscriber.now }
{
    match subscriber {
        [first, second, ..] => *first == 0xff && *second == 0xff,
        _ => false,
    }
}

/// Gives the session of a call that was kept to its host, where a host had it. The host's PADR is lost, and its Host-Uniq with it.
fn keep_host(hosts: &mut Table, alloc: Global, call: &BookCall) -> Result<(), NoMemory>
    ensures { OnOk result (hosts.new ≡ kept_host call.now hosts.old) }
{
    if is_port(&call.subscriber) {
        return Ok(());
    }
    hold(hosts, alloc, call.local, call.subscriber, &None)?;
    Ok(())
}

/// The hosts of calls that were kept, by their sessions.
#[tactic(auto, unfolding(end_model::specs::Starting::kept_hosts))]
pub fn keep_hosts(alloc: Global, calls: &[BookCall]) -> Result<Table, NoMemory>
    ensures { IfOk result (λ hosts. hosts ≡ kept_hosts calls.now []) }
{
    let mut hosts = Table::new(alloc);
    for call in calls {
        keep_host(&mut hosts, alloc, call)?;
    }
    Ok(hosts)
}
