//! The calls of a book, by their tunnels.

ghost use Rattle.std.specs.Prelude.{◌≡◌, ◌++◌, ◌∷◌, [], ℕ, OnOk, IfOk};
ghost use Rattle.id_table.specs.Ids.{at};
ghost use Rattle.session_book.specs.Books.{calls_of};
ghost use Rattle.end_core.specs.Keeping.{calls_in, AreByTunnel};

use id_table::Table;
use session_book::BookCall;
use std::alloc::Global;
use wire_base::{NoMemory, Sequence};

/// Calls by the local ids of their tunnels, those of a tunnel in order.
pub(crate) type ByTunnel = Table<Sequence<BookCall>>;

/// Puts a call behind those of its tunnel.
fn put_call(table: &mut ByTunnel, alloc: Global, call: &BookCall) -> Result<(), NoMemory>
    ensures { OnOk result ((i : ℕ) → calls_in (at table.new.entries i) ≡ calls_in (at table.old.entries i) ++ calls_of i (call.now ∷ [])) }
{
    let tunnel = u32::from(call.tunnel);
    if let Some(calls) = table.get_mut(tunnel) {
        return calls.push(*call);
    }
    let mut calls = Sequence::new(alloc);
    calls.push(*call)?;
    table.make_room(tunnel)?;
    table.fill(tunnel, calls);
    Ok(())
}

/// The calls of each tunnel.
pub(crate) fn calls_by_tunnel(alloc: Global, calls: &[BookCall]) -> Result<ByTunnel, NoMemory>
    ensures { IfOk result (λ table. AreByTunnel table.entries calls.now) }
{
    let mut table = ByTunnel::new(alloc);
    for call in calls {
        put_call(&mut table, alloc, call)?;
    }
    Ok(table)
}

/// Those of a tunnel.
pub(crate) fn calls_of_tunnel(table: &ByTunnel, tunnel: u16) -> &[BookCall]
    ensures { result.now ≡ calls_in (at table.now.entries tunnel) }
{
    match table.get(u32::from(tunnel)) {
        None => &[],
        Some(calls) => calls.as_slice(),
    }
}
