//! The sessions of the calls that a step leaves in its tunnel.

ghost use Rattle.std.specs.Prelude.{◌≡◌, [], IfOk, OnOk};
ghost use Rattle.std.specs.List.Sorted.{IsStrictlySortedBy};
ghost use Rattle.std.specs.Ordering.{nat_cmp};
ghost use Rattle.id_table.specs.Ids.{ids_of};
ghost use Rattle.end_model.specs.Events.{with_calls};
ghost use Rattle.tunnel_recovery.specs.Left.{changed_id, changed_ids};

use end_model::Call;
use id_table::Table;
use std::alloc::Global;
use tunnel_calls::TunnelCalls;
use wire_base::{NoMemory, Sequence};

/// Puts ids, each of which is above those before it, into a table that is empty.
fn put_all(table: &mut Table<()>, sessions: &[u32]) -> Result<(), NoMemory>
    requires empty { table.old.entries ≡ [] }
    requires ascend { IsStrictlySortedBy nat_cmp sessions.now }
    ensures { OnOk result (ids_of table.new.entries ≡ sessions.now) }
{
    for session in sessions {
        table.insert(*session, ())?;
    }
    Ok(())
}

/// The sessions of calls, as a table.
fn sessions_of(alloc: Global, calls: &TunnelCalls) -> Result<Table<()>, NoMemory>
    ensures { IfOk result (λ table. ids_of table.entries ≡ ids_of calls.now.entries) }
{
    let sessions = calls.table().ids(alloc)?;
    let mut table = Table::new(alloc);
    put_all(&mut table, sessions.as_slice())?;
    Ok(table)
}

/// A call that a step made or changed is there then, and one that it ended isn't.
#[tactic(auto, using(crate::proofs::Sessions::ids_put, crate::proofs::Sessions::ids_without))]
fn change(table: &mut Table<()>, session: u32, call: &Option<Call>) -> Result<(), NoMemory>
    ensures { OnOk result (ids_of table.new.entries ≡ changed_id (ids_of table.old.entries) session call.now) }
{
    match call {
        Some(_) => table.insert(session, ()),
        None => {
            table.remove(session);
            Ok(())
        }
    }
}

/// Each call that a step made, changed or ended, in order.
#[tactic(auto, unfolding(crate::specs::Left::changed_ids))]
fn change_all(table: &mut Table<()>, changed: &[(u32, Option<Call>)]) -> Result<(), NoMemory>
    ensures { OnOk result (ids_of table.new.entries ≡ changed_ids changed.now (ids_of table.old.entries)) }
{
    for (session, call) in changed {
        change(table, *session, call)?;
    }
    Ok(())
}

/// The sessions of these calls with those that a step changed, in order.
#[tactic(auto, using(crate::proofs::Sessions::ids_left))]
pub(crate) fn sessions_left(
    alloc: Global,
    changed: &[(u32, Option<Call>)],
    calls: &TunnelCalls,
) -> Result<Sequence<u32>, NoMemory>
    ensures { IfOk result (λ sessions. sessions ≡ ids_of (with_calls changed.now calls.now.entries)) }
{
    let mut table = sessions_of(alloc, calls)?;
    change_all(&mut table, changed)?;
    table.ids(alloc)
}
