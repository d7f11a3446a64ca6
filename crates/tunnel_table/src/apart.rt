//! A table of tunnels is given up for its tunnels.

ghost use Rattle.std.specs.Prelude.{◌≡◌, ◌++◌, map, option_to_list, IfOk, OnOk};
ghost use Rattle.id_table.specs.Ids.{at, without, ids_of};
ghost use Rattle.tunnel_table.specs.Apart.{cores_of};

use crate::table::TunnelTable;
use id_table::Table;
use std::alloc::Global;
use tunnel_core::TunnelCore;
use wire_base::{NoMemory, Sequence};

/// Tunnels with their calls.
pub type Cores = Sequence<TunnelCore>;

/// Takes the value with an id out of a table, behind others that were taken out. Where memory is wanting, it is let go.
fn take_out<V: Drop>(taken: &mut Sequence<V>, table: &mut Table<V>, id: u32) -> Result<(), NoMemory>
    ensures taken { OnOk result (taken.new ≡ taken.old ++ option_to_list (at table.old.entries id)) }
    ensures left { table.new.entries ≡ without table.old.entries id }
{
    match table.remove(id) {
        Some(value) => taken.push(value),
        None => Ok(()),
    }
}

/// Takes all values out of a table, which has these ids.
fn take_all<V: Drop>(
    table: &mut Table<V>,
    alloc: Global,
    ids: &[u32],
) -> Result<Sequence<V>, NoMemory>
    requires { ids.now ≡ ids_of table.old.entries }
    ensures { IfOk result (λ taken. taken ≡ map (λ e. e.1) table.old.entries) }
{
    let mut taken = Sequence::new(alloc);
    for id in ids {
        take_out(&mut taken, table, *id)?;
    }
    Ok(taken)
}

impl TunnelTable {
    /// The tunnels, in the order of their local ids. The table is given up, also where memory is wanting.
    pub fn into_cores(self, alloc: Global) -> Result<Cores, NoMemory>
        ensures { IfOk result (λ cores. cores ≡ cores_of self.entries) }
    {
        let mut table = self.into_table();
        let ids = table.ids(alloc)?;
        take_all(&mut table, alloc, ids.as_slice())
    }
}
