//! The tables of an end, for printing: its tunnels with their calls, by local ids.

ghost use Rattle.std.specs.Prelude.{◌≡◌, ◌++◌, ◌∷◌, [], IfOk, OnOk, Some};
ghost use Rattle.id_table.specs.Ids.{at};
ghost use Rattle.tunnel_table.specs.Cores.{tunnel_of};
ghost use Rattle.end_core.specs.Rows.{rows_at, tunnel_rows, call_rows, calls_at};

use crate::end::End;
use call_fsm::CallState;
use end_model::{Call, Mode};
use id_table::Table;
use std::alloc::Global;
use tunnel_fsm::TunnelState;
use tunnel_table::TunnelCore;
use wire_base::{NoMemory, Sequence};

/// A call of a tunnel.
#[derive(Clone, Copy)]
pub struct CallRow {
    /// Its local session id.
    pub local: u16,
    /// The session id that the peer assigned to it, 0 as long as none is known.
    pub remote: u16,
    pub state: CallState,
}

/// The calls of a tunnel, by local session id.
pub type CallTable = Sequence<CallRow>;

/// A tunnel of an end.
#[derive(Drop)]
pub struct TunnelRow {
    /// Its local tunnel id.
    pub local: u16,
    /// The address of its peer, an IPv4 address as a number.
    pub peer: u32,
    /// The tunnel id that the peer assigned to it, 0 as long as none is known.
    pub remote: u16,
    pub state: TunnelState,
    pub mode: Mode,
    /// Whether it is known of each session that was established at its last reset whether the peer has it: after a recovery each end asks
    /// the other one for its sessions.
    pub complete: bool,
    pub calls: CallTable,
}

/// The tunnels of an end, by local tunnel id.
pub type EndRows = Sequence<TunnelRow>;

/// The calls of a tunnel, by local session id.
#[tactic(auto, unfolding(crate::specs::Rows::call_rows))]
fn call_rows(alloc: Global, calls: &Table<Call>) -> Result<CallTable, NoMemory>
    ensures { IfOk result (λ rows. rows ≡ call_rows calls.now.entries) }
{
    let sessions = calls.ids(alloc)?;
    let mut rows = CallTable::new(alloc);
    for session in sessions.as_slice() {
        if let Some(call) = calls.get(*session) {
            rows.push(CallRow {
                local: (*session % 65_536) as u16,
                remote: call.remote,
                state: call.state,
            })?;
        }
    }
    Ok(rows)
}

fn tunnel_row(alloc: Global, core: &TunnelCore) -> Result<TunnelRow, NoMemory>
    ensures { IfOk result (λ row. row ∷ [] ≡ rows_at (Some (tunnel_of core.now))) }
{
    let control = core.control();
    Ok(TunnelRow {
        local: control.local,
        peer: control.peer,
        remote: control.remote,
        state: control.state,
        mode: core.mode(),
        complete: core.is_complete(),
        calls: call_rows(alloc, core.calls())?,
    })
}

impl End {
    /// The tunnels with their calls, by local ids.
    #[tactic(auto, unfolding(crate::specs::Rows::tunnel_rows))]
    pub fn tunnel_rows(&self, alloc: Global) -> Result<EndRows, NoMemory>
        ensures { IfOk result (λ rows. rows ≡ tunnel_rows self.now) }
    {
        let ids = self.tunnel_ids(alloc)?;
        let mut rows = EndRows::new(alloc);
        for id in ids.as_slice() {
            if let Some(core) = self.tunnel(*id) {
                rows.push(tunnel_row(alloc, core)?)?;
            }
        }
        Ok(rows)
    }
}
