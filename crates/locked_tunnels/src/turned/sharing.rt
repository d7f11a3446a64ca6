//! Turns of no tunnel of the table: a new tunnel's first step, and what is declined or ignored.

ghost use Rattle.std.specs.Prelude.{◌≡◌, ◌≤◌, true, None, IfOk, OnOk, OnErr, IfErr};
ghost use Rattle.session_cells.specs.Tokens.{IsOf, count_of, Later};
ghost use Rattle.id_table.specs.Tables.{HasRoom};
ghost use Rattle.tunnel_core.specs.Cores.{HasRoomFor};
ghost use Rattle.step_hub.specs.Hubs.{IsLentAs};
ghost use Rattle.locked_tunnels.specs.Kept.{known};
ghost use Rattle.locked_tunnels.specs.Turns.{Refuses};
ghost use Rattle.locked_tunnels.specs.First.{first_known, first_by, drawn_first, is_to_stand, shared_outputs};

use super::{Turned, plan, settle};
use crate::kept::KeptTunnel;
use crate::listing::{listed_after, listed_of};
use crate::table::{Place, Tunnels};
use end_model::Event;
use event_routing::{Answer, Given, answer_event, copy_event};
use session_cells::{CellSeen, Cells};
use session_looks::{CellChange, CellChanges};
use std::alloc::Global;
use std::sync::{Arc, Mutex};
use step_hub::{Hub, StepError};
use step_records::Spaces;
use tunnel_core::{Env, Outputs, Planned, TunnelCore};
use tunnel_listing::Directory;
use wire_base::NoMemory;

/// A turn that makes no tunnel, and gives this.
fn given_turn<H: Hub>(
    alloc: Global,
    hub: &mut H,
    env: Env,
    event: &Event,
    given: Given,
) -> Result<Turned, StepError>
    requires going { H.stopped hub.old ≡ None }
    requires lent { IsLentAs (H.spaces hub.old) env.on.moment env.on.block env }
    ensures turned { IfOk result (λ t. t ≡ record { event = event.now; moment = env.on.moment; block = env.on.block; outputs = given.outputs }) }
    ensures spaces { H.spaces hub.new ≡ H.spaces hub.old }
    ensures told { H.told hub.new ≡ H.told hub.old }
    ensures refused { IfErr result (λ e. Refuses e None (H.records hub.old) (H.records hub.new) (H.stopped hub.new) (H.faults hub.old) (H.faults hub.new)) }
{
    let mut env = env;
    let (moment, block) = (env.moment, env.block);
    let Ok(event) = copy_event(alloc, event) else {
        hub.back(env);
        return Err(StepError::NoMemory);
    };
    env.outputs = given.outputs;
    env.moves = given.moves;
    let outputs = hub.settle(env)?;
    Ok(Turned {
        event,
        moment,
        block,
        outputs,
    })
}

/// A tunnel to a peer that is new.
fn new_tunnel(directory: &Directory, peer: u32, moment: u64) -> KeptTunnel
    ensures { known result ≡ first_known directory.now.role peer moment }
{
    let alloc = directory.alloc();
    KeptTunnel::new(
        alloc,
        directory.role(),
        TunnelCore::idle(alloc, peer, moment),
        CellChanges::new(alloc),
    )
}

/// Whether a tunnel that is new stands in the table after its first turn: it drew an id, and the turn doesn't remove it.
fn is_to_stand(planned: &Planned) -> bool
    ensures { result ≡ is_to_stand planned.now }
{
    planned.local() != 0 && !planned.clears()
}

/// Makes room for a tunnel that is new, where it is to stand in the table, and a lock for it. Where memory is wanting, the tunnels are as
/// before.
fn make_place(
    table: &mut Tunnels,
    core: &TunnelCore,
    planned: &Planned,
) -> Result<Arc<Mutex<KeptTunnel>>, NoMemory>
    ensures listed { table.new.directory.places.entries ≡ table.old.directory.places.entries }
    ensures listed_room { OnOk result (is_to_stand planned.now ≡ true → HasRoom table.new.directory.places planned.now.control.local) }
    ensures room { OnOk result (is_to_stand planned.now ≡ true → HasRoom table.new.places planned.now.control.local) }
{
    let first = new_tunnel(table.directory(), 0, 0);
    let tunnel = Arc::new(table.directory().alloc(), Mutex::new(first))?;
    if is_to_stand(planned) {
        table.make_room(planned.local(), listed_after(core, planned))?;
    }
    Ok(tunnel)
}

/// Where a first turn drew no tunnel id, nothing that it drew is.
fn undraw(env: &mut Env, local: u16, before: Spaces)
    requires { (before.tunnels.last ≤ 65535) × (before.sessions.last ≤ 65535) }
    ensures { env.new ≡ record env.old { ids = drawn_first local before env.old.ids } }
{
    if local == 0 {
        env.tunnels = before.tunnels;
        env.sessions = before.sessions;
        env.recoveries = before.recoveries;
    }
}

/// Makes the changes of a first turn on the cells, where it drew a tunnel id.
#[tactic(auto, using(session_cells::proofs::Prefixes::prefix_self))]
fn enter_first(cells: &Cells, seen: &mut CellSeen, local: u16, changes: &[CellChange])
    requires full { count_of cells.now ≡ 65536 }
    requires of { IsOf cells.now seen.old }
    ensures { Later cells.now seen.old seen.new }
{
    if local != 0 {
        cells.enter_all(seen, changes);
    }
}

/// Commits what the planned first turn of a tunnel leaves, and makes it, on the tunnel and on the cells. Then the tunnel stands in the
/// table behind this lock, unless it drew no id or is gone.
#[tactic(auto, using(session_cells::proofs::Prefixes::prefix_self))]
fn make_first<H: Hub>(
    table: &mut Tunnels,
    cells: &Cells,
    seen: &mut CellSeen,
    hub: &mut H,
    env: Env,
    kept: KeptTunnel,
    planned: Planned,
    tunnel: Arc<Mutex<KeptTunnel>>,
) -> Result<Outputs, StepError>
    requires full { count_of cells.now ≡ 65536 }
    requires of { IsOf cells.now seen.old }
    requires going { H.stopped hub.old ≡ None }
    requires room { HasRoomFor kept.core planned }
    requires listed_room { is_to_stand planned ≡ true → HasRoom table.old.directory.places planned.control.local }
    requires place { is_to_stand planned ≡ true → HasRoom table.old.places planned.control.local }
    ensures later { Later cells.now seen.old seen.new }
    ensures given { IfOk result (λ outputs. outputs ≡ env.outputs) }
    ensures drawn { OnOk result (H.spaces hub.new ≡ env.ids) }
    ensures told { H.told hub.new ≡ H.told hub.old }
    ensures still { OnErr result (seen.new ≡ seen.old) }
    ensures kept { OnErr result (H.spaces hub.new ≡ H.spaces hub.old) }
    ensures refused { IfErr result (λ e. Refuses e None (H.records hub.old) (H.records hub.new) (H.stopped hub.new) (H.faults hub.old) (H.faults hub.new)) }
{
    let (mut kept, mut tunnel) = (kept, tunnel);
    let (local, stands) = (planned.local(), is_to_stand(&planned));
    let Some(lock) = Arc::get_mut(&mut tunnel) else {
        hub.back(env);
        return Err(StepError::NoMemory);
    };
    let outputs = settle(&mut kept, hub, env, Some(planned))?;
    enter_first(cells, seen, local, kept.changes());
    if stands {
        let (listed, turns, due) = (listed_of(kept.core()), kept.turns(), kept.due());
        table.note(local, kept.added());
        *lock.get_mut() = kept;
        table.put(local, listed, turns, due, Place { tunnel });
    }
    Ok(outputs)
}

/// A new tunnel's first turn. Where it drew no tunnel id, nothing that it drew is.
#[tactic(auto, using(session_cells::proofs::Prefixes::prefix_self), unfolding(end_model::specs::Turn::with_turn))]
fn first_turn<H: Hub>(
    table: &mut Tunnels,
    cells: &Cells,
    seen: &mut CellSeen,
    hub: &mut H,
    env: Env,
    event: &Event,
    peer: u32,
) -> Result<Turned, StepError>
    requires full { count_of cells.now ≡ 65536 }
    requires of { IsOf cells.now seen.old }
    requires going { H.stopped hub.old ≡ None }
    requires lent { IsLentAs (H.spaces hub.old) env.on.moment env.on.block env }
    ensures later { Later cells.now seen.old seen.new }
    ensures turned { IfOk result (λ t. t ≡ record { event = event.now; moment = env.on.moment; block = env.on.block; outputs = (first_by table.old.directory.role (H.told hub.old) (H.spaces hub.old) env.on.moment env.on.block event.now peer).turn.outputs }) }
    ensures told { H.told hub.new ≡ H.told hub.old }
    ensures still { OnErr result (seen.new ≡ seen.old) }
    ensures kept { OnErr result (H.spaces hub.new ≡ H.spaces hub.old) }
    ensures refused { IfErr result (λ e. Refuses e None (H.records hub.old) (H.records hub.new) (H.stopped hub.new) (H.faults hub.old) (H.faults hub.new)) }
{
    let mut env = env;
    let (moment, block) = (env.moment, env.block);
    let before = Spaces {
        tunnels: env.tunnels,
        sessions: env.sessions,
        recoveries: env.recoveries,
    };
    let mut kept = new_tunnel(table.directory(), peer, moment);
    let Ok((planned, event)) = plan(&mut kept, hub.config(), &mut env, event) else {
        hub.back(env);
        return Err(StepError::NoMemory);
    };
    let Ok(tunnel) = make_place(table, kept.core(), &planned) else {
        hub.back(env);
        return Err(StepError::NoMemory);
    };
    undraw(&mut env, planned.local(), before);
    let outputs = make_first(table, cells, seen, hub, env, kept, planned, tunnel)?;
    Ok(Turned {
        event,
        moment,
        block,
        outputs,
    })
}

/// A turn for an event that no tunnel of the table takes, at a moment in milliseconds and with 16 random bytes: a new tunnel's first
/// turn, or what is declined or ignored. The caller holds the table's lock and the hub's, so that no second tunnel is made for one
/// SCCRQ. No tunnel is looked at: an event that is for one of the table is its caller's to give to that tunnel, and is ignored here.
/// Where it is refused, the cells and where ids are drawn from are as before.
#[tactic(auto, using(session_cells::proofs::Prefixes::prefix_self))]
pub fn shared_turn<H: Hub>(
    table: &mut Tunnels,
    cells: &Cells,
    seen: &mut CellSeen,
    hub: &mut H,
    moment: u64,
    block: [u8; 16],
    event: &Event,
) -> Result<Turned, StepError>
    requires full { count_of cells.now ≡ 65536 }
    requires of { IsOf cells.now seen.old }
    ensures later { Later cells.now seen.old seen.new }

    // It is told its event, moment and block, and gives what the table and the hub lead to.
    ensures turned { IfOk result (λ t. t ≡ record { event = event.now; moment = moment; block = block; outputs = shared_outputs table.old.directory (H.told hub.old) (H.spaces hub.old) moment block event.now }) }
    ensures told { H.told hub.new ≡ H.told hub.old }

    // Where it is refused, nothing else is changed but by a fault, and the refusal has its cause.
    ensures still { OnErr result (seen.new ≡ seen.old) }
    ensures kept { OnErr result (H.spaces hub.new ≡ H.spaces hub.old) }
    ensures refused { IfErr result (λ e. Refuses e (H.stopped hub.old) (H.records hub.old) (H.records hub.new) (H.stopped hub.new) (H.faults hub.old) (H.faults hub.new)) }
{
    let env = hub.lend(moment, block)?;
    let alloc = table.directory().alloc();
    let Ok(found) = answer_event(table.directory(), hub.config(), env.tunnels, event) else {
        hub.back(env);
        return Err(StepError::NoMemory);
    };
    match found {
        Answer::Opens { peer } => first_turn(table, cells, seen, hub, env, event, peer),
        Answer::Gives { given } => given_turn(alloc, hub, env, event, given),
    }
}
