//! Turns. What a turn was told and gave is told by a value that is made here alone.

ghost use Rattle.std.specs.Prelude.{◌≡◌, false, length, IfOk, IfSome, OnOk, OnErr, IfErr, Ok, None};
ghost use Rattle.session_cells.specs.Tokens.{log_of, IsOf, count_of, Later};
ghost use Rattle.session_cells.specs.Logs.{AllEntered};
ghost use Rattle.session_cells.specs.Changes.{entries_of};
ghost use Rattle.step_records.specs.Leaving.{leaves};
ghost use Rattle.end_model.specs.Recovering.{recovering_turns};
ghost use Rattle.end_model.specs.Secrets.{uncovered_event};
ghost use Rattle.end_model.specs.Tunnels.{turn_in};
ghost use Rattle.end_model.specs.Turn.{with_turn};
ghost use Rattle.tunnel_core.specs.Cores.{tunnel_of, IsTurn, HasRoomFor};
ghost use Rattle.step_hub.specs.Hubs.{lent_env, Settles};
ghost use Rattle.locked_tunnels.specs.Kept.{known};
ghost use Rattle.locked_tunnels.specs.Turns.{Told, turn_by, turned, left_by, Refuses};
ghost use Rattle.locked_tunnels.specs.Kinds.{kind_hears, kind_by, PlansTurn, made_by};

mod sharing;

use crate::kept::KeptTunnel;
use crate::kind::TurnKind;
use end_model::{Config, Event};
use event_routing::copy_event;
use session_cells::{CellSeen, Cells};
use session_looks::CellChanges;
pub use sharing::shared_turn;
use std::marker::Model;
use std::mem;
use step_hub::{Hub, StepError};
use tunnel_core::{Env, Outputs, Planned};
use wire_base::NoMemory;

/// A turn that was made: its event as it came, its moment in milliseconds, its random block, and what it gave. It is made by the turns
/// here alone.
#[derive(Drop)]
pub struct Turned {
    event: Event,
    moment: u64,
    block: [u8; 16],
    outputs: Outputs,
}

impl Model for Turned {
    ghost use Rattle.locked_tunnels.specs.Turns.{Told};

    ghost Value = { Told };

    ghost view = { λ t. record { event = t.event; moment = t.moment; block = t.block; outputs = t.outputs } };
}

impl Turned {
    /// Its event, as it came.
    pub fn event(&self) -> &Event
        ensures { result.now ≡ self.now.event }
    {
        &self.event
    }

    /// Its moment, in milliseconds.
    pub fn moment(&self) -> u64
        ensures { result ≡ self.now.moment }
    {
        self.moment
    }

    /// Its random block.
    pub fn block(&self) -> [u8; 16]
        ensures { result ≡ self.now.block }
    {
        self.block
    }

    /// What it gave to the outside, in order.
    pub fn outputs(&self) -> &Outputs
        ensures { result.now ≡ self.now.outputs }
    {
        &self.outputs
    }

    /// What it gave, taken out.
    pub fn into_outputs(self) -> Outputs
        ensures { result ≡ self.outputs }
    {
        self.outputs
    }
}

/// Plans a turn of a tunnel by an event, and copies the event. What the tunnel stands for is as before.
fn plan(
    kept: &mut KeptTunnel,
    config: &Config,
    env: &mut Env,
    event: &Event,
) -> Result<(Planned, Event), NoMemory>
    ensures same { known kept.new ≡ known kept.old }
    ensures planned { IfOk result (λ r. IsTurn r.0 kept.old.core.recovery (recovering_turns kept.old.role config.now (tunnel_of kept.old.core) (uncovered_event config.now.secret event.now) (turn_in (tunnel_of kept.old.core) env.old))) }
    ensures room { IfOk result (λ r. HasRoomFor kept.new.core r.0) }
    ensures given { OnOk result (env.new ≡ with_turn (recovering_turns kept.old.role config.now (tunnel_of kept.old.core) (uncovered_event config.now.secret event.now) (turn_in (tunnel_of kept.old.core) env.old)).turn env.old) }
    ensures copied { IfOk result (λ r. r.1 ≡ event.now) }
{
    let copy = copy_event(kept.alloc, event)?;
    let planned = kept.plan_event(config, env, event)?;
    Ok((planned, copy))
}

/// Plans a turn of a tunnel by an event, and copies the event; nothing is planned where the turn leaves the tunnel as it is. What the tunnel
/// stands for is as before.
fn plan_for(
    kept: &mut KeptTunnel,
    kind: TurnKind,
    config: &Config,
    env: &mut Env,
    event: &Event,
) -> Result<(Option<Planned>, Event), NoMemory>
    requires { env.old ≡ lent_env env.old.ids env.old.on.moment env.old.on.block }
    ensures same { known kept.new ≡ known kept.old }
    ensures planned { IfOk result (λ r. PlansTurn r.0 (tunnel_of kept.old.core) (kind_hears kind kept.old.role config.now (tunnel_of kept.old.core) (uncovered_event config.now.secret event.now) (turn_in (tunnel_of kept.old.core) env.old))) }
    ensures room { IfOk result (λ r. IfSome r.0 (λ p. HasRoomFor kept.new.core p)) }
    ensures given { OnOk result (env.new ≡ with_turn (kind_hears kind kept.old.role config.now (tunnel_of kept.old.core) (uncovered_event config.now.secret event.now) (turn_in (tunnel_of kept.old.core) env.old)).turn env.old) }
    ensures copied { IfOk result (λ r. r.1 ≡ event.now) }
{
    let copy = copy_event(kept.alloc, event)?;
    let planned = kept.plan_for(kind, config, env, event)?;
    Ok((planned, copy))
}

/// Commits what a turn leaves that was planned, if anything was, and then makes it.
fn settle<H: Hub>(
    kept: &mut KeptTunnel,
    hub: &mut H,
    env: Env,
    planned: Option<Planned>,
) -> Result<Outputs, StepError>
    requires going { H.stopped hub.old ≡ None }
    requires room { IfSome planned (λ p. HasRoomFor kept.old.core p) }
    ensures made { OnOk result (known kept.new ≡ made_by planned env.changes (known kept.old)) }
    ensures same { OnErr result (kept.new ≡ kept.old) }
    ensures settled { Settles result (length (leaves (H.spaces hub.old) env.ids env.moves)) (H.records hub.old) (H.records hub.new) (H.stopped hub.new) (H.faults hub.old) (H.faults hub.new) }
    ensures given { IfOk result (λ outputs. outputs ≡ env.outputs) }
    ensures drawn { OnOk result (H.spaces hub.new ≡ env.ids) }
    ensures kept { OnErr result (H.spaces hub.new ≡ H.spaces hub.old) }
    ensures told { H.told hub.new ≡ H.told hub.old }
{
    let mut env = env;
    let changes = mem::replace(&mut env.changes, CellChanges::new(kept.alloc));
    let outputs = hub.settle(env)?;
    kept.make(planned, changes);
    Ok(outputs)
}

/// A turn of a tunnel by an event, at a moment in milliseconds and with 16 random bytes, as what takes the event: the event is uncovered by
/// the end's secret, the turn is planned, what it leaves is committed, and then it is made, on the tunnel and on the cells. The caller holds
/// the tunnel's lock and the hub's. Where it is refused, the tunnel and the cells are as before, and so is the hub but for its stop.
#[tactic(auto, using(crate::proofs::Making::made_is), unfolding(end_model::specs::Turn::with_turn))]
pub fn kind_turn<H: Hub>(
    kept: &mut KeptTunnel,
    kind: TurnKind,
    cells: &Cells,
    seen: &mut CellSeen,
    hub: &mut H,
    moment: u64,
    block: [u8; 16],
    event: &Event,
) -> Result<Turned, StepError>
    requires full { count_of cells.now ≡ 65536 }
    requires of { IsOf cells.now seen.old }
    requires there { kept.old.gone ≡ false }
    ensures later { Later cells.now seen.old seen.new }

    // It is told its event, moment and block, and gives the outputs of the tunnel's step.
    ensures turned { IfOk result (λ t. t ≡ record { event = event.now; moment = moment; block = block; outputs = (kind_by kind (known kept.old) (H.told hub.old) (H.spaces hub.old) moment block event.now).turn.outputs }) }

    // The tunnel is as that step leaves it, with the step's changes.
    ensures made { OnOk result (known kept.new ≡ turned (kind_by kind (known kept.old) (H.told hub.old) (H.spaces hub.old) moment block event.now) (known kept.old)) }

    // The hub took over what the step drew, and committed what it leaves.
    ensures drawn { OnOk result (H.spaces hub.new ≡ (kind_by kind (known kept.old) (H.told hub.old) (H.spaces hub.old) moment block event.now).turn.ids) }
    ensures settled { IfOk result (λ t. Settles (Ok t) (length (left_by (H.spaces hub.old) (kind_by kind (known kept.old) (H.told hub.old) (H.spaces hub.old) moment block event.now))) (H.records hub.old) (H.records hub.new) (H.stopped hub.new) (H.faults hub.old) (H.faults hub.new)) }
    ensures told { H.told hub.new ≡ H.told hub.old }

    // The cells' new log has its changes, or what overtook them.
    ensures entered { OnOk result (AllEntered (log_of seen.old) (entries_of kept.new.changes) (log_of seen.new)) }

    // Where it is refused, nothing else is changed but by a fault, and the refusal has its cause.
    ensures same { OnErr result (known kept.new ≡ known kept.old) }
    ensures still { OnErr result (seen.new ≡ seen.old) }
    ensures kept { OnErr result (H.spaces hub.new ≡ H.spaces hub.old) }
    ensures refused { IfErr result (λ e. Refuses e (H.stopped hub.old) (H.records hub.old) (H.records hub.new) (H.stopped hub.new) (H.faults hub.old) (H.faults hub.new)) }
{
    let mut env = hub.lend(moment, block)?;
    let Ok((planned, event)) = plan_for(kept, kind, hub.config(), &mut env, event) else {
        hub.back(env);
        return Err(StepError::NoMemory);
    };
    let outputs = settle(kept, hub, env, planned)?;
    cells.enter_all(seen, kept.changes());
    Ok(Turned {
        event,
        moment,
        block,
        outputs,
    })
}

/// A turn of a tunnel by an event that it takes itself.
pub fn tunnel_turn<H: Hub>(
    kept: &mut KeptTunnel,
    cells: &Cells,
    seen: &mut CellSeen,
    hub: &mut H,
    moment: u64,
    block: [u8; 16],
    event: &Event,
) -> Result<Turned, StepError>
    requires full { count_of cells.now ≡ 65536 }
    requires of { IsOf cells.now seen.old }
    requires there { kept.old.gone ≡ false }
    ensures later { Later cells.now seen.old seen.new }

    // It is told its event, moment and block, and gives the outputs of the tunnel's step.
    ensures turned { IfOk result (λ t. t ≡ record { event = event.now; moment = moment; block = block; outputs = (turn_by (known kept.old) (H.told hub.old) (H.spaces hub.old) moment block event.now).turn.outputs }) }

    // The tunnel is as that step leaves it, with the step's changes.
    ensures made { OnOk result (known kept.new ≡ turned (turn_by (known kept.old) (H.told hub.old) (H.spaces hub.old) moment block event.now) (known kept.old)) }

    // The hub took over what the step drew, and committed what it leaves.
    ensures drawn { OnOk result (H.spaces hub.new ≡ (turn_by (known kept.old) (H.told hub.old) (H.spaces hub.old) moment block event.now).turn.ids) }
    ensures settled { IfOk result (λ t. Settles (Ok t) (length (left_by (H.spaces hub.old) (turn_by (known kept.old) (H.told hub.old) (H.spaces hub.old) moment block event.now))) (H.records hub.old) (H.records hub.new) (H.stopped hub.new) (H.faults hub.old) (H.faults hub.new)) }
    ensures told { H.told hub.new ≡ H.told hub.old }

    // The cells' new log has its changes, or what overtook them.
    ensures entered { OnOk result (AllEntered (log_of seen.old) (entries_of kept.new.changes) (log_of seen.new)) }

    // Where it is refused, nothing else is changed but by a fault, and the refusal has its cause.
    ensures same { OnErr result (known kept.new ≡ known kept.old) }
    ensures still { OnErr result (seen.new ≡ seen.old) }
    ensures kept { OnErr result (H.spaces hub.new ≡ H.spaces hub.old) }
    ensures refused { IfErr result (λ e. Refuses e (H.stopped hub.old) (H.records hub.old) (H.records hub.new) (H.stopped hub.new) (H.faults hub.old) (H.faults hub.new)) }
{
    kind_turn(kept, TurnKind::Main, cells, seen, hub, moment, block, event)
}
