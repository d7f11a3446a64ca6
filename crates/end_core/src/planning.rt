//! A step of one tunnel of an end: it is planned, what it leaves is committed, and only then it is made.

ghost use Rattle.std.specs.Prelude.{◌≡◌, ◌≢◌, None, IfOk, OnOk, IsSome};
ghost use Rattle.std.specs.Option.{option_copied};
ghost use Rattle.tunnel_fsm.specs.declared.table.TunnelState.TheVariants.{Idle};
ghost use Rattle.end_model.specs.declared.tunnel.Mode.TheVariants.{Current};
ghost use Rattle.end_core.specs.Saying.{IsSaidBy};
ghost use Rattle.id_table.specs.Ids.{at};
ghost use Rattle.id_table.specs.Tables.{HasRoom};
ghost use Rattle.call_places.specs.Rooms.{HaveRoom};
ghost use Rattle.end_model.specs.Turn.{with_turn};
ghost use Rattle.end_model.specs.End.{tunnels_after, placed, with_looks};
ghost use Rattle.tunnel_table.specs.Cores.{tunnel_of, made_of, beside, HasId, IsTurn, HasRoomFor};
ghost use Rattle.tunnel_table.specs.Plans.{IsPlanned, IsGiven, HasPlace, after_plan};
ghost use Rattle.end_model.specs.Tunnels.{no_query};
ghost use Rattle.tunnel_table.specs.Tunnels.{tunnels_of};
ghost use Rattle.step_ledger.specs.Committing.{Commits};
ghost use Rattle.step_records.specs.Leaving.{leaves};
ghost use Rattle.end_core.specs.Gives.{drawn_first, first_turn, first_leaves, main_leaves};

use call_places::{change_looks, make_places, place_all};
use control_message::Message;
use end_model::{CallPlace, Config, Event, Role};
use id_table::Table;
use session_looks::CellChange;
use std::alloc::Global;
use step_ledger::{Ledger, StepFault};
use step_records::{Spaces, commit_step};
use tunnel_table::{Env, Planned, Task, TunnelCore, TunnelTable};
use wire_base::{NoMemory, Why};

/// Where a step draws its numbers from that works in this environment.
pub(crate) fn spaces_of(env: &Env) -> Spaces
    ensures { result ≡ env.now.ids }
{
    Spaces {
        tunnels: env.tunnels,
        sessions: env.sessions,
        recoveries: env.recoveries,
    }
}

/// Makes room for the places of the calls that a step of a tunnel makes, and commits what the step leaves.
fn commit_planned<L: Ledger>(
    ledger: &mut L,
    alloc: Global,
    places: &mut Table<CallPlace>,
    before: &Spaces,
    env: &Env,
    planned: &Planned,
) -> Result<(), StepFault<L::Stop>>
    requires { L.can_commit ledger.old }
    ensures places { places.new.entries ≡ places.old.entries }
    ensures room { OnOk result (HaveRoom places.new planned.now.added) }
    ensures committed { Commits L.commits_to result (leaves before.now env.now.ids env.now.moves) ledger.old ledger.new }
{
    make_places(places, planned.added())?;
    let after = spaces_of(env);
    commit_step(alloc, ledger, before, &after, env.moves.as_slice())
}

/// Plans a step of the tunnel with this id about this, makes room for the places of the calls that it makes, and commits what it leaves. What the
/// tunnels and the places stand for is as before.
pub(crate) fn plan_main<L: Ledger>(
    ledger: &mut L,
    alloc: Global,
    role: Role,
    config: &Config,
    tunnels: &mut TunnelTable,
    places: &mut Table<CallPlace>,
    env: &mut Env,
    id: u32,
    task: &Task<'_>,
) -> Result<Planned, StepFault<L::Stop>>
    requires ledger { L.can_commit ledger.old }
    requires there { IsSome (at tunnels.old.entries id) }
    requires id { HasId task.now }
    ensures tunnels { tunnels_of tunnels.new.entries ≡ tunnels_of tunnels.old.entries }
    ensures places { places.new.entries ≡ places.old.entries }
    ensures planned { IfOk result (λ p. IsPlanned role config.now task.now env.old (at (tunnels_of tunnels.old.entries) id) p) }
    ensures given { OnOk result (IsGiven role config.now task.now env.old (at (tunnels_of tunnels.old.entries) id) env.new) }
    ensures place { IfOk result (λ p. HasPlace tunnels.new (id, p)) }
    ensures room { IfOk result (λ p. HaveRoom places.new p.added) }
    ensures committed { Commits L.commits_to result (main_leaves role config.now task.now env.old (at (tunnels_of tunnels.old.entries) id)) ledger.old ledger.new }
{
    let before = spaces_of(env);
    let planned = tunnels.plan(role, config, env, id, task)?;
    commit_planned(ledger, alloc, places, &before, env, &planned)?;
    Ok(planned)
}

/// Plans the first step of a tunnel that is new. Where it is known what the event says, that isn't worked out again.
fn plan_opening(
    core: &mut TunnelCore,
    role: Role,
    config: &Config,
    env: &mut Env,
    event: &Event,
    said: Option<&Result<Message, Why>>,
) -> Result<Planned, NoMemory>
    requires current { env.old.on.mode ≡ Current }
    requires idle { core.old.control.state ≡ Idle }
    requires alone { core.old.recovery ≡ None }
    requires quiet { core.old.query ≡ no_query }
    requires said { IsSaidBy (option_copied said) event.now }
    ensures same { tunnel_of core.new ≡ tunnel_of core.old }
    ensures planned { IfOk result (λ p. IsTurn p None (beside None (first_turn role config.now event.now env.old (tunnel_of core.old)))) }
    ensures given { OnOk result (env.new ≡ with_turn (first_turn role config.now event.now env.old (tunnel_of core.old)) env.old) }
    ensures room { IfOk result (λ p. HasRoomFor core.new p) }
{
    match said {
        None => core.plan(role, config, env, &Task::Event(event)),
        Some(said) => core.plan_first(role, config, env, said),
    }
}

/// Plans the first step of a tunnel, and makes room for the places of the calls that it makes. What the tunnel and the places stand
/// for is as before.
fn plan_step(
    core: &mut TunnelCore,
    places: &mut Table<CallPlace>,
    role: Role,
    config: &Config,
    env: &mut Env,
    event: &Event,
    said: Option<&Result<Message, Why>>,
) -> Result<Planned, NoMemory>
    requires current { env.old.on.mode ≡ Current }
    requires idle { core.old.control.state ≡ Idle }
    requires alone { core.old.recovery ≡ None }
    requires quiet { core.old.query ≡ no_query }
    requires said { IsSaidBy (option_copied said) event.now }
    ensures same { tunnel_of core.new ≡ tunnel_of core.old }
    ensures places { places.new.entries ≡ places.old.entries }
    ensures planned { IfOk result (λ p. IsTurn p None (beside None (first_turn role config.now event.now env.old (tunnel_of core.old)))) }
    ensures given { OnOk result (env.new ≡ with_turn (first_turn role config.now event.now env.old (tunnel_of core.old)) env.old) }
    ensures room { IfOk result (λ p. HasRoomFor core.new p) }
    ensures calls_room { IfOk result (λ p. HaveRoom places.new p.added) }
{
    let planned = plan_opening(core, role, config, env, event, said)?;
    make_places(places, planned.added())?;
    Ok(planned)
}

/// Makes room for a tunnel that is new, and commits what its first step leaves. Where the step drew no id, the tunnel isn't kept, and
/// no number of the step is.
fn commit_new<L: Ledger>(
    ledger: &mut L,
    alloc: Global,
    tunnels: &mut TunnelTable,
    before: &Spaces,
    core: &TunnelCore,
    env: &Env,
    planned: &Planned,
) -> Result<(), StepFault<L::Stop>>
    requires { L.can_commit ledger.old }
    ensures tunnels { tunnels.new.entries ≡ tunnels.old.entries }
    ensures room { OnOk result (planned.now.control.local ≢ 0 → HasRoom tunnels.new planned.now.control.local) }
    ensures committed { Commits L.commits_to result (leaves before.now (drawn_first planned.now.control.local before.now env.now) env.now.moves) ledger.old ledger.new }
{
    let local = planned.local();
    if local == 0 {
        return commit_step(alloc, ledger, before, before, env.moves.as_slice());
    }
    tunnels.make_room(u32::from(local), core, planned)?;
    let after = spaces_of(env);
    commit_step(alloc, ledger, before, &after, env.moves.as_slice())
}

/// Plans the first step of a tunnel that is new, makes room for the tunnel and for the places of its calls, and commits what the step
/// leaves. What the tunnel, the tunnels beside it and the places stand for is as before.
pub(crate) fn plan_first<L: Ledger>(
    ledger: &mut L,
    alloc: Global,
    role: Role,
    config: &Config,
    tunnels: &mut TunnelTable,
    places: &mut Table<CallPlace>,
    core: &mut TunnelCore,
    env: &mut Env,
    event: &Event,
    said: Option<&Result<Message, Why>>,
) -> Result<Planned, StepFault<L::Stop>>
    requires ledger { L.can_commit ledger.old }
    requires current { env.old.on.mode ≡ Current }
    requires idle { core.old.control.state ≡ Idle }
    requires alone { core.old.recovery ≡ None }
    requires quiet { core.old.query ≡ no_query }
    requires said { IsSaidBy (option_copied said) event.now }
    ensures tunnels { tunnels.new.entries ≡ tunnels.old.entries }
    ensures places { places.new.entries ≡ places.old.entries }
    ensures same { tunnel_of core.new ≡ tunnel_of core.old }
    ensures planned { IfOk result (λ p. IsTurn p None (beside None (first_turn role config.now event.now env.old (tunnel_of core.old)))) }
    ensures given { OnOk result (env.new ≡ with_turn (first_turn role config.now event.now env.old (tunnel_of core.old)) env.old) }
    ensures tunnel_room { IfOk result (λ p. p.control.local ≢ 0 → HasRoom tunnels.new p.control.local) }
    ensures core_room { IfOk result (λ p. HasRoomFor core.new p) }
    ensures calls_room { IfOk result (λ p. HaveRoom places.new p.added) }
    ensures committed { Commits L.commits_to result (first_leaves env.old (first_turn role config.now event.now env.old (tunnel_of core.old))) ledger.old ledger.new }
{
    let before = spaces_of(env);
    let planned = plan_step(core, places, role, config, env, event, said)?;
    commit_new(ledger, alloc, tunnels, &before, core, env, &planned)?;
    Ok(planned)
}

/// Puts the calls that a step makes where they are, and changes what is seen of calls. It takes no memory.
fn place_calls(places: &mut Table<CallPlace>, planned: &Planned, changes: &[CellChange])
    requires { HaveRoom places.old planned.now.added }
    ensures { places.new.entries ≡ with_looks changes.now (placed planned.now.control.local planned.now.added places.old.entries) }
{
    place_all(places, planned.local(), planned.added());
    change_looks(places, changes);
}

/// Puts a tunnel that was kept at its id, as it is after what was planned for it, with its calls. It takes no memory.
pub(crate) fn make_kept(
    tunnels: &mut TunnelTable,
    places: &mut Table<CallPlace>,
    id: u32,
    core: TunnelCore,
    planned: Planned,
    changes: &[CellChange],
)
    requires tunnel_room { HasRoom tunnels.old id }
    requires core_room { HasRoomFor core planned }
    requires calls_room { HaveRoom places.old planned.added }
    ensures tunnels { tunnels_of tunnels.new.entries ≡ tunnels_after (tunnels_of tunnels.old.entries) id planned.cleared (made_of planned (tunnel_of core)) }
    ensures places { places.new.entries ≡ with_looks changes.now (placed planned.control.local planned.added places.old.entries) }
{
    place_calls(places, &planned, changes);
    tunnels.make_new(id, core, planned);
}

/// Makes the planned step of the tunnel with this id. It takes no memory.
pub(crate) fn make_main(
    tunnels: &mut TunnelTable,
    places: &mut Table<CallPlace>,
    id: u32,
    planned: Planned,
    changes: &[CellChange],
)
    requires place { HasPlace tunnels.old (id, planned) }
    requires room { HaveRoom places.old planned.added }
    ensures tunnels { tunnels_of tunnels.new.entries ≡ after_plan (tunnels_of tunnels.old.entries) (id, planned) (at (tunnels_of tunnels.old.entries) id) }
    ensures places { places.new.entries ≡ with_looks changes.now (placed planned.control.local planned.added places.old.entries) }
{
    place_calls(places, &planned, changes);
    tunnels.make(id, planned);
}

/// Makes the planned first step of a tunnel that is new. Where it drew no id, it isn't kept. It takes no memory.
pub(crate) fn make_first(
    tunnels: &mut TunnelTable,
    places: &mut Table<CallPlace>,
    core: TunnelCore,
    planned: Planned,
    changes: &[CellChange],
)
    requires tunnel_room { planned.control.local ≢ 0 → HasRoom tunnels.old planned.control.local }
    requires core_room { HasRoomFor core planned }
    requires calls_room { HaveRoom places.old planned.added }
    ensures same_tunnels { planned.control.local ≡ 0 → tunnels.new.entries ≡ tunnels.old.entries }
    ensures same_places { planned.control.local ≡ 0 → places.new.entries ≡ places.old.entries }
    ensures tunnels { planned.control.local ≢ 0 → tunnels_of tunnels.new.entries ≡ tunnels_after (tunnels_of tunnels.old.entries) planned.control.local planned.cleared (made_of planned (tunnel_of core)) }
    ensures places { planned.control.local ≢ 0 → places.new.entries ≡ with_looks changes.now (placed planned.control.local planned.added places.old.entries) }
{
    let local = planned.local();
    if local != 0 {
        place_calls(places, &planned, changes);
        tunnels.make_new(u32::from(local), core, planned);
    }
}
