//! An end's tick: the turn of each tunnel in which something is due is planned, and then all are made.

ghost use Rattle.std.specs.Prelude.{ℕ, ◌≡◌, ◌∷◌, [], ◌≢◌, IfOk, OnOk, IsSome};
ghost use Rattle.std.specs.List.{AllByRecursion};
ghost use Rattle.std.specs.List.Sorted.{IsStrictlySortedBy};
ghost use Rattle.std.specs.Ordering.{nat_cmp};
ghost use Rattle.id_table.specs.Ids.{at, ids_of};
ghost use Rattle.end_model.specs.End.{env_of, ticks_all};
ghost use Rattle.end_core.specs.Gives.{GivesStep, CommitsStep};
ghost use Rattle.end_core.specs.Ticking.{tick_at, ticks_at, ArePlanned, HavePlaces, with_ticks, ticks_leave, after_plans};
ghost use Rattle.step_ledger.specs.Committing.{Commits};
ghost use Rattle.tunnel_table.specs.Plans.{HasPlace};
ghost use Rattle.tunnel_table.specs.Tunnels.{tunnels_of};

use crate::end::{End, Given};
use crate::planning::spaces_of;
use call_places::change_looks;
use due_laws::early_ticks_do_nothing;
use end_model::{Config, Event, Role};
use std::alloc::Global;
use step_ledger::{Ledger, StepFault};
use step_records::commit_step;
use tunnel_table::{Env, Planned, Task, TunnelTable};
use wire_base::{NoMemory, Sequence};

/// What is planned for tunnels, by their ids.
type Plans = Sequence<(u32, Planned)>;

/// Plans the turn of the tunnel with this id, and makes room for it. What the tunnels stand for is as before.
fn plan_at(
    tunnels: &mut TunnelTable,
    role: Role,
    config: &Config,
    env: &mut Env,
    id: u32,
) -> Result<Planned, NoMemory>
    requires { IsSome (at tunnels.old.entries id) }
    ensures same { tunnels_of tunnels.new.entries ≡ tunnels_of tunnels.old.entries }
    ensures others { (q : ℕ) → q ≢ id → at tunnels.new.entries q ≡ at tunnels.old.entries q }
    ensures planned { IfOk result (λ p. ArePlanned ((id, p) ∷ []) (tick_at role config.now tunnels.old.entries env.old id)) }
    ensures place { IfOk result (λ p. HasPlace tunnels.new (id, p)) }
    ensures given { OnOk result (env.new ≡ with_ticks (tick_at role config.now tunnels.old.entries env.old id) env.old) }
{
    tunnels.plan(role, config, env, id, &Task::Event(&Event::Tick))
}

/// Plans the turns of these tunnels, and makes room for them. What the tunnels stand for is as before.
fn plan_all(
    tunnels: &mut TunnelTable,
    alloc: Global,
    role: Role,
    config: &Config,
    env: &mut Env,
    ids: &[u32],
) -> Result<Plans, NoMemory>
    requires ascend { IsStrictlySortedBy nat_cmp ids.now }
    requires there { AllByRecursion (λ i. IsSome (at (tunnels_of tunnels.old.entries) i)) ids.now }
    ensures same { tunnels_of tunnels.new.entries ≡ tunnels_of tunnels.old.entries }
    ensures planned { IfOk result (λ ps. ArePlanned ps (ticks_at role config.now tunnels.old.entries env.old ids.now)) }
    ensures ascend { IfOk result (λ ps. IsStrictlySortedBy nat_cmp (ids_of ps)) }
    ensures places { IfOk result (λ ps. HavePlaces tunnels.new ps) }
    ensures given { OnOk result (env.new ≡ with_ticks (ticks_at role config.now tunnels.old.entries env.old ids.now) env.old) }
{
    let mut plans = Plans::new(alloc);
    for id in ids {
        let planned = plan_at(tunnels, role, config, env, *id)?;
        plans.push((*id, planned))?;
    }
    Ok(plans)
}

/// Plans the turns of these tunnels, makes room for them, and commits what they leave. What the tunnels stand for is as before.
fn plan_ticks<L: Ledger>(
    ledger: &mut L,
    alloc: Global,
    role: Role,
    config: &Config,
    tunnels: &mut TunnelTable,
    env: &mut Env,
    ids: &[u32],
) -> Result<Plans, StepFault<L::Stop>>
    requires ledger { L.can_commit ledger.old }
    requires ascend { IsStrictlySortedBy nat_cmp ids.now }
    requires there { AllByRecursion (λ i. IsSome (at (tunnels_of tunnels.old.entries) i)) ids.now }
    ensures same { tunnels_of tunnels.new.entries ≡ tunnels_of tunnels.old.entries }
    ensures planned { IfOk result (λ ps. ArePlanned ps (ticks_at role config.now tunnels.old.entries env.old ids.now)) }
    ensures ascend { IfOk result (λ ps. IsStrictlySortedBy nat_cmp (ids_of ps)) }
    ensures places { IfOk result (λ ps. HavePlaces tunnels.new ps) }
    ensures given { OnOk result (env.new ≡ with_ticks (ticks_at role config.now tunnels.old.entries env.old ids.now) env.old) }
    ensures committed { Commits L.commits_to result (ticks_leave (ticks_at role config.now tunnels.old.entries env.old ids.now) env.old) ledger.old ledger.new }
{
    let drawing = spaces_of(env);
    let plans = plan_all(tunnels, alloc, role, config, env, ids)?;
    commit_step(alloc, ledger, &drawing, &drawing, env.moves.as_slice())?;
    Ok(plans)
}

/// Makes what was planned for tunnels. It takes no memory.
#[tactic(auto, unfolding(crate::specs::Ticking::after_plans))]
fn make_all(tunnels: &mut TunnelTable, plans: Plans)
    requires ascend { IsStrictlySortedBy nat_cmp (ids_of plans) }
    requires places { HavePlaces tunnels.old plans }
    ensures { tunnels_of tunnels.new.entries ≡ after_plans plans (tunnels_of tunnels.old.entries) }
{
    for (id, planned) in plans.into_vec() {
        tunnels.make(id, planned);
    }
}

impl End {
    /// Time passes: each tunnel takes its turn. Those in which by their bounds nothing is due aren't looked at, and where that is all of
    /// them it takes no memory. Where memory is wanting, the end is as before.
    pub fn tick_all<L: Ledger>(
        &mut self,
        ledger: &mut L,
        moment: u64,
        block: [u8; 16],
    ) -> Result<Given, StepFault<L::Stop>>
        requires ledger { L.can_commit ledger.old }
        ensures given { GivesStep result (ticks_all self.old (env_of self.old moment block)) self.old self.new }
        ensures committed { CommitsStep L.commits_to result (ticks_all self.old (env_of self.old moment block)) self.old ledger.old ledger.new }
        ensures role { self.new.role ≡ self.old.role }
    {
        early_ticks_do_nothing();
        let ids = self.tunnels.ids_due(self.alloc, moment)?;
        let mut env = self.env(moment, block);
        let plans = plan_ticks(
            ledger,
            self.alloc,
            self.role,
            &self.config,
            &mut self.tunnels,
            &mut env,
            ids.as_slice(),
        )?;
        make_all(&mut self.tunnels, plans);
        self.tunnels.look_again(self.alloc, moment);
        change_looks(&mut self.calls, env.changes.as_slice());
        Ok(Given::of(env))
    }
}
