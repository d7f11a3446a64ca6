//! What is planned for a tunnel behind its lock.

ghost use Rattle.std.specs.Prelude.{◌≡◌, None, IfOk, IfSome, OnOk};
ghost use Rattle.id_source.specs.Spaces.{takes_id};
ghost use Rattle.end_model.specs.Recovering.{recovering_turns};
ghost use Rattle.end_model.specs.Secrets.{uncovered_event};
ghost use Rattle.end_model.specs.Tunnels.{turn_in};
ghost use Rattle.end_model.specs.Turn.{with_turn};
ghost use Rattle.tunnel_core.specs.Cores.{tunnel_of, IsTurn, HasRoomFor};
ghost use Rattle.step_hub.specs.Hubs.{lent_env};
ghost use Rattle.locked_tunnels.specs.Kept.{known};
ghost use Rattle.locked_tunnels.specs.Attempts.{gives_in, answers_in, attempt_hears};
ghost use Rattle.locked_tunnels.specs.Kinds.{recovery_hears, kind_hears, PlansTurn};

use super::{Added, KeptTunnel};
use crate::attempt::{Attempted, judge_attempt};
use crate::kind::TurnKind;
use control_message::Opening;
use end_model::{Config, Event};
use event_routing::{Given, declines, plain_event};
use message_reading::no_id;
use std::alloc::Global;
use tunnel_core::{Env, Planned, Task};
use wire_base::NoMemory;

/// The calls that a planned turn makes.
fn added_by(alloc: Global, planned: &Option<Planned>) -> Result<Added, NoMemory> {
    match planned {
        None => Ok(Added::new(alloc)),
        Some(planned) => Added::from_slice(alloc, planned.added()),
    }
}

impl KeptTunnel {
    /// Plans a turn by an event, which is uncovered for it by the end's secret.
    fn plan_uncovered(
        &mut self,
        config: &Config,
        env: &mut Env,
        event: &Event,
    ) -> Result<Planned, NoMemory>
        ensures same { known self.new ≡ known self.old }
        ensures planned { IfOk result (λ p. IsTurn p self.old.core.recovery (recovering_turns self.old.role config.now (tunnel_of self.old.core) (uncovered_event config.now.secret event.now) (turn_in (tunnel_of self.old.core) env.old))) }
        ensures room { IfOk result (λ p. HasRoomFor self.new.core p) }
        ensures given { OnOk result (env.new ≡ with_turn (recovering_turns self.old.role config.now (tunnel_of self.old.core) (uncovered_event config.now.secret event.now) (turn_in (tunnel_of self.old.core) env.old)).turn env.old) }
    {
        match plain_event(self.alloc, config, event)? {
            None => self.core.plan(self.role, config, env, &Task::Event(event)),
            Some(plain) => self.core.plan(self.role, config, env, &Task::Event(&plain)),
        }
    }

    /// Plans a turn by an event, which is uncovered for it by the end's secret. What the tunnel stands for is as before.
    pub(crate) fn plan_event(
        &mut self,
        config: &Config,
        env: &mut Env,
        event: &Event,
    ) -> Result<Planned, NoMemory>
        ensures same { known self.new ≡ known self.old }
        ensures planned { IfOk result (λ p. IsTurn p self.old.core.recovery (recovering_turns self.old.role config.now (tunnel_of self.old.core) (uncovered_event config.now.secret event.now) (turn_in (tunnel_of self.old.core) env.old))) }
        ensures room { IfOk result (λ p. HasRoomFor self.new.core p) }
        ensures given { OnOk result (env.new ≡ with_turn (recovering_turns self.old.role config.now (tunnel_of self.old.core) (uncovered_event config.now.secret event.now) (turn_in (tunnel_of self.old.core) env.old)).turn env.old) }
    {
        let planned = self.plan_uncovered(config, env, event)?;
        self.added = Added::from_slice(self.alloc, planned.added())?;
        Ok(planned)
    }

    /// Plans a turn of its recovery tunnel by a control message. What is none is an event of the tunnel itself.
    #[tactic(auto, unfolding(end_model::specs::Recovering::hears_recovery))]
    fn plan_recovery(
        &mut self,
        config: &Config,
        env: &mut Env,
        event: &Event,
    ) -> Result<Planned, NoMemory>
        ensures same { known self.new ≡ known self.old }
        ensures planned { IfOk result (λ p. IsTurn p self.old.core.recovery (recovery_hears self.old.role config.now (tunnel_of self.old.core) event.now (turn_in (tunnel_of self.old.core) env.old))) }
        ensures room { IfOk result (λ p. HasRoomFor self.new.core p) }
        ensures given { OnOk result (env.new ≡ with_turn (recovery_hears self.old.role config.now (tunnel_of self.old.core) event.now (turn_in (tunnel_of self.old.core) env.old)).turn env.old) }
    {
        let Event::Datagram { datagram, .. } = event else {
            return self.core.plan(self.role, config, env, &Task::Event(event));
        };
        match datagram.header() {
            Ok(header) if header.control => {
                let body = datagram.body(&header);
                let task = Task::Recovery {
                    header: &header,
                    body: &body,
                };
                self.core.plan(self.role, config, env, &task)
            }
            Ok(_) | Err(_) => self.core.plan(self.role, config, env, &Task::Event(event)),
        }
    }

    /// This is given in a turn that was begun in this, and nothing else is done.
    fn give(&mut self, env: &mut Env, given: Given)
        requires { env.old ≡ lent_env env.old.ids env.old.on.moment env.old.on.block }
        ensures same { self.new ≡ self.old }
        ensures leaves { PlansTurn None (tunnel_of self.old.core) (gives_in given self.old.core.recovery (turn_in (tunnel_of self.old.core) env.old)) }
        ensures given { env.new ≡ with_turn (gives_in given self.old.core.recovery (turn_in (tunnel_of self.old.core) env.old)).turn env.old }
    {
        env.outputs = given.outputs;
        env.moves = given.moves;
    }

    /// Plans the answer to an attempt, where a tunnel id and a draw number are left; else that is declined.
    fn plan_answer(
        &mut self,
        config: &Config,
        env: &mut Env,
        peer: u32,
        nr: u16,
        opening: &Opening,
    ) -> Result<Option<Planned>, NoMemory>
        requires { env.old ≡ lent_env env.old.ids env.old.on.moment env.old.on.block }
        ensures same { known self.new ≡ known self.old }
        ensures planned { IfOk result (λ p. PlansTurn p (tunnel_of self.old.core) (answers_in self.old.role config.now (tunnel_of self.old.core) (turn_in (tunnel_of self.old.core) env.old) peer nr opening.now (takes_id env.old.ids.tunnels) (takes_id env.old.ids.recoveries))) }
        ensures room { IfOk result (λ p. IfSome p (λ q. HasRoomFor self.new.core q)) }
        ensures given { OnOk result (env.new ≡ with_turn (answers_in self.old.role config.now (tunnel_of self.old.core) (turn_in (tunnel_of self.old.core) env.old) peer nr opening.now (takes_id env.old.ids.tunnels) (takes_id env.old.ids.recoveries)).turn env.old) }
    {
        let (mut tunnels, mut recoveries) = (env.tunnels, env.recoveries);
        let (Ok(local), Ok(draw)) = (tunnels.take(), recoveries.take()) else {
            let given = declines(self.alloc, peer, opening.tunnel, nr, &no_id())?;
            self.give(env, given);
            return Ok(None);
        };
        let task = Task::Freeze {
            opening,
            local: local as u16,
            draw,
        };
        let planned = self.core.plan(self.role, config, env, &task)?;
        Ok(Some(planned))
    }

    /// Plans what becomes of an attempt at its recovery, None where that is given alone.
    fn plan_attempt(
        &mut self,
        config: &Config,
        env: &mut Env,
        event: &Event,
    ) -> Result<Option<Planned>, NoMemory>
        requires { env.old ≡ lent_env env.old.ids env.old.on.moment env.old.on.block }
        ensures same { known self.new ≡ known self.old }
        ensures planned { IfOk result (λ p. PlansTurn p (tunnel_of self.old.core) (attempt_hears self.old.role config.now (tunnel_of self.old.core) event.now (turn_in (tunnel_of self.old.core) env.old))) }
        ensures room { IfOk result (λ p. IfSome p (λ q. HasRoomFor self.new.core q)) }
        ensures given { OnOk result (env.new ≡ with_turn (attempt_hears self.old.role config.now (tunnel_of self.old.core) event.now (turn_in (tunnel_of self.old.core) env.old)).turn env.old) }
    {
        match judge_attempt(self.alloc, self.role, config, &self.core, event)? {
            Attempted::Gives { given } => {
                self.give(env, given);
                Ok(None)
            }
            Attempted::Answers { peer, nr, opening } => {
                self.plan_answer(config, env, peer, nr, &opening)
            }
        }
    }

    /// Plans a turn by an event, as its end reads it, None where it leaves the tunnel as it is.
    fn plan_kind(
        &mut self,
        kind: TurnKind,
        config: &Config,
        env: &mut Env,
        event: &Event,
    ) -> Result<Option<Planned>, NoMemory>
        requires { env.old ≡ lent_env env.old.ids env.old.on.moment env.old.on.block }
        ensures same { known self.new ≡ known self.old }
        ensures planned { IfOk result (λ p. PlansTurn p (tunnel_of self.old.core) (kind_hears kind self.old.role config.now (tunnel_of self.old.core) event.now (turn_in (tunnel_of self.old.core) env.old))) }
        ensures room { IfOk result (λ p. IfSome p (λ q. HasRoomFor self.new.core q)) }
        ensures given { OnOk result (env.new ≡ with_turn (kind_hears kind self.old.role config.now (tunnel_of self.old.core) event.now (turn_in (tunnel_of self.old.core) env.old)).turn env.old) }
    {
        match kind {
            TurnKind::Main => {
                let planned = self.core.plan(self.role, config, env, &Task::Event(event))?;
                Ok(Some(planned))
            }
            TurnKind::Recovery => {
                let planned = self.plan_recovery(config, env, event)?;
                Ok(Some(planned))
            }
            TurnKind::Attempt => self.plan_attempt(config, env, event),
        }
    }

    /// Plans a turn by an event as it came, which is uncovered for it by the end's secret.
    fn plan_uncovered_kind(
        &mut self,
        kind: TurnKind,
        config: &Config,
        env: &mut Env,
        event: &Event,
    ) -> Result<Option<Planned>, NoMemory>
        requires { env.old ≡ lent_env env.old.ids env.old.on.moment env.old.on.block }
        ensures same { known self.new ≡ known self.old }
        ensures planned { IfOk result (λ p. PlansTurn p (tunnel_of self.old.core) (kind_hears kind self.old.role config.now (tunnel_of self.old.core) (uncovered_event config.now.secret event.now) (turn_in (tunnel_of self.old.core) env.old))) }
        ensures room { IfOk result (λ p. IfSome p (λ q. HasRoomFor self.new.core q)) }
        ensures given { OnOk result (env.new ≡ with_turn (kind_hears kind self.old.role config.now (tunnel_of self.old.core) (uncovered_event config.now.secret event.now) (turn_in (tunnel_of self.old.core) env.old)).turn env.old) }
    {
        match plain_event(self.alloc, config, event)? {
            None => self.plan_kind(kind, config, env, event),
            Some(plain) => self.plan_kind(kind, config, env, &plain),
        }
    }

    /// Plans a turn by an event, None where it leaves the tunnel as it is. The event is uncovered for it by the end's secret. What the tunnel
    /// stands for is as before.
    pub(crate) fn plan_for(
        &mut self,
        kind: TurnKind,
        config: &Config,
        env: &mut Env,
        event: &Event,
    ) -> Result<Option<Planned>, NoMemory>
        requires { env.old ≡ lent_env env.old.ids env.old.on.moment env.old.on.block }
        ensures same { known self.new ≡ known self.old }
        ensures planned { IfOk result (λ p. PlansTurn p (tunnel_of self.old.core) (kind_hears kind self.old.role config.now (tunnel_of self.old.core) (uncovered_event config.now.secret event.now) (turn_in (tunnel_of self.old.core) env.old))) }
        ensures room { IfOk result (λ p. IfSome p (λ q. HasRoomFor self.new.core q)) }
        ensures given { OnOk result (env.new ≡ with_turn (kind_hears kind self.old.role config.now (tunnel_of self.old.core) (uncovered_event config.now.secret event.now) (turn_in (tunnel_of self.old.core) env.old)).turn env.old) }
    {
        let planned = self.plan_uncovered_kind(kind, config, env, event)?;
        self.added = added_by(self.alloc, &planned)?;
        Ok(planned)
    }
}
