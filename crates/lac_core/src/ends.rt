//! The steps of a LAC's end.

ghost use Rattle.std.specs.Prelude.{◌≡◌};
ghost use Rattle.wire_base.specs.declared.cause.Cause.TheVariants as causes;
ghost use Rattle.end_model.specs.declared.out.Out.TheVariants as outs;
ghost use Rattle.end_names.specs.declared.role.Role.TheVariants as roles;
ghost use Rattle.end_model.specs.End.{env_of, rings_at, plain_step, step};
ghost use Rattle.end_core.specs.Gives.{GivesStep, CommitsStep};

use end_core::{End, Given};
use end_model::{Event, Out};
use step_ledger::{Ledger, StepFault};
use tunnel_fsm::TunnelState;
use wire_base::{Cause, Why};

/// The cause of an opening or a ring that is refused where the LAC has as many tunnels as it may.
fn too_many_tunnels() -> Out
    ensures { result ≡ outs.Cause causes.Tunnels }
{
    Out::Cause {
        cause: Cause::Tunnels,
    }
}

/// Tunnels to the LNS are being recovered, and a ring waits for none of them.
fn recovering() -> Out
    ensures { result ≡ outs.Cause causes.Recovering }
{
    Out::Cause {
        cause: Cause::Recovering,
    }
}

/// A port rings, or a host was admitted: over the least tunnel to the LNS that is open, else over the least that is to open,
/// else over a new one, where no tunnel to the LNS is being recovered.
#[tactic(auto, unfolding(end_model::specs::End::rings_at, end_model::specs::End::rings_in))]
fn ring<L: Ledger>(
    end: &mut End,
    ledger: &mut L,
    moment: u64,
    block: [u8; 16],
    event: &Event,
) -> Result<Given, StepFault<L::Stop>>
    requires { L.can_commit ledger.old }
    ensures given { GivesStep result (rings_at end.old (env_of end.old moment block) event.now) end.old end.new }
    ensures committed { CommitsStep L.commits_to result (rings_at end.old (env_of end.old moment block) event.now) end.old ledger.old ledger.new }
    ensures role { end.new.role ≡ end.old.role }
{
    let lns = end.lns();
    if let Some(id) = end.least_in(TunnelState::Established, lns)? {
        return end.run_main(ledger, moment, block, event, id);
    }
    if let Some(id) = end.least_in(TunnelState::WaitCtlReply, lns)? {
        return end.run_main(ledger, moment, block, event, id);
    }
    if end.are_recovering(lns)? {
        return end.only(ledger, recovering());
    }
    end.run_one_more(ledger, moment, block, event, lns, too_many_tunnels())
}

/// A step on an event of which nothing is hidden.
#[tactic(auto, unfolding(end_model::specs::End::plain_step, end_model::specs::End::step_in, end_model::specs::End::only_by))]
fn plain_step<L: Ledger>(
    end: &mut End,
    ledger: &mut L,
    moment: u64,
    block: [u8; 16],
    event: &Event,
) -> Result<Given, StepFault<L::Stop>>
    requires ledger { L.can_commit ledger.old }
    requires role { end.old.role ≡ roles.Lac }
    ensures given { GivesStep result (plain_step end.old moment block event.now) end.old end.new }
    ensures committed { CommitsStep L.commits_to result (plain_step end.old moment block event.now) end.old ledger.old ledger.new }
    ensures role { end.new.role ≡ end.old.role }
{
    match event {
        Event::Datagram { peer, datagram } => {
            end.receive(ledger, moment, block, event, *peer, datagram)
        }
        Event::Ring { .. } | Event::Admitted { .. } => ring(end, ledger, moment, block, event),
        Event::Payload { session, .. } | Event::Hang { session } | Event::DropCall { session } =>
            end.run_for_call(ledger, moment, block, event, *session),
        Event::OpenTunnel => {
            let lns = end.lns();
            end.run_one_more(ledger, moment, block, event, lns, too_many_tunnels())
        }
        Event::CloseTunnel { tunnel } => end.run_main(
            ledger,
            moment,
            block,
            event,
            u32::from(*tunnel),
        ),
        Event::Tick => end.tick_all(ledger, moment, block),
        Event::Lower { .. } | Event::Lcp { .. } | Event::Frame { .. } => end.drop_with(
            ledger,
            Why::Node,
        ),
    }
}

/// A step on what comes: what is hidden by the end's secret is uncovered first.
pub fn step<L: Ledger>(
    end: &mut End,
    ledger: &mut L,
    moment: u64,
    block: [u8; 16],
    event: &Event,
) -> Result<Given, StepFault<L::Stop>>
    requires ledger { L.can_commit ledger.old }
    requires role { end.old.role ≡ roles.Lac }
    ensures given { GivesStep result (step end.old moment block event.now) end.old end.new }
    ensures committed { CommitsStep L.commits_to result (step end.old moment block event.now) end.old ledger.old ledger.new }
    ensures role { end.new.role ≡ end.old.role }
{
    match end.plain_event(event)? {
        None => plain_step(end, ledger, moment, block, event),
        Some(plain) => plain_step(end, ledger, moment, block, &plain),
    }
}
