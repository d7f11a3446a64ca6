//! What the tunnels of an end share.

use crate::stop::{StepError, Stop};
use end_model::Config;
use tunnel_turn::env::{Env, Outputs};

/// What the tunnels of an end share: where they draw their ids from, the checkpoint that their steps leave records in, and what the end
/// is told. A turn is planned in what the hub lends, settled, and only then made. From the one to the other the hub is its caller's
/// alone, so that nobody else draws meanwhile.
pub trait Hub {
    ghost use Rattle.std.specs.Prelude.{ℕ, ◌≡◌, length, Option, None, is_some, IfOk, OnOk, IfErr, OnErr};
    ghost use Rattle.end_model.specs.Tunnels.{Drawing};
    ghost use Rattle.end_model.specs.declared.tunnel.Config.{Config as Told};
    ghost use Rattle.step_records.specs.Leaving.{leaves};
    ghost use Rattle.step_hub.specs.declared.stop.Stop.{Stop as Cause};
    ghost use Rattle.step_hub.specs.Hubs.{IsLentAs, IsRefusal, Settles};

    /// How often its store failed.
    ghost faults: { Self → ℕ };

    /// Why it commits nothing any more, if it stopped.
    ghost stopped: { Self → Option Cause };

    /// Where tunnel ids, session ids and the numbers of recoveries are drawn from.
    ghost spaces: { Self → Drawing };

    /// How many records its checkpoint has.
    ghost records: { Self → ℕ };

    /// What its end is told.
    ghost told: { Self → Told };

    /// Why it commits nothing any more, None as long as it does.
    fn stop(&self) -> Option<Stop>
        ensures { result ≡ stopped self.now };

    /// What its end is told.
    fn config(&self) -> &Config
        ensures { result.now ≡ told self.now };

    /// Lends what a turn works in, at a moment in milliseconds and with 16 random bytes: it draws from a copy of the hub's spaces, and
    /// has no outputs, changes and moves yet. The hub is as before. `Halted` comes exactly where it has a stop, and nothing else is
    /// refused but for want of memory.
    fn lend(&mut self, moment: u64, block: [u8; 16]) -> Result<Env, StepError>
        ensures same { self.new ≡ self.old }
        ensures going { OnOk result (stopped self.old ≡ None) }
        ensures lent { IfOk result (λ env. IsLentAs (spaces self.old) moment block env) }
        ensures refused { IfErr result (λ e. IsRefusal (is_some (stopped self.old)) e) };

    /// Commits what a turn leaves that worked in this and made these moves: each ceiling that it raised, and the records of its moves.
    /// Then the hub takes over what was drawn, and gives the outputs. `StoreFault` and `StoreFull` stop it. Where it refuses, nothing
    /// else is changed but by a fault; a turn that leaves more than 16,384 records is refused as if memory were wanting.
    fn settle(&mut self, env: Env) -> Result<Outputs, StepError>
        requires { stopped self.old ≡ None }
        ensures settled { Settles result (length (leaves (spaces self.old) env.ids env.moves)) (records self.old) (records self.new) (stopped self.new) (faults self.old) (faults self.new) }
        ensures given { IfOk result (λ outputs. outputs ≡ env.outputs) }
        ensures drawn { OnOk result (spaces self.new ≡ env.ids) }
        ensures kept { OnErr result (spaces self.new ≡ spaces self.old) }
        ensures told { told self.new ≡ told self.old };

    /// Takes back what was lent for a turn that isn't made. The hub is as before it was lent.
    fn back(&mut self, env: Env)
        ensures { self.new ≡ self.old };
}
