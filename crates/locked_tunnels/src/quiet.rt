//! Turns that need nothing of the hub.

ghost use Rattle.std.specs.Prelude.{◌≡◌, true, false, length, IfOk, OnOk, OnErr};
ghost use Rattle.session_cells.specs.Tokens.{log_of, IsOf, count_of, Later};
ghost use Rattle.session_cells.specs.Logs.{AllEntered};
ghost use Rattle.session_cells.specs.Changes.{entries_of};
ghost use Rattle.id_source.specs.Spaces.{new_space};
ghost use Rattle.locked_tunnels.specs.Kept.{known};
ghost use Rattle.locked_tunnels.specs.Turns.{turned, left_by};
ghost use Rattle.locked_tunnels.specs.Kinds.{kind_by};
ghost use Rattle.locked_tunnels.specs.Quiet.{undrawn};

use crate::kept::KeptTunnel;
use crate::kind::TurnKind;
use crate::turned::{Turned, kind_turn};
use end_model::{Config, Event};
use id_source::Ids;
use session_cells::{CellSeen, Cells};
use session_looks::CellChanges;
use std::alloc::Global;
use step_hub::{Hub, StepError, Stop};
use step_records::{Spaces, step_records};
use tunnel_core::{Env, Moves, Outputs};

/// The last tunnel id, the last session id, and the last number of a recovery.
const LAST_TUNNEL: u32 = 65_535;

const LAST_SESSION: u32 = 65_534;

const LAST_RECOVERY: u32 = 4_294_967_295;

/// A hub of which nothing was drawn and whose checkpoint is full: a turn that draws or leaves a record isn't settled in it. Each other turn
/// is the same in whichever hub.
#[derive(Drop)]
pub(crate) struct Quiet<'a> {
    alloc: Global,
    config: &'a Config,
}

/// Whether nothing was drawn of this space of numbers.
#[tactic(auto, unfolding(id_source::specs::Spaces::takes_id))]
fn is_undrawn(ids: Ids, last: u32) -> bool
    ensures { result ≡ true → ids ≡ new_space last }
{
    let mut next = ids;
    ids.last() == last && ids.ceiling() == 0 && matches!(next.take(), Ok(1))
}

/// Whether nothing was drawn of spaces like the quiet hub's.
fn are_undrawn(env: &Env) -> bool
    ensures { result ≡ true → env.now.ids ≡ undrawn }
{
    is_undrawn(env.tunnels, LAST_TUNNEL)
        && is_undrawn(env.sessions, LAST_SESSION)
        && is_undrawn(env.recoveries, LAST_RECOVERY)
}

/// Spaces of which nothing was drawn.
fn undrawn() -> Spaces
    ensures { result ≡ undrawn }
{
    Spaces {
        tunnels: Ids::new(LAST_TUNNEL),
        sessions: Ids::new(LAST_SESSION),
        recoveries: Ids::new(LAST_RECOVERY),
    }
}

impl<'a> Hub for Quiet<'a> {
    ghost use Rattle.std.specs.Prelude.{None};
    ghost use Rattle.step_hub.specs.Hubs.{most_records};
    ghost use Rattle.locked_tunnels.specs.Quiet.{undrawn};

    ghost faults = { λ h. 0 };

    ghost stopped = { λ h. None };

    ghost spaces = { λ h. undrawn };

    ghost records = { λ h. most_records };

    ghost told = { λ h. h.config.now };

    fn stop(&self) -> Option<Stop> {
        None
    }

    fn config(&self) -> &Config {
        self.config
    }

    fn lend(&mut self, moment: u64, block: [u8; 16]) -> Result<Env, StepError> {
        let spaces = undrawn();
        Ok(Env {
            moment,
            block,
            tunnels: spaces.tunnels,
            sessions: spaces.sessions,
            recoveries: spaces.recoveries,
            outputs: Outputs::new(self.alloc),
            changes: CellChanges::new(self.alloc),
            moves: Moves::new(self.alloc),
        })
    }

    fn settle(&mut self, env: Env) -> Result<Outputs, StepError> {
        if !are_undrawn(&env) {
            return Err(StepError::NoMemory);
        }
        let spaces = undrawn();
        let records = step_records(self.alloc, &spaces, &spaces, env.moves.as_slice())?;
        if records.len() != 0 {
            return Err(StepError::NoMemory);
        }
        Ok(env.outputs)
    }

    fn back(&mut self, _env: Env) {}
}

/// A turn of a tunnel that draws no id and leaves no record, made without the hub. The caller holds the tunnel's lock alone. Where it would
/// draw or leave something, or memory is wanting, the tunnel and the cells are as before.
pub(crate) fn quiet_turn(
    kept: &mut KeptTunnel,
    kind: TurnKind,
    cells: &Cells,
    seen: &mut CellSeen,
    config: &Config,
    moment: u64,
    block: [u8; 16],
    event: &Event,
) -> Result<Turned, StepError>
    requires full { count_of cells.now ≡ 65536 }
    requires of { IsOf cells.now seen.old }
    requires there { kept.old.gone ≡ false }
    ensures later { Later cells.now seen.old seen.new }
    ensures turned { IfOk result (λ t. t ≡ record { event = event.now; moment = moment; block = block; outputs = (kind_by kind (known kept.old) config.now undrawn moment block event.now).turn.outputs }) }
    ensures made { OnOk result (known kept.new ≡ turned (kind_by kind (known kept.old) config.now undrawn moment block event.now) (known kept.old)) }
    ensures undrawn { OnOk result ((kind_by kind (known kept.old) config.now undrawn moment block event.now).turn.ids ≡ undrawn) }
    ensures unrecorded { OnOk result (length (left_by undrawn (kind_by kind (known kept.old) config.now undrawn moment block event.now)) ≡ 0) }
    ensures entered { OnOk result (AllEntered (log_of seen.old) (entries_of kept.new.changes) (log_of seen.new)) }
    ensures same { OnErr result (known kept.new ≡ known kept.old) }
    ensures still { OnErr result (seen.new ≡ seen.old) }
{
    let mut hub = Quiet {
        alloc: kept.alloc,
        config,
    };
    kind_turn(kept, kind, cells, seen, &mut hub, moment, block, event)
}
