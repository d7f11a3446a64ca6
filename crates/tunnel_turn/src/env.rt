//! What a step works in.

ghost use Rattle.std.specs.Prelude.{◌≡◌, ◌++◌, [], OnOk, OnErr};
ghost use Rattle.end_model.specs.Turn.{with_turn};

use crate::turn::Turn;
use end_model::{Move, Out};
use id_source::Ids;
use session_looks::CellChanges;
use std::marker::Model;
use wire_base::{NoMemory, Sequence};

/// What a step gives to the outside, in order.
pub type Outputs = Sequence<Out>;

/// What a step does, in order.
pub type Moves = Sequence<Move>;

/// What a step of a tunnel works in. Tunnel ids and session ids have 16 bits.
#[derive(Drop)]
pub struct Env {
    /// The moment, in milliseconds.
    pub moment: u64,
    /// The step's random block.
    pub block: [u8; 16],
    /// Where tunnel ids, session ids and the numbers of recoveries are drawn from.
    pub tunnels: Ids,
    pub sessions: Ids,
    pub recoveries: Ids,
    pub outputs: Outputs,
    /// What changes in the looks.
    pub changes: CellChanges,
    pub moves: Moves,
}

impl Model for Env {
    ghost use Rattle.std.specs.Prelude.{◌≤◌};
    ghost use Rattle.end_model.specs.Tunnels.{Env as Known};
    ghost use Rattle.end_model.specs.declared.tunnel.Mode.TheVariants.{Current};

    ghost Value = { Known };

    ghost view = { λ e. record { on = record { moment = e.moment; block = e.block; mode = Current }; ids = record { tunnels = e.tunnels; sessions = e.sessions; recoveries = e.recoveries }; outputs = e.outputs; changes = e.changes; moves = e.moves } };

    ghost invariant = { λ e. (e.tunnels.last ≤ 65535) × (e.sessions.last ≤ 65535) };
}

/// Takes in what was given behind what was given before; where that is nothing, the list itself, and no copy of it. Where memory is
/// wanting, both are as before.
fn take_all<T: Drop>(before: &mut Sequence<T>, given: &mut Sequence<T>) -> Result<(), NoMemory>
    ensures ok { OnOk result (before.new ≡ before.old ++ given.old) }
    ensures emptied { OnOk result (given.new ≡ []) }
    ensures err { OnErr result (before.new ≡ before.old) }
    ensures stays { OnErr result (given.new ≡ given.old) }
{
    if before.len() != 0 {
        return before.append(given);
    }
    std::mem::swap(before, given);
    Ok(())
}

impl Env {
    /// Takes in what a turn gave. Where memory is wanting, the environment is as before.
    #[tactic(auto, unfolding(end_model::specs::Turn::with_turn))]
    pub fn take_in(&mut self, turn: &mut Turn) -> Result<(), NoMemory>
        ensures ok { OnOk result (self.new ≡ with_turn turn.old self.old) }
        ensures err { OnErr result (self.new ≡ self.old) }
        ensures control { turn.new.control ≡ turn.old.control }
        ensures query { turn.new.query ≡ turn.old.query }
        ensures acked { turn.new.acked ≡ turn.old.acked }
        ensures given { turn.new.given ≡ turn.old.given }
        ensures cleared { turn.new.cleared ≡ turn.old.cleared }
        ensures changed { turn.new.changed ≡ turn.old.changed }
        ensures added { turn.new.added ≡ turn.old.added }
    {
        let outputs = self.outputs.len();
        let changes = self.changes.len();
        take_all(&mut self.outputs, &mut turn.outputs)?;
        if take_all(&mut self.changes, &mut turn.changes).is_err() {
            self.outputs.truncate(outputs);
            return Err(NoMemory);
        }
        if take_all(&mut self.moves, &mut turn.moves).is_err() {
            self.changes.truncate(changes);
            self.outputs.truncate(outputs);
            return Err(NoMemory);
        }
        self.tunnels = turn.tunnels;
        self.sessions = turn.sessions;
        self.recoveries = turn.recoveries;
        Ok(())
    }
}
