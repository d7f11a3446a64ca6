//! Ids, a store, and what the end is told.

ghost use Rattle.std.specs.Prelude.{◌≡◌, ◌≤◌, [], length, false, true, None, is_some, IfOk, OnOk, IfErr, OnErr};
ghost use Rattle.checkpoint_journal.specs.State.{HasRoom};
ghost use Rattle.end_model.specs.Tunnels.{Drawing};
ghost use Rattle.step_records.specs.Leaving.{leaves};
ghost use Rattle.step_hub.specs.Hubs.{IsLentAs, IsRefusal, Settles, most_of_turn};
ghost use Rattle.shared_store.specs.Settling.{SettlesOnDisk};
ghost use Rattle.shared_store.specs.Stops.{fits_journal};

use crate::stops::{error_by, stop_by};
use disk_core::Disk;
use end_model::Config;
use end_store::Store;
use session_looks::CellChanges;
use std::alloc::Global;
use std::marker::Model;
use step_hub::{StepError, Stop};
use step_records::{Records, Spaces, step_records};
use tunnel_turn::env::{Env, Moves, Outputs};
use wire_base::NoMemory;

/// How many records one turn may leave.
const MOST_OF_TURN: usize = 16_384;

/// What the tunnels of an end share: where they draw their ids from, what the end was told, and the store of the records that their turns
/// leave, on a disk that is handed to each call. Between two calls the disk is as the last one left it.
#[derive(Drop)]
pub struct SharedStore {
    alloc: Global,
    config: Config,
    spaces: Spaces,
    store: Store,
    stop: Option<Stop>,
}

impl Model for SharedStore {
    ghost use Rattle.std.specs.Prelude.{◌≡◌, ◌≤◌, true};
    ghost use Rattle.shared_store.specs.Shared.{Shared};
    ghost use Rattle.shared_store.specs.Stops.{fits_journal};

    ghost Value = { Shared };

    ghost view = { λ s. record { told = s.config; spaces = s.spaces; store = s.store; stop = s.stop } };

    ghost invariant = { λ s. record {
      tunnels : s.spaces.tunnels.last ≤ 65535;
      sessions : s.spaces.sessions.last ≤ 65535;
      stopped : fits_journal s.stop s.store.journal ≡ true;
    } };
}

/// Where a turn draws its numbers from that works in this.
fn spaces_of(env: &Env) -> Spaces
    ensures spaces { result ≡ env.now.ids }
    ensures tunnels { result.tunnels.last ≤ 65535 }
    ensures sessions { result.sessions.last ≤ 65535 }
{
    Spaces {
        tunnels: env.tunnels,
        sessions: env.sessions,
        recoveries: env.recoveries,
    }
}

/// What a turn leaves that drew from these spaces before it, at most 16,384 records. More are refused as if memory were wanting.
fn turn_records(alloc: Global, before: &Spaces, env: &Env) -> Result<Records, NoMemory>
    ensures left { IfOk result (λ records. records ≡ leaves before.now env.now.ids env.now.moves) }
    ensures few { IfOk result (λ records. length records ≤ most_of_turn) }
{
    let records = step_records(alloc, before, &spaces_of(env), env.moves.as_slice())?;
    if records.len() > MOST_OF_TURN {
        return Err(NoMemory);
    }
    Ok(records)
}

impl SharedStore {
    /// What the tunnels of an end share that was told this, drew from these spaces, of which tunnel ids and session ids have 16 bits, and
    /// committed to this store. Where the store's disk failed before, nothing more is committed.
    pub fn new(alloc: Global, config: Config, spaces: Spaces, store: Store) -> SharedStore
        requires tunnels { spaces.tunnels.last ≤ 65535 }
        requires sessions { spaces.sessions.last ≤ 65535 }
        ensures told { result.told ≡ config }
        ensures spaces { result.spaces ≡ spaces }
        ensures store { result.store ≡ store }
        ensures going { store.journal.halted ≡ false → result.stop ≡ None }
    {
        let stop = if store.is_halted() {
            Some(Stop::Fault)
        } else {
            None
        };
        SharedStore {
            alloc,
            config,
            spaces,
            store,
            stop,
        }
    }

    /// Why nothing is committed any more, None as long as it is.
    pub fn stop(&self) -> Option<Stop>
        ensures stop { result ≡ self.now.stop }
        ensures fits { fits_journal self.now.stop self.now.store.journal ≡ true }
    {
        self.stop
    }

    /// What the end is told.
    pub fn config(&self) -> &Config
        ensures { result.now ≡ self.now.told }
    {
        &self.config
    }

    /// The store.
    pub fn store(&self) -> &Store
        ensures { result.now ≡ self.now.store }
    {
        &self.store
    }

    /// Where ids are drawn from. It takes no memory.
    pub fn spaces(&self) -> Spaces
        ensures { result ≡ self.now.spaces }
    {
        self.spaces
    }

    /// Lends what a turn works in, at a moment in milliseconds and with 16 random bytes: it draws from a copy of the spaces, and has no
    /// outputs, changes and moves yet. `Halted` comes exactly where there is a stop.
    pub fn lend(&self, moment: u64, block: [u8; 16]) -> Result<Env, StepError>
        ensures going { OnOk result (self.now.stop ≡ None) }
        ensures lent { IfOk result (λ env. IsLentAs self.now.spaces moment block env) }
        ensures refused { IfErr result (λ e. IsRefusal (is_some self.now.stop) e) }
    {
        if self.stop.is_some() {
            return Err(StepError::Halted);
        }
        Ok(Env {
            moment,
            block,
            tunnels: self.spaces.tunnels,
            sessions: self.spaces.sessions,
            recoveries: self.spaces.recoveries,
            outputs: Outputs::new(self.alloc),
            changes: CellChanges::new(self.alloc),
            moves: Moves::new(self.alloc),
        })
    }

    /// Takes back what was lent for a turn that isn't made. Nothing changes.
    pub fn back(&mut self, _env: Env)
        ensures { self.new ≡ self.old }
    {}

    /// Commits what a turn leaves that worked in this and made these moves: each ceiling that it raised, and the records of its moves.
    /// Then what it drew is taken over, and its outputs are given. `StoreFault` comes only where the disk's count of faults rose, and
    /// `StoreFull` exactly where the records pass the limit: each is the stop from then on. Where it refuses, nothing else is changed but
    /// by a fault; a turn that leaves more than 16,384 records is refused as if memory were wanting.
    pub fn settle<D: Disk>(&mut self, disk: &mut D, env: Env) -> Result<Outputs, StepError>
        requires going { self.old.stop ≡ None }
        requires room { self.old.store.journal.halted ≡ false → HasRoom D.reach D.calls_left self.old.store.journal disk.old }
        ensures room { self.new.store.journal.halted ≡ false → HasRoom D.reach D.calls_left self.new.store.journal disk.new }
        ensures settled { Settles result (length (leaves self.old.spaces env.ids env.moves)) self.old.store.journal.records self.new.store.journal.records self.new.stop (D.faults disk.old) (D.faults disk.new) }
        ensures given { IfOk result (λ outputs. outputs ≡ env.outputs) }
        ensures drawn { OnOk result (self.new.spaces ≡ env.ids) }
        ensures kept { OnErr result (self.new.spaces ≡ self.old.spaces) }
        ensures told { self.new.told ≡ self.old.told }
        ensures disk { SettlesOnDisk D.holds (leaves self.old.spaces env.ids env.moves) self.old.store self.new.store disk.old disk.new result }
    {
        let after = spaces_of(&env);
        let records = turn_records(self.alloc, &self.spaces, &env)?;
        let wanted = records.len() as u32;
        let Env { outputs, .. } = env;
        match self.store.commit_step(disk, records.as_slice()) {
            Ok(()) => {
                self.spaces = after;
                Ok(outputs)
            }
            Err(stop) => {
                self.stop = stop_by(stop, wanted);
                Err(error_by(stop))
            }
        }
    }
}
