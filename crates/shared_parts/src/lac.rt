//! A LAC with its store, taken apart.

ghost use Rattle.std.specs.Prelude.{◌≡◌, false, None, length, is_some, IfOk, OnOk, IfErr, OnErr};
ghost use Rattle.checkpoint_journal.specs.State.{HasRoom};
ghost use Rattle.end_store.specs.Stored.{IsKept};
ghost use Rattle.step_records.specs.Leaving.{leaves};
ghost use Rattle.step_hub.specs.Hubs.{IsLentAs, IsRefusal, Settles};
ghost use Rattle.shared_store.specs.Settling.{SettlesOnDisk};
ghost use Rattle.shared_store.specs.Stops.{Tells, TellsRecords};
ghost use Rattle.shared_parts.specs.Parts.{IsTakenApart};

use disk_core::Disk;
use end_core::Cores;
use end_model::Config;
use lac_core::LacAccess;
use shared_store::{Begun, DiskHub, SharedStore};
use std::alloc::Global;
use step_hub::{Hub, StepError, Stop};
use stored_ends::StoredLac;
use tunnel_turn::env::{Env, Outputs};
use wire_base::NoMemory;

/// What the tunnels of a LAC share: its id spaces, its configuration, its store, and what it knows of its hosts.
#[derive(Drop)]
pub struct LacShared {
    pub shared: SharedStore,
    pub access: LacAccess,
}

/// Takes a LAC with its store apart into its tunnels with their calls, in the order of their local ids, and what they share. Where memory
/// is wanting it is given up, and its store may be opened again.
pub fn lac_parts(alloc: Global, lac: StoredLac) -> Result<(Cores, LacShared), NoMemory>
    ensures parts { IfOk result (λ r. IsTakenApart lac.lac.end lac.store r.0 r.1.shared) }
    ensures access { IfOk result (λ r. r.1.access ≡ lac.lac.access) }
{
    let (lac, store) = lac.into_parts();
    let (parts, access) = lac.into_parts()?;
    let shared = SharedStore::new(alloc, parts.config, parts.spaces, store);
    Ok((parts.cores, LacShared { shared, access }))
}

impl LacShared {
    /// Why nothing is committed any more, None as long as it is.
    pub fn stop(&self) -> Option<Stop>
        ensures { result ≡ self.now.shared.stop }
    {
        self.shared.stop()
    }

    /// Lends what a turn works in, as `SharedStore::lend` does.
    pub fn lend(&mut self, moment: u64, block: [u8; 16]) -> Result<Env, StepError>
        ensures same { self.new ≡ self.old }
        ensures going { OnOk result (self.old.shared.stop ≡ None) }
        ensures lent { IfOk result (λ env. IsLentAs self.old.shared.spaces moment block env) }
        ensures refused { IfErr result (λ e. IsRefusal (is_some self.old.shared.stop) e) }
    {
        self.shared.lend(moment, block)
    }

    /// Takes back what was lent for a turn that isn't made. Nothing changes.
    pub fn back(&mut self, env: Env)
        ensures { self.new ≡ self.old }
    {
        self.shared.back(env);
    }

    /// Commits what a turn leaves, as `SharedStore::settle` does.
    pub fn settle<D: Disk>(&mut self, disk: &mut D, env: Env) -> Result<Outputs, StepError>
        requires going { self.old.shared.stop ≡ None }
        requires room { self.old.shared.store.journal.halted ≡ false → HasRoom D.reach D.calls_left self.old.shared.store.journal disk.old }
        ensures room { self.new.shared.store.journal.halted ≡ false → HasRoom D.reach D.calls_left self.new.shared.store.journal disk.new }
        ensures settled { Settles result (length (leaves self.old.shared.spaces env.ids env.moves)) self.old.shared.store.journal.records self.new.shared.store.journal.records self.new.shared.stop (D.faults disk.old) (D.faults disk.new) }
        ensures given { IfOk result (λ outputs. outputs ≡ env.outputs) }
        ensures drawn { OnOk result (self.new.shared.spaces ≡ env.ids) }
        ensures kept { OnErr result (self.new.shared.spaces ≡ self.old.shared.spaces) }
        ensures told { self.new.shared.told ≡ self.old.shared.told }
        ensures access { self.new.access ≡ self.old.access }
        ensures disk { SettlesOnDisk D.holds (leaves self.old.shared.spaces env.ids env.moves) self.old.shared.store self.new.shared.store disk.old disk.new result }
    {
        self.shared.settle(disk, env)
    }
}

/// What the tunnels of a LAC share, with the disk. Its type keeps what that of a `DiskHub` does.
#[derive(Drop)]
pub struct LacHub<D: Disk, N: Begun> {
    pub hub: DiskHub<D, N>,
    pub access: LacAccess,
}

impl<D: Disk, N: Begun> LacHub<D, N> {
    /// A hub over what tunnels share and its disk, which is as the last call on the store left it. There is no stop yet.
    pub fn new(shared: LacShared, disk: D) -> LacHub<D, N>
        requires begun { D.faults disk ≡ N.begun }
        requires going { shared.shared.stop ≡ None }
        requires room { shared.shared.store.journal.halted ≡ false → HasRoom D.reach D.calls_left shared.shared.store.journal disk }
        requires stored { IsKept shared.shared.store (D.holds disk) }
        ensures shared { result.hub.shared ≡ shared.shared }
        ensures disk { result.hub.disk ≡ disk }
        ensures access { result.access ≡ shared.access }
    {
        let LacShared { shared, access } = shared;
        LacHub {
            hub: DiskHub::new(shared, disk),
            access,
        }
    }

    /// Why it stopped, and its disk. Where it stopped for want of room, the journal on the disk has so many records.
    pub fn end(self) -> (Option<Stop>, D)
        ensures disk { result.1 ≡ self.hub.disk }
        ensures stop { result.0 ≡ self.hub.shared.stop }
        ensures tells { Tells result.0 N.begun (D.faults result.1) }
        ensures records { TellsRecords result.0 (D.holds result.1) }
    {
        let LacHub { hub, .. } = self;
        hub.end()
    }
}

impl<D: Disk, N: Begun> Hub for LacHub<D, N> {
    ghost faults = { λ h. D.faults h.hub.disk };

    ghost stopped = { λ h. h.hub.shared.stop };

    ghost spaces = { λ h. h.hub.shared.spaces };

    ghost records = { λ h. h.hub.shared.store.journal.records };

    ghost told = { λ h. h.hub.shared.told };

    fn stop(&self) -> Option<Stop> {
        self.hub.stop()
    }

    fn config(&self) -> &Config {
        self.hub.config()
    }

    fn lend(&mut self, moment: u64, block: [u8; 16]) -> Result<Env, StepError> {
        self.hub.lend(moment, block)
    }

    fn settle(&mut self, env: Env) -> Result<Outputs, StepError> {
        self.hub.settle(env)
    }

    fn back(&mut self, env: Env) {
        self.hub.back(env);
    }
}
