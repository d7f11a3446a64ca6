//! A hub over a disk. What its disk had counted when the hub was made is a fact of a name that its type has.

ghost use Rattle.std.specs.Prelude.{◌≡◌, None, true, false};
ghost use Rattle.checkpoint_journal.specs.State.{HasRoom};
ghost use Rattle.end_store.specs.Stored.{IsKept};
ghost use Rattle.shared_store.specs.Stops.{fits_count, KeepsStore, Tells, TellsRecords};

use crate::shared::SharedStore;
use disk_core::Disk;
use end_model::Config;
use std::marker::{Brand, PhantomData};
use step_hub::{Hub, StepError, Stop};
use tunnel_turn::env::{Env, Outputs};

/// How many faults the disk had counted when the hub was made.
pub trait Begun {
    ghost use Rattle.std.specs.Prelude.{ℕ};

    ghost begun: { ℕ };
}

/// A name for the count that somebody picks as the hub is made.
impl Begun for Brand {
    ghost begun = { 0 };
}

/// What the tunnels of an end share, with its disk. Its type keeps that it stopped for a fault exactly where the disk's count rose since
/// the hub was made, or stands at the last number of 64 bits; and that, unless it stopped for a fault, the disk has the store's journal.
#[derive(Drop)]
pub struct DiskHub<D: Disk, N: Begun> {
    pub shared: SharedStore,
    pub disk: D,
    pub of: PhantomData<N>,
    ghost count: { fits_count N.begun (D.faults disk) shared.stop ≡ true },
    ghost room: { shared.store.journal.halted ≡ false → HasRoom D.reach D.calls_left shared.store.journal disk },
    ghost stored: { ∥ KeepsStore shared.stop shared.store (D.holds disk) ∥₁ },
}

impl<D: Disk, N: Begun> DiskHub<D, N> {
    /// A hub over what tunnels share and its disk, which is as the last call on the store left it. There is no stop yet.
    #[tactic(auto, using(crate::proofs::Keeping::keeps_at_first))]
    pub fn new(shared: SharedStore, disk: D) -> DiskHub<D, N>
        requires begun { D.faults disk ≡ N.begun }
        requires going { shared.stop ≡ None }
        requires room { shared.store.journal.halted ≡ false → HasRoom D.reach D.calls_left shared.store.journal disk }
        requires stored { IsKept shared.store (D.holds disk) }
        ensures shared { result.shared ≡ shared }
        ensures disk { result.disk ≡ disk }
    {
        DiskHub {
            shared,
            disk,
            of: PhantomData,
        }
    }

    /// Why it stopped, and its disk. Where it stopped for want of room, the journal on the disk has so many records.
    #[tactic(auto, using(crate::proofs::Keeping::stop_tells_records))]
    pub fn end(self) -> (Option<Stop>, D)
        ensures disk { result.1 ≡ self.disk }
        ensures stop { result.0 ≡ self.shared.stop }
        ensures tells { Tells result.0 N.begun (D.faults result.1) }
        ensures records { TellsRecords result.0 (D.holds result.1) }
    {
        let DiskHub { shared, disk, .. } = self;
        (shared.stop(), disk)
    }
}

impl<D: Disk, N: Begun> Hub for DiskHub<D, N> {
    ghost faults = { λ h. D.faults h.disk };

    ghost stopped = { λ h. h.shared.stop };

    ghost spaces = { λ h. h.shared.spaces };

    ghost records = { λ h. h.shared.store.journal.records };

    ghost told = { λ h. h.shared.told };

    fn stop(&self) -> Option<Stop> {
        self.shared.stop()
    }

    fn config(&self) -> &Config {
        self.shared.config()
    }

    fn lend(&mut self, moment: u64, block: [u8; 16]) -> Result<Env, StepError> {
        self.shared.lend(moment, block)
    }

    #[tactic(auto, using(crate::proofs::Counting::count_settles, crate::proofs::Keeping::store_settles))]
    fn settle(&mut self, env: Env) -> Result<Outputs, StepError> {
        self.shared.settle(&mut self.disk, env)
    }

    fn back(&mut self, _env: Env) {}
}
