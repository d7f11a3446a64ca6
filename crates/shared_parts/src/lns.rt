//! An LNS with its store, taken apart.

ghost use Rattle.std.specs.Prelude.{IfOk};
ghost use Rattle.shared_parts.specs.Parts.{IsTakenApart};

use end_core::Cores;
use shared_store::{DiskHub, SharedStore};
use std::alloc::Global;
use stored_ends::StoredLns;
use wire_base::NoMemory;

/// What the tunnels of an LNS share: its id spaces, its configuration and its store.
pub type LnsShared = SharedStore;

/// What the tunnels of an LNS share, with the disk.
pub type LnsHub<D, N> = DiskHub<D, N>;

/// Takes an LNS with its store apart into its tunnels with their calls, in the order of their local ids, and what they share. Where memory
/// is wanting it is given up, and its store may be opened again.
pub fn lns_parts(alloc: Global, lns: StoredLns) -> Result<(Cores, LnsShared), NoMemory>
    ensures { IfOk result (λ r. IsTakenApart lns.lns lns.store r.0 r.1) }
{
    let (lns, store) = lns.into_parts();
    let parts = lns.into_parts()?;
    let shared = SharedStore::new(alloc, parts.config, parts.spaces, store);
    Ok((parts.cores, shared))
}
