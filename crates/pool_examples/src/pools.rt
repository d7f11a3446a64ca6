//! Pools for tests.

ghost use Rattle.std.specs.Prelude.{IfOk};
ghost use Rattle.worker_pool.specs.Pools.{IsCaller, IsAlone};

use end_model::{Config, Role};
use locked_examples::MemoryHub;
use session_workers::open_shared;
use std::alloc::Global;
use wire_base::NoMemory;
use worker_pool::{Pool, PoolPass, open_pool};

/// A pool of the LNS 2 at 10.0.0.2 over a hub in memory, and the calling thread's pass. Where `fails` is set, the hub's store fails at
/// the first turn.
pub fn open(alloc: Global, fails: bool) -> Result<(Pool<MemoryHub>, PoolPass), NoMemory>
    ensures of { IfOk result (λ r. IsCaller r.0 r.1) }
    ensures alone { IfOk result (λ r. IsAlone r.1) }
{
    let config = Config::new(2, 0x0a00_0002, 0, None, false);
    let hub = MemoryHub::new(alloc, config, fails);
    match open_shared(alloc, Role::Lns, 0, Vec::new(alloc), hub) {
        Ok((shared, pass)) => Ok(open_pool(shared, pass)),
        Err(_hub) => Err(NoMemory),
    }
}
