//! What the threads of a pool share.

ghost use Rattle.std.specs.Prelude.{◌≡◌, []};
ghost use Rattle.session_workers.specs.Passes.{known_of, took_of, made_of, got_of, IsPassIn, IsOpener};
ghost use Rattle.worker_pool.specs.Pools.{IsCaller};

use crate::bell::Bell;
use crate::pass::PoolPass;
use crate::tally::Tally;
use session_workers::{Pass, Shared};
use std::sync::atomic::AtomicU64;
use std::sync::atomic::Ordering::SeqCst;
use step_hub::Hub;

/// What the threads of a pool share: an end's tunnels, cells and hub, queues, a bell for workers that sleep, and whether it is closed.
#[derive(Drop)]
pub struct Pool<H: Hub> {
    pub shared: Shared<H>,
    pub(crate) bell: Bell,
    closed: AtomicU64,
}

/// A pool over queues that were just opened, and the opener's pass. It takes no memory.
pub fn open_pool<H: Hub>(shared: Shared<H>, pass: Pass) -> (Pool<H>, PoolPass)
    requires of { IsPassIn shared pass × IsOpener pass }
    requires none { (known_of pass ≡ []) × (took_of pass ≡ []) × (made_of pass ≡ []) × (got_of pass ≡ []) }
    ensures of { IsCaller result.0 result.1 }
    ensures same { (result.0.shared ≡ shared) × (result.1.pass ≡ pass) }
{
    (
        Pool {
            shared,
            bell: Bell::new(),
            closed: AtomicU64::new(0),
        },
        PoolPass {
            pass,
            puts: 0,
            collected: 0,
            tally: Tally::none(),
        },
    )
}

impl<H: Hub> Pool<H> {
    /// The end's tunnels, cells and hub, and the queues.
    pub fn into_shared(self) -> Shared<H>
        ensures { result ≡ self.shared }
    {
        self.shared
    }

    pub(crate) fn open(&self) {
        self.closed.store(0, SeqCst);
    }

    /// No item will come: workers end once none waits.
    pub(crate) fn close(&self) {
        self.closed.store(1, SeqCst);
        self.bell.ring_all();
    }

    pub(crate) fn is_closed(&self) -> bool {
        self.closed.load(SeqCst) == 1
    }
}
