//! What threads tell one another without a lock.

use std::sync::atomic::Ordering::SeqCst;
use std::sync::atomic::{AtomicBool, AtomicU64};

/// What threads tell one another without a lock: before which moment no tick does anything, and whether the hub has stopped.
#[derive(Drop)]
pub(crate) struct Unlocked {
    /// In milliseconds. It is lowered by each turn under its tunnel's lock, and by each tunnel that a tick visits; a tick first sets it to
    /// the last number of 64 bits.
    due: AtomicU64,
    stopped: AtomicBool,
}

impl Unlocked {
    /// Of no tunnels, and a hub that goes on.
    pub(crate) fn new() -> Unlocked {
        Unlocked {
            due: AtomicU64::new(u64::MAX),
            stopped: AtomicBool::new(false),
        }
    }

    /// Whether no tick does anything at a moment, in milliseconds.
    pub(crate) fn is_early(&self, moment: u64) -> bool {
        moment < self.due.load(SeqCst)
    }

    /// A tick begins: each tunnel that it visits tells anew when it is due.
    pub(crate) fn begin(&self) {
        self.due.store(u64::MAX, SeqCst);
    }

    /// A tick may do something from this moment on, in milliseconds.
    pub(crate) fn lower(&self, due: u64) {
        self.due.fetch_min(due, SeqCst);
    }

    /// Whether a turn was refused as the hub had stopped, or stopped at it.
    pub(crate) fn has_stopped(&self) -> bool {
        self.stopped.load(SeqCst)
    }

    /// A turn was refused so.
    pub(crate) fn stop(&self) {
        self.stopped.store(true, SeqCst);
    }
}
