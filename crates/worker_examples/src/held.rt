//! A hub that holds a turn.

use end_model::Config;
use session_workers::Gate;
use std::sync::atomic::AtomicU64;
use std::sync::atomic::Ordering::SeqCst;
use std::thread;
use step_hub::{Hub, StepError, Stop};
use tunnel_core::{Env, Outputs};

/// How often a thread yields at most while it waits for the other.
const YIELDS: u32 = 1_000_000;

/// A turn is settled only once number 2 is done, and number 2 is begun only once the turn is to be settled: or after a million yields
/// each.
#[derive(Drop)]
pub struct Meeting {
    held: AtomicU64,
    done: AtomicU64,
    met: AtomicU64,
}

/// Whether the word came to be 1.
fn comes(word: &AtomicU64) -> bool {
    for _ in 0..YIELDS {
        if word.load(SeqCst) == 1 {
            return true;
        }
        thread::yield_now();
    }
    false
}

impl Meeting {
    pub fn new() -> Meeting {
        Meeting {
            held: AtomicU64::new(0),
            done: AtomicU64::new(0),
            met: AtomicU64::new(0),
        }
    }

    /// Whether number 2 was done while the turn was held.
    pub fn met(&self) -> bool {
        self.met.load(SeqCst) == 1
    }

    /// Holds a turn.
    fn hold(&self) {
        self.held.store(1, SeqCst);
        if comes(&self.done) {
            self.met.store(1, SeqCst);
        }
    }
}

impl Gate for Meeting {
    fn before(&self, number: u64) {
        if number == 2 {
            comes(&self.held);
        }
    }

    fn after(&self, number: u64) {
        if number == 2 {
            self.done.store(1, SeqCst);
        }
    }
}

/// A hub in which each turn is held before it is settled, as by a disk that is slow.
#[derive(Drop)]
pub struct HeldHub<'a, H: Hub> {
    hub: H,
    meeting: &'a Meeting,
}

impl<'a, H: Hub> HeldHub<'a, H> {
    pub fn new(hub: H, meeting: &'a Meeting) -> HeldHub<'a, H> {
        HeldHub { hub, meeting }
    }
}

impl<'a, H: Hub> Hub for HeldHub<'a, H> {
    ghost faults = { λ h. H.faults h.hub };

    ghost stopped = { λ h. H.stopped h.hub };

    ghost spaces = { λ h. H.spaces h.hub };

    ghost records = { λ h. H.records h.hub };

    ghost told = { λ h. H.told h.hub };

    fn stop(&self) -> Option<Stop> {
        self.hub.stop()
    }

    fn config(&self) -> &Config {
        self.hub.config()
    }

    fn lend(&mut self, moment: u64, block: [u8; 16]) -> Result<Env, StepError> {
        self.hub.lend(moment, block)
    }

    fn settle(&mut self, env: Env) -> Result<Outputs, StepError> {
        self.meeting.hold();
        self.hub.settle(env)
    }

    fn back(&mut self, env: Env) {
        self.hub.back(env);
    }
}
