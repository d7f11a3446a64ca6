//! A hub whose commits take as long as those of a disk.

use end_model::Config;
use locked_examples::MemoryHub;
use std::thread;
use std::time::{Clock, Duration};
use step_hub::{Hub, StepError, Stop};
use tunnel_core::{Env, Outputs};

/// What counts the records that it was given.
pub trait Counts {
    fn count(&self) -> u32;
}

impl Counts for MemoryHub {
    fn count(&self) -> u32 {
        self.records()
    }
}

/// A hub in which each turn that leaves a record is held for so many milliseconds.
#[derive(Drop)]
pub struct HeldHub<'a, H: Hub + Counts, C: Clock> {
    hub: H,
    clock: &'a C,
    hold: u64,
}

impl<'a, H: Hub + Counts, C: Clock> HeldHub<'a, H, C> {
    pub fn new(hub: H, clock: &'a C, hold: u64) -> HeldHub<'a, H, C> {
        HeldHub { hub, clock, hold }
    }
}

impl<'a, H: Hub + Counts, C: Clock> Hub for HeldHub<'a, H, C> {
    ghost faults = { λ h. H.faults h.hub };

    ghost stopped = { λ h. H.stopped h.hub };

    ghost spaces = { λ h. H.spaces h.hub };

    ghost records = { λ h. H.records h.hub };

    ghost told = { λ h. H.told h.hub };

    fn stop(&self) -> Option<Stop> {
        self.hub.stop()
    }

    fn config(&self) -> &Config {
        self.hub.config()
    }

    fn lend(&mut self, moment: u64, block: [u8; 16]) -> Result<Env, StepError> {
        self.hub.lend(moment, block)
    }

    fn settle(&mut self, env: Env) -> Result<Outputs, StepError> {
        let before = self.hub.count();
        let settled = self.hub.settle(env);
        if self.hub.count() != before {
            thread::sleep(self.clock, Duration::from_millis(self.hold));
        }
        settled
    }

    fn back(&mut self, env: Env) {
        self.hub.back(env);
    }
}
