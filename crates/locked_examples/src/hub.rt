//! A hub in memory, which counts records, and fails or waits where it is asked to.

ghost use Rattle.std.specs.Prelude.{◌≤◌};

use crate::signals::Signals;
use end_model::Config;
use id_source::Ids;
use session_looks::CellChanges;
use std::alloc::Global;
use std::sync::Arc;
use step_hub::{Hub, StepError, Stop};
use step_records::{Spaces, step_records};
use tunnel_core::{Env, Moves, Outputs};

/// How many records one turn may leave, and how many the hub may have.
const MOST_OF_TURN: u32 = 16_384;

const MOST_RECORDS: u32 = 1_048_576;

/// A hub that keeps no records, but counts them.
#[derive(Drop)]
pub struct MemoryHub {
    alloc: Global,
    config: Config,
    spaces: Spaces,
    records: u32,
    faults: u64,
    stop: Option<Stop>,
    /// After how many turns that left records it fails, None where it never does.
    fails: Option<u32>,
    /// What its turns that leave records wait for.
    signals: Option<Arc<Signals>>,
    ghost tunnels: { spaces.tunnels.last ≤ 65535 },
    ghost sessions: { spaces.sessions.last ≤ 65535 },
    ghost few: { records ≤ 1048576 },
}

fn one_less(fails: Option<u32>) -> Option<u32> {
    match fails {
        None => None,
        Some(behind) => Some(behind.saturating_sub(1)),
    }
}

impl MemoryHub {
    /// A hub of which nothing was drawn. Where `fails` is set, its store fails at the first turn that leaves a record.
    pub fn new(alloc: Global, config: Config, fails: bool) -> MemoryHub {
        let fails = if fails { Some(0) } else { None };
        MemoryHub::with(alloc, config, fails, None)
    }

    /// The same, whose store fails behind so many turns that leave records.
    pub fn failing(alloc: Global, config: Config, behind: u32) -> MemoryHub {
        MemoryHub::with(alloc, config, Some(behind), None)
    }

    /// The same, whose store never fails. Each turn that leaves records waits for signals.
    pub fn waiting(alloc: Global, config: Config, signals: Arc<Signals>) -> MemoryHub {
        MemoryHub::with(alloc, config, None, Some(signals))
    }

    fn with(
        alloc: Global,
        config: Config,
        fails: Option<u32>,
        signals: Option<Arc<Signals>>,
    ) -> MemoryHub {
        MemoryHub {
            alloc,
            config,
            spaces: Spaces {
                tunnels: Ids::new(65_535),
                sessions: Ids::new(65_534),
                recoveries: Ids::new(4_294_967_295),
            },
            records: 0,
            faults: 0,
            stop: None,
            fails,
            signals,
        }
    }

    /// How many records it was given.
    pub fn records(&self) -> u32 {
        self.records
    }
}

impl Hub for MemoryHub {
    ghost faults = { λ h. h.faults };

    ghost stopped = { λ h. h.stop };

    ghost spaces = { λ h. h.spaces };

    ghost records = { λ h. h.records };

    ghost told = { λ h. h.config };

    fn stop(&self) -> Option<Stop> {
        self.stop
    }

    fn config(&self) -> &Config {
        &self.config
    }

    fn lend(&mut self, moment: u64, block: [u8; 16]) -> Result<Env, StepError> {
        if self.stop.is_some() {
            return Err(StepError::Halted);
        }
        Ok(Env {
            moment,
            block,
            tunnels: self.spaces.tunnels,
            sessions: self.spaces.sessions,
            recoveries: self.spaces.recoveries,
            outputs: Outputs::new(self.alloc),
            changes: CellChanges::new(self.alloc),
            moves: Moves::new(self.alloc),
        })
    }

    fn settle(&mut self, env: Env) -> Result<Outputs, StepError> {
        let after = Spaces {
            tunnels: env.tunnels,
            sessions: env.sessions,
            recoveries: env.recoveries,
        };
        let records = step_records(self.alloc, &self.spaces, &after, env.moves.as_slice())?;
        let wanted = match u32::try_from(records.len()) {
            Ok(wanted) if wanted <= MOST_OF_TURN => wanted,
            _ => return Err(StepError::NoMemory),
        };
        if self.records > MOST_RECORDS - wanted {
            self.stop = Some(Stop::Full {
                records: self.records,
                wanted,
            });
            return Err(StepError::StoreFull {
                records: self.records,
            });
        }
        if wanted != 0 {
            if let Some(signals) = &self.signals {
                signals.wait();
            }
            if self.fails == Some(0) {
                self.faults = self.faults.saturating_add(1);
                self.stop = Some(Stop::Fault);
                return Err(StepError::StoreFault);
            }
            self.fails = one_less(self.fails);
        }
        self.records += wanted;
        self.spaces = after;
        Ok(env.outputs)
    }

    fn back(&mut self, _env: Env) {}
}
