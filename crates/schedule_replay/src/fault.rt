//! Why a line isn't run.

use wire_base::{NoMemory as OutOfMemory, Why};
use world_model::Refusal;

/// Why a line isn't run.
#[derive(Clone, Copy)]
pub enum LineFault {
    /// The line is refused. The world is as before; of one that found no room for records the report is, and it answers want of memory from
    /// then on.
    Refused { refusal: Refusal },
    /// Memory was wanting, or a node's disk had another number of records behind a stop than was due. The world answers so from then on.
    NoMemory,
}

impl LineFault {
    ghost use Rattle.std.specs.Prelude.{◌≡◌};
    ghost use Rattle.world_model.specs.declared.refusal.Refusal.TheVariants.{Unfit};
    ghost use Rattle.schedule_replay.specs.declared.fault.LineFault.TheVariants.{Refused};

    /// The line doesn't fit.
    pub(crate) fn unfit(why: Why) -> LineFault
        ensures { result ≡ Refused (Unfit why) }
    {
        LineFault::Refused {
            refusal: Refusal::Unfit { why },
        }
    }
}

impl From<OutOfMemory> for LineFault {
    ghost use Rattle.std.specs.Prelude.{◌≡◌};
    ghost use Rattle.schedule_replay.specs.declared.fault.LineFault.TheVariants.{NoMemory};

    ghost from_gives = { λ _ e. e ≡ NoMemory };

    fn from(_e: OutOfMemory) -> LineFault {
        LineFault::NoMemory
    }
}
