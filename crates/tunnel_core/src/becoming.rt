//! What a step makes of a recovery tunnel.

ghost use Rattle.std.specs.Prelude.{◌≡◌, IfOk};
ghost use Rattle.std.specs.Option.{option_copied};

use recovery_tunnel::Recovering;
use std::alloc::Global;
use std::marker::Model;
use wire_base::NoMemory;

/// What the recovery tunnel becomes in a step that is about it, None where it goes. Most steps are about something else, and hand on
/// that there is no such thing through many calls; so it stands in a box.
#[derive(Drop)]
pub(crate) struct Becomes {
    recovery: Box<Option<Recovering>>,
}

impl Model for Becomes {
    ghost use Rattle.std.specs.Prelude.{Option};
    ghost use Rattle.end_model.specs.Tunnels.{Recovering as Known};

    ghost Value = { Option Known };

    ghost view = { λ b. b.recovery.value };
}

impl Becomes {
    pub(crate) fn new(alloc: Global, recovery: Option<Recovering>) -> Result<Becomes, NoMemory>
        ensures { IfOk result (λ b. b ≡ recovery) }
    {
        Ok(Becomes {
            recovery: Box::new(alloc, recovery)?,
        })
    }

    pub(crate) fn get(&self) -> Option<&Recovering>
        ensures { option_copied result ≡ self.now }
    {
        self.recovery.as_ref().as_ref()
    }

    pub(crate) fn into_inner(self) -> Option<Recovering>
        ensures { result ≡ self }
    {
        Box::into_inner(self.recovery)
    }
}
