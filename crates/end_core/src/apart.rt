//! An end is taken apart.

use crate::end::End;
use end_model::Config;
use step_records::Spaces;
use tunnel_table::Cores;
use wire_base::NoMemory;

/// What an end is made of, but for what the data plane sees of its calls.
#[derive(Drop)]
pub struct EndParts {
    /// Its tunnels with their calls, in the order of their local ids.
    pub cores: Cores,
    /// Where it draws its numbers from.
    pub spaces: Spaces,
    /// What it was told when it was made.
    pub config: Config,
}

impl End {
    ghost use Rattle.std.specs.Prelude.{IfOk};
    ghost use Rattle.end_core.specs.Apart.{IsApart};

    /// The end's tunnels, and apart from them what they share. It is given up, also where memory is wanting.
    #[tactic(auto, using(tunnel_table::specs::Apart::tunnels_apart))]
    pub fn into_parts(self) -> Result<EndParts, NoMemory>
        ensures { IfOk result (λ parts. IsApart self parts) }
    {
        let spaces = self.spaces();
        let End {
            alloc,
            config,
            tunnels,
            ..
        } = self;
        let cores = tunnels.into_cores(alloc)?;
        Ok(EndParts {
            cores,
            spaces,
            config,
        })
    }
}
