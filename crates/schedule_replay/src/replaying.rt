//! A whole run.

ghost use Rattle.std.specs.Prelude.{◌≡◌, ◌++◌, IfOk, Some};
ghost use Rattle.world_model.specs.Run.{run, report_of, refusal_text};

use crate::fault::LineFault;
use crate::world::World;
use report_text::push_refusal;
use schedule_text::Line;
use std::alloc::Global;
use wire_base::{Bytes, NoMemory};
use world_model::Refusal;

/// What a run leaves.
#[derive(Drop)]
pub struct Replayed {
    /// The report: of all lines and the tables at the end; or of the lines before one that is refused, and the text that
    /// tells it.
    pub report: Bytes,
    /// The number of that line, counted from 1, and why it is refused.
    pub fault: Option<(u64, Refusal)>,
}

/// The report of a world whose next line is refused.
fn report_refusal(world: World, line: u64, refusal: Refusal) -> Result<Replayed, NoMemory>
    ensures report { IfOk result (λ r. r.report ≡ world.told.report ++ refusal_text line refusal) }
    ensures fault { IfOk result (λ r. r.fault ≡ Some (line, refusal)) }
{
    let mut report = world.into_report();
    push_refusal(&mut report, line, refusal)?;
    Ok(Replayed {
        report,
        fault: Some((line, refusal)),
    })
}

/// Runs a schedule from the empty world.
#[tactic(auto, unfolding(world_model::specs::Run::report_of))]
pub fn replay(alloc: Global, lines: &[Line]) -> Result<Replayed, NoMemory>
    ensures report { IfOk result (λ r. r.report ≡ report_of (run lines.now)) }
    ensures fault { IfOk result (λ r. r.fault ≡ (run lines.now).fault) }
{
    let mut world = World::new(alloc);
    for (i, line) in lines.iter().enumerate() {
        match world.line(i as u64 + 1, line) {
            Ok(()) => (),
            Err(LineFault::Refused { refusal }) => {
                return report_refusal(world, i as u64 + 1, refusal);
            }
            Err(LineFault::NoMemory) => return Err(NoMemory),
        }
    }
    world.finish()?;
    Ok(Replayed {
        report: world.into_report(),
        fault: None,
    })
}
