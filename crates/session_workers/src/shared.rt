//! What threads share, and what each holds of it.

ghost use Rattle.std.specs.Prelude.{◌≡◌};
ghost use Rattle.crossbeam_queue.specs.Passes.{ruled_capacity};

use crate::finished::Finished;
use crate::finishing::FinishedQueue;
use crate::item::{Item, Numbered};
use crate::items::ItemQueue;
use crate::views::{FinishedView, ItemView};
use locked_tunnels::Locked;
use session_cells::CellSeen;
use step_hub::Hub;

/// What workers share: an end's tunnels, cells and hub, a queue of items that wait for a worker, and one of those that are finished.
/// Each queue has 1,024 places.
#[derive(Drop)]
pub struct Shared<H: Hub> {
    pub locked: Locked<H>,
    pub(crate) items: ItemQueue,
    pub(crate) finished: FinishedQueue,
    pub ghost places: { ruled_capacity items ≡ 1024 },
    pub ghost finished_places: { ruled_capacity finished ≡ 1024 },
}

impl<H: Hub> Shared<H> {
    /// The hub, once no other thread has what is shared. Nothing is known of it but what its type keeps. It takes no memory.
    pub fn into_hub(self) -> H {
        let Shared { locked, .. } = self;
        locked.into_hub()
    }
}

/// What a thread has seen of the cells, and its passes of the two queues: what it put, took, handed over and collected.
#[derive(Drop)]
pub struct Pass {
    pub seen: CellSeen,
    pub(crate) items: crossbeam_queue::Pass<Numbered, ItemView>,
    pub(crate) finished: crossbeam_queue::Pass<Finished, FinishedView>,
    pub(crate) puts: u64,
}

/// The queue was full, or no number was left for this item.
#[derive(Drop)]
pub struct Full {
    pub capacity: usize,
    pub item: Item,
}
