//! What a worker made of an item.

ghost use Rattle.std.specs.Prelude.{◌≡◌, length, take};
ghost use Rattle.session_cells.specs.Tokens.{log_of};
ghost use Rattle.data_plane.specs.Carries.{role_of, look_at, load_of};
ghost use Rattle.session_workers.specs.Done.{carried_of, told_of, due_of};

use crate::item::Item;
use data_plane::Carry;
use locked_tunnels::Turned;
use session_cells::CellSeen;
use step_hub::StepError;

/// What became of an item's datagram.
#[derive(Drop)]
pub enum Done {
    /// It was judged by what was seen of its session: a data message, or one whose header can't be read.
    Carried { carry: Carry },
    /// A control message: it brought about this turn.
    Turned { turned: Turned },
    /// A control message whose turn was refused.
    Failed { error: StepError },
}

/// An item with its number, and what became of its datagram: in the one log of the cells, as its caller had seen it, or later. It is
/// made by `work_one` alone.
#[derive(Drop)]
pub struct Finished {
    pub number: u64,
    pub item: Item,
    pub seen: CellSeen,
    pub done: Done,
    pub(crate) worked: (),
    pub ghost cells: { seen.seen.book ≡ item.seen.seen.book },
    pub ghost later: { take (length (log_of item.seen)) (log_of seen) ≡ log_of item.seen },
    // It is judged exactly where it isn't a control message.
    pub ghost load: { carried_of done ≡ load_of (role_of item.lns) (look_at 65536 (log_of seen)) item.peer item.bytes },
    // A turn was told of the datagram, from the item's peer, at its moment and with its block.
    pub ghost turn: { told_of done ≡ due_of done item },
}

/// What a worker found in the queue.
#[derive(Drop)]
pub enum Worked {
    Empty,
    Done(Finished),
}
