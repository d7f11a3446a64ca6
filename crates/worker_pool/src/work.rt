//! Items are put, worked, handed over and collected, and counted.

ghost use Rattle.std.specs.Prelude.{◌≡◌, ◌+◌, ◌++◌, ◌∷◌, [], length, OnOk, IfErr};
ghost use Rattle.session_cells.specs.Tokens.{log_of, IsOf};
ghost use Rattle.session_workers.specs.Passes.{items_of, finished_of, known_of, took_of, made_of, gave_of, got_of, numbered, WasFull, WorkedOne, CollectedOne};
ghost use Rattle.worker_pool.specs.Pools.{IsMember, IsCaller, HasParts};

use crate::pass::PoolPass;
use crate::pool::Pool;
use session_workers::{Finished, Full, Gate, Item, Worked};
use std::sync::Wait;
use std::thread;
use step_hub::Hub;

/// Puts an item behind all others, gives it the next number, from 1 on, and wakes a worker where one sleeps. `Full` comes only where the
/// queue was full at some moment of the call, or every number of 64 bits was given. Conditions: the pass is the calling thread's, and
/// the item's token tells of these cells what the pass has seen.
pub fn put<W: Wait, H: Hub>(
    rt: &W,
    pool: &Pool<H>,
    pass: &mut PoolPass,
    item: Item,
) -> Result<(), Full>
    requires of { IsCaller pool.now pass.old }
    requires seen { IsOf pool.now.shared.locked.cells item.seen × (log_of item.seen ≡ log_of pass.old.pass.seen) }
    ensures of { IsCaller pool.now pass.new }
    ensures same { (pass.new.pass.seen ≡ pass.old.pass.seen) × (took_of pass.new.pass ≡ took_of pass.old.pass) × (finished_of pass.new.pass ≡ finished_of pass.old.pass) × HasParts pass.old pass.new }
    ensures ok { OnOk result (known_of pass.new.pass ≡ known_of pass.old.pass ++ numbered (length (known_of pass.old.pass) + 1) item ∷ []) }
    ensures full { IfErr result (λ f. (f.capacity ≡ 1024) × (f.item ≡ item) × (items_of pass.new.pass ≡ items_of pass.old.pass) × WasFull pass.old.pass) }
{
    if pass.puts == u64::MAX {
        return Err(Full {
            capacity: 1_024,
            item,
        });
    }
    session_workers::put(rt, &pool.shared, &mut pass.pass, item)?;
    pass.puts += 1;
    pool.bell.ring();
    Ok(())
}

/// Takes the item that waits longest, and counts it: a data message is judged by the cells as its caller had seen them, or later, and a
/// control message brings about its turn. `Empty` comes only where no item waited at some moment of the call.
pub fn work_one<W: Wait, H: Hub, G: Gate>(
    rt: &W,
    pool: &Pool<H>,
    pass: &mut PoolPass,
    gate: &G,
) -> Worked
    requires of { IsMember pool.now pass.old }
    ensures of { IsMember pool.now pass.new }
    ensures caller { IsCaller pool.now pass.old → IsCaller pool.now pass.new × (known_of pass.new.pass ≡ known_of pass.old.pass) }
    ensures same { (pass.new.pass.seen ≡ pass.old.pass.seen) × (gave_of pass.new.pass ≡ gave_of pass.old.pass) × HasParts pass.old pass.new × (got_of pass.new.pass ≡ got_of pass.old.pass) }
    ensures worked { WorkedOne pool.now.shared pass.old.pass pass.new.pass result }
{
    match session_workers::work_one(rt, &pool.shared, &mut pass.pass, gate) {
        Worked::Empty => Worked::Empty,
        Worked::Done(finished) => {
            pass.tally.count(&finished);
            Worked::Done(finished)
        }
    }
}

/// Takes what was handed over first, and counts it. Nothing comes only where nothing waited there at some moment of the call.
pub fn collect<W: Wait, H: Hub>(rt: &W, pool: &Pool<H>, pass: &mut PoolPass) -> Option<Finished>
    requires of { IsMember pool.now pass.old }
    ensures of { IsMember pool.now pass.new }
    ensures caller { IsCaller pool.now pass.old → IsCaller pool.now pass.new }
    ensures same { (pass.new.pass.seen ≡ pass.old.pass.seen) × (items_of pass.new.pass ≡ items_of pass.old.pass) × (gave_of pass.new.pass ≡ gave_of pass.old.pass) × HasParts pass.old pass.new × (made_of pass.new.pass ≡ made_of pass.old.pass) }
    ensures collected { CollectedOne pass.old.pass pass.new.pass result }
{
    let finished = session_workers::collect(rt, &pool.shared, &mut pass.pass)?;
    pass.collected = pass.collected.saturating_add(1);
    Some(finished)
}

/// Hands over what is finished, and waits for room.
pub(crate) fn hand_over<W: Wait, H: Hub>(
    rt: &W,
    pool: &Pool<H>,
    pass: &mut PoolPass,
    finished: Finished,
)
    requires of { IsMember pool.now pass.old }
    ensures of { IsMember pool.now pass.new }
    ensures same { (items_of pass.new.pass ≡ items_of pass.old.pass) × (got_of pass.new.pass ≡ got_of pass.old.pass) × HasParts pass.old pass.new × (made_of pass.new.pass ≡ made_of pass.old.pass) }
    ensures gave { gave_of pass.new.pass ≡ gave_of pass.old.pass ++ finished ∷ [] }
{
    let mut waiting = finished;
    for _ in rt.forever() {
        match session_workers::hand_over(rt, &pool.shared, &mut pass.pass, waiting) {
            Ok(()) => return,
            Err(back) => waiting = back,
        }
        thread::yield_now();
    }
    unreachable!()
}
