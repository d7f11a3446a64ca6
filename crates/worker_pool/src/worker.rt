//! What a worker does.

ghost use Rattle.std.specs.Prelude.{◌≡◌};
ghost use Rattle.session_workers.specs.Passes.{items_of, finished_of, made_of, gave_of, got_of};
ghost use Rattle.worker_pool.specs.Pools.{IsMember, HasParts, TookOne};

use crate::pass::PoolPass;
use crate::pool::Pool;
use crate::work::{hand_over, work_one};
use session_workers::{Finished, Gate, Worked};
use std::hint;
use std::sync::Wait;
use step_hub::Hub;

/// How often a worker that found nothing looks again before it sleeps. That takes about as long as to wake it.
const LOOKS: u32 = 512;

/// Works the next item, for which it looks some hundred times.
fn look<W: Wait, H: Hub, G: Gate>(
    rt: &W,
    pool: &Pool<H>,
    pass: &mut PoolPass,
    gate: &G,
) -> Option<Finished>
    requires { IsMember pool.now pass.old }
    ensures of { IsMember pool.now pass.new }
    ensures same { (gave_of pass.new.pass ≡ gave_of pass.old.pass) × (got_of pass.new.pass ≡ got_of pass.old.pass) × HasParts pass.old pass.new }
    ensures took { TookOne pass.old pass.new result }
{
    for _ in 0..LOOKS {
        if let Worked::Done(finished) = work_one(rt, pool, pass, gate) {
            return Some(finished);
        }
        hint::spin_loop();
    }
    None
}

/// Looks once more, as one that has entered, and sleeps where it found nothing and the pool isn't closed. Then an item may wait again.
fn rest<W: Wait, H: Hub, G: Gate>(
    rt: &W,
    pool: &Pool<H>,
    pass: &mut PoolPass,
    gate: &G,
) -> Option<Finished>
    requires { IsMember pool.now pass.old }
    ensures of { IsMember pool.now pass.new }
    ensures same { (gave_of pass.new.pass ≡ gave_of pass.old.pass) × (got_of pass.new.pass ≡ got_of pass.old.pass) × HasParts pass.old pass.new }
    ensures took { TookOne pass.old pass.new result }
{
    pool.bell.enter();
    let rung = pool.bell.rung();
    let closed = pool.is_closed();
    let finished = match work_one(rt, pool, pass, gate) {
        Worked::Done(finished) => Some(finished),
        Worked::Empty => None,
    };
    if finished.is_none() && !closed {
        pool.bell.sleep(rt, rung);
    }
    pool.bell.leave();
    finished
}

/// Works the next item, for which it waits. Nothing comes where the pool is closed and no item waits.
fn next<W: Wait, H: Hub, G: Gate>(
    rt: &W,
    pool: &Pool<H>,
    pass: &mut PoolPass,
    gate: &G,
) -> Option<Finished>
    requires { IsMember pool.now pass.old }
    ensures of { IsMember pool.now pass.new }
    ensures same { (gave_of pass.new.pass ≡ gave_of pass.old.pass) × (got_of pass.new.pass ≡ got_of pass.old.pass) × HasParts pass.old pass.new }
    ensures took { TookOne pass.old pass.new result }
{
    for _ in rt.forever() {
        let closed = pool.is_closed();
        if let Some(finished) = look(rt, pool, pass, gate) {
            return Some(finished);
        }
        if closed {
            return None;
        }
        if let Some(finished) = rest(rt, pool, pass, gate) {
            return Some(finished);
        }
    }
    unreachable!()
}

/// Works items and hands each over, until the pool is closed and none waits.
pub(crate) fn work_on<W: Wait, H: Hub, G: Gate>(
    rt: &W,
    pool: &Pool<H>,
    pass: &mut PoolPass,
    gate: &G,
)
    requires of { IsMember pool.now pass.old }
    requires even { gave_of pass.old.pass ≡ made_of pass.old.pass }
    ensures of { IsMember pool.now pass.new }
    ensures same { (got_of pass.new.pass ≡ got_of pass.old.pass) × HasParts pass.old pass.new }
    ensures even { gave_of pass.new.pass ≡ made_of pass.new.pass }
{
    for _ in rt.forever() {
        match next(rt, pool, pass, gate) {
            Some(finished) => hand_over(rt, pool, pass, finished),
            None => return,
        }
    }
    unreachable!()
}
