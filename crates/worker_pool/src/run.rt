//! Workers beside the calling thread, which serves.

ghost use Rattle.std.specs.Prelude.{◌≡◌, ◌+◌, ◌<◌, length};
ghost use Rattle.std.specs.Thread.{IsSync};
ghost use Rattle.session_workers.specs.Passes.{items_of, finished_of, known_of, took_of, taken_of, made_of, gave_of, got_of, origins_of, EachOnce};
ghost use Rattle.worker_pool.specs.Tallies.{capped, tally_of, IsTallyOf};
ghost use Rattle.worker_pool.specs.Pools.{ends_of, IsMember, IsCaller, HasParts, IsAlone, NothingWaits, FoundOne, AllDone};

use crate::counts::{counts_in, is_even};
use crate::pass::{PoolPass, join_back, split_off};
use crate::pool::Pool;
use crate::serving::Serving;
use crate::tally::Tally;
use crate::work::{collect, work_one};
use crate::worker::work_on;
use session_workers::{Finished, Gate, Worked};
use std::sync::Wait;
use std::thread;
use std::thread::{Threads, join_mut};
use step_hub::Hub;

/// Works an item, or else collects one. Nothing comes only where neither queue held any at some moment of the call.
fn find_one<W: Wait, H: Hub, G: Gate>(
    rt: &W,
    pool: &Pool<H>,
    pass: &mut PoolPass,
    gate: &G,
) -> Option<Finished>
    requires { IsCaller pool.now pass.old }
    ensures of { IsCaller pool.now pass.new }
    ensures same { (known_of pass.new.pass ≡ known_of pass.old.pass) × (gave_of pass.new.pass ≡ gave_of pass.old.pass) × HasParts pass.old pass.new }
    ensures found { FoundOne pass.old pass.new result }
{
    if let Worked::Done(finished) = work_one(rt, pool, pass, gate) {
        return Some(finished);
    }
    collect(rt, pool, pass)
}

/// Serves, and then works and collects until as many items were given as were put. Then it closes the pool.
fn attend<W: Wait, H: Hub, G: Gate, V: Serving<H>>(
    rt: &W,
    pool: &Pool<H>,
    pass: &mut PoolPass,
    gate: &G,
    serving: &mut V,
)
    requires { IsCaller pool.now pass.old }
    ensures of { IsCaller pool.now pass.new }
    ensures parts { HasParts pass.old pass.new }
    ensures given { V.given serving.new + V.puts serving.old ≡ V.given serving.old + V.puts serving.new }
    ensures puts { V.puts serving.new + length (known_of pass.old.pass) ≡ V.puts serving.old + length (known_of pass.new.pass) }
    ensures serves { V.serves serving.old serving.new }
{
    let before = counts_in(pass);
    serving.serve(rt, pool, pass);
    for _ in rt.forever() {
        if is_even(&before, &counts_in(pass)) {
            break;
        }
        match find_one(rt, pool, pass, gate) {
            Some(finished) => serving.finished(rt, pool, pass, finished),
            None => thread::yield_now(),
        }
    }
    pool.close();
}

/// Runs so many workers, each in a thread of its own, and the calling thread beside them. Where no thread can be made the calling thread
/// comes first: then it does all by itself, and the workers find the pool closed.
fn run_beside<R: Threads + Wait + Sync, H: Hub + Send, G: Gate + Sync, V: Serving<H>>(
    rt: &R,
    pool: &Pool<H>,
    pass: &mut PoolPass,
    workers: u32,
    gate: &G,
    serving: &mut V,
)
    requires of { IsCaller pool.now pass.old }
    requires parts { (workers < (items_of pass.old.pass).parts) × (workers < (finished_of pass.old.pass).parts) }
    ensures of { IsCaller pool.now pass.new }
    ensures parts { HasParts pass.old pass.new }
    ensures given { V.given serving.new + V.puts serving.old ≡ V.given serving.old + V.puts serving.new }
    ensures puts { V.puts serving.new + length (known_of pass.old.pass) ≡ V.puts serving.old + length (known_of pass.new.pass) }
    ensures serves { V.serves serving.old serving.new }
{
    if workers == 0 {
        attend(rt, pool, pass, gate, serving);
        return;
    }
    let mut theirs = split_off(pool, pass);
    let fewer = workers - 1;
    join_mut(
        rt,
        &mut ||
            requires { IsMember pool.now theirs × (gave_of theirs.pass ≡ made_of theirs.pass) }
            ensures { IsMember pool.entry.now theirs.exit × HasParts theirs.entry theirs.exit }
        { work_on(rt, pool, &mut theirs, gate) },
        &mut ||
            requires { IsSync R.row × IsSync G.row × IsCaller pool.now pass.now × (fewer < (items_of pass.now.pass).parts) × (fewer < (finished_of pass.now.pass).parts) }
            ensures { IsCaller pool.entry.now pass.exit.now × HasParts pass.entry.now pass.exit.now × (V.given serving.exit.now + V.puts serving.entry.now ≡ V.given serving.entry.now + V.puts serving.exit.now) × (V.puts serving.exit.now + length (known_of pass.entry.now.pass) ≡ V.puts serving.entry.now + length (known_of pass.exit.now.pass)) × V.serves serving.entry.now serving.exit.now }
        { run_beside(rt, pool, pass, fewer, gate, serving) },
    );
    join_back(pool, pass, theirs);
}

/// Works and collects what is left, which is nothing, as far as the threads that ended tell.
fn settle<W: Wait, H: Hub, G: Gate, V: Serving<H>>(
    rt: &W,
    pool: &Pool<H>,
    pass: &mut PoolPass,
    gate: &G,
    serving: &mut V,
)
    requires { IsCaller pool.now pass.old }
    ensures of { IsCaller pool.now pass.new }
    ensures parts { HasParts pass.old pass.new }
    ensures given { (V.given serving.new ≡ V.given serving.old) × (V.puts serving.new ≡ V.puts serving.old) }
    ensures serves { (s : V) → V.serves s serving.old → V.serves s serving.new }
    ensures none { NothingWaits pass.new }
    ensures known { known_of pass.new.pass ≡ known_of pass.old.pass }
{
    let before = counts_in(pass);
    for _ in rt.forever() {
        match find_one(rt, pool, pass, gate) {
            Some(finished) => serving.finished(rt, pool, pass, finished),
            None => {
                if is_even(&before, &counts_in(pass)) {
                    return;
                }
            }
        }
    }
    unreachable!()
}

/// Runs so many workers beside the calling thread, which serves, and then works and collects until each item that was put is finished.
/// Workers for whom nothing waits sleep. All that any of them took is counted, each item once: where no other pass is about, that is
/// all that was put. Condition: the pass is the calling thread's, and has a part for each worker and one for itself.
pub fn pool_run<R: Threads + Wait + Sync, H: Hub + Send, G: Gate + Sync, V: Serving<H>>(
    rt: &R,
    pool: &Pool<H>,
    pass: &mut PoolPass,
    workers: u32,
    gate: &G,
    serving: &mut V,
) -> Tally
    requires of { IsCaller pool.now pass.old }
    requires parts { (workers < (items_of pass.old.pass).parts) × (workers < (finished_of pass.old.pass).parts) }
    ensures of { IsCaller pool.now pass.new }
    ensures parts { HasParts pass.old pass.new }
    ensures given { V.given serving.new + V.puts serving.old ≡ V.given serving.old + V.puts serving.new }
    ensures puts { V.puts serving.new + length (known_of pass.old.pass) ≡ V.puts serving.old + length (known_of pass.new.pass) }
    ensures serves { V.serves serving.old serving.new }
    ensures tally { IsTallyOf (taken_of pass.new.pass) result × EachOnce (taken_of pass.new.pass) }
    // It counts what was made of the items that were taken, of each one.
    ensures made { (took_of pass.new.pass ≡ origins_of (made_of pass.new.pass)) × (result ≡ tally_of (made_of pass.new.pass)) }
    ensures all { IsAlone pass.old → AllDone pass.new × (result.taken ≡ capped (length (known_of pass.new.pass))) }
{
    pool.open();
    run_beside(rt, pool, pass, workers, gate, serving);
    settle(rt, pool, pass, gate, serving);
    pass.tally
}
