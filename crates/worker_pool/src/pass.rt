//! What each thread of a pool holds.

ghost use Rattle.std.specs.Prelude.{◌≡◌, ◌+◌, ◌<◌, ◌++◌, []};
ghost use Rattle.session_workers.specs.Passes.{items_of, finished_of, known_of, took_of, made_of, gave_of, got_of};
ghost use Rattle.worker_pool.specs.Pools.{IsMember, IsCaller};

use crate::pool::Pool;
use crate::tally::Tally;
use session_workers::{Pass, join_pass, split_pass};
use step_hub::Hub;

/// A pass of the cells and queues, with what it did: how many items it put and collected, and what became of those that it took. What
/// passes count that come back is added.
#[derive(Drop)]
pub struct PoolPass {
    pub pass: Pass,
    pub(crate) puts: u64,
    pub(crate) collected: u64,
    pub(crate) tally: Tally,
}

/// A pass for another worker, which took nothing.
pub(crate) fn split_off<H: Hub>(pool: &Pool<H>, pass: &mut PoolPass) -> PoolPass
    requires of { IsCaller pool.now pass.old }
    requires parts { (1 < (items_of pass.old.pass).parts) × (1 < (finished_of pass.old.pass).parts) }
    ensures of { IsCaller pool.now pass.new × IsMember pool.now result }
    ensures same { (known_of pass.new.pass ≡ known_of pass.old.pass) × (took_of pass.new.pass ≡ took_of pass.old.pass) × (got_of pass.new.pass ≡ got_of pass.old.pass) × (gave_of pass.new.pass ≡ gave_of pass.old.pass) × (made_of pass.new.pass ≡ made_of pass.old.pass) }
    ensures none { (took_of result.pass ≡ []) × (gave_of result.pass ≡ []) × (got_of result.pass ≡ []) × (made_of result.pass ≡ []) }
    ensures parts { ((items_of pass.new.pass).parts + 1 ≡ (items_of pass.old.pass).parts) × ((finished_of pass.new.pass).parts + 1 ≡ (finished_of pass.old.pass).parts) }
    ensures one { ((items_of result.pass).parts ≡ 1) × ((finished_of result.pass).parts ≡ 1) }
{
    PoolPass {
        pass: split_pass(&pool.shared, &mut pass.pass),
        puts: 0,
        collected: 0,
        tally: Tally::none(),
    }
}

/// A worker's pass comes back, with what it counted.
pub(crate) fn join_back<H: Hub>(pool: &Pool<H>, pass: &mut PoolPass, other: PoolPass)
    requires of { IsCaller pool.now pass.old × IsMember pool.now other }
    ensures of { IsCaller pool.now pass.new }
    ensures parts { ((items_of pass.new.pass).parts ≡ (items_of pass.old.pass).parts + (items_of other.pass).parts) × ((finished_of pass.new.pass).parts ≡ (finished_of pass.old.pass).parts + (finished_of other.pass).parts) }
    ensures known { known_of pass.new.pass ≡ known_of pass.old.pass }
    ensures took { took_of pass.new.pass ≡ took_of pass.old.pass ++ took_of other.pass }
    ensures made { made_of pass.new.pass ≡ made_of pass.old.pass ++ made_of other.pass }
    ensures gave { gave_of pass.new.pass ≡ gave_of pass.old.pass ++ gave_of other.pass }
    ensures got { got_of pass.new.pass ≡ got_of pass.old.pass ++ got_of other.pass }
{
    let PoolPass {
        pass: theirs,
        collected,
        tally,
        ..
    } = other;
    join_pass(&pool.shared, &mut pass.pass, theirs);
    pass.collected = pass.collected.saturating_add(collected);
    pass.tally = pass.tally.with(&tally);
}
