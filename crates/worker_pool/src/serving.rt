//! What the calling thread does beside the workers.

use crate::pass::PoolPass;
use crate::pool::Pool;
use session_workers::Finished;
use std::sync::Wait;
use step_hub::Hub;

/// What the calling thread of a pool does: it puts items, and is given each back once it is finished.
pub trait Serving<H: Hub> {
    ghost use Rattle.std.specs.Prelude.{ℕ, ◌≡◌, ◌+◌, length};
    ghost use Rattle.session_workers.specs.Passes.{items_of, finished_of, known_of, gave_of};
    ghost use Rattle.worker_pool.specs.Pools.{IsCaller, HasParts, ends_of};

    /// How many items it was given.
    ghost given: { Self → ℕ };

    /// How many items it put.
    ghost puts: { Self → ℕ };

    /// What holds between a value and a later one.
    ghost serves: { Self → Self → Type 0 };

    /// Puts items. What it works or collects meanwhile it gives to `finished`. Where the queue is full it has to work one itself:
    /// there may be no worker. Once a turn was refused, of an item that it was given or one of its own, it is to put nothing more and to
    /// return: what was put is still finished. The pass is the calling thread's.
    fn serve<W: Wait>(&mut self, rt: &W, pool: &Pool<H>, pass: &mut PoolPass)
        requires of { IsCaller pool.now pass.old }
        ensures of { IsCaller pool.now pass.new }
        ensures same { (gave_of pass.new.pass ≡ gave_of pass.old.pass) × HasParts pass.old pass.new }
        ensures given { given self.new + ends_of pass.old ≡ given self.old + ends_of pass.new }
        ensures puts { puts self.new + length (known_of pass.old.pass) ≡ puts self.old + length (known_of pass.new.pass) }
        ensures serves { serves self.old self.new };

    /// Is given an item that is finished. The pass, the calling thread's, puts, works and collects nothing here.
    fn finished<W: Wait>(&mut self, rt: &W, pool: &Pool<H>, pass: &mut PoolPass, finished: Finished)
        requires of { IsCaller pool.now pass.old }
        ensures of { IsCaller pool.now pass.new }
        ensures still { (items_of pass.new.pass ≡ items_of pass.old.pass) × (finished_of pass.new.pass ≡ finished_of pass.old.pass) }
        ensures given { given self.new ≡ given self.old + 1 }
        ensures puts { puts self.new ≡ puts self.old }
        ensures serves { (s : Self) → serves s self.old → serves s self.new };
}
