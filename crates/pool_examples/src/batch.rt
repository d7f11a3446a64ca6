//! What the calling thread of the tests does.

ghost use Rattle.std.specs.Prelude.{◌≡◌, ◌+◌, length};
ghost use Rattle.session_cells.specs.Tokens.{log_of, IsOf};
ghost use Rattle.session_workers.specs.Passes.{known_of, gave_of};
ghost use Rattle.worker_pool.specs.Pools.{IsCaller, HasParts, ends_of};

use crate::days::Day;
use session_cells::CellSeen;
use session_workers::{Done, Finished, Gate, Item, Worked};
use std::alloc::Global;
use std::sync::Wait;
use std::thread;
use step_hub::Hub;
use wire_base::Bytes;
use worker_pool::{Pool, PoolPass, Serving, collect, put, work_one};

/// Random bytes for a turn; an LNS takes the magic number of a call from the last four.
const BLOCK: [u8; 16] = [0, 0, 0, 0, 0, 0, 0, 2, 0, 0, 0, 0, 0, 0, 0, 9];

/// Puts so many datagrams of a day, and keeps the numbers that it is given, in the order in which they come, and how many outputs their
/// turns gave. It may wait for each pair of them before it puts the next. Once it is given a turn that was refused, it puts nothing more.
#[derive(Drop)]
pub struct Batch<'a, G: Gate> {
    gate: &'a G,
    alloc: Global,
    day: Day,
    wanted: u32,
    in_pairs: bool,
    puts: u64,
    given: u64,
    full: u64,
    outputs: usize,
    refused: u64,
    pub numbers: Vec<u64>,
}

fn item(seen: CellSeen, bytes: Bytes) -> Item
    ensures { result.seen ≡ seen }
{
    Item {
        seen,
        lns: true,
        peer: 0x0a00_0001,
        bytes,
        now: 10,
        block: BLOCK,
    }
}

impl<'a, G: Gate> Batch<'a, G> {
    pub fn new(gate: &'a G, alloc: Global, day: Day, wanted: u32) -> Batch<'a, G> {
        Batch {
            gate,
            alloc,
            day,
            wanted,
            in_pairs: false,
            puts: 0,
            given: 0,
            full: 0,
            outputs: 0,
            refused: 0,
            numbers: Vec::new(alloc),
        }
    }

    /// The same, pair by pair.
    pub fn in_pairs(gate: &'a G, alloc: Global, day: Day, wanted: u32) -> Batch<'a, G> {
        let mut batch = Batch::new(gate, alloc, day, wanted);
        batch.in_pairs = true;
        batch
    }

    /// How many it put, how many it was given, and how often the queue was full.
    pub fn counts(&self) -> (u64, u64, u64) {
        (self.puts, self.given, self.full)
    }

    /// How many outputs the turns gave, and how many turns were refused.
    pub fn turns(&self) -> (usize, u64) {
        (self.outputs, self.refused)
    }

    /// Works one itself.
    fn work<W: Wait, H: Hub>(&mut self, rt: &W, pool: &Pool<H>, pass: &mut PoolPass)
        requires { IsCaller pool.now pass.old }
        ensures of { IsCaller pool.now pass.new }
        ensures same { (pass.new.pass.seen ≡ pass.old.pass.seen) × (known_of pass.new.pass ≡ known_of pass.old.pass) × (gave_of pass.new.pass ≡ gave_of pass.old.pass) × HasParts pass.old pass.new }
        ensures given { self.new.given + ends_of pass.old ≡ self.old.given + ends_of pass.new }
        ensures puts { self.new.puts ≡ self.old.puts }
    {
        match work_one(rt, pool, pass, self.gate) {
            Worked::Empty => thread::yield_now(),
            Worked::Done(finished) => self.keep(rt, finished),
        }
    }

    /// Works one itself, and collects one.
    fn work_and_collect<W: Wait, H: Hub>(&mut self, rt: &W, pool: &Pool<H>, pass: &mut PoolPass)
        requires { IsCaller pool.now pass.old }
        ensures of { IsCaller pool.now pass.new }
        ensures same { (pass.new.pass.seen ≡ pass.old.pass.seen) × (known_of pass.new.pass ≡ known_of pass.old.pass) × (gave_of pass.new.pass ≡ gave_of pass.old.pass) × HasParts pass.old pass.new }
        ensures given { self.new.given + ends_of pass.old ≡ self.old.given + ends_of pass.new }
        ensures puts { self.new.puts ≡ self.old.puts }
    {
        self.work(rt, pool, pass);
        if let Some(finished) = collect(rt, pool, pass) {
            self.keep(rt, finished);
        }
    }

    /// Works and collects until it was given all that it put.
    fn drain<W: Wait, H: Hub>(&mut self, rt: &W, pool: &Pool<H>, pass: &mut PoolPass)
        requires { IsCaller pool.now pass.old }
        ensures of { IsCaller pool.now pass.new }
        ensures same { (pass.new.pass.seen ≡ pass.old.pass.seen) × (known_of pass.new.pass ≡ known_of pass.old.pass) × (gave_of pass.new.pass ≡ gave_of pass.old.pass) × HasParts pass.old pass.new }
        ensures given { self.new.given + ends_of pass.old ≡ self.old.given + ends_of pass.new }
        ensures puts { self.new.puts ≡ self.old.puts }
    {
        for _ in rt.forever() {
            if self.given == self.puts {
                return;
            }
            self.work_and_collect(rt, pool, pass);
        }
        unreachable!()
    }

    /// Counts what the turn of an item gave, or that it was refused.
    fn note(&mut self, done: &Done)
        ensures given { self.new.given ≡ self.old.given }
        ensures puts { self.new.puts ≡ self.old.puts }
    {
        match done {
            Done::Carried { .. } => (),
            Done::Turned { turned } => {
                self.outputs = self.outputs.saturating_add(turned.outputs().len());
            }
            Done::Failed { .. } => self.refused = self.refused.saturating_add(1),
        }
    }

    /// Keeps a number. A count at its end waits.
    fn keep<W: Wait>(&mut self, rt: &W, finished: Finished)
        ensures given { self.new.given ≡ self.old.given + 1 }
        ensures puts { self.new.puts ≡ self.old.puts }
    {
        self.note(&finished.done);
        for _ in rt.forever() {
            if self.given < u64::MAX {
                break;
            }
        }
        self.given += 1;
        let _ = self.numbers.push(finished.number);
    }

    /// Counts an item that was put. A count at its end waits.
    fn count<W: Wait>(&mut self, rt: &W)
        ensures given { self.new.given ≡ self.old.given }
        ensures puts { self.new.puts ≡ self.old.puts + 1 }
    {
        for _ in rt.forever() {
            if self.puts < u64::MAX {
                break;
            }
        }
        self.puts += 1;
    }

    /// Puts an item, and works until there is room for it. Where a turn is refused meanwhile, it isn't put.
    fn put_item<W: Wait, H: Hub>(&mut self, rt: &W, pool: &Pool<H>, pass: &mut PoolPass, item: Item)
        requires of { IsCaller pool.now pass.old }
        requires seen { IsOf pool.now.shared.locked.cells item.seen × (log_of item.seen ≡ log_of pass.old.pass.seen) }
        ensures of { IsCaller pool.now pass.new }
        ensures same { (gave_of pass.new.pass ≡ gave_of pass.old.pass) × HasParts pass.old pass.new }
        ensures given { self.new.given + ends_of pass.old ≡ self.old.given + ends_of pass.new }
        ensures puts { self.new.puts + length (known_of pass.old.pass) ≡ self.old.puts + length (known_of pass.new.pass) }
    {
        let mut waiting = item;
        for _ in rt.forever() {
            match put(rt, pool, pass, waiting) {
                Ok(()) => {
                    self.count(rt);
                    return;
                }
                Err(full) => waiting = full.item,
            }
            self.full = self.full.saturating_add(1);
            self.work(rt, pool, pass);
            if self.refused > 0 {
                return;
            }
        }
        unreachable!()
    }

    /// Puts the k-th datagram, unless memory is wanting.
    fn put_next<W: Wait, H: Hub>(&mut self, rt: &W, pool: &Pool<H>, pass: &mut PoolPass, k: u32)
        requires { IsCaller pool.now pass.old }
        ensures of { IsCaller pool.now pass.new }
        ensures same { (gave_of pass.new.pass ≡ gave_of pass.old.pass) × HasParts pass.old pass.new }
        ensures given { self.new.given + ends_of pass.old ≡ self.old.given + ends_of pass.new }
        ensures puts { self.new.puts + length (known_of pass.old.pass) ≡ self.old.puts + length (known_of pass.new.pass) }
    {
        let Ok(decoded) = hex::decode(self.alloc, self.day.datagram(k)) else {
            return;
        };
        if let Ok(bytes) = Bytes::from_slice(self.alloc, decoded.as_slice()) {
            let seen = pool.shared.locked.cells.seen_again(&pass.pass.seen);
            self.put_item(rt, pool, pass, item(seen, bytes));
        }
    }

    /// Puts all, and waits for each pair where that was wanted, until a turn is refused.
    fn put_all<W: Wait, H: Hub>(&mut self, rt: &W, pool: &Pool<H>, pass: &mut PoolPass)
        requires { IsCaller pool.now pass.old }
        ensures of { IsCaller pool.now pass.new }
        ensures same { (gave_of pass.new.pass ≡ gave_of pass.old.pass) × HasParts pass.old pass.new }
        ensures given { self.new.given + ends_of pass.old ≡ self.old.given + ends_of pass.new }
        ensures puts { self.new.puts + length (known_of pass.old.pass) ≡ self.old.puts + length (known_of pass.new.pass) }
    {
        for k in 0..self.wanted {
            if self.refused > 0 {
                return;
            }
            self.put_next(rt, pool, pass, k);
            if self.in_pairs && k % 2 == 1 {
                self.drain(rt, pool, pass);
            }
        }
    }
}

impl<'a, H: Hub, G: Gate> Serving<H> for Batch<'a, G> {
    ghost use Rattle.std.specs.Prelude.{⊤};

    ghost given = { λ s. s.given };

    ghost puts = { λ s. s.puts };

    ghost serves = { λ before after. ⊤ };

    fn serve<W: Wait>(&mut self, rt: &W, pool: &Pool<H>, pass: &mut PoolPass) {
        self.put_all(rt, pool, pass);
    }

    fn finished<W: Wait>(
        &mut self,
        rt: &W,
        _pool: &Pool<H>,
        _pass: &mut PoolPass,
        finished: Finished,
    ) {
        self.keep(rt, finished);
    }
}
