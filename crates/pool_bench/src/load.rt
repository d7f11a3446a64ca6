//! What the calling thread of the bench does.

ghost use Rattle.std.specs.Prelude.{◌≡◌, ◌+◌, length};
ghost use Rattle.session_cells.specs.Tokens.{log_of, IsOf};
ghost use Rattle.session_workers.specs.Passes.{known_of, gave_of};
ghost use Rattle.worker_pool.specs.Pools.{IsCaller, HasParts, ends_of};

use crate::messages::{PEER, frame, message};
use crate::words::Measure;
use session_cells::CellSeen;
use session_workers::{Done, Finished, Gate, Item, Worked};
use std::alloc::Global;
use std::sync::Wait;
use std::thread;
use std::time::Clock;
use step_hub::Hub;
use wire_base::{Bytes, NoMemory};
use worker_pool::{Pool, PoolPass, Serving, collect, put, work_one};

/// How many messages of the LAC there may be.
const MOST_MESSAGES: u16 = 60_000;

/// Holds nothing.
pub struct Open;

impl Gate for Open {
    fn before(&self, _number: u64) {}

    fn after(&self, _number: u64) {}
}

/// What was done: how many frames went up, how many calls were set up, and how many turns were refused.
#[derive(Clone, Copy)]
pub struct Loaded {
    pub up: u64,
    pub calls: u64,
    pub refused: u64,
}

/// Opens a tunnel and a call, puts so many data messages of that call, and meanwhile sets up so many calls a second.
#[derive(Drop)]
pub struct Load<'a, C: Clock> {
    clock: &'a C,
    alloc: Global,
    measure: Measure,
    puts: u64,
    given: u64,
    refused: u64,
    /// How many messages of the LAC were put, and how many of them came back.
    messages: u16,
    turns: u64,
    /// When the first call had been set up, in microseconds.
    begun: u64,
}

fn item(seen: CellSeen, bytes: Bytes, now: u64) -> Item
    ensures { result.seen ≡ seen }
{
    Item {
        seen,
        lns: true,
        peer: PEER,
        bytes,
        now,
        block: [0, 0, 0, 0, 0, 0, 0, 2, 0, 0, 0, 0, 0, 0, 0, 9],
    }
}

impl<'a, C: Clock> Load<'a, C> {
    pub fn new(clock: &'a C, alloc: Global, measure: Measure) -> Load<'a, C> {
        Load {
            clock,
            alloc,
            measure,
            puts: 0,
            given: 0,
            refused: 0,
            messages: 0,
            turns: 0,
            begun: 0,
        }
    }

    /// What was done, where so many frames went up.
    pub fn loaded(&self, up: u64) -> Loaded {
        Loaded {
            up,
            calls: u64::from(self.messages / 2).saturating_sub(1),
            refused: self.refused,
        }
    }

    /// The moment, in microseconds.
    fn now(&self) -> u64 {
        match self.clock.monotonic() {
            Ok(time) => u64::try_from(time.as_micros()).unwrap_or(u64::MAX),
            Err(_) => 0,
        }
    }

    /// How many of what comes so often a second are due.
    fn due(&self, now: u64, a_second: u64) -> u64 {
        now.saturating_sub(self.begun).saturating_mul(a_second) / 1_000_000
    }

    /// Counts an item that came back. A count at its end waits.
    fn take<W: Wait>(&mut self, rt: &W, finished: &Finished)
        ensures given { self.new.given ≡ self.old.given + 1 }
        ensures puts { self.new.puts ≡ self.old.puts }
    {
        match &finished.done {
            Done::Carried { .. } => (),
            Done::Turned { .. } => self.turns = self.turns.saturating_add(1),
            Done::Failed { .. } => self.refused = self.refused.saturating_add(1),
        }
        for _ in rt.forever() {
            if self.given < u64::MAX {
                break;
            }
        }
        self.given += 1;
    }

    /// Counts an item that was put. A count at its end waits.
    fn count<W: Wait>(&mut self, rt: &W)
        ensures given { self.new.given ≡ self.old.given }
        ensures puts { self.new.puts ≡ self.old.puts + 1 }
    {
        for _ in rt.forever() {
            if self.puts < u64::MAX {
                break;
            }
        }
        self.puts += 1;
    }

    /// Works one itself.
    fn work<W: Wait, H: Hub>(&mut self, rt: &W, pool: &Pool<H>, pass: &mut PoolPass)
        requires of { IsCaller pool.now pass.old }
        ensures of { IsCaller pool.now pass.new }
        ensures same { (pass.new.pass.seen ≡ pass.old.pass.seen) × (known_of pass.new.pass ≡ known_of pass.old.pass) × (gave_of pass.new.pass ≡ gave_of pass.old.pass) × HasParts pass.old pass.new }
        ensures given { self.new.given + ends_of pass.old ≡ self.old.given + ends_of pass.new }
        ensures puts { self.new.puts ≡ self.old.puts }
    {
        match work_one(rt, pool, pass, &Open) {
            Worked::Empty => thread::yield_now(),
            Worked::Done(finished) => self.take(rt, &finished),
        }
    }

    /// Collects one, where one waits. Without workers it works one instead.
    fn collect_one<W: Wait, H: Hub>(&mut self, rt: &W, pool: &Pool<H>, pass: &mut PoolPass)
        requires of { IsCaller pool.now pass.old }
        ensures of { IsCaller pool.now pass.new }
        ensures same { (pass.new.pass.seen ≡ pass.old.pass.seen) × (known_of pass.new.pass ≡ known_of pass.old.pass) × (gave_of pass.new.pass ≡ gave_of pass.old.pass) × HasParts pass.old pass.new }
        ensures given { self.new.given + ends_of pass.old ≡ self.old.given + ends_of pass.new }
        ensures puts { self.new.puts ≡ self.old.puts }
    {
        if self.measure.workers == 0 {
            self.work(rt, pool, pass);
            return;
        }
        if let Some(finished) = collect(rt, pool, pass) {
            self.take(rt, &finished);
        }
    }

    /// Collects until all that was put came back.
    fn wait_for_all<W: Wait, H: Hub>(&mut self, rt: &W, pool: &Pool<H>, pass: &mut PoolPass)
        requires of { IsCaller pool.now pass.old }
        ensures of { IsCaller pool.now pass.new }
        ensures same { (pass.new.pass.seen ≡ pass.old.pass.seen) × (known_of pass.new.pass ≡ known_of pass.old.pass) × (gave_of pass.new.pass ≡ gave_of pass.old.pass) × HasParts pass.old pass.new }
        ensures given { self.new.given + ends_of pass.old ≡ self.old.given + ends_of pass.new }
        ensures puts { self.new.puts ≡ self.old.puts }
    {
        for _ in rt.forever() {
            if self.puts <= self.given {
                return;
            }
            thread::yield_now();
            self.collect_one(rt, pool, pass);
        }
        unreachable!()
    }

    /// Collects until so many frames are due.
    fn wait_until<W: Wait, H: Hub>(
        &mut self,
        rt: &W,
        pool: &Pool<H>,
        pass: &mut PoolPass,
        frames: u64,
    )
        requires of { IsCaller pool.now pass.old }
        ensures of { IsCaller pool.now pass.new }
        ensures same { (pass.new.pass.seen ≡ pass.old.pass.seen) × (known_of pass.new.pass ≡ known_of pass.old.pass) × (gave_of pass.new.pass ≡ gave_of pass.old.pass) × HasParts pass.old pass.new }
        ensures given { self.new.given + ends_of pass.old ≡ self.old.given + ends_of pass.new }
        ensures puts { self.new.puts ≡ self.old.puts }
    {
        for _ in rt.forever() {
            if frames <= self.due(self.now(), self.measure.pace) {
                return;
            }
            self.collect_one(rt, pool, pass);
        }
        unreachable!()
    }

    /// Puts an item, and works where there is no room for it.
    fn put_item<W: Wait, H: Hub>(&mut self, rt: &W, pool: &Pool<H>, pass: &mut PoolPass, item: Item)
        requires of { IsCaller pool.now pass.old }
        requires seen { IsOf pool.now.shared.locked.cells item.seen × (log_of item.seen ≡ log_of pass.old.pass.seen) }
        ensures of { IsCaller pool.now pass.new }
        ensures same { (gave_of pass.new.pass ≡ gave_of pass.old.pass) × HasParts pass.old pass.new }
        ensures given { self.new.given + ends_of pass.old ≡ self.old.given + ends_of pass.new }
        ensures puts { self.new.puts + length (known_of pass.old.pass) ≡ self.old.puts + length (known_of pass.new.pass) }
    {
        let mut waiting = item;
        for _ in rt.forever() {
            match put(rt, pool, pass, waiting) {
                Ok(()) => {
                    self.count(rt);
                    return;
                }
                Err(full) => waiting = full.item,
            }
            self.work(rt, pool, pass);
        }
        unreachable!()
    }

    /// Puts a datagram that comes at a moment in milliseconds, unless memory is wanting.
    fn put_bytes<W: Wait, H: Hub>(
        &mut self,
        rt: &W,
        pool: &Pool<H>,
        pass: &mut PoolPass,
        bytes: Result<Bytes, NoMemory>,
        now: u64,
    )
        requires { IsCaller pool.now pass.old }
        ensures of { IsCaller pool.now pass.new }
        ensures same { (gave_of pass.new.pass ≡ gave_of pass.old.pass) × HasParts pass.old pass.new }
        ensures given { self.new.given + ends_of pass.old ≡ self.old.given + ends_of pass.new }
        ensures puts { self.new.puts + length (known_of pass.old.pass) ≡ self.old.puts + length (known_of pass.new.pass) }
    {
        if let Ok(bytes) = bytes {
            let seen = pool.shared.locked.cells.seen_again(&pass.pass.seen);
            self.put_item(rt, pool, pass, item(seen, bytes, now));
        }
    }

    /// Puts the next message of the LAC.
    fn put_message<W: Wait, H: Hub>(
        &mut self,
        rt: &W,
        pool: &Pool<H>,
        pass: &mut PoolPass,
        now: u64,
    )
        requires { IsCaller pool.now pass.old }
        ensures of { IsCaller pool.now pass.new }
        ensures same { (gave_of pass.new.pass ≡ gave_of pass.old.pass) × HasParts pass.old pass.new }
        ensures given { self.new.given + ends_of pass.old ≡ self.old.given + ends_of pass.new }
        ensures puts { self.new.puts + length (known_of pass.old.pass) ≡ self.old.puts + length (known_of pass.new.pass) }
    {
        let k = self.messages;
        if k < MOST_MESSAGES {
            self.messages = k + 1;
            self.put_bytes(rt, pool, pass, message(self.alloc, k), now / 1_000);
        }
    }

    /// Puts the next message of the LAC where it is due, and the one before came back.
    fn put_due<W: Wait, H: Hub>(&mut self, rt: &W, pool: &Pool<H>, pass: &mut PoolPass, now: u64)
        requires { IsCaller pool.now pass.old }
        ensures of { IsCaller pool.now pass.new }
        ensures same { (gave_of pass.new.pass ≡ gave_of pass.old.pass) × HasParts pass.old pass.new }
        ensures given { self.new.given + ends_of pass.old ≡ self.old.given + ends_of pass.new }
        ensures puts { self.new.puts + length (known_of pass.old.pass) ≡ self.old.puts + length (known_of pass.new.pass) }
    {
        if self.measure.calls == 0 || self.turns < u64::from(self.messages) {
            return;
        }
        if u64::from(self.messages) < self.due(now, self.measure.calls * 2).saturating_add(4) {
            self.put_message(rt, pool, pass, now);
        }
    }

    /// Opens the tunnel and the first call, each message once the one before came back.
    fn open<W: Wait, H: Hub>(&mut self, rt: &W, pool: &Pool<H>, pass: &mut PoolPass)
        requires { IsCaller pool.now pass.old }
        ensures of { IsCaller pool.now pass.new }
        ensures same { (gave_of pass.new.pass ≡ gave_of pass.old.pass) × HasParts pass.old pass.new }
        ensures given { self.new.given + ends_of pass.old ≡ self.old.given + ends_of pass.new }
        ensures puts { self.new.puts + length (known_of pass.old.pass) ≡ self.old.puts + length (known_of pass.new.pass) }
    {
        for _ in 0..4u32 {
            let now = self.now();
            self.put_message(rt, pool, pass, now);
            self.wait_for_all(rt, pool, pass);
        }
        self.begun = self.now();
    }

    /// Puts all data messages, and what is due between them.
    fn put_all<W: Wait, H: Hub>(&mut self, rt: &W, pool: &Pool<H>, pass: &mut PoolPass)
        requires { IsCaller pool.now pass.old }
        ensures of { IsCaller pool.now pass.new }
        ensures same { (gave_of pass.new.pass ≡ gave_of pass.old.pass) × HasParts pass.old pass.new }
        ensures given { self.new.given + ends_of pass.old ≡ self.old.given + ends_of pass.new }
        ensures puts { self.new.puts + length (known_of pass.old.pass) ≡ self.old.puts + length (known_of pass.new.pass) }
    {
        self.open(rt, pool, pass);
        for k in 0..self.measure.frames {
            if self.measure.pace > 0 {
                self.wait_until(rt, pool, pass, k);
            }
            let now = self.now();
            self.put_bytes(rt, pool, pass, frame(self.alloc), now / 1_000);
            self.put_due(rt, pool, pass, now);
            self.collect_one(rt, pool, pass);
            self.collect_one(rt, pool, pass);
        }
    }
}

impl<'a, H: Hub, C: Clock> Serving<H> for Load<'a, C> {
    ghost use Rattle.std.specs.Prelude.{⊤};

    ghost given = { λ s. s.given };

    ghost puts = { λ s. s.puts };

    ghost serves = { λ before after. ⊤ };

    fn serve<W: Wait>(&mut self, rt: &W, pool: &Pool<H>, pass: &mut PoolPass) {
        self.put_all(rt, pool, pass);
    }

    fn finished<W: Wait>(
        &mut self,
        rt: &W,
        _pool: &Pool<H>,
        _pass: &mut PoolPass,
        finished: Finished,
    ) {
        self.take(rt, &finished);
    }
}
