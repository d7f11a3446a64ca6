//! Gates, which hold workers.

use session_workers::Gate;
use std::sync::atomic::AtomicU64;
use std::sync::atomic::Ordering::SeqCst;
use std::thread;

/// How often a gate yields at most.
const YIELDS: u32 = 1_000_000;

/// Holds nothing.
pub struct Open;

impl Gate for Open {
    fn before(&self, _number: u64) {}

    fn after(&self, _number: u64) {}
}

/// Holds each odd number until the even one behind it is done.
#[derive(Drop)]
pub struct Pairs {
    done: AtomicU64,
    met: AtomicU64,
}

impl Pairs {
    pub fn new() -> Pairs {
        Pairs {
            done: AtomicU64::new(0),
            met: AtomicU64::new(0),
        }
    }

    /// How many odd numbers met the one behind them.
    pub fn met(&self) -> u64 {
        self.met.load(SeqCst)
    }
}

impl Gate for Pairs {
    fn before(&self, number: u64) {
        if number % 2 == 0 {
            return;
        }
        for _ in 0..YIELDS {
            if self.done.load(SeqCst) > number {
                self.met.fetch_add(1, SeqCst);
                return;
            }
            thread::yield_now();
        }
    }

    fn after(&self, number: u64) {
        if number % 2 == 0 {
            self.done.store(number, SeqCst);
        }
    }
}

/// Holds each number until the one before is done.
#[derive(Drop)]
pub struct InOrder {
    done: AtomicU64,
    late: AtomicU64,
}

impl InOrder {
    pub fn new() -> InOrder {
        InOrder {
            done: AtomicU64::new(0),
            late: AtomicU64::new(0),
        }
    }

    /// How many were let through before.
    pub fn late(&self) -> u64 {
        self.late.load(SeqCst)
    }
}

impl Gate for InOrder {
    fn before(&self, number: u64) {
        for _ in 0..YIELDS {
            if self.done.load(SeqCst).wrapping_add(1) == number {
                return;
            }
            thread::yield_now();
        }
        self.late.fetch_add(1, SeqCst);
    }

    fn after(&self, number: u64) {
        self.done.store(number, SeqCst);
    }
}
