//! Signals between threads, each waited for a million times at most.

use std::sync::atomic::AtomicU64;
use std::sync::atomic::Ordering::SeqCst;
use std::thread;

/// How often a thread gives way at most while it waits.
const YIELDS: u32 = 1_000_000;

/// Signals between a hub that waits and who lets it go on. As long as nobody asks it to, it doesn't wait.
#[derive(Drop)]
pub struct Signals {
    asked: AtomicU64,
    held: AtomicU64,
    let_go: AtomicU64,
    met: AtomicU64,
}

/// Waits for a signal: whether it came.
fn comes(signal: &AtomicU64) -> bool {
    for _ in 0..YIELDS {
        if signal.load(SeqCst) == 1 {
            return true;
        }
        thread::yield_now();
    }
    false
}

impl Signals {
    pub fn new() -> Signals {
        Signals {
            asked: AtomicU64::new(0),
            held: AtomicU64::new(0),
            let_go: AtomicU64::new(0),
            met: AtomicU64::new(0),
        }
    }

    /// From here on the hub is to wait.
    pub fn ask(&self) {
        self.asked.store(1, SeqCst);
    }

    /// The hub waits until it is let go, if it was asked to.
    pub fn wait(&self) {
        if self.asked.load(SeqCst) == 0 {
            return;
        }
        self.held.store(1, SeqCst);
        if comes(&self.let_go) {
            self.met.fetch_add(1, SeqCst);
        }
    }

    /// Waits until the hub is held: whether it came to that.
    pub fn is_held(&self) -> bool {
        comes(&self.held)
    }

    /// The hub may go on.
    pub fn let_go(&self) {
        self.let_go.store(1, SeqCst);
    }

    /// How often the hub waited and was let go.
    pub fn met(&self) -> u64 {
        self.met.load(SeqCst)
    }
}
