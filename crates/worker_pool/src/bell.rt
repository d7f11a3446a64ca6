//! A bell, which wakes workers that sleep.
//!
//! A worker that found nothing enters, reads how often the bell was rung, looks into the queue once more, and sleeps where it found
//! nothing again: but not where the bell was rung since it read that. Who puts an item puts it first, and then rings where anyone has
//! entered.
//!
//! So no wake-up is lost. All these steps have one order. Where the worker's last look found nothing, it came before the item was put;
//! and the worker had entered before that look, and read the bell. So who puts finds that someone has entered, and rings behind the
//! reading. Where it rings before the worker lies down, the worker finds another number than it read, and doesn't lie down; and where
//! it rings later, it wakes one that sleeps. Whichever that is, it looks again, and finds what waits longest. A second item wakes a
//! second one, since one that was woken isn't woken again before it sleeps again. Whether the pool is closed is read beside the bell,
//! and closing rings for all.
//!
//! Two numbers of rings are told apart by their low 32 bits: a worker between its look and its sleep would have to be held while
//! 2^32 items are put.

use crossbeam_utils::CachePadded;
use std::sync::Wait;
use std::sync::atomic::AtomicU64;
use std::sync::atomic::Ordering::SeqCst;

/// How often it was rung, and how many workers entered, to sleep or to look a last time. Each has cache lines of its own, since it
/// changes while others read what lies beside it.
#[derive(Drop)]
pub(crate) struct Bell {
    rings: CachePadded<AtomicU64>,
    entered: CachePadded<AtomicU64>,
}

impl Bell {
    pub fn new() -> Bell {
        Bell {
            rings: CachePadded::new(AtomicU64::new(0)),
            entered: CachePadded::new(AtomicU64::new(0)),
        }
    }

    /// How often it was rung, by its low 32 bits.
    pub fn rung(&self) -> u32 {
        (self.rings.load(SeqCst) % (1 << 32)) as u32
    }

    pub fn enter(&self) {
        self.entered.fetch_add(1, SeqCst);
    }

    pub fn leave(&self) {
        self.entered.fetch_sub(1, SeqCst);
    }

    /// Sleeps until it is rung, where it wasn't since then. It may return for no reason.
    pub fn sleep<W: Wait>(&self, rt: &W, rung: u32) {
        self.rings.park(rt, rung);
    }

    /// Wakes one that sleeps, if anyone has entered.
    pub fn ring(&self) {
        if self.entered.load(SeqCst) > 0 {
            self.rings.fetch_add(1, SeqCst);
            self.rings.wake_one();
        }
    }

    /// Wakes all that sleep.
    pub fn ring_all(&self) {
        self.rings.fetch_add(1, SeqCst);
        self.rings.wake_all();
    }
}
