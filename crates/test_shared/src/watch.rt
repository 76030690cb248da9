//! A gate that counts the Adds that it is told of, and holds each up until some seats have looked.
use std::sync::atomic::{AtomicBool, AtomicU64, Ordering};
use std::{hint, thread};
use tsc_shared::Gate;

/// How often a thread looks whether another has come so far.
pub const TURNS: u32 = 10_000_000;

/// How often it looks whether an Add is held up, if it does not yield.
const SPINS: u32 = 1_000_000_000;

/// How many pauses it makes before it counts an Add, in which others may look for it.
const PAUSES: u32 = 50;

#[derive(Drop)]
pub struct Watch {
    reported: AtomicU64,
    /// How many seats are to look.
    lookers: u64,
    /// How many have looked.
    pub looked: AtomicU64,
    /// Whether an Add saw that all had.
    pub met: AtomicBool,
    /// Whether a seat gave up, since the Add had no thread of its own.
    pub alone: AtomicBool,
}

impl Watch {
    pub fn new(lookers: u64) -> Watch {
        Watch {
            reported: AtomicU64::new(0),
            lookers,
            looked: AtomicU64::new(0),
            met: AtomicBool::new(false),
            alone: AtomicBool::new(false),
        }
    }

    /// Waits until an Add is held up, and tells whether one was before the limit. Other threads run
    /// meanwhile, if it yields.
    pub fn is_reached(&self, yields: bool) -> bool {
        for _ in 0..if yields { TURNS } else { SPINS } {
            if self.reported() > 0 {
                return true;
            }
            if yields {
                thread::yield_now();
            } else {
                hint::spin_loop();
            }
        }
        self.alone.store(true, Ordering::SeqCst);
        false
    }

    /// How many Adds it was told of.
    pub fn reported(&self) -> u64 {
        self.reported.load(Ordering::SeqCst)
    }

    /// Waits until all have looked, or one has given up, and tells whether all had before the
    /// limit. It lets other threads run once at the least.
    fn is_met(&self) -> bool {
        if self.lookers > 0 {
            thread::yield_now();
        }
        for _ in 0..TURNS {
            if self.looked.load(Ordering::SeqCst) >= self.lookers {
                return true;
            }
            if self.alone.load(Ordering::SeqCst) {
                return false;
            }
            thread::yield_now();
        }
        false
    }
}

impl Gate for Watch {
    ghost HasReported = { λ _ _. Unit {0} };

    fn start(&self, _thread: u32, _call: u32) {}

    fn done(&self, _thread: u32, _call: u32) {}

    fn publish(&self, _seat: u32) {
        for _ in 0..PAUSES {
            hint::spin_loop();
        }
        self.reported.fetch_add(1, Ordering::SeqCst);
        self.met.store(self.is_met(), Ordering::SeqCst);
    }
}
