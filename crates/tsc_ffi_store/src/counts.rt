//! What was asked by one handle so far.

ghost use Rattle.std.specs.Prelude.{◌≡◌};
ghost use Rattle.tsc_ffi_store.specs.Counts.{no_counts, one_added, one_refused, one_answered};

use crate::seats::SeatHandle;
use tsc_cache::Cache;

/// How often a handle was asked for what. Each count stays at 2^64 - 1 once it is there.
#[derive(Clone, Copy)]
pub struct Counts {
    /// Adds that were accepted. Several marks at once are one Add.
    pub adds: u64,
    /// Adds that were refused, for whatever reason.
    pub refusals: u64,
    /// Lookups and questions for writes that were answered.
    pub lookups: u64,
    /// Pages that the Adds dropped.
    pub evicted: u64,
}

impl Counts {
    /// Nothing was asked.
    pub fn new() -> Counts
        ensures { result ≡ no_counts }
    {
        Counts {
            adds: 0,
            refusals: 0,
            lookups: 0,
            evicted: 0,
        }
    }

    /// An Add was accepted, which dropped so many pages.
    pub fn add(&mut self, evicted: u64)
        ensures { self.new ≡ one_added self.old evicted }
    {
        self.adds = self.adds.saturating_add(1);
        self.evicted = self.evicted.saturating_add(evicted);
    }

    /// An Add was refused.
    pub fn refuse(&mut self)
        ensures { self.new ≡ one_refused self.old }
    {
        self.refusals = self.refusals.saturating_add(1);
    }

    /// A lookup, or a question for a write, was answered.
    pub fn answer(&mut self)
        ensures { self.new ≡ one_answered self.old }
    {
        self.lookups = self.lookups.saturating_add(1);
    }
}

/// A cache for calls of one thread at a time, with what was asked of it.
#[derive(Drop)]
pub struct CountedCache {
    pub cache: Cache,
    pub counts: Counts,
}

impl CountedCache {
    /// A cache of which nothing was asked.
    pub fn new(cache: Cache) -> CountedCache
        ensures { result ≡ record { cache = cache; counts = no_counts } }
    {
        CountedCache {
            cache,
            counts: Counts::new(),
        }
    }
}

/// A seat of a shared cache, with what was asked of it.
#[derive(Drop)]
pub struct CountedSeat {
    pub seat: SeatHandle,
    /// The handle of its cache, in the store where both were opened.
    pub opened_at: u64,
    pub counts: Counts,
}

impl CountedSeat {
    /// A seat of which nothing was asked.
    pub fn new(seat: SeatHandle, opened_at: u64) -> CountedSeat
        ensures { result ≡ record { seat = seat; opened_at = opened_at; counts = no_counts } }
    {
        CountedSeat {
            seat,
            opened_at,
            counts: Counts::new(),
        }
    }
}
