//! What a cache on one thread promises, however it keeps what was added. Both caches meet one
//! trait, so a law of one is a law of the other.
ghost use Rattle.std.specs.Prelude.{◌≡◌, Bool, length, true, false, IsOk, IfOk, OnErr};
ghost use Rattle.tsc_cache.specs.ConfigView.{ConfigView, IsWithinLimits, fits};
ghost use Rattle.tsc_cache.specs.State.{CacheState, opening, look, is_kept};
ghost use Rattle.tsc_cache.specs.CacheView.{CacheView, RepresentsState, Adds, cache_answer};
ghost use Rattle.tsc_cache.specs.AnswersAdd.{AnswersAdd, AnswersAddAll};

use crate::{Added, CacheFault, Config, Mark};
use std::alloc::Global;
use tsc_span::Span;
use tsc_time::{NoMemory, Timestamp, Value};

/// What a timestamp cache promises, however it keeps what was added: [`Cache`](crate::Cache) on
/// pages of sorted nodes, and [`PlainCache`](crate::PlainCache) over plain lists. What a call costs
/// depends on the cache.
///
/// The trait restates the interface `Cache` of CockroachDB's `pkg/kv/kvserver/tscache/cache.go`.
pub trait TimestampCache: Drop {
    /// What can be seen of the cache.
    ghost view: { Self → CacheView };

    /// Whether an empty one takes no memory.
    ghost is_empty_free: { Bool };

    /// A cache to which nothing was added. Its floor stands at the low-water time of the
    /// configuration.
    fn new(alloc: Global, config: Config) -> Result<Self, NoMemory>
        ensures stands { IfOk result
            (λ cache. RepresentsState (view cache) config (opening config)) }
        ensures memory { is_empty_free ≡ true → IsOk result };

    /// Adds a span with its value, at the moment `now`: who read what, and when. Where memory is
    /// refused the cache is as before. An Add of the empty span, or with a time at or below the
    /// floor, is not kept: it changes nothing and takes no memory.
    ///
    /// The call restates `intervalSkl.AddRange` of CockroachDB's
    /// `pkg/kv/kvserver/tscache/interval_skl.go`.
    fn add(&mut self, span: &Span, value: Value, now: Timestamp) -> Result<Added, CacheFault>
        ensures { AnswersAdd (view self.old) (view self.new)
            (record { span = span.now; value = value }) now result };

    /// As [`add`](TimestampCache::add), of a span that fits a page: only memory may be refused.
    fn add_one_fitting(
        &mut self,
        span: &Span,
        value: Value,
        now: Timestamp,
    ) -> Result<Added, NoMemory>
        requires fits { fits (view self.old).config span.now ≡ true }
        ensures seen { IfOk result
            (λ added. Adds (view self.old) (view self.new)
            (record { span = span.now; value = value }) now added) }
        ensures unchanged { OnErr result (view self.new ≡ view self.old) }
        ensures memory { is_kept (view self.old).floor (record { span = span.now; value = value }) ≡
            false → IsOk result };

    /// Adds all of these marks at the moment `now`, one after another, or none: where one is too
    /// large or memory is refused, the cache is as before. Where none is kept nothing changes, and
    /// no memory is taken.
    fn add_all(&mut self, marks: &[Mark], now: Timestamp) -> Result<Added, CacheFault>
        ensures { AnswersAddAll (view self.old) (view self.new) marks.now now result };

    /// What the floor, and each Add that overlaps the span, come to together: the latest of their
    /// times, with its owner where all of that time are of one owner.
    fn get_max(&self, span: &Span) -> Value
        ensures value { result ≡ cache_answer (view self.now) span.now }
        ensures stands { (config : ConfigView) (s : CacheState) →
            RepresentsState (view self.now) config s → result ≡ look s span.now };

    /// Where the floor stands. Whoever has a cache also learns here that its settings are within
    /// their limits.
    fn low_water(&self) -> Timestamp
        ensures value { result ≡ (view self.now).floor }
        ensures limits { IsWithinLimits (view self.now).config }
        ensures stands { (config : ConfigView) (s : CacheState) →
            RepresentsState (view self.now) config s → result ≡ s.floor };

    /// How many pages there are.
    fn pages(&self) -> usize
        ensures value { result ≡ length (view self.now).pages }
        ensures stands { (config : ConfigView) (s : CacheState) →
            RepresentsState (view self.now) config s → result ≡ length s.pages };

    /// How often the pages rotated. The count stays at 2^64 - 1 once it is there.
    fn rotations(&self) -> u64
        ensures value { result ≡ (view self.now).rotations }
        ensures stands { (config : ConfigView) (s : CacheState) →
            RepresentsState (view self.now) config s → result ≡ s.rotations };
}
