//! A lease that goes on to another holder: what the former one read, and what the next one answers.
ghost use Rattle.std.specs.Prelude.{◌≡◌, [], IfOk, IfSome, OnOk};
ghost use Rattle.timestamp_cache.specs.Words.{cache_answer};
ghost use Rattle.timestamp_cache.specs.Clear.{IsClearOf};
ghost use Rattle.timestamp_cache.specs.Earliest.{ReportsEarliest};
ghost use Rattle.example_hand_over.specs.FormerReads.{HasReads, AnswersOneMore, ReportsOfCache, AnswersNoLess, IsClearOfFormerReads, read_of};

use anyhow::Result;
use std::alloc::Global;
use std::marker::{Brand, PhantomData};
use std::slice;
use timestamp_cache::{
    Cache, CacheFault, Config, NoMemory, ReadSummary, Span, Timestamp, TimestampCache, Uuid, Value,
    apply, earliest_write,
};

/// From whom a lease is taken over: the former holder's cache, as it was summarized, and the range.
/// By it the next holder shows in its type whose reads it minds.
pub trait Former {
    ghost use Rattle.timestamp_cache.specs.Words.{SpanView, CacheView};

    ghost cache: { CacheView };

    ghost range: { SpanView };
}

impl Former for Brand {
    ghost use Rattle.example_hand_over.specs.FormerReads.{any_cache, any_range};

    ghost cache = { any_cache };

    ghost range = { any_range };
}

/// The next holder of the range. To each span in it this one answers no less than the former one
/// did.
#[derive(Drop)]
pub struct Next<F: Former> {
    cache: Cache,
    of: PhantomData<F>,
    ghost follows: { ∥ AnswersNoLess F.cache cache F.range ∥₁ },
}

/// The cache of a holder that has answered nothing.
pub fn open(alloc: Global, config: Config) -> Result<Cache, NoMemory>
    ensures { IfOk result (λ cache. HasReads cache config []) }
{
    Cache::new(alloc, config)
}

/// A holder answers a read: whatever reads the cache had, it has those and this one.
pub fn read(cache: &mut Cache, span: &Span, at: Timestamp, by: Uuid) -> Result<(), CacheFault>
    ensures { OnOk result (AnswersOneMore cache.old cache.new span.now (read_of at by) at) }
{
    cache.add(span, Value::of(at, by), at)?;
    Ok(())
}

impl<F: Former> Next<F> {
    /// A new holder takes over what a summary tells of the former one. To each span within the
    /// range it then answers no less than that one did, whatever was read there.
    pub fn take_over(
        alloc: Global,
        config: Config,
        reported: &ReadSummary,
        now: Timestamp,
    ) -> Result<Next<F>>
        requires range { reported.now.span ≡ F.range }
        requires reports { ReportsOfCache F.cache reported.now }
        ensures { IfOk result (λ next. AnswersNoLess F.cache next.cache F.range) }
    {
        let mut cache = Cache::new(alloc, config)?;
        apply(&mut cache, reported, now)?;
        Ok(Next {
            cache,
            of: PhantomData,
        })
    }

    /// The earliest time, from the wanted one on, at which a transaction may write: at which that
    /// is clear of what the holder answers. Within the range it is then clear of each read that the
    /// former holder answered, none of which was made here.
    pub fn write(&self, span: &Span, wanted: Timestamp, by: Uuid) -> Option<Timestamp>
        ensures former { IfSome result (λ at. IsClearOfFormerReads F.cache F.range span.now by at) }
        ensures pushed { ReportsEarliest
            (λ at. IsClearOf (cache_answer self.now.cache span.now) by at) wanted result }
    {
        earliest_write(&self.cache, slice::from_ref(span), wanted, by)
    }

    /// What the holder answers to a span. Where a write was pushed, it is what it was pushed by: a
    /// read, or the floor.
    pub fn answer(&self, span: &Span) -> Value
        ensures { result ≡ cache_answer self.now.cache span.now }
    {
        self.cache.get_max(span)
    }
}
