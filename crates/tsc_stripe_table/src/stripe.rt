//! A stripe: a cache, and what was added last on it.
ghost use Rattle.std.specs.Prelude.{◌≡◌, true, false, IsOk, IfOk, IfSome, OnOk, OnErr};
ghost use Rattle.tsc_cache.specs.ConfigView.{fits};
ghost use Rattle.tsc_cache.specs.Batch.{all_fit};
ghost use Rattle.tsc_cache.specs.State.{opening, is_kept};
ghost use Rattle.tsc_cache.specs.CacheView.{RepresentsState, StandsAfter, ReportsAdded};
ghost use Rattle.tsc_cache.specs.CacheView.{StandsAfterAll, ReportsAddedAll};

use std::alloc::Global;
use std::mem;
use std::snapshot::Snapshot;
use tsc_cache::{Added, Cache, Config, Mark, TimestampCache};
use tsc_span::{Key, Span};
use tsc_time::{NoMemory, Timestamp, Value};

/// The Add that was made last on a stripe. Only the proof reads it, and it has no bytes.
#[derive(Drop)]
pub struct PendingAdd {
    pub span: Snapshot<Span>,
    pub value: Snapshot<Value>,
    pub moment: Snapshot<Timestamp>,
}

impl PendingAdd {
    /// An Add of this span with its value, at a moment.
    fn of(span: &Span, value: Value, moment: Timestamp) -> PendingAdd
        ensures span { result.span.value ≡ span.now }
        ensures value { result.value.value ≡ value }
        ensures moment { result.moment.value ≡ moment }
    {
        PendingAdd {
            span: Snapshot::of(span),
            value: Snapshot::of(&value),
            moment: Snapshot::of(&moment),
        }
    }
}

/// The batch that was made last on a stripe, as [`PendingAdd`] is the Add of one mark.
#[derive(Drop)]
pub struct PendingBatch {
    pub marks: Snapshot<Vec<Mark>>,
    pub moment: Snapshot<Timestamp>,
}

impl PendingBatch {
    /// A batch of these marks, at a moment.
    fn of(marks: &Vec<Mark>, moment: Timestamp) -> PendingBatch
        ensures marks { result.marks.value.items ≡ marks.now.items }
        ensures moment { result.moment.value ≡ moment }
    {
        PendingBatch {
            marks: Snapshot::of(marks),
            moment: Snapshot::of(&moment),
        }
    }
}

/// The next version of a stripe's cache, and what was added there.
#[derive(Drop)]
pub struct Version {
    pub cache: Cache,
    pub added: Added,
}

/// What an Add did on a stripe. A cache that it replaced is to be dropped once the stripe's lock is
/// released.
#[derive(Drop)]
pub struct StripeAdd {
    pub added: Added,
    pub replaced: Option<Cache>,
}

/// The version after an Add of a span that fits.
fn next_version(
    cache: &Cache,
    span: &Span,
    value: Value,
    now: Timestamp,
) -> Result<Version, NoMemory>
    requires fits { fits cache.now.config span.now ≡ true }
    ensures stands { IfOk result (λ next. StandsAfter cache.now next.cache
        (record { span = span.now; value = value }) now) }
    ensures added { IfOk result (λ next. ReportsAdded cache.now
        (record { span = span.now; value = value }) now next.added) }
{
    let (next, added) = cache.next_one_fitting(span, value, now)?;
    Ok(Version { cache: next, added })
}

/// The cache of a stripe. What lies before and after it keeps it on lines of its own.
#[derive(Drop)]
#[repr(C)]
pub struct Stripe {
    before: [u64; 8],
    pub cache: Cache,
    pub pending: PendingAdd,
    pub batch: PendingBatch,
    after: [u64; 8],
}

impl Stripe {
    /// A stripe with an empty cache.
    pub(crate) fn new(alloc: Global, config: Config) -> Result<Stripe, NoMemory>
        ensures { IfOk result (λ stripe. RepresentsState stripe.cache config (opening config)) }
    {
        let nothing = Span::point(Key::empty(alloc));
        let pending = PendingAdd::of(&nothing, Value::unowned(Timestamp::ZERO), Timestamp::ZERO);
        let batch = PendingBatch::of(&Vec::new(alloc), Timestamp::ZERO);
        let cache = Cache::new(alloc, config)?;
        Ok(Stripe {
            before: [0; 8],
            cache,
            pending,
            batch,
            after: [0; 8],
        })
    }

    /// Adds a span that fits with its value at the moment `now`, as [`TimestampCache::add`] does.
    /// That is then the Add that was made last.
    ///
    /// It adds in place. Where the pages rotate, the next version of the cache takes its place
    /// instead, which takes the memory of a list of pages. So no page is dropped here.
    #[inline]
    pub fn add(&mut self, span: &Span, value: Value, now: Timestamp) -> Result<StripeAdd, NoMemory>
        requires fits { fits self.old.cache.config span.now ≡ true }
        ensures pending { OnOk result ((self.new.pending.span.value ≡ span.now)
            × (self.new.pending.value.value ≡ value) × (self.new.pending.moment.value ≡ now)) }
        ensures stands { OnOk result (StandsAfter self.old.cache self.new.cache
            (record { span = span.now; value = value }) now) }
        ensures made { IfOk result (λ made. ReportsAdded self.old.cache
            (record { span = span.now; value = value }) now made.added
            × IfSome made.replaced (λ cache. cache ≡ self.old.cache)) }
        ensures unchanged { OnErr result (self.new.cache ≡ self.old.cache) }
        ensures memory { is_kept self.old.cache.floor (record { span = span.now; value = value })
            ≡ false → IsOk result }
    {
        if let Some(added) = self.cache.add_without_rotation(span, value)? {
            self.pending = PendingAdd::of(span, value, now);
            return Ok(StripeAdd {
                added,
                replaced: None,
            });
        }
        self.add_by_version(span, value, now)
    }

    /// The same, where the next version of the cache takes its place.
    fn add_by_version(
        &mut self,
        span: &Span,
        value: Value,
        now: Timestamp,
    ) -> Result<StripeAdd, NoMemory>
        requires fits { fits self.old.cache.config span.now ≡ true }
        ensures pending { OnOk result ((self.new.pending.span.value ≡ span.now)
            × (self.new.pending.value.value ≡ value) × (self.new.pending.moment.value ≡ now)) }
        ensures stands { OnOk result (StandsAfter self.old.cache self.new.cache
            (record { span = span.now; value = value }) now) }
        ensures made { IfOk result (λ made. ReportsAdded self.old.cache
            (record { span = span.now; value = value }) now made.added
            × IfSome made.replaced (λ cache. cache ≡ self.old.cache)) }
        ensures unchanged { OnErr result (self.new.cache ≡ self.old.cache) }
    {
        let next = next_version(&self.cache, span, value, now)?;
        let replaced = self.replace(next.cache);
        self.pending = PendingAdd::of(span, value, now);
        Ok(StripeAdd {
            added: next.added,
            replaced: Some(replaced),
        })
    }

    /// The next version of the cache after marks that fit, as [`Cache::next_fitting`] gives it. The
    /// stripe stays as it is.
    pub fn next_all(&self, marks: &[Mark], now: Timestamp) -> Result<Version, NoMemory>
        requires fits { all_fit self.now.cache.config marks.now ≡ true }
        ensures stands { IfOk result
            (λ next. StandsAfterAll self.now.cache next.cache marks.now now) }
        ensures added { IfOk result
            (λ next. ReportsAddedAll self.now.cache marks.now now next.added) }
    {
        let (next, added) = self.cache.next_fitting(marks, now)?;
        Ok(Version { cache: next, added })
    }

    /// Replaces the cache by its next version, and gives the one before.
    pub fn replace(&mut self, next: Cache) -> Cache
        ensures cache { self.new.cache ≡ next }
        ensures before { result ≡ self.old.cache }
    {
        mem::replace(&mut self.cache, next)
    }

    /// The same, where that version has a batch of marks. That is then the batch that was made
    /// last.
    pub fn replace_by_batch(&mut self, next: Cache, marks: &Vec<Mark>, moment: Timestamp) -> Cache
        ensures cache { self.new.cache ≡ next }
        ensures before { result ≡ self.old.cache }
        ensures marks { self.new.batch.marks.value.items ≡ marks.now.items }
        ensures moment { self.new.batch.moment.value ≡ moment }
    {
        let before = self.replace(next);
        self.batch = PendingBatch::of(marks, moment);
        before
    }
}
