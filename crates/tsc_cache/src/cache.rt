//! The cache of one thread. An Add asks first whether its span fits, then whether it is kept, and
//! takes memory only after both.
ghost use Rattle.std.specs.Prelude.{◌≡◌, ◌↔◌, option_map, true, false, IsOk, IfOk, IsErrOf, OnErr};
ghost use Rattle.tsc_time.specs.Time.{Time};
ghost use Rattle.tsc_span.specs.Span.{is_empty_span, point};
ghost use Rattle.tsc_span.specs.LookupSpan.{span_for_lookup};
ghost use Rattle.tsc_span.specs.Cuts.{cut_of};
ghost use Rattle.tsc_page_model.specs.KeysAbove.{IsLeastAbove};
ghost use Rattle.tsc_cache.specs.ConfigView.{ConfigView, fits};
ghost use Rattle.tsc_cache.specs.State.{CacheState, step, look, is_kept, kept_after_rotation};
ghost use Rattle.tsc_cache.specs.Lookup.{LooksIntoPages};
ghost use Rattle.tsc_cache.specs.Keys.{keys_on, keys_seen};
ghost use Rattle.tsc_cache.specs.CacheView.{RepresentsState, Adds, AddsWithoutRotation, would_rotate, cache_answer, LooksIntoViews};
ghost use Rattle.tsc_cache.specs.Counts.{figures_of, figures_seen};
ghost use Rattle.tsc_cache.specs.AddSpans.{named};
ghost use Rattle.tsc_cache.specs.Batch.{all_fit, is_any_kept, AddsAll, AddsSome};
ghost use Rattle.tsc_cache.specs.AnswersAdd.{AnswersAdd, AnswersAddNamed};

use crate::mark::is_any_kept;
use crate::named_span::{cost_of, named_span};
use crate::page_stack::{PageStack, Pages};
use crate::{AddBetweenFault, Added, CacheFault, Config, Figures, Mark, TimestampCache};
use std::alloc::Global;
use std::marker::Model;
use tsc_page::{IntervalPage, Page};
use tsc_span::{AddSpan, Cut, Ends, Key, KeyRef, Span, SpanRef};
use tsc_time::{NoMemory, Timestamp, Value, ratchet};

/// The timestamp cache: which spans were read, when at the latest, and by whom.
///
/// A page that another cache holds too, as after [`Cache::next`], is never changed.
#[derive(Debug, Drop)]
pub struct Cache {
    pub(crate) config: Config,
    pub(crate) floor: Timestamp,
    pub(crate) pages: Pages,
    pub(crate) rotations: u64,
}

impl Model for Cache {
    ghost use Rattle.tsc_cache.specs.CacheView.{CacheView};

    ghost Value = { CacheView };

    ghost use Rattle.tsc_cache.specs.CacheParts.{pages_of};
    ghost use Rattle.tsc_cache.specs.Stacks.{AreStacked};

    ghost view = { λ c. record {
      config = c.config;
      floor = c.floor;
      pages = pages_of c.pages;
      rotations = c.rotations;
    } };

    ghost invariant = { λ c. AreStacked (pages_of c.pages) };
}

impl TimestampCache for Cache {
    ghost view = { λ c. c };

    ghost is_empty_free = { false };

    /// A new cache takes the memory of one empty page.
    fn new(alloc: Global, config: Config) -> Result<Cache, NoMemory> {
        let front = Page::new(alloc, config.page_first(), Timestamp::ZERO)?;
        Ok(Cache {
            config,
            floor: config.low_water(),
            pages: Pages::new(alloc, front)?,
            rotations: 0,
        })
    }

    /// It tests whether the span fits, and adds it as by
    /// [`add_one_fitting`](TimestampCache::add_one_fitting).
    fn add(&mut self, span: &Span, value: Value, now: Timestamp) -> Result<Added, CacheFault> {
        if !self.config.fits(span) {
            return Err(CacheFault::TooLarge);
        }
        Ok(self.add_one_fitting(span, value, now)?)
    }

    /// An Add that is kept goes to the front page, in place where no other cache holds that page,
    /// and to a copy of it else. Where the page has no room the pages rotate first, and a new one
    /// is made.
    fn add_one_fitting(
        &mut self,
        span: &Span,
        value: Value,
        now: Timestamp,
    ) -> Result<Added, NoMemory> {
        let is_kept = !span.is_empty() && self.floor < value.time();
        if !is_kept {
            return Ok(Added::nothing());
        }
        let span = span.for_add();
        if self.pages.mark_span(&span, value)? {
            return Ok(Added::without_rotation());
        }
        self.rotate(&span, value, now)
    }

    /// A batch of which a mark is kept is made as by [`next_all`](Cache::next_all), and then takes
    /// the cache's place.
    fn add_all(&mut self, marks: &[Mark], now: Timestamp) -> Result<Added, CacheFault> {
        if !self.config.fits_all(marks) {
            return Err(CacheFault::TooLarge);
        }
        Ok(self.add_all_fitting(marks, now)?)
    }

    /// A lookup goes through the pages from the newest on, as
    /// [`get_max_counted`](Cache::get_max_counted) tells.
    fn get_max(&self, span: &Span) -> Value {
        self.get_max_ref(&span.borrowed())
    }

    fn low_water(&self) -> Timestamp {
        let _first = self.config.page_first();
        self.floor
    }

    fn pages(&self) -> usize {
        self.pages.len()
    }

    fn rotations(&self) -> u64 {
        self.rotations
    }
}

impl Cache {
    /// How the cache was set up.
    pub fn config(&self) -> Config
        ensures { result ≡ self.now.config }
    {
        self.config
    }

    /// Whether a span fits the largest page: whether an Add of it isn't [`CacheFault::TooLarge`].
    pub fn fits(&self, span: &Span) -> bool
        ensures { result ≡ fits self.now.config span.now }
    {
        self.config.fits(span)
    }

    /// Whether the span of each of some marks fits the largest page. It costs a step for each.
    pub fn fits_all(&self, marks: &[Mark]) -> bool
        ensures { result ≡ all_fit self.now.config marks.now }
    {
        self.config.fits_all(marks)
    }

    /// Whether an Add is kept.
    fn keeps(&self, span: &Span, value: Value) -> bool
        ensures { result ≡ is_kept self.now.floor (record { span = span.now; value = value }) }
    {
        !span.is_empty() && self.floor < value.time()
    }

    /// As [`add`](TimestampCache::add), of a single key whose bytes lie elsewhere.
    ///
    /// A key that the front page holds is never copied. It takes no memory where no other cache
    /// shares the way to it. A new key is copied once, and once more where a leaf is cut or shared,
    /// or where the pages rotate.
    pub fn add_key(
        &mut self,
        key: &KeyRef<'_>,
        value: Value,
        now: Timestamp,
    ) -> Result<Added, CacheFault>
        ensures { AnswersAdd self.old self.new (record { span = point key.now; value = value }) now
            result }
    {
        self.add_span(&AddSpan::point(key.reborrow()), value, now)
    }

    /// As [`add`](TimestampCache::add), of the keys from a start to an end that lie elsewhere.
    /// Without an end there are all keys from the start on.
    ///
    /// A refused Add, and one that is not kept, copy no key and take no memory. A single key is
    /// added as by [`add_key`](Cache::add_key). Of a range, a key that the front page holds is
    /// never copied. A new one is copied once, and once more where a leaf is cut or shared, or
    /// where the pages rotate.
    pub fn add_between(
        &mut self,
        start: &[u8],
        end: Option<&[u8]>,
        ends: Ends,
        value: Value,
        now: Timestamp,
    ) -> Result<Added, AddBetweenFault>
        ensures { AnswersAddNamed self.old self.new
            (named start.now (option_map (λ k. k.now) end.entry) ends) value now result }
    {
        let span = named_span(start, end, ends)?;
        Ok(self.add_span(&span, value, now)?)
    }

    /// Adds a span over keys that lie elsewhere.
    fn add_span(
        &mut self,
        span: &AddSpan<'_>,
        value: Value,
        now: Timestamp,
    ) -> Result<Added, CacheFault>
        ensures { AnswersAdd self.old self.new (record { span = span.now; value = value }) now
            result }
    {
        if cost_of(span) > self.config.page_max() {
            return Err(CacheFault::TooLarge);
        }
        if !self.keeps_span(span, value) {
            return Ok(Added::nothing());
        }
        Ok(self.add_kept(span, value, now)?)
    }

    /// Whether an Add over keys that lie elsewhere is kept.
    fn keeps_span(&self, span: &AddSpan<'_>, value: Value) -> bool
        ensures { result ≡ is_kept self.now.floor (record { span = span.now; value = value }) }
    {
        !span.is_empty() && value.time() > self.floor
    }

    /// Adds a span that is kept: to the front page where that has room, and else to a new one.
    fn add_kept(
        &mut self,
        span: &AddSpan<'_>,
        value: Value,
        now: Timestamp,
    ) -> Result<Added, NoMemory>
        requires kept { is_kept self.old.floor (record { span = span.now; value = value }) ≡ true }
        requires fits { fits self.old.config span.now ≡ true }
        ensures seen { IfOk result
            (λ added. Adds self.old self.new (record { span = span.now; value = value }) now
            added) }
        ensures unchanged { OnErr result (self.new ≡ self.old) }
    {
        if self.pages.mark_span(span, value)? {
            return Ok(Added::without_rotation());
        }
        self.rotate(span, value, now)
    }

    /// Adds a span with its value where that needs no rotation of the pages, at whatever moment.
    /// The answer is `None` just where [`would_rotate`](Cache::would_rotate) says so of them, as it
    /// does of a span that is too large, and the cache stays as it is then. It stays so too where
    /// memory is refused.
    ///
    /// On the front page it searches for an end key once where it adds in place, and else up to
    /// twice until it knows whether there is room. An Add that is not kept takes no memory.
    pub fn add_without_rotation(
        &mut self,
        span: &Span,
        value: Value,
    ) -> Result<Option<Added>, NoMemory>
        ensures seen { IfOk result
            (AddsWithoutRotation self.old self.new (record { span = span.now; value = value })) }
        ensures unchanged { OnErr result (self.new ≡ self.old) }
        ensures memory { is_kept self.old.floor (record { span = span.now; value = value }) ≡
            false → IsOk result }
    {
        if !self.keeps(span, value) {
            return Ok(Some(Added::nothing()));
        }
        if self.pages.mark_span(&span.for_add(), value)? {
            return Ok(Some(Added::without_rotation()));
        }
        Ok(None)
    }

    /// The cache after an Add, beside this one, which stays as it is. The two share the pages that
    /// the Add leaves as they are.
    ///
    /// The call costs a step for each of the newest pages, 256 at the most, and a copy of the front
    /// page where the Add goes there. A rotation that drops pages of many costs as many steps
    /// again, and one for each 256 pages.
    pub fn next(
        &self,
        span: &Span,
        value: Value,
        now: Timestamp,
    ) -> Result<(Cache, Added), CacheFault>
        ensures seen { IfOk result
            (λ next. Adds self.now next.0 (record { span = span.now; value = value }) now next.1) }
        ensures too_large { IsErrOf result CacheFault.TooLarge ↔
            (fits self.now.config span.now ≡ false) }
    {
        if !self.config.fits(span) {
            return Err(CacheFault::TooLarge);
        }
        Ok(self.next_one_fitting(span, value, now)?)
    }

    /// As [`next`](Cache::next), of a span that fits a page: only memory may be refused.
    pub fn next_one_fitting(
        &self,
        span: &Span,
        value: Value,
        now: Timestamp,
    ) -> Result<(Cache, Added), NoMemory>
        requires fits { fits self.now.config span.now ≡ true }
        ensures { IfOk result
            (λ next. Adds self.now next.0 (record { span = span.now; value = value }) now next.1) }
    {
        let mut next = self.share()?;
        let added = next.add_one_fitting(span, value, now)?;
        Ok((next, added))
    }

    /// Adds marks that fit a page at the moment `now`, one after another, in place. Where memory is
    /// refused, those before the one that was refused stay. So it is for a single mark, and for a
    /// cache that is thrown away then; [`add_all_fitting`](Cache::add_all_fitting) is for any
    /// other.
    ///
    /// A mark that is not kept changes nothing, and takes no memory. Each other one costs an
    /// [`add`](TimestampCache::add).
    pub fn add_fitting(&mut self, marks: &[Mark], now: Timestamp) -> Result<Added, NoMemory>
        requires fits { all_fit self.old.config marks.now ≡ true }
        ensures seen { IfOk result (λ added. AddsAll self.old self.new marks.now now added) }
        ensures left { OnErr result (AddsSome self.old self.new marks.now now) }
        ensures memory { is_any_kept self.old.floor marks.now ≡ false → IsOk result }
    {
        // A field is read so that the proof has the invariant.
        let _pages = &self.pages;
        let mut added = Added::nothing();
        for mark in marks {
            added = added.with(self.add_one_fitting(&mark.span, mark.value, now)?);
        }
        Ok(added)
    }

    /// As [`add_all`](TimestampCache::add_all), of marks that fit a page: only memory may be
    /// refused, and then the cache is as before.
    pub fn add_all_fitting(&mut self, marks: &[Mark], now: Timestamp) -> Result<Added, NoMemory>
        requires fits { all_fit self.old.config marks.now ≡ true }
        ensures seen { IfOk result (λ added. AddsAll self.old self.new marks.now now added) }
        ensures unchanged { OnErr result (self.new ≡ self.old) }
        ensures memory { is_any_kept self.old.floor marks.now ≡ false → IsOk result }
    {
        if !is_any_kept(self.floor, marks) {
            return Ok(Added::nothing());
        }
        let (next, added) = self.next_fitting(marks, now)?;
        *self = next;
        Ok(added)
    }

    /// The cache after all of these marks, one after another at the moment `now`, beside this one,
    /// which stays as it is. The two share the pages that the marks leave as they are.
    ///
    /// The call costs a step for each of the newest pages, 256 at the most, and a copy of the list
    /// at the top of the front page. Each mark costs an Add in place. Before an Add, each list on
    /// the way to the mark's leaf and that leaf are copied where this cache shares them, which is
    /// once for all marks. A mark for which a leaf is cut, or whose span reaches over several
    /// leaves that are shared, copies the list at the top once more.
    pub fn next_all(&self, marks: &[Mark], now: Timestamp) -> Result<(Cache, Added), CacheFault>
        ensures seen { IfOk result (λ next. AddsAll self.now next.0 marks.now now next.1) }
        ensures too_large { IsErrOf result CacheFault.TooLarge ↔
            (all_fit self.now.config marks.now ≡ false) }
    {
        if !self.config.fits_all(marks) {
            return Err(CacheFault::TooLarge);
        }
        Ok(self.next_fitting(marks, now)?)
    }

    /// As [`next_all`](Cache::next_all), of marks that fit a page: only memory may be refused.
    pub fn next_fitting(&self, marks: &[Mark], now: Timestamp) -> Result<(Cache, Added), NoMemory>
        requires fits { all_fit self.now.config marks.now ≡ true }
        ensures { IfOk result (λ next. AddsAll self.now next.0 marks.now now next.1) }
    {
        let mut next = self.share()?;
        let added = next.add_fitting(marks, now)?;
        Ok((next, added))
    }

    /// As [`get_max`](Cache::get_max), of the keys from a start to an end that lie elsewhere: it
    /// copies no key, and takes no memory. [`SpanRef::between`] says which span that is.
    pub fn get_max_between(&self, start: &[u8], end: Option<&[u8]>, ends: Ends) -> Value
        ensures value { result ≡ cache_answer self.now
            (span_for_lookup start.now (option_map (λ k. k.now) end.entry) ends.exclude_from
            ends.exclude_to) }
        ensures stands { (config : ConfigView) (s : CacheState) → RepresentsState
            self.now config s
            → result ≡ look s (span_for_lookup start.now (option_map (λ k. k.now) end.entry)
            ends.exclude_from ends.exclude_to) }
    {
        self.get_max_ref(&SpanRef::between(start, end, ends))
    }

    /// As [`get_max`](Cache::get_max), of a span over keys that lie elsewhere.
    pub fn get_max_ref(&self, span: &SpanRef<'_>) -> Value
        ensures value { result ≡ cache_answer self.now span.now }
        ensures stands { (config : ConfigView) (s : CacheState) →
            RepresentsState self.now config s → result ≡ look s span.now }
    {
        self.lookup(span).0
    }

    /// The value of [`get_max`](Cache::get_max), and how many pages were looked into: those, from
    /// the newest on, before the first page whose top is below the latest time that was met in
    /// them.
    pub fn get_max_counted(&self, span: &Span) -> (Value, u64)
        ensures value { result.0 ≡ cache_answer self.now span.now }
        ensures stands { (config : ConfigView) (s : CacheState) →
            RepresentsState self.now config s → result.0 ≡ look s span.now }
        ensures looked { LooksIntoViews span.now self.now.pages result.1 }
        ensures looked_into { (config : ConfigView) (s : CacheState) →
            RepresentsState self.now config s → LooksIntoPages span.now s.pages result.1 }
    {
        self.lookup(&span.borrowed())
    }

    /// The least end key on any page that lies above a cut, as a key does above the place right
    /// before it; `None` where none does. With the place right after it as the next cut, the cache
    /// tells its end keys one after another in their order, each of them once.
    ///
    /// The call costs a search in each page. It takes no memory, and copies no key.
    ///
    /// The call restates how the skiplist of each `sklPage` is gone over, for all pages of an
    /// `intervalSkl`, in CockroachDB's `pkg/kv/kvserver/tscache/interval_skl.go`.
    pub fn key_above(&self, cut: Cut<'_>) -> Option<&Key>
        ensures value { IsLeastAbove (cut_of cut.entry) (keys_seen self.now.pages)
            (option_map (λ k. k.now) result) }
        ensures stands { (config : ConfigView) (s : CacheState) → RepresentsState
            self.now config s
            → IsLeastAbove (cut_of cut.entry) (keys_on s.pages) (option_map (λ k. k.now) result) }
    {
        self.pages.key_above(cut)
    }

    /// How many pages there are, how often they rotated, how many end keys they hold and what these
    /// cost, and where the floor stands. It costs a step for each page, and takes no memory.
    pub fn figures(&self) -> Figures
        ensures value { result ≡ figures_seen self.now }
        ensures stands { (config : ConfigView) (s : CacheState) →
            RepresentsState self.now config s → result ≡ figures_of s }
    {
        self.pages.figures(self.floor, self.rotations)
    }

    /// How many bytes the blocks of memory have that hold the pages: what the allocator was asked
    /// for, for lists by their capacities. The cache's own fields are not among them. A page that
    /// another cache shares counts in each of the two. The number stays at 2^64 - 1 once it is
    /// there.
    ///
    /// It costs a step for each leaf of each page, of which a leaf has 1 to 64 end keys, and takes
    /// no memory. No clause can say what memory is taken: tests compare it with what was asked for.
    pub fn memory(&self) -> u64 {
        self.pages.memory()
    }

    /// Whether an Add of this span and value would rotate the pages, at whatever moment. It costs a
    /// search for each end key where the front page is nearly full.
    pub fn would_rotate(&self, span: &Span, value: Value) -> bool
        ensures value { result ≡ would_rotate self.now (record { span = span.now; value = value }) }
        ensures stands { (config : ConfigView) (s : CacheState) (now : Time) →
            RepresentsState self.now config s
            → result ≡ (step config s (record { span = span.now; value = value })
            now).added.rotated }
    {
        self.keeps(span, value) && !self.pages.has_room(span)
    }

    /// What the floor and the pages answer to a span together, and how many pages were looked into.
    fn lookup(&self, span: &SpanRef<'_>) -> (Value, u64)
        ensures value { result.0 ≡ cache_answer self.now span.now }
        ensures stands { (config : ConfigView) (s : CacheState) →
            RepresentsState self.now config s → result.0 ≡ look s span.now }
        ensures looked { LooksIntoViews span.now self.now.pages result.1 }
        ensures looked_into { (config : ConfigView) (s : CacheState) →
            RepresentsState self.now config s → LooksIntoPages span.now s.pages result.1 }
    {
        let (best, looked) = self.pages.lookup(span);
        (ratchet(best, Value::unowned(self.floor)).0, looked)
    }

    /// A copy of the cache, which shares the pages.
    fn share(&self) -> Result<Cache, NoMemory>
        ensures { IfOk result (λ same. same ≡ self.now) }
    {
        Ok(Cache {
            config: self.config,
            floor: self.floor,
            pages: self.pages.share()?,
            rotations: self.rotations,
        })
    }
}
