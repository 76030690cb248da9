//! The plain cache: slow, and easy to believe. Tests compare the fast one with it.
ghost use Rattle.std.specs.Prelude.{◌≡◌, ◌<◌, ◌+◌, ◌^◌, length, true, false, IfOk, OnErr};
ghost use Rattle.tsc_span.specs.Span.{is_empty_span};
ghost use Rattle.tsc_cache.specs.ConfigView.{fits};
ghost use Rattle.tsc_cache.specs.State.{is_kept, kept_after_rotation};
ghost use Rattle.tsc_cache.specs.Batch.{all_fit, is_any_kept, AddsAll};

use crate::mark::is_any_kept;
use crate::page_stack::PageStack;
use crate::plain_pages::PlainPages;
use crate::{Added, CacheFault, Config, Mark, TimestampCache};
use std::alloc::Global;
use std::marker::Model;
use tsc_page::{IntervalPage, PlainPage};
use tsc_span::Span;
use tsc_time::{NoMemory, Timestamp, Value, ratchet};

/// The cache over plain lists of what was added.
///
/// A plain cache makes the promises of [`Cache`](crate::Cache), word for word, but has no `next`,
/// no `next_all`, no `get_max_counted`, and no lookup by bytes. It is slow: a lookup looks at all
/// that stands on its pages, and an Add compares all end keys of the front page with one another.
#[derive(Debug, Drop)]
pub struct PlainCache {
    pub(crate) config: Config,
    pub(crate) floor: Timestamp,
    pub(crate) pages: PlainPages,
    pub(crate) rotations: u64,
}

impl Model for PlainCache {
    ghost use Rattle.tsc_cache.specs.CacheView.{CacheView};

    ghost Value = { CacheView };

    ghost use Rattle.tsc_cache.specs.CacheParts.{plain_pages_of};

    ghost view = { λ c. record {
      config = c.config;
      floor = c.floor;
      pages = plain_pages_of c.pages;
      rotations = c.rotations;
    } };
}

impl TimestampCache for PlainCache {
    ghost view = { λ c. c };

    ghost is_empty_free = { true };

    /// An empty cache takes no memory until something is added.
    fn new(alloc: Global, config: Config) -> Result<PlainCache, NoMemory> {
        let front = PlainPage::new(alloc, config.page_first(), Timestamp::ZERO)?;
        Ok(PlainCache {
            config,
            floor: config.low_water(),
            pages: PlainPages::new(alloc, front),
            rotations: 0,
        })
    }

    /// An Add compares all end keys of the front page with one another.
    fn add(&mut self, span: &Span, value: Value, now: Timestamp) -> Result<Added, CacheFault> {
        if !self.config.fits(span) {
            return Err(CacheFault::TooLarge);
        }
        Ok(self.add_one_fitting(span, value, now)?)
    }

    fn add_one_fitting(
        &mut self,
        span: &Span,
        value: Value,
        now: Timestamp,
    ) -> Result<Added, NoMemory> {
        if !self.keeps(span, value) {
            return Ok(Added::nothing());
        }
        if self.pages.front().room(span) {
            self.pages.mark_front(span, value)?;
            return Ok(Added::without_rotation());
        }
        self.rotate(span, value, now)
    }

    /// A batch of which a mark is kept costs a copy of the whole cache.
    fn add_all(&mut self, marks: &[Mark], now: Timestamp) -> Result<Added, CacheFault> {
        if !self.config.fits_all(marks) {
            return Err(CacheFault::TooLarge);
        }
        if !is_any_kept(self.floor, marks) {
            return Ok(Added::nothing());
        }
        let mut next = self.try_copy()?;
        let added = next.add_each_until_refused(marks, now)?;
        *self = next;
        Ok(added)
    }

    /// A lookup goes through all that stands on the pages.
    fn get_max(&self, span: &Span) -> Value {
        ratchet(self.pages.lookup(span), Value::unowned(self.floor)).0
    }

    fn low_water(&self) -> Timestamp {
        let _first = self.config.page_first();
        self.floor
    }

    fn pages(&self) -> usize {
        self.pages.len()
    }

    fn rotations(&self) -> u64 {
        self.rotations
    }
}

impl PlainCache {
    /// Whether an Add is kept.
    fn keeps(&self, span: &Span, value: Value) -> bool
        ensures { result ≡ is_kept self.now.floor (record { span = span.now; value = value }) }
    {
        !span.is_empty() && self.floor < value.time()
    }

    /// Adds marks that fit. Where memory is refused, those before stay.
    fn add_each_until_refused(&mut self, marks: &[Mark], now: Timestamp) -> Result<Added, NoMemory>
        requires fits { all_fit self.old.config marks.now ≡ true }
        requires few { length self.old.pages + length marks.now < 2 ^ 64 }
        ensures { IfOk result (λ added. AddsAll self.old self.new marks.now now added) }
    {
        let mut added = Added::nothing();
        for mark in marks {
            added = added.with(self.add_one_fitting(&mark.span, mark.value, now)?);
        }
        Ok(added)
    }

    /// A copy of the cache.
    fn try_copy(&self) -> Result<PlainCache, NoMemory>
        ensures { IfOk result (λ copy. copy ≡ self.now) }
    {
        Ok(PlainCache {
            config: self.config,
            floor: self.floor,
            pages: self.pages.try_copy()?,
            rotations: self.rotations,
        })
    }
}
