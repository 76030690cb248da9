//! How the pages rotate: which size a new page has, which of the oldest ones go, and what comes to
//! the front. `specs/Rotation.antt` says it in the same order.
//!
//! The policy is [`Config::drops_oldest`], a test of two numbers and two times. Both caches drop
//! pages by it, and nothing else asks it.
ghost use Rattle.std.specs.Prelude.{◌≡◌, ◌≤◌, ◌*◌, min, true, false, IfOk, OnErr};
ghost use Rattle.tsc_span.specs.Span.{is_empty_span};
ghost use Rattle.tsc_page_model.specs.Limits.{least_size, most_size};
ghost use Rattle.tsc_cache.specs.ConfigView.{fits};
ghost use Rattle.tsc_cache.specs.State.{kept_after_rotation};
ghost use Rattle.tsc_cache.specs.Rotation.{next_size, is_past_retention, drops_oldest};
ghost use Rattle.tsc_cache.specs.Rotation.{saturating_inc, RotatesWith};
ghost use Rattle.tsc_cache.specs.Stacks.{IsDroppedTop, Drops};
ghost use Rattle.tsc_cache.specs.CacheParts.{front_of, older_of, plain_front_of, plain_older_of};

use crate::named_span::cost_of;
use crate::page_stack::{PageStack, Pages};
use crate::plain_pages::PlainPages;
use crate::{Added, Cache, Config, PlainCache};
use tsc_page::{IntervalPage, Page, PlainPage};
use tsc_span::{AddSpan, Span};
use tsc_time::{NoMemory, Timestamp, Value};

/// How often a size is doubled at the most: from the least size on that leads beyond the greatest.
const DOUBLINGS: u32 = 32;

impl Config {
    /// The size of a page for a span of this cost, behind a page of this size: the first doubling
    /// that is at least the cost. The doublings are twice that size, four times that size and on,
    /// each no more than `page_max`.
    pub(crate) fn next_size(&self, size: u32, cost: u32) -> u32
        ensures value { result ≡ next_size self.now.page_max size cost }
        ensures enough { cost ≤ self.now.page_max → cost ≤ result }
        ensures least { least_size ≤ size → least_size ≤ result }
        ensures most { result ≤ most_size }
    {
        let mut next = size;
        for times in 0..DOUBLINGS {
            next = self.doubled(next);
            if cost <= next {
                return next;
            }
        }
        self.page_max()
    }

    /// Twice a size, and no more than `page_max`.
    fn doubled(&self, size: u32) -> u32
        ensures value { result ≡ min self.now.page_max (2 * size) }
        ensures least { least_size ≤ size → least_size ≤ result }
        ensures most { result ≤ most_size }
    {
        size.saturating_mul(2).min(self.page_max())
    }

    /// Whether reads up to this time are past their retention at the moment `now`.
    fn is_past_retention(&self, top: Timestamp, now: Timestamp) -> bool
        ensures { result ≡ is_past_retention self.now.retention now top }
    {
        match now.minus(self.retention()) {
            Some(limit) => top < limit,
            None => false,
        }
    }

    /// Whether the oldest page goes, behind so many newer ones: with it there are at least
    /// `min_pages`, and its top is past the retention.
    pub(crate) fn drops_oldest(&self, newer: usize, top: Timestamp, now: Timestamp) -> bool
        ensures { result ≡ drops_oldest self.now newer top now }
    {
        newer.saturating_add(1) >= self.min_pages() as usize && self.is_past_retention(top, now)
    }
}

impl Pages {
    /// The top of the oldest page behind the front, where that page goes.
    fn dropped_top(&self, config: &Config, now: Timestamp) -> Option<Timestamp>
        ensures { IsDroppedTop config.now now (older_of self.now) result }
    {
        let top = self.older.back()?.top();
        if config.drops_oldest(self.older.len() - 1, top, now) {
            Some(top)
        } else {
            None
        }
    }

    /// Drops pages behind the front, from the oldest on, until one is met that stays. Gives the
    /// latest of `floor` and of their tops, and how many were dropped.
    fn evict(&mut self, config: &Config, floor: Timestamp, now: Timestamp) -> (Timestamp, u64)
        ensures front { front_of self.new ≡ front_of self.old }
        ensures dropped { Drops config.now floor now (older_of self.old) (older_of self.new)
            result.0 result.1 }
    {
        let before = self.older.len();
        let mut floor = floor;
        while let Some(top) = self.dropped_top(config, now) {
            self.older.pop_back();
            floor = floor.max(top);
        }
        self.older.trim();
        (floor, (before - self.older.len()) as u64)
    }
}

impl PlainPages {
    /// The top of the oldest page behind the front, where that page goes.
    fn dropped_top(&self, config: &Config, now: Timestamp) -> Option<Timestamp>
        ensures { IsDroppedTop config.now now (plain_older_of self.now) result }
    {
        let top = self.older.last()?.top();
        if config.drops_oldest(self.older.len() - 1, top, now) {
            Some(top)
        } else {
            None
        }
    }

    /// Drops pages behind the front, from the oldest on, until one is met that stays. Gives the
    /// latest of `floor` and of their tops, and how many were dropped.
    fn evict(&mut self, config: &Config, floor: Timestamp, now: Timestamp) -> (Timestamp, u64)
        ensures front { plain_front_of self.new ≡ plain_front_of self.old }
        ensures dropped { Drops config.now floor now (plain_older_of self.old)
            (plain_older_of self.new) result.0 result.1 }
    {
        let mut raised = floor;
        let mut evicted = 0;
        while let Some(top) = self.dropped_top(config, now) {
            self.older.pop();
            raised = raised.max(top);
            evicted += 1;
        }
        (raised, evicted)
    }
}

impl Cache {
    /// Brings a page with one mark to the front, and drops what is expired. All memory is asked for
    /// before the first change.
    pub(crate) fn rotate(
        &mut self,
        span: &AddSpan<'_>,
        value: Value,
        now: Timestamp,
    ) -> Result<Added, NoMemory>
        requires not_empty { is_empty_span span.now ≡ false }
        requires fits { fits self.old.config span.now ≡ true }
        ensures rotated { IfOk result
            (λ added. RotatesWith self.old self.new (record { span = span.now; value = value }) now
            added.evicted × (added ≡ kept_after_rotation added.evicted)) }
        ensures config { self.new.config ≡ self.old.config }
        ensures unchanged { OnErr result (self.new ≡ self.old) }
    {
        let former = self.pages.front();
        let size = self.config.next_size(former.size(), cost_of(span));
        let mut front = Page::new(self.pages.alloc(), size, former.top())?;
        front.add_span(span, value)?;
        self.pages.push_front(front)?;
        let (floor, evicted) = self.pages.evict(&self.config, self.floor, now);
        self.floor = floor;
        self.rotations = saturating_inc(self.rotations);
        Ok(Added::after_rotation(evicted))
    }
}

impl PlainCache {
    /// Brings a page with one mark to the front, and drops what is expired. All memory is asked for
    /// before the first change.
    pub(crate) fn rotate(
        &mut self,
        span: &Span,
        value: Value,
        now: Timestamp,
    ) -> Result<Added, NoMemory>
        requires not_empty { is_empty_span span.now ≡ false }
        requires fits { fits self.old.config span.now ≡ true }
        ensures rotated { IfOk result
            (λ added. RotatesWith self.old self.new (record { span = span.now; value = value }) now
            added.evicted × (added ≡ kept_after_rotation added.evicted)) }
        ensures config { self.new.config ≡ self.old.config }
        ensures unchanged { OnErr result (self.new ≡ self.old) }
    {
        let former = self.pages.front();
        let size = self.config.next_size(former.size(), span.cost());
        let mut front = PlainPage::new(self.pages.alloc(), size, former.top())?;
        front.add(span, value)?;
        self.pages.push_front(front)?;
        let (floor, evicted) = self.pages.evict(&self.config, self.floor, now);
        self.floor = floor;
        self.rotations = saturating_inc(self.rotations);
        Ok(Added::after_rotation(evicted))
    }
}

/// A count with one more, which stays at 2^64 - 1 once it is there.
pub(crate) fn saturating_inc(count: u64) -> u64
    ensures { result ≡ saturating_inc count }
{
    count.saturating_add(1)
}
