//! The pages of a cache, from the newest to the oldest: the Add that goes to the front page, and
//! the lookup that stops early.
ghost use Rattle.std.specs.Prelude.{◌≡◌, ◌∷◌, [], true, false, option_map, IfOk, OnErr};
ghost use Rattle.tsc_time.specs.Time.{is_before};
ghost use Rattle.tsc_span.specs.Span.{is_empty_span};
ghost use Rattle.tsc_span.specs.Cuts.{cut_of};
ghost use Rattle.tsc_page_model.specs.KeysAbove.{IsLeastAbove};
ghost use Rattle.tsc_page_model.specs.PageView.{has_room_for};
ghost use Rattle.tsc_cache.specs.CacheView.{MarksFront, LooksIntoViews};
ghost use Rattle.tsc_cache.specs.Stacks.{AreStacked, pages_answer};
ghost use Rattle.tsc_cache.specs.CacheParts.{front_of, older_of, pages_of};
ghost use Rattle.tsc_cache.specs.Keys.{keys_seen, lesser};
ghost use Rattle.tsc_cache.specs.Counts.{figures_with};

use crate::page_stack::{PageStack, Pages};
use crate::{Config, Figures};
use std::alloc::Global;
use std::mem::size_of;
use std::sync::Arc;
use tsc_chunks::ChunkedList;
use tsc_page::{IntervalPage, Page};
use tsc_page_nodes::memory::shared_memory;
use tsc_span::{AddSpan, Cut, Key, Span, SpanRef};
use tsc_time::{NoMemory, Timestamp, Value, ratchet};

impl PageStack<Page> for Pages {
    ghost newest = { front_of };

    ghost others = { older_of };

    fn alloc(&self) -> Global {
        self.older.alloc()
    }

    fn len(&self) -> usize {
        self.older.len() + 1
    }

    fn front(&self) -> &Page {
        &self.front
    }

    fn push_front(&mut self, front: Page) -> Result<(), NoMemory> {
        let front = Arc::new(self.alloc(), front)?;
        self.older.push_front(Arc::try_clone(&self.front)?)?;
        self.front = front;
        Ok(())
    }
}

impl Pages {
    /// One page.
    pub(crate) fn new(alloc: Global, front: Page) -> Result<Pages, NoMemory>
        ensures { IfOk result (λ pages. pages_of pages ≡ front ∷ []) }
    {
        Ok(Pages {
            front: Arc::new(alloc, front)?,
            older: ChunkedList::new(alloc)?,
        })
    }

    /// A copy of the list, which shares the pages.
    pub(crate) fn share(&self) -> Result<Pages, NoMemory>
        ensures { IfOk result (λ same. pages_of same ≡ pages_of self.now) }
    {
        Ok(Pages {
            front: Arc::try_clone(&self.front)?,
            older: self.older.share()?,
        })
    }

    /// Whether the front page has room for a span.
    pub(crate) fn has_room(&self, span: &Span) -> bool
        ensures { result ≡ has_room_for (front_of self.now) span.now }
    {
        self.front.room(span)
    }

    /// Adds a span with its value to the front page, or to a copy of it where others hold it too,
    /// and says whether that page has room. Without room nothing changes.
    ///
    /// A key that the page holds is not copied.
    pub(crate) fn mark_span(&mut self, span: &AddSpan<'_>, value: Value) -> Result<bool, NoMemory>
        requires not_empty { is_empty_span span.now ≡ false }
        ensures room { IfOk result (λ done. done ≡ has_room_for (front_of self.old) span.now) }
        ensures marked { IfOk result
            (λ done. done ≡ true →
            MarksFront (pages_of self.old) (pages_of self.new)
            (record { span = span.now; value = value })) }
        ensures full { IfOk result (λ done. done ≡ false → pages_of self.new ≡ pages_of self.old) }
        ensures unchanged { OnErr result (pages_of self.new ≡ pages_of self.old) }
    {
        match Arc::get_mut(&mut self.front) {
            Some(front) => front.add_span(span, value),
            None => {
                let Some(front) = self.front.added_span(span, value)? else {
                    return Ok(false)
                };
                self.front = Arc::new(self.alloc(), front)?;
                Ok(true)
            }
        }
    }

    /// What all pages answer to a span together, above time zero, and how many were looked into.
    pub(crate) fn lookup(&self, span: &SpanRef<'_>) -> (Value, u64)
        requires stacked { AreStacked (pages_of self.now) }
        ensures value { result.0 ≡ pages_answer (pages_of self.now) span.now }
        ensures looked { LooksIntoViews span.now (pages_of self.now) result.1 }
    {
        let mut best = self.front.lookup_ref(span);
        let mut looked = 1;
        for at in 0..self.older.len() {
            let page = self.older.get(at);
            if is_passed(page, best) {
                return (best, looked);
            }
            best = ratchet(best, page.lookup_ref(span)).0;
            looked += 1;
        }
        (best, looked)
    }

    /// The least end key on all pages that lies above a cut.
    pub(crate) fn key_above(&self, cut: Cut<'_>) -> Option<&Key>
        ensures { IsLeastAbove (cut_of cut.entry) (keys_seen (pages_of self.now))
            (option_map (λ k. k.now) result) }
    {
        let mut least = self.front.key_above(cut);
        for at in 0..self.older.len() {
            let page = self.older.get(at);
            least = lesser(least, page.key_above(cut));
        }
        least
    }

    /// What can be counted of all pages, with a floor and a number of rotations.
    pub(crate) fn figures(&self, floor: Timestamp, rotations: u64) -> Figures
        ensures { result ≡ figures_with floor rotations (pages_of self.now) }
    {
        let mut figures = Figures::of_pages(self.len() as u64, floor, rotations).with(&self.front);
        for at in 0..self.older.len() {
            let page = self.older.get(at);
            figures = figures.with(page);
        }
        figures
    }

    /// How many bytes the blocks of memory have that hold all pages.
    pub(crate) fn memory(&self) -> u64 {
        page_memory(&self.front).saturating_add(self.older.memory(&page_memory))
    }
}

/// How many bytes the block of memory has that holds a page, and all blocks below it. It costs a
/// step for each leaf. No clause can say what memory is taken.
fn page_memory(page: &Page) -> u64 {
    shared_memory(size_of::<Page>()).saturating_add(page.memory())
}

/// Whether all that stands on a page is earlier than a value that was met.
fn is_passed(page: &Page, best: Value) -> bool
    ensures { result ≡ is_before page.now.top best.time }
{
    page.top() < best.time()
}

/// The lesser of two keys, or the only key where one is missing.
fn lesser<'a>(first: Option<&'a Key>, second: Option<&'a Key>) -> Option<&'a Key>
    ensures { option_map (λ k. k.now) result ≡ lesser (option_map (λ k. k.now) first.entry)
        (option_map (λ k. k.now) second.entry) }
{
    match (first, second) {
        (Some(key), Some(other)) => { if other < key { Some(other) } else { Some(key) } }
        (Some(key), None) | (None, Some(key)) => Some(key),
        (None, None) => None,
    }
}
