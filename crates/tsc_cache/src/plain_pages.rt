//! The pages of a plain cache: two lists, of which an Add changes the front page alone.
ghost use Rattle.std.specs.Prelude.{◌≡◌, ◌∷◌, [], true, false, IfOk, OnOk, OnErr};
ghost use Rattle.tsc_span.specs.Span.{is_empty_span};
ghost use Rattle.tsc_page_model.specs.PageView.{has_room_for};
ghost use Rattle.tsc_cache.specs.CacheView.{MarksFront};
ghost use Rattle.tsc_cache.specs.Stacks.{pages_answer};
ghost use Rattle.tsc_cache.specs.CacheParts.{plain_front_of, plain_older_of, plain_pages_of};

use crate::page_stack::PageStack;
use std::alloc::Global;
use std::mem;
use tsc_page::{IntervalPage, PlainPage};
use tsc_span::Span;
use tsc_time::{NoMemory, Timestamp, Value, ratchet};

/// The pages of a plain cache.
#[derive(Debug, Drop)]
pub(crate) struct PlainPages {
    pub(crate) front: PlainPage,
    /// From the newest to the oldest.
    pub(crate) older: Vec<PlainPage>,
}

impl PageStack<PlainPage> for PlainPages {
    ghost newest = { plain_front_of };

    ghost others = { plain_older_of };

    fn alloc(&self) -> Global {
        *self.older.allocator()
    }

    fn len(&self) -> usize {
        self.older.len() + 1
    }

    fn front(&self) -> &PlainPage {
        &self.front
    }

    fn push_front(&mut self, front: PlainPage) -> Result<(), NoMemory> {
        self.older.reserve(1)?;
        let former = mem::replace(&mut self.front, front);
        self.older.insert(0, former).ok();
        Ok(())
    }
}

impl PlainPages {
    /// One page.
    pub(crate) fn new(alloc: Global, front: PlainPage) -> PlainPages
        ensures { plain_pages_of result ≡ front ∷ [] }
    {
        PlainPages {
            front,
            older: Vec::new(alloc),
        }
    }

    /// A copy of the pages.
    pub(crate) fn try_copy(&self) -> Result<PlainPages, NoMemory>
        ensures { IfOk result (λ copy. plain_pages_of copy ≡ plain_pages_of self.now) }
    {
        let mut older = Vec::with_capacity(self.alloc(), self.older.len())?;
        for page in &self.older {
            older.push(page.try_copy()?)?;
        }
        Ok(PlainPages {
            front: self.front.try_copy()?,
            older,
        })
    }

    /// Adds a span with its value to the front page.
    pub(crate) fn mark_front(&mut self, span: &Span, value: Value) -> Result<(), NoMemory>
        requires not_empty { is_empty_span span.now ≡ false }
        requires room { has_room_for (plain_front_of self.old) span.now ≡ true }
        ensures marked { OnOk result
            (MarksFront (plain_pages_of self.old) (plain_pages_of self.new)
            (record { span = span.now; value = value })) }
        ensures unchanged { OnErr result (plain_pages_of self.new ≡ plain_pages_of self.old) }
    {
        self.front.add(span, value)
    }

    /// What all pages answer to a span together, above time zero.
    pub(crate) fn lookup(&self, span: &Span) -> Value
        ensures { result ≡ pages_answer (plain_pages_of self.now) span.now }
    {
        let mut best = self.front.lookup(span);
        for page in &self.older {
            best = ratchet(best, page.lookup(span)).0;
        }
        best
    }
}
