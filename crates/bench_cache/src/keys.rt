//! The keys of a page, and its places.
ghost use Rattle.std.specs.Prelude.{◌≤◌};

use std::alloc::Global;
use tsc_page::{LEAST_SIZE, MOST_SIZE};
use tsc_span::{Key, Span};

/// At how many places of a page each operation is made.
pub const PLACES: u32 = 1024;

/// At how many places an Add is made to a copy.
const COPIES: u32 = 16;

/// How many nodes a range has.
pub const WIDTH: u32 = 16;

/// How many nodes a wide range has, or half of the page where it has fewer.
const WIDE: u32 = 1000;

/// At how many places an operation over a wide range is made, and how often one over the whole
/// page.
const WIDE_PLACES: u32 = 16;

/// How far apart the keys of two places are, so that each page of a cache has keys of its own.
pub const APART: u64 = 64;

/// Multiplied by this, numbers go about all places of a page, far from one to the next: a prime
/// above the number of places.
pub const STRIDE: u64 = 1_696_631;

/// Which places of a page, in the order of [`Keys::places`].
#[derive(Clone, Copy)]
pub enum At {
    /// [`PLACES`] keys.
    Keys,
    /// One range of [`WIDTH`] nodes for each call.
    Ranges,
    /// A few wide ranges.
    Wide,
    /// The whole page for each call.
    Whole,
    /// The keys that are added to copies.
    Some,
    /// Keys that lie between those of the page.
    Between,
    /// All keys, each once.
    All,
}

/// The keys of a page. Those of the first 64 pages of a cache are different ones.
#[derive(Clone, Copy)]
pub struct Keys {
    /// How many nodes the page has.
    pub nodes: u32,
    /// Which page of a cache it is.
    pub page: u32,
    /// How many bytes each key has before the 8 that differ, 32 at the most.
    pub prefix: u32,
}

impl Keys {
    /// Keys of 8 bytes, in lists that go all over the page.
    pub fn new(nodes: u32, page: u32) -> Keys {
        Keys {
            nodes,
            page,
            prefix: 0,
        }
    }

    /// The key of a place among the nodes.
    fn key(self, alloc: Global, place: u64) -> Option<Key> {
        let number = place.wrapping_mul(APART).wrapping_add(u64::from(self.page));
        let [a, b, c, d, e, f, g, h] = number.to_be_bytes();
        let bytes = [
            7, 7, 7, 7, 7, 7, 7, 7, 7, 7, 7, 7, 7, 7, 7, 7, 7, 7, 7, 7, 7, 7, 7, 7, 7, 7, 7, 7, 7,
            7, 7, 7, a, b, c, d, e, f, g, h,
        ];
        let from = 32_u32.saturating_sub(self.prefix) as usize;
        Key::new(alloc, &bytes[from..]).ok()
    }

    /// The span of a key, or of `width` nodes from it on.
    pub fn span(self, alloc: Global, from: u64, width: u32) -> Option<Span> {
        let first = self.key(alloc, from)?;
        if width == 0 {
            return Some(Span::point(first));
        }
        let next = self.key(alloc, from.saturating_add(u64::from(width)))?;
        Span::of(first, next).ok()
    }

    /// Keys that part the page into so many equal parts: one less than there are parts.
    pub fn bounds(self, alloc: Global, parts: u32) -> Option<Vec<Key>> {
        let mut bounds = Vec::new(alloc);
        for i in 1..u64::from(parts) {
            let place = i.saturating_mul(u64::from(self.nodes)) / u64::from(parts).max(1);
            bounds.push(self.key(alloc, place)?).ok()?;
        }
        Some(bounds)
    }

    /// The size of a page that has room for `nodes` of these keys and no more.
    pub fn page_size(self) -> u32
        ensures at_least { 64 ≤ result }
        ensures at_most { result ≤ 1073741824 }
    {
        // a key costs 32 bytes beside its own
        self.prefix
            .saturating_add(40)
            .saturating_mul(self.nodes)
            .max(LEAST_SIZE)
            .min(MOST_SIZE)
    }

    /// `count` spans, each a single key or a range of `width` nodes.
    pub fn spans(self, alloc: Global, count: u32, width: u32) -> Option<Vec<Span>> {
        let starts = u64::from(self.nodes.saturating_sub(width)).max(1);
        let mut spans = Vec::with_capacity(alloc, count as usize).ok()?;
        for i in 0..u64::from(count) {
            let from = i.wrapping_mul(STRIDE) % starts;
            spans.push(self.span(alloc, from, width)?).ok()?;
        }
        Some(spans)
    }

    /// The places of the page, by [`At`].
    pub fn places(self, alloc: Global) -> Option<Vec<Vec<Span>>> {
        let page = self.page.saturating_add(1);
        let lists = [
            (self, PLACES, 0),
            (self, PLACES, WIDTH),
            (self, WIDE_PLACES, WIDE.min(self.nodes / 2)),
            (self, WIDE_PLACES, self.nodes.saturating_sub(1)),
            (self, COPIES, 0),
            (Keys { page, ..self }, COPIES, 0),
            (self, self.nodes, 0),
        ];
        let mut places = Vec::with_capacity(alloc, lists.len()).ok()?;
        for (keys, count, width) in lists {
            places.push(keys.spans(alloc, count, width)?).ok()?;
        }
        Some(places)
    }
}
