//! What is measured on caches of several pages.
use crate::figure::{Figure, Least, ROUNDS};
use crate::keys::{At, Keys};
use crate::subject::{Subject, value_at};
use crate::turns::{AddLast, Board, Call, Course, LATE, Plan, time_calls};
use std::alloc::Global;
use tsc_cache::{Cache, Config, TimestampCache};
use tsc_time::Timestamp;

/// The operations on a cache, in the order of their rows.
pub static CACHE_OPERATIONS: [&str; 8] = [
    "lookup of a key in all pages",
    "lookup of 16 nodes in all pages",
    "add of a key",
    "add of 16 nodes",
    "next with a key",
    "lookup of a key later than all older pages",
    "lookup of 16 nodes later than all older pages",
    "add of a new key, with rotations",
];

/// How many pages the caches have that are measured.
pub static PAGES: [u32; 3] = [1, 4, 17];

/// How many pages are filled while the oldest ones are dropped.
const ROTATIONS: u32 = 2;

/// Lookups in pages that have one time, and Adds in place.
static LEVEL: Course = Course {
    steps: &[
        (0, Call::Lookup, At::Keys),
        (1, Call::Lookup, At::Ranges),
        (2, Call::Add, At::Keys),
        (3, Call::Add, At::Ranges),
    ],
    at_once: true,
    ..Course::RISING
};

/// Adds by the next version.
static NEXT: Course = Course {
    steps: &[(4, Call::Next, At::Some)],
    first: LATE,
    step: 0,
    ..Course::RISING
};

/// Lookups in pages of which the newer ones have later times.
static RISING: Course = Course {
    steps: &[(5, Call::Lookup, At::Keys), (6, Call::Lookup, At::Ranges)],
    at_once: true,
    ..Course::RISING
};

/// A cache of `pages` full pages, each with keys of its own. Where `is_rising`, all on a newer page
/// has a later time; else all pages have one time.
pub fn filled(alloc: Global, keys: Keys, pages: u32, is_rising: bool) -> Option<Cache> {
    let size = keys.page_size();
    let config = Config::new(size, size, pages, 0, Timestamp::ZERO).ok()?;
    let mut cache = Cache::new(alloc, config).ok()?;
    let mut is_full = true;
    for page in 0..pages {
        let wall = if is_rising { u64::from(page) + 1 } else { 1 };
        is_full = is_full && fill_front(alloc, &mut cache, Keys { page, ..keys }, wall);
    }
    (is_full && cache.pages() == pages as usize).then_some(cache)
}

/// Adds the keys of a page from the least on, which moves no node, at a wall time. Nothing is
/// dropped. Tells whether that was done.
fn fill_front(alloc: Global, cache: &mut Cache, keys: Keys, wall: u64) -> bool {
    let value = value_at(wall);
    let mut is_full = true;
    for place in 0..u64::from(keys.nodes) {
        is_full = is_full
            && match keys.span(alloc, place, 0) {
                Some(span) => cache.make_add(&span, value, Timestamp::ZERO),
                None => false,
            };
    }
    is_full
}

/// Measures caches of `pages` pages in [`ROUNDS`] rounds.
pub fn measure_cache(rt: &HostRuntime, nodes: u32, pages: u32, turns: u32) -> Option<Least> {
    let front = Keys::new(nodes, pages.saturating_sub(1));
    let mut board = Board::new(front.places(rt.alloc())?);
    let mut is_done = true;
    for _ in 0..ROUNDS {
        is_done = is_done
            && measure_round(rt, front, false, turns, &mut board)
            && measure_round(rt, front, true, turns, &mut board);
    }
    board.end(is_done)
}

/// Makes a cache whose last page is `front`, and measures it. Tells whether it has as many pages as
/// before then.
fn measure_round(
    rt: &HostRuntime,
    front: Keys,
    is_rising: bool,
    turns: u32,
    board: &mut Board,
) -> bool {
    let pages = front.page.saturating_add(1);
    let Some(mut cache) = filled(rt.alloc(), front, pages, is_rising) else {
        return false;
    };
    if is_rising {
        board.go(rt, &RISING, turns, &mut cache);
        board.keep(7, rotate(rt, &mut cache, front));
    } else {
        board.go(rt, &LEVEL, turns, &mut cache);
        board.go(rt, &NEXT, 1, &mut cache);
    }
    cache.pages() == pages as usize
}

/// Fills [`ROTATIONS`] more pages, and each time the oldest one is dropped, since all of it is past
/// its retention.
fn rotate(rt: &HostRuntime, cache: &mut Cache, front: Keys) -> Option<Figure> {
    let mut all = Figure::NONE;
    for i in 1..=ROTATIONS {
        let page = front.page.saturating_add(i);
        let keys = Keys { page, ..front }.spans(rt.alloc(), front.nodes, 0)?;
        let plan = Plan {
            times: 1,
            first: u64::from(page) + 1,
            step: 0,
        };
        all = all.and(time_calls::<Cache, AddLast>(rt, plan, cache, &keys)?);
    }
    Some(all)
}
