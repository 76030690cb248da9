//! What is measured on a page.
use crate::figure::{Least, ROUNDS};
use crate::keys::{At, Keys};
use crate::turns::{Board, Call, Course, LATE};
use tsc_page::{IntervalPage, Page};
use tsc_time::Timestamp;

/// The operations on a page, in the order of their rows.
pub static PAGE_OPERATIONS: [&str; 12] = [
    "add of a new key",
    "lookup of a key",
    "lookup of 16 nodes",
    "lookup of 1,000 nodes",
    "lookup of the whole page",
    "add of a key",
    "add of 16 nodes",
    "add of 1,000 nodes",
    "add of the whole page",
    "next with a key",
    "next with a new key",
    "lookup of a key by its bytes",
];

/// Adds of all keys, and then late ones to copies of the page, which share all else with it, and
/// are then dropped.
static FILL: Course = Course {
    steps: &[
        (0, Call::Add, At::All),
        (10, Call::Next, At::Between),
        (9, Call::Next, At::Some),
    ],
    apart: LATE,
    ..Course::RISING
};

/// Lookups and Adds. Each Add is later than all that is there.
static TURN: Course = Course {
    steps: &[
        (1, Call::Lookup, At::Keys),
        (2, Call::Lookup, At::Ranges),
        (3, Call::Lookup, At::Wide),
        (4, Call::Lookup, At::Whole),
        (5, Call::Add, At::Keys),
        (6, Call::Add, At::Ranges),
        (7, Call::Add, At::Wide),
        (8, Call::Add, At::Whole),
    ],
    first: LATE,
    apart: 1024,
    lift: 8192,
    ..Course::RISING
};

/// Lookups of the keys by their bytes, in turns of their own, in which nothing else is done.
static BY_BYTES: Course = Course {
    steps: &[(11, Call::LookupByBytes, At::Keys)],
    ..Course::RISING
};

/// Measures pages of keys with `prefix` bytes before the 8 that differ, in [`ROUNDS`] rounds.
pub fn measure_page(rt: &HostRuntime, nodes: u32, prefix: u32, turns: u32) -> Option<Least> {
    let here = Keys {
        prefix,
        ..Keys::new(nodes, 0)
    };
    let mut board = Board::new(here.places(rt.alloc())?);
    let mut is_done = true;
    for _ in 0..ROUNDS {
        is_done = is_done && measure_round(rt, here, turns, &mut board);
    }
    board.end(is_done)
}

/// Makes a page with room for one more key than it gets, and fills it with nodes. Then makes each
/// operation at its places in each of `turns` turns. Tells whether the page has all of the nodes.
fn measure_round(rt: &HostRuntime, here: Keys, turns: u32, board: &mut Board) -> bool {
    let nodes = here.nodes.saturating_add(1);
    let size = Keys { nodes, ..here }.page_size();
    let Ok(mut page) = Page::new(rt.alloc(), size, Timestamp::ZERO) else {
        return false;
    };
    board.go(rt, &FILL, 1, &mut page);
    board.go(rt, &TURN, turns, &mut page);
    board.go(rt, &BY_BYTES, turns, &mut page);
    page.nodes() == here.nodes
}
