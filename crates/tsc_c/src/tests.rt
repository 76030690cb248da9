//! Each export once, with ample memory: this finds one that is refused memory without need, which
//! no contract rules out. What it tells is proved. `scripts/build` makes the library without proofs
//! of these tests, and `scripts/test library` makes thousands of such calls from C.
use crate::cache_calls::{
    tsc_add, tsc_add_all, tsc_close, tsc_figures_of, tsc_free, tsc_get_max, tsc_low_water, tsc_open,
};
use crate::seat_calls::{
    tsc_close_shared, tsc_move, tsc_open_shared, tsc_open_striped, tsc_seat_add, tsc_seat_add_all,
    tsc_seat_close, tsc_seat_figures_of, tsc_seat_get_max, tsc_seat_low_water,
};
use crate::store_ptr::StorePtr;
use crate::summary_calls::{tsc_apply, tsc_seat_summary, tsc_summary};
use crate::text_calls::{tsc_check, tsc_replay};
use crate::version::tsc_version;
use crate::write_calls::{
    tsc_earliest_write, tsc_may_write, tsc_seat_earliest_write, tsc_seat_may_write,
};
use std::alloc::Global;
use tsc_ffi_store::{TscAdded, TscFigures, TscMark, TscSpan, TscTime, TscValue};

const LOW: TscTime = TscTime {
    wall: 5,
    logical: 0,
};

const READ: TscValue = TscValue {
    wall: 20,
    logical: 1,
    owner: [0x11; 16],
};

const ADDED: TscAdded = TscAdded {
    evicted: 9,
    kept: false,
    rotated: true,
};

const FIGURES: TscFigures = TscFigures {
    pages: 9,
    rotations: 9,
    nodes: 9,
    bytes: 9,
    memory: 9,
    adds: 9,
    refusals: 9,
    lookups: 9,
    evicted: 9,
};

/// The key `d` of the bytes `xd`, with a value and alone.
const MARKS: [TscMark; 1] = [TscMark {
    from_at: 1,
    from_len: 1,
    to_at: 0,
    to_len: 0,
    value: READ,
    ends: 8,
}];

const SPANS: [TscSpan; 1] = [TscSpan {
    from_at: 1,
    from_len: 1,
    to_at: 0,
    to_len: 0,
    ends: 8,
}];

const TRACE: &[u8] =
    b"{\"page_first\":132,\"page_max\":132,\"min_pages\":2,\"retention\":10,\"low_water\":[5,0],\"threads\":[[{\"op\":\"get\",\"span\":{\"start\":\"61\"}}]]}";

/// The codes of the calls that open a cache, add to it and look up.
fn at_a_cache(alloc: Global, store: &mut StorePtr) -> [u32; 6] {
    let (mut handle, mut added, mut found) = (9, ADDED, READ);
    let (mut floor, mut figures) = (LOW, FIGURES);
    [
        tsc_open(alloc, store, 132, 1024, 2, 10, &LOW, &mut handle),
        tsc_add(store, 0, b"a", b"c", 2, &READ, &LOW, &mut added),
        tsc_add_all(store, 0, b"xd", &MARKS, &LOW, &mut added),
        tsc_get_max(store, 0, b"b", b"", 8, &mut found),
        tsc_low_water(store, 0, &mut floor),
        tsc_figures_of(store, 0, &mut figures),
    ]
}

/// The codes of the calls about writes, of those of a summary, and of the cache's end.
fn leases_of_a_cache(store: &mut StorePtr) -> [u32; 5] {
    let (mut time, mut clear, mut added) = (LOW, true, ADDED);
    let (mut out, mut len) = ([0; 300], 0);
    let earliest = tsc_earliest_write(store, 0, b"xd", &SPANS, &READ, &mut time);
    let may = tsc_may_write(store, 0, b"xd", &SPANS, &READ, &mut clear);
    let reported = tsc_summary(store, 0, b"a", b"c", 2, 9, &mut out, &mut len);
    let summary = out.get(..len).unwrap_or(&[]);
    let applied = tsc_apply(store, 0, summary, &LOW, &mut added);
    [earliest, may, reported, applied, tsc_close(store, 0)]
}

/// The codes of the calls at the seat of handle 1, the last of which ends it.
fn at_a_seat(store: &mut StorePtr) -> [u32; 6] {
    let (mut at, mut seen, mut added) = (9, 9, ADDED);
    let (mut found, mut floor, mut figures) = (READ, LOW, FIGURES);
    [
        tsc_seat_add(store, 1, b"a", b"c", 2, &READ, &LOW, 9, &mut at, &mut added),
        tsc_seat_add_all(store, 1, b"xd", &MARKS, &LOW, 9, &mut at, &mut added),
        tsc_seat_get_max(store, 1, b"b", b"", 8, &mut seen, &mut found),
        tsc_seat_low_water(store, 1, &mut seen, &mut floor),
        tsc_seat_figures_of(store, 1, &mut seen, &mut figures),
        tsc_seat_close(store, 1),
    ]
}

/// The codes of the calls about writes and of a summary at the seat of handle 1.
fn leases_of_a_seat(store: &mut StorePtr) -> [u32; 3] {
    let (mut seen, mut time, mut clear) = (9, LOW, true);
    let (mut out, mut len) = ([0; 300], 0);
    [
        tsc_seat_earliest_write(store, 1, b"xd", &SPANS, &READ, &mut seen, &mut time),
        tsc_seat_may_write(store, 1, b"xd", &SPANS, &READ, &mut seen, &mut clear),
        tsc_seat_summary(store, 1, b"a", b"c", 2, 9, &mut seen, &mut out, &mut len),
    ]
}

/// The codes of the calls that move the seat of handle 2 to another store, and end it there and
/// then its cache.
fn ends(alloc: Global, store: &mut StorePtr, other: &mut StorePtr) -> [u32; 3] {
    let (mut there, mut length) = (9, 9);
    [
        tsc_move(alloc, store, 2, other, &mut there),
        tsc_seat_close(other, 0),
        tsc_close_shared(store, 0, &mut length),
    ]
}

#[test]
fn each_call_of_a_cache_answers(rt: HostRuntime) {
    let mut store = StorePtr::empty();
    assert_eq!(rt; at_a_cache(rt.alloc(), &mut store), [0; 6]);
    assert_eq!(rt; leases_of_a_cache(&mut store), [0; 5]);
    tsc_free(rt.alloc(), &mut store);
}

#[test]
fn each_call_of_a_shared_cache_answers(rt: HostRuntime) {
    let (alloc, mut handle) = (rt.alloc(), 9);
    for is_striped in [false, true] {
        let (mut store, mut other) = (StorePtr::empty(), StorePtr::empty());
        let opened = if is_striped {
            tsc_open_striped(
                alloc,
                &mut store,
                132,
                8256,
                2,
                10,
                &LOW,
                b"bd",
                &[1, 1],
                2,
                &mut handle,
            )
        } else {
            tsc_open_shared(alloc, &mut store, 132, 1024, 2, 10, &LOW, 2, 9, &mut handle)
        };
        assert_eq!(rt; opened, 0);
        assert_eq!(rt; leases_of_a_seat(&mut store), [0; 3]);
        assert_eq!(rt; at_a_seat(&mut store), [0; 6]);
        assert_eq!(rt; ends(alloc, &mut store, &mut other), [0; 3]);
        tsc_free(alloc, &mut store);
        tsc_free(alloc, &mut other);
    }
}

#[test]
fn each_call_of_texts_answers(rt: HostRuntime) {
    let (mut out, mut len) = ([0; 300], 0);
    assert_eq!(rt; tsc_replay(rt.alloc(), TRACE, &mut out, &mut len), 0);
    let log = out;
    let log = log.get(..len).unwrap_or(&[]);
    assert_eq!(rt; tsc_check(rt.alloc(), TRACE, log, &mut out, &mut len), 0);
    assert_eq!(rt; tsc_version(), 1000);
}
