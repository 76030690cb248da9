//! How many growths a call asks for, and their bytes: `scripts/refuse growth` counts both. A
//! call is made again where it is refused memory: as many runs pass as it asks for growths. By
//! `next` one of them is that of the list in which the player keeps the version before.
//!
//! This finds an Add that copies what it need not: a key that the page holds, a leaf or a list of
//! leaves that no version shares, or a page beside the one that changes.
use std::test::Fail;
use test_support::play_by;

const MANY_PAGES: &str = "open 2376 2376 64 1000 5.0 0 = done
fill 0 1122 1 20.0 - = done
add [#1100] 30.0 - 20.0 = 1 0 0
get [#1100] = 30.0 -
figures = 17 16 1122 40392";

const BATCH: &str = "open 2376 2376 64 1000 5.0 0 = done
fill 0 66 1 20.0 - = done
batch 20.0 [#5] 30.0 - [#40] 30.0 - [#40] 30.0 - [#6] 30.0 - = 1 0 0
get [#5,#40] = 30.0 -";

/// One key, a range over many leaves, and one over all, by each call that works in place.
const KNOWN: &str = "open 1048576 1048576 64 1000 5.0 0 = done
fill 0 5120 1 20.0 - = done
add [#513] 30.0 A 30.0 = 1 0 0
add [#257,#2049) 31.0 A 30.0 = 1 0 0
add [#0,#5119] 32.0 A 30.0 = 1 0 0
add [#513] 5.0 A 20.0 = 0 0 0
by key = done
add [#513] 33.0 A 30.0 = 1 0 0
by between = done
add [#514] 34.0 A 30.0 = 1 0 0
add [#257,#2049) 35.0 A 30.0 = 1 0 0
get [#513] = 35.0 A
figures = 1 0 5120 184320";

/// Keys and a range of one leaf, by each call that works in place, and at last by the next version.
const NEW: &str = "open 1048576 1048576 64 1000 5.0 0 = done
fill 0 5120 2 20.0 - = done
add [#513] 30.0 A 20.0 = 1 0 0
add [#1025,#1027) 30.0 A 20.0 = 1 0 0
by key = done
add [#1537] 30.0 A 20.0 = 1 0 0
by between = done
add [#2049] 30.0 A 20.0 = 1 0 0
add [#2561,#2563) 30.0 A 20.0 = 1 0 0
by next = done
add [#3073] 30.0 A 20.0 = 1 0 0
get [#513] = 30.0 A";

/// On full pages: in one leaf or over several, from a leaf's last key to the first one behind it,
/// and up to where a leaf begins.
const KNOWN_OF_FEW: &str = "open 4680 4680 64 1000 5.0 0 = done
fill 0 130 1 20.0 - = done
add [#49] 60.0 A 60.0 = 1 0 0
add [#32,#63) 61.0 A 60.0 = 1 0 0
add [#96..] 62.0 A 60.0 = 1 0 0
add [#31,#32] 63.0 A 60.0 = 1 0 0
add [#0,#129] 64.0 A 60.0 = 1 0 0
add [#32,#64) 66.0 A 60.0 = 1 0 0
add [#49,#64) 67.0 A 60.0 = 1 0 0
add [#31,#64) 68.0 A 60.0 = 1 0 0
add [#0,#96) 69.0 A 60.0 = 1 0 0
get [#0..] = 69.0 A
figures = 1 0 130 4680
open 2304 2304 64 1000 5.0 0 = done
fill 1 64 2 20.0 - = done
fill 0 64 2 20.0 - = done
add [#31] 60.0 A 60.0 = 1 0 0
add [#0,#63) 61.0 A 60.0 = 1 0 0
add [#0,#63] 62.0 A 60.0 = 1 0 0
add [#32..] 63.0 A 60.0 = 1 0 0
figures = 1 0 64 2304";

/// The leaves have 32 keys, and the lists of leaves 1,024.
const KNOWN_OF_LISTS: &str = "open 74916 74916 64 1000 5.0 0 = done
fill 0 2081 1 20.0 - = done
add [#40,#40] 30.0 A 30.0 = 1 0 0
add [#32,#64) 31.0 A 30.0 = 1 0 0
add [#31,#64) 32.0 A 30.0 = 1 0 0
add [#0,#1024) 33.0 A 30.0 = 1 0 0
add [#1000,#1056) 34.0 A 30.0 = 1 0 0
add [#1023,#1024] 35.0 A 30.0 = 1 0 0
add [#0,#2080] 36.0 A 30.0 = 1 0 0
figures = 1 0 2081 74916";

/// The lists of leaves are in lists of 32,768 keys.
const KNOWN_OF_MANY: &str = "open 2397348 2397348 64 1000 5.0 0 = done
fill 0 66593 1 20.0 - = done
add [#40,#40] 30.0 A 30.0 = 1 0 0
add [#31,#64) 31.0 A 30.0 = 1 0 0
add [#1000,#2048) 32.0 A 30.0 = 1 0 0
add [#1000,#2080] 33.0 A 30.0 = 1 0 0
add [#0,#32768) 34.0 A 30.0 = 1 0 0
add [#32000,#32800) 35.0 A 30.0 = 1 0 0
add [#32767,#32768] 36.0 A 30.0 = 1 0 0
add [#0,#66592] 37.0 A 30.0 = 1 0 0
figures = 1 0 66593 2397348";

/// Ends in two leaves, with many between them.
const NEW_ENDS: &str = "open 1048576 1048576 64 1000 5.0 0 = done
fill 0 20000 4 20.0 - = done
add [#1001,#15003) 30.0 A 20.0 = 1 0 0
get [#1001,#15003) = 30.0 A";

/// After these a leaf has 64 nodes, or the page no room.
const NEW_OF_FEW: &str = "open 1048576 1048576 64 1000 5.0 0 = done
fill 4 256 4 20.0 - = done
add [#130] 99.0 A 99.0 = 1 0 0
open 1048576 1048576 64 1000 5.0 0 = done
fill 4 252 4 20.0 - = done
add [#2,#130] 99.0 A 99.0 = 1 0 0
open 1476 1476 64 1000 5.0 0 = done
fill 4 164 4 20.0 - = done
add [#130] 99.0 A 99.0 = 1 0 0
open 1512 1512 64 1000 5.0 0 = done
fill 4 164 4 20.0 - = done
add [#2,#130) 99.0 A 99.0 = 1 0 0
open 1476 1476 64 1000 5.0 0 = done
fill 4 164 4 20.0 - = done
add [#4,#130) 99.0 A 99.0 = 1 0 0
get [#4,#130) = 99.0 A";

const BATCH_ON_1000_PAGES: &str = "open 64 64 64 1000 5.0 0 = done
fill 0 1000 1 20.0 - = done
figures = 1000 999 1000 36000
batch 20.0 [#999] 30.0 - [#999] 30.0 - = 1 0 0
get [#999] = 30.0 -";

/// A summary is told, and applied to another cache.
const HANDED_ON: &str = "open 1000 1000 2 10 5.0 0 = done
add [b] 20.0 A 20.0 = 1 0 0
add [d,f) 22.0 B 20.0 = 1 0 0
summary s [a,z) 1000 = 197
open 1000 1000 2 10 3.0 0 = done
apply s 30.0 = 1 0 0
get [b] = 20.0 A
get [d,f) = 22.0 B";

/// A version of a page of few leaves shares them all. The range changes some of them, and then each
/// is the cache's own.
const SHARED_LEAVES: &str = "open 1048576 1048576 64 1000 5.0 0 = done
fill 0 130 1 20.0 - = done
share = done
add [#10,#120) 30.0 A 30.0 = 1 0 0
add [#10,#120) 31.0 A 30.0 = 1 0 0
get [#10] = 31.0 A";

/// A version shares a large page: the way to one leaf is copied. Once the version is let go,
/// nothing is.
const SHARED_PAGE: &str = "open 1048576 1048576 64 1000 5.0 0 = done
fill 0 5120 1 20.0 - = done
share = done
add [#513] 30.0 A 30.0 = 1 0 0
add [#514] 31.0 A 30.0 = 1 0 0
drop = done
add [#1025] 31.0 A 30.0 = 1 0 0
add [#4097] 31.0 A 30.0 = 1 0 0
get [#513] = 30.0 A";

#[test]
fn next_on_17_pages(rt: HostRuntime) -> Result<(), Fail> {
    play_by(rt.alloc(), "by next = done", MANY_PAGES)
}

#[test]
fn next_all_of_two_leaves(rt: HostRuntime) -> Result<(), Fail> {
    play_by(rt.alloc(), "by next = done", BATCH)
}

#[test]
fn an_add_in_place_on_17_pages(rt: HostRuntime) -> Result<(), Fail> {
    play_by(rt.alloc(), "", MANY_PAGES)
}

#[test]
fn known_keys_of_a_large_page(rt: HostRuntime) -> Result<(), Fail> {
    play_by(rt.alloc(), "", KNOWN)
}

#[test]
fn known_keys_of_few_leaves(rt: HostRuntime) -> Result<(), Fail> {
    play_by(rt.alloc(), "", KNOWN_OF_FEW)
}

#[test]
fn known_keys_of_lists_of_leaves(rt: HostRuntime) -> Result<(), Fail> {
    play_by(rt.alloc(), "", KNOWN_OF_LISTS)
}

#[test]
fn known_keys_of_many_lists(rt: HostRuntime) -> Result<(), Fail> {
    play_by(rt.alloc(), "", KNOWN_OF_MANY)
}

#[test]
fn new_keys_of_a_large_page(rt: HostRuntime) -> Result<(), Fail> {
    play_by(rt.alloc(), "", NEW)
}

#[test]
fn new_ends_of_a_large_page(rt: HostRuntime) -> Result<(), Fail> {
    play_by(rt.alloc(), "", NEW_ENDS)
}

#[test]
fn new_keys_of_few_leaves(rt: HostRuntime) -> Result<(), Fail> {
    play_by(rt.alloc(), "", NEW_OF_FEW)
}

#[test]
fn a_batch_on_1000_pages(rt: HostRuntime) -> Result<(), Fail> {
    play_by(rt.alloc(), "by next = done", BATCH_ON_1000_PAGES)
}

#[test]
fn what_was_read_is_handed_on(rt: HostRuntime) -> Result<(), Fail> {
    play_by(rt.alloc(), "", HANDED_ON)
}

#[test]
fn a_range_over_shared_leaves(rt: HostRuntime) -> Result<(), Fail> {
    play_by(rt.alloc(), "", SHARED_LEAVES)
}

#[test]
fn a_key_of_a_shared_page(rt: HostRuntime) -> Result<(), Fail> {
    play_by(rt.alloc(), "", SHARED_PAGE)
}
