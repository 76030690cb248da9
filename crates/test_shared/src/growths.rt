//! How many growths an Add to a shared cache asks for, before and after its pages rotate. An Add is
//! made again where it is refused memory. Where one in place on the standby copy is refused, that
//! copy is made anew from the active one, so the cache makes some growths good by itself:
//! `scripts/refuse growth` counts for how many a whole test asks.
//!
//! This finds an Add or a snapshot that copies a page, or a list of pages, without need.
use crate::stage::play;
use std::test::Fail;

/// The page is full, and both copies have all of it. Then one side rotates, and the other one.
const ROTATING: &str = "open 132 132 2 10 5.0 100 = done
add [a] 20.0 A 20.0 = 1 0 0
add [b] 20.0 A 20.0 = 1 0 0
add [c] 20.0 A 20.0 = 1 0 0
add [d] 20.0 A 20.0 = 1 0 0
add [a] 21.0 A 20.0 = 1 0 0
add [e] 20.0 A 20.0 = 1 1 0
seat 1 add [e] 21.0 A 20.0 = 1 0 0";

/// Both sides have rotated once, and a second time comes.
const ROTATING_AGAIN: &str = "open 132 132 2 10 5.0 100 = done
add [a] 20.0 A 20.0 = 1 0 0
add [b] 20.0 A 20.0 = 1 0 0
add [c] 20.0 A 20.0 = 1 0 0
add [d] 20.0 A 20.0 = 1 0 0
add [e] 20.0 A 20.0 = 1 1 0
add [f] 20.0 A 20.0 = 1 0 0
add [g] 20.0 A 20.0 = 1 0 0
add [h] 20.0 A 20.0 = 1 0 0
add [e] 21.0 A 20.0 = 1 0 0
seat 1 add [i] 20.0 A 20.0 = 1 1 0";

/// A batch of two keys that both copies have, and a snapshot.
const KNOWN_KEYS: &str = "open 132 132 2 10 5.0 100 = done
seat 1 batch 20.0 [a] 20.0 A [b] 20.0 A = 1 0 0
seat 1 batch 20.0 [a] 20.0 A [b] 20.0 A = 1 0 0
seat 1 batch 20.0 [a] 20.0 A [b] 20.0 A = 1 0 0
seat 1 batch 20.0 [a] 20.0 A [b] 20.0 A = 1 0 0
keep = 4";

/// More than 4,096 keys on one page. Then one of them comes 80 times, where both copies have it.
/// Each of these Adds takes a copy of its key alone: no growth of theirs is made good.
/// `scripts/refuse growth last tests` counts them.
const LARGE_PAGE: &str = "open 1048576 1048576 2 10 5.0 100 = done
fill 4097 = 1 0 0
add [#2048] 21.0 - 20.0 = 1 0 0
seat 1 figures = 1 0 4097 147492
once = done
often [#2048] 80 = 1 0 0
seat 1 get [#2048] = 100.0 -";

#[test]
fn known_keys_on_a_large_page(rt: HostRuntime) -> Result<(), Fail> {
    play(&rt, rt.alloc(), 2, LARGE_PAGE)
}

#[test]
fn a_batch_of_known_keys(rt: HostRuntime) -> Result<(), Fail> {
    play(&rt, rt.alloc(), 2, KNOWN_KEYS)
}

#[test]
fn an_add_that_rotates(rt: HostRuntime) -> Result<(), Fail> {
    play(&rt, rt.alloc(), 2, ROTATING)
}

#[test]
fn an_add_that_rotates_again(rt: HostRuntime) -> Result<(), Fail> {
    play(&rt, rt.alloc(), 2, ROTATING_AGAIN)
}
