//! Want of memory. `scripts/refuse growth tests test_shared memory::..` refuses each growth of
//! these tests in turn, and counts those after which a test passes.
//!
//! This finds a call that keeps the lock, waits for good, is refused memory without need, or is
//! refused again though there is some. That a refused Add leaves all as it was is proved.
use crate::stage::play;
use std::test::Fail;

/// Both seats add, in turn. The third Add is of a key that is there already. The pages rotate at
/// `e` and at `i`, where the oldest is dropped. Then come batches, of which one rotates the pages,
/// and each other call. One try is enough where nobody is in the way.
const AGAIN: &str = "open 132 132 2 10 5.0 100 = done
by gate = done
add [a] 20.0 A 20.0 = 1 0 0
seat 1 add [b] 20.0 A 20.0 = 1 0 0
add [a] 21.0 A 20.0 = 1 0 0
seat 1 add [c] 20.0 A 20.0 = 1 0 0
add [d] 20.0 A 20.0 = 1 0 0
seat 1 add [e] 20.0 A 20.0 = 1 1 0
add [f] 41.0 A 40.0 = 1 0 0
seat 1 add [g] 41.0 A 40.0 = 1 0 0
add [h] 41.0 A 40.0 = 1 0 0
seat 1 add [i] 41.0 A 40.0 = 1 1 1
add [i] 42.0 A 40.0 = 1 0 0
seat 1 add [a] 21.0 A 40.0 = 0 0 0
seat 1 get [a,z) = 42.0 A
gated = 12

open 132 132 2 10 5.0 6 = done
by gate = done
batch 20.0 [a] 20.0 A [b] 20.0 B [a,c) 20.0 B = 1 0 0
seat 1 get [a] = 20.0 -
batch 20.0 [d] 20.0 A [e] 20.0 A [f] 20.0 A = 1 1 0
batch 20.0 = 0 0 0
gated = 3
by plain = done
seat 1 batch 40.0 [a] 41.0 A [b] 41.0 B = 1 0 0
by 1 = done
add [a] 42.0 A 40.0 = 1 0 0
seat 1 batch 40.0 [a] 43.0 A [b] 43.0 A = 1 0 0
seat 1 may 43.0 B [a] = no
seat 1 earliest 15.0 B [a] [b] = 43.1
figures = 2 1 8 264
low = 5.0
add [c] 20.0 A 20.0 = full
add [k*101] 20.0 A 20.0 = too_large";

/// An Add of a key that both sides have.
const KNOWN: &str = "open 132 132 2 10 5.0 100 = done
add [a] 20.0 A 20.0 = 1 0 0
add [b] 20.0 A 20.0 = 1 0 0
add [b] 20.0 A 20.0 = 1 0 0
add [b] 20.0 A 20.0 = 1 0 0
add [b] 30.0 A 30.0 = 1 0 0";

/// The last Add is not made again, so want of memory ends the test.
const ONCE: &str = "open 132 132 2 10 5.0 100 = done
add [a] 20.0 A 20.0 = 1 0 0
once = done
add [b] 20.0 A 20.0 = 1 0 0
add [a] 21.0 A 20.0 = 1 0 0";

/// Each way to add, made once. Where memory is there, none of them is refused any.
const EACH: &str = "open 132 132 2 10 5.0 100 = done
once = done
add [a] 20.0 A 20.0 = 1 0 0
seat 1 batch 20.0 [a] 20.0 A [b] 20.0 B = 1 0 0
by gate = done
add [c] 20.0 A 20.0 = 1 0 0
seat 1 batch 20.0 [d] 20.0 A [e] 20.0 B = 1 1 0
by 1 = done
add [f] 21.0 A 20.0 = 1 0 0
seat 1 batch 20.0 [g] 21.0 A [h] 21.0 B = 1 0 0
seat 1 get [a,z) = 21.0 -";

#[test]
fn each_add_has_ample_memory(rt: HostRuntime) -> Result<(), Fail> {
    play(&rt, rt.alloc(), 2, EACH)
}

#[test]
fn a_refused_call_can_be_made_again(rt: HostRuntime) -> Result<(), Fail> {
    play(&rt, rt.alloc(), 2, AGAIN)
}

/// Where both sides have its key, an Add takes a copy of its span and no other memory.
#[test]
fn an_add_of_a_known_key_is_made_again(rt: HostRuntime) -> Result<(), Fail> {
    play(&rt, rt.alloc(), 2, KNOWN)
}

/// For `scripts/refuse handle`.
#[test]
fn an_add_that_is_made_once(rt: HostRuntime) -> Result<(), Fail> {
    play(&rt, rt.alloc(), 2, ONCE)
}
