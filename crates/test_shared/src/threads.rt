//! Seats on threads of their own, at one time.
//!
//! This finds an Add that others do not see once it has returned, or see before its gate was told;
//! a lookup that waits for an Add, or a seat that waits for one which waits; and, under
//! ThreadSanitizer, a race.
use crate::stage::play;
use std::test::Fail;

/// Nobody sees an Add that is held up at its gate, and all do once that has let it go.
const HELD: &str = "open 132 132 2 10 5.0 100 = done
held 1000 20.0 [a] 20.0 A = done
seat 1 get [a] = 20.0 A
held 1000 20.0 [a] 30.0 A = done
seat 4 get [a] = 30.0 A
seat 4 get [b] = 5.0 -";

/// Two keys, as a batch.
const BATCH: &str = "open 132 132 2 10 5.0 10 = done
held 1 20.0 [a] 20.0 A [b] 20.0 A = done
seat 1 get [a] = 20.0 A
seat 1 get [b] = 20.0 A";

/// An Add that rotates the pages and drops the oldest. The floor rises to 20.0, which has no owner.
const ROTATING: &str = "open 132 132 2 10 5.0 100 = done
batch 20.0 [a] 20.0 A [b] 20.0 A [c] 20.0 A [d] 20.0 A = 1 0 0
add [e] 20.0 A 20.0 = 1 1 0
batch 40.0 [f] 41.0 A [g] 41.0 A [h] 41.0 A = 1 0 0
held 1 40.0 [i] 41.0 A = done
seat 1 get [a] = 20.0 -
seat 1 get [b] = 20.0 -";

const RETURNED: &str = "open 132 132 2 10 5.0 10000 = done
returned 10000 = done";

/// Each Add is told a place of its own, and all of them are there.
const CROWD: &str = "open 132 132 2 10 5.0 400 = done
crowd 50 = done
see = 400";

/// Adds that are refused memory have no place.
const REFUSED: &str = "open 132 132 2 10 5.0 48 = done
crowd 12 = done";

/// Each seat has a key that is known to both copies. In the scene the first seat's Add is held up
/// while the two others wait for the lock.
const STOPPED: &str = "open 132 132 2 10 5.0 100000000 = done
add [a] 20.0 A 20.0 = 1 0 0
add [b] 20.0 A 20.0 = 1 0 0
add [c] 20.0 A 20.0 = 1 0 0
add [a] 20.0 A 20.0 = 1 0 0
seat 1 add [b] 20.0 A 20.0 = 1 0 0
seat 2 add [c] 20.0 A 20.0 = 1 0 0
stopped 1000 20.0 [a] 20.0 A = done";

#[test]
fn all_lookups_answer_while_the_lock_is_held(rt: HostRuntime) -> Result<(), Fail> {
    play(&rt, rt.alloc(), 5, HELD)
}

/// For `scripts/refuse growth`.
#[test]
fn a_lookup_answers_while_a_batch_is_held_up(rt: HostRuntime) -> Result<(), Fail> {
    play(&rt, rt.alloc(), 2, BATCH)
}

#[test]
fn a_lookup_answers_while_a_rotating_add_is_held_up(rt: HostRuntime) -> Result<(), Fail> {
    play(&rt, rt.alloc(), 2, ROTATING)
}

#[test]
fn a_lookup_sees_each_add_that_has_returned(rt: HostRuntime) -> Result<(), Fail> {
    play(&rt, rt.alloc(), 3, RETURNED)
}

/// For `scripts/test races`.
#[test]
fn eight_seats_have_each_place_once(rt: HostRuntime) -> Result<(), Fail> {
    play(&rt, rt.alloc(), 8, CROWD)
}

/// For `scripts/refuse growth` and `scripts/refuse handle`.
#[test]
fn refused_adds_have_no_place(rt: HostRuntime) -> Result<(), Fail> {
    play(&rt, rt.alloc(), 4, REFUSED)
}

/// For `scripts/refuse stop`, which stops two of the threads as the system may.
#[test]
fn a_stopped_seat_holds_up_nobody(rt: HostRuntime) -> Result<(), Fail> {
    play(&rt, rt.alloc(), 3, STOPPED)
}
