//! What a seat tells of the reads so far, while the cache goes on.
//!
//! This finds a seat that tells of less than all seats have added, and a snapshot that holds up
//! Adds: a contract speaks of what the seat has seen alone.
use crate::stage::play;
use std::test::Fail;

/// A seat tells of what both have added, and of what it saw before.
const REPORTED: &str =
    "case with a mark for each key, the next cache answers as this one, with its owners
open 132 132 2 10 5.0 100 = done
add [a] 20.0 A 20.0 = 1 0 0
seat 1 add [c,e) 21.0 B 20.0 = 1 0 0
tell [a,z) 9 = 2
next [a] = 20.0 A
next (a,c) = 5.0 -
next [d] = 21.0 B
seat 1 add [b] 22.0 B 20.0 = 1 0 0
next [b] = 5.0 -
add [a] 23.0 - 20.0 = 1 0 0
seat 1 tell [a,b] 0 = 4
next [b] = 23.0 -
next [c] = 5.0 -
seat 1 get [b] = 22.0 B

case a page is gone: its reads are told by the floor
open 132 132 2 10 5.0 100 = done
batch 20.0 [a] 20.0 A [b] 20.0 A [c] 20.0 A [d] 20.0 A = 1 0 0
add [e] 30.0 B 30.0 = 1 1 0
batch 30.0 [f] 30.0 B [g] 30.0 B [h] 30.0 B = 1 0 0
add [i] 45.0 A 45.0 = 1 1 1
seat 1 tell [a,z) 9 = 4
next [a] = 20.0 -
next [e] = 30.0 B
next [i] = 45.0 A";

/// A snapshot stays as it is, while keys come that it has and that it lacks, and pages rotate.
const KEPT: &str = "open 132 132 2 10 5.0 100 = done
batch 20.0 [a] 20.0 A [b] 20.0 A = 1 0 0
add [a] 21.0 A 20.0 = 1 0 0
seat 1 keep = 2
add [a] 22.0 B 20.0 = 1 0 0
seat 1 add [a] 23.0 B 20.0 = 1 0 0
add [c] 23.0 - 20.0 = 1 0 0
batch 60.0 [d] 60.0 A [e] 60.0 A [f] 60.0 A = 1 1 0
kept [a] = 21.0 A
kept [c] = 5.0 -
kept [a,z) = 21.0 A
get [a] = 23.0 B
seat 1 get [c] = 23.0 -";

/// A seat tells of two keys and a range. Each growth of that is refused in turn, and it then tells
/// the same.
const AGAIN: &str = "open 132 132 2 10 5.0 100 = done
once = done
add [a] 20.0 A 20.0 = 1 0 0
seat 1 add [c,e) 21.0 B 20.0 = 1 0 0
tell [a,z) 9 = 2
next [a] = 20.0 A
next [d] = 21.0 B";

#[test]
fn a_seat_reports_what_all_have_added(rt: HostRuntime) -> Result<(), Fail> {
    play(&rt, rt.alloc(), 2, REPORTED)
}

#[test]
fn a_snapshot_stays_as_it_is(rt: HostRuntime) -> Result<(), Fail> {
    play(&rt, rt.alloc(), 2, KEPT)
}

#[test]
fn a_refused_summary_can_be_reported_again(rt: HostRuntime) -> Result<(), Fail> {
    play(&rt, rt.alloc(), 2, AGAIN)
}
