//! Each public call with ample memory, in rows of it: this finds one that is refused memory
//! without need, and a gate that is not told of an accepted Add just once, or is told of a refused
//! one. And why a cache is not opened, with the text of each fault.
use crate::seats::{Seats, config};
use std::alloc::Global;
use std::process::Abort;
use std::sync::Wait;
use std::test::Fail;
use test_support::{all_read, play};
use tsc_span::Key;
use tsc_striped::TryAddFault::Refused;
use tsc_striped::{AddFault, Busy, OpenFault, SnapshotFault, StripedCache, TryAddFault};

const OPENING: &str = "stripes 8256 8256 2 10 5.0 [b] [d] = done";

/// Calls on three stripes. After each Add the other seat makes the next call, and `number` tells
/// which of its seat's own Adds that Add was. The last Add rotates the pages of its stripe.
const CALLS: &str = "add [a] 20.0 A 20.0 = 1 0 0
number = 0
get [a] = 20.0 A
get [b] = 5.0 -
add [a,d) 21.0 B 20.0 = 1 0 0
number = 0
get (b,c) = 21.0 B
get [d..] = 5.0 -
batch 20.0 [a] 22.0 A [d] 22.0 A = 1 0 0
number = 1
batch 20.0 = 0 0 0
number = 1
get [a..] = 22.0 A
earliest 15.0 B [d] [b] = 22.1
may 22.0 A [a] [d] = yes
tries 9 = done
add [c] 23.0 B 20.0 = 1 0 0
number = 2
batch 20.0 [c] 23.0 A [e] 4.0 A = 1 0 0
number = 2
get [c] = 23.0 -
get [c,z) = 23.0 -
earliest 15.0 B [c] = 23.1
may 23.0 A [c] [z] = no
tries 0 = done
add [c] 24.0 B 20.0 = busy
add [a,z) 24.0 B 20.0 = busy
batch 20.0 = busy
get [c] = busy
get [a..] = busy
stripe 2 = done
low = busy
figures = busy
earliest 15.0 B [c] = busy
may 24.0 B [c] = busy
snapshot [a..] = busy
tries 9 = done
low = 5.0
figures = 1 0 1 33
snapshot [b,d] = 2
tries all = done
stripe 1 = done
low = 5.0
figures = 1 0 3 99
snapshot [a..] = 3
sum_up [b,z) = 2
take_over 0 = 1 0 0
take_over 1 = 1 0 0
number = 3
get [c] = 23.0 -
by gate = done
add [c,z) 24.0 A 20.0 = 1 0 0
number = 4
get [d] = 24.0 A
batch 20.0 [c,z) 24.0 A [a] 25.0 B = 1 0 0
number = 4
get [a] = 25.0 B
tries 0 = done
add [c] 26.0 B 20.0 = busy
add [c,e) 26.0 B 20.0 = busy
batch 20.0 [c] 26.0 B = busy
take_over 0 = busy
tries 9 = done
add [c,e) 26.0 B 20.0 = 1 0 0
number = 5
batch 20.0 [c] 26.0 A [d] 25.0 A = 1 0 0
number = 5
take_over 1 = 1 0 0
number = 6
seat 0 get [c] = 26.0 -
seat 1 get [d] = 26.0 B
tries all = done
by plain = done
meet = 13
add [e*4000] 26.0 A 20.0 = 1 0 0
add [f*4000] 26.0 A 20.0 = 1 0 0
add [g*4000] 26.0 A 20.0 = 1 1 0
get [e*4000] = 26.0 A
get [g*4000] = 26.0 A";

const OPENINGS: &str = "stripes 8256 8256 2 10 5.0 [b] = done
stripes 8256 8256 2 10 5.0 [%00] = done
stripes 8256 8256 2 10 5.0 [d] [b] = the bounds are out of order
stripes 8256 8256 2 10 5.0 [b] [b] = the bounds are out of order
stripes 8255 8255 2 10 5.0 [d] [b] = the bounds are out of order
stripes 8255 8255 2 10 5.0 [b] [d] = the largest page has fewer than 8256";

/// Makes all calls of the rows, in the way that a row before them names.
fn make_calls<R: Wait + Abort>(rt: &R, alloc: Global, way: &str) -> Result<(), Fail> {
    let mut seats = Seats::new(rt, alloc)?;
    for rows in [OPENING, way, CALLS] {
        play(alloc, &mut seats, rows)?;
    }
    assert_eq!(rt; seats.close()?, 3);
    Ok(())
}

#[test]
fn each_call_has_ample_memory(rt: HostRuntime) -> Result<(), Fail> {
    make_calls(&rt, rt.alloc(), "once = done")
}

/// `scripts/refuse growth` refuses each growth of it in turn.
#[test]
fn each_call_can_be_made_again(rt: HostRuntime) -> Result<(), Fail> {
    make_calls(&rt, rt.alloc(), "")
}

#[test]
fn bounds_are_tested(rt: HostRuntime) -> Result<(), Fail> {
    play(rt.alloc(), &mut Seats::new(&rt, rt.alloc())?, OPENINGS)?;
    Ok(())
}

#[test]
fn there_are_at_most_1024_stripes(rt: HostRuntime) -> Result<(), Fail> {
    for (count, stripes) in [(1023, Ok(1024)), (1024, Err(OpenFault::TooManyStripes))] {
        let mut bounds = Vec::new(rt.alloc());
        for number in 0..count {
            bounds.push(Key::new(rt.alloc(), &u32::to_be_bytes(number))?)?;
        }
        let opened = StripedCache::open(rt.alloc(), config(8256)?, bounds, 0);
        assert_eq!(rt; opened.map(|opened| opened.0.stripes()), stripes);
    }
    Ok(())
}

#[test]
fn texts_of_faults(rt: HostRuntime) -> Result<(), Fail> {
    all_read!(rt;
        [OpenFault::TooManyStripes, OpenFault::NoMemory] => "stripes are 1 to 1024|out of memory|",
        [AddFault::SeatFull] => "the seat can count no more Adds|",
        [TryAddFault::Busy, Refused(AddFault::NoMemory)] => "a stripe is busy|out of memory|",
        [SnapshotFault::Busy, SnapshotFault::NoMemory] => "a stripe is busy|out of memory|",
        [Busy] => "a stripe is busy|");
    Ok(())
}
