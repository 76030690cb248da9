//! Calls that are refused memory, growth by growth, by `scripts/refuse growth`. That all stays
//! as it was then is proved. This finds a call that is refused once more though there is memory,
//! and one that is refused without need: each call adds, by itself and together, over rotations.
use std::test::Fail;
use test_support::play_by;

const ROWS: &str = "open 132 132 2 10 5.0 0 = done
add [a] 20.0 A 20.0 = 1 0 0
add [b,d) 20.0 B 20.0 = 1 0 0
add [a] 21.0 B 20.0 = 1 0 0
add [c] 20.0 A 20.0 = 1 0 0
add [e] 20.0 A 20.0 = 1 1 0
add (a,c) 30.0 A 20.0 = 1 0 0
add [f..] 41.0 - 40.0 = 1 0 0
add [g] 41.0 A 40.0 = 1 1 1
add [h] 21.0 A 40.0 = 0 0 0
add (h,h) 50.0 A 40.0 = 0 0 0
add [a*101] 50.0 A 40.0 = too_large
batch 40.0 [g] 41.0 B [h] 42.0 A [b,d] 43.0 A = 1 0 0
batch 60.0 [d] 50.0 A [e] 50.0 B [f] 50.0 A [g] 50.0 B [h] 50.0 A = 1 1 1
get [g] = 50.0 B
figures = 2 3 8 264
open 4680 4680 1 10 5.0 0 = done
fill 0 130 1 20.0 A = done
add [#40] 30.0 B 20.0 = 1 0 0
add [#31,#97) 30.0 - 20.0 = 1 0 0
add [%00%00%00%28%00] 41.0 B 20.0 = 1 1 0
add (#10,%00%00%00%5a%00) 50.0 A 20.0 = 1 0 0
add [#100..] 60.0 A 20.0 = 1 0 0
get [#11,#90] = 50.0 A";

#[test]
fn each_call_can_be_made_again(rt: HostRuntime) -> Result<(), Fail> {
    play_by(rt.alloc(), "", ROWS)?;
    play_by(rt.alloc(), "by key = done", ROWS)?;
    play_by(rt.alloc(), "by between = done", ROWS)?;
    play_by(rt.alloc(), "by next = done", ROWS)
}

/// Some marks stay where a later one is refused memory, so this one is not made again.
#[test]
fn marks_are_added_until_one_is_refused(rt: HostRuntime) -> Result<(), Fail> {
    play_by(rt.alloc(), "by each = done", ROWS)
}
