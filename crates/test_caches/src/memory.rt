//! How many bytes the blocks of memory have that hold a cache's pages. The numbers were counted at
//! the allocator: what was asked for, and not yet given back, around a cache with these reads.
//!
//! This finds leaves that are cut too early, a count that forgets blocks, and a page whose head has
//! no padding.
use std::test::Fail;
use test_support::play_by;

/// One leaf holds 64 keys, so the next one cuts it. A page that is shared counts in full.
const COUNTED: &str = "open 1048576 1048576 64 1000 5.0 0 = done
memory = 256
fill 0 1 1 20.0 - = done
memory = 564
share = done
memory = 564
open 1048576 1048576 64 1000 5.0 0 = done
add [b,c) 20.0 - 20.0 = 1 0 0
memory = 882
open 1048576 1048576 64 1000 5.0 0 = done
fill 0 64 1 20.0 - = done
memory = 8880
fill 64 65 1 20.0 - = done
memory = 12660
fill 65 4096 1 20.0 - = done
memory = 1001456
open 64 64 64 1000 5.0 0 = done
fill 0 3 1 20.0 - = done
figures = 3 2 3 108
memory = 1628
fill 3 300 1 20.0 - = done
figures = 300 299 300 10800
memory = 159024";

#[test]
fn blocks_have_so_many_bytes(rt: HostRuntime) -> Result<(), Fail> {
    play_by(rt.alloc(), "", COUNTED)
}
