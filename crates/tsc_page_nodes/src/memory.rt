//! How many bytes the blocks of memory have that lists, shared values and keys take: what the
//! allocator is asked for. A number stays at 2^64 - 1 once it is there.

ghost use Rattle.std.specs.Prelude.{◌≡◌, ◌+◌, ◌-◌, ◌*◌, ◌^◌, min};

use std::mem::size_of;
use tsc_span::Key;

/// How many bytes the counter of owners has that stands beside a shared value.
const COUNTER_BYTES: u64 = 8;

/// What a key costs on a page beside its bytes.
const NODE_COST: u64 = 32;

/// The block of a list with room for so many entries, each of so many bytes. A list without room
/// has none.
pub fn list_memory(capacity: usize, entry: usize) -> u64
    ensures { result ≡ min (capacity * entry) (2 ^ 64 - 1) }
{
    (capacity as u64).saturating_mul(entry as u64)
}

/// The block of a shared value of so many bytes, which holds the counter of its owners too.
pub fn shared_memory(value: usize) -> u64
    ensures { result ≡ min (value + 8) (2 ^ 64 - 1) }
{
    (value as u64).saturating_add(COUNTER_BYTES)
}

/// The blocks of so many keys that cost so much together: each has a block that is shared, and one
/// for its bytes.
pub fn keys_memory(keys: usize, cost: u32) -> u64 {
    let keys = keys as u64;
    let bytes = u64::from(cost).saturating_sub(keys.saturating_mul(NODE_COST));
    keys.saturating_mul(shared_memory(size_of::<Key>()))
        .saturating_add(bytes)
}
