//! What is measured with keys and an owner that are given as bytes, as programs in C and in Rust
//! give them to the library.
//!
//! The keys lie side by side. All is done in the order in which `speed.c` and `speed.rs` do it, so
//! that heap and caches of the processor have equal work. How long a key is, who makes the Adds and
//! at which moment is read where the program runs, as the library reads it. A compiler that knew it
//! would leave out what each store has to do.
ghost use Rattle.std.specs.Prelude.{◌≤◌};

use crate::figure::{Figure, Least};
use crate::keys::{APART, STRIDE};
use crate::turns::Board;
use std::alloc::Global;
use std::time::Instant;
use tsc_cache::{Cache, Config, TimestampCache};
use tsc_span::{Ends, KeyRef, SpanRef};
use tsc_time::{Timestamp, Value};
use uuid::Uuid;

/// The operations, in the order of their rows.
pub static BYTES_OPERATIONS: [&str; 4] = [
    "lookup of a key",
    "add of a key",
    "add of a key by its start and its end",
    "add of 2 nodes by their start and their end",
];

/// When the keys of the page are added first.
const FIRST_WALL: u64 = 10;

/// What a node with a key of 8 bytes costs.
const COST: u32 = 40;

/// How many keys are looked up and added.
const PLACES: usize = 1024;

/// Who makes the Adds.
const OWNER: &str = "11000000-0000-0000-0000-000000000000";

/// Measures calls on a cache of one page: lookups and Adds of known keys from all over it, turn by
/// turn, and then, in turns of their own, Adds by a start and an end.
pub fn measure_bytes(rt: &HostRuntime, nodes: u32, turns: u32) -> Option<Least> {
    let mut board = Board::new(Vec::new(rt.alloc()));
    let owner = Uuid::parse_str(OWNER).ok()?;
    let mut cache = filled(rt.alloc(), nodes, owner)?;
    let keys = keys_of(rt.alloc(), nodes, 0)?;
    let starts = keys_of(rt.alloc(), nodes.saturating_sub(1), 0)?;
    let ends = keys_of(rt.alloc(), nodes.saturating_sub(1), 1)?;
    for turn in 0..turns {
        let wall = FIRST_WALL.saturating_add(u64::from(turn)).saturating_add(1);
        board.keep(0, look_up(rt, &cache, &keys));
        board.keep(1, add(rt, &mut cache, &keys, wall, owner));
    }
    for turn in turns..turns.saturating_mul(2) {
        let wall = FIRST_WALL
            .saturating_add(u64::from(turn).saturating_mul(2))
            .saturating_add(1);
        let later = wall.saturating_add(1);
        board.keep(2, add_between(rt, &mut cache, (&keys, &keys), wall, owner));
        board.keep(
            3,
            add_between(rt, &mut cache, (&starts, &ends), later, owner),
        );
    }
    board.end(true)
}

/// A cache with a full page.
fn filled(alloc: Global, nodes: u32, owner: Uuid) -> Option<Cache> {
    let size = nodes.saturating_mul(COST);
    let config = Config::new(size, size, 2, 1_000_000, Timestamp::ZERO).ok()?;
    let mut cache = Cache::new(alloc, config).ok()?;
    let mut is_full = true;
    for place in 0..u64::from(nodes) {
        is_full = is_full
            && add_key(
                &mut cache,
                &key_of(place),
                FIRST_WALL,
                owner,
                Timestamp::ZERO,
            );
    }
    is_full.then_some(cache)
}

/// The key of a place among the nodes.
fn key_of(place: u64) -> [u8; 8] {
    place.wrapping_mul(APART).to_be_bytes()
}

/// Keys from all over the page, side by side, each `behind` places behind one of the first nodes.
fn keys_of(alloc: Global, nodes: u32, behind: u64) -> Option<Vec<u8>> {
    let mut keys = Vec::new(alloc);
    let mut number: u64 = 0;
    for _ in 0..PLACES {
        let place = number % u64::from(nodes.max(1));
        keys.extend_from_slice(&key_of(place.saturating_add(behind)))
            .ok()?;
        number = number.saturating_add(STRIDE);
    }
    Some(keys)
}

/// How many bytes each of the keys has.
fn key_len(keys: &[u8]) -> usize
    ensures { 1 ≤ result }
{
    (keys.len() / PLACES).max(1)
}

/// Looks up each of the keys.
fn look_up(rt: &HostRuntime, cache: &Cache, keys: &[u8]) -> Option<Figure> {
    let mut latest = Timestamp::ZERO;
    let start = Instant::now(rt).ok()?;
    for key in keys.chunks_exact(key_len(keys)) {
        latest = latest.max(cache.get_max_ref(&SpanRef::point(key)).time());
    }
    let figure = Figure::since(rt, start, PLACES as u64)?;
    // what was looked up is used, so that no compiler leaves the lookups out
    (Timestamp::ZERO < latest).then_some(figure)
}

/// Adds each of the keys at a wall time.
fn add(rt: &HostRuntime, cache: &mut Cache, keys: &[u8], wall: u64, owner: Uuid) -> Option<Figure> {
    let now = Timestamp::new(wall, 0)?;
    let start = Instant::now(rt).ok()?;
    for key in keys.chunks_exact(key_len(keys)) {
        if !add_key(cache, key, wall, owner, now) {
            return None;
        }
    }
    Figure::since(rt, start, PLACES as u64)
}

/// Adds each of the ranges from a start to an end at a wall time.
fn add_between(
    rt: &HostRuntime,
    cache: &mut Cache,
    (starts, ends): (&[u8], &[u8]),
    wall: u64,
    owner: Uuid,
) -> Option<Figure> {
    let now = Timestamp::new(wall, 0)?;
    let both = Ends {
        exclude_from: false,
        exclude_to: false,
    };
    let start = Instant::now(rt).ok()?;
    let all = ends.chunks_exact(key_len(ends));
    for (from, to) in starts.chunks_exact(key_len(starts)).zip(all) {
        let value = Value::of(now, owner);
        match cache.add_between(from, Some(to), both, value, now) {
            Ok(added) if added.kept => {}
            _ => return None,
        }
    }
    Figure::since(rt, start, PLACES as u64)
}

/// Adds a key by its bytes at a wall time. Tells whether that was done.
fn add_key(cache: &mut Cache, key: &[u8], wall: u64, owner: Uuid, now: Timestamp) -> bool {
    let time = Timestamp::new(wall, 0).unwrap_or(Timestamp::MAX);
    let Ok(key) = KeyRef::new(key) else {
        return false;
    };
    match cache.add_key(&key, Value::of(time, owner), now) {
        Ok(added) => added.kept,
        Err(_) => false,
    }
}
