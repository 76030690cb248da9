//! A timestamp cache, for those who embed one in a store: all that a store's author uses, at one
//! path.
//!
//! Whoever holds the lease of a range keeps a [`Cache`] of its reads, or a [`SharedCache`] where
//! several threads serve it. Each read adds its span, its time and its transaction. A write asks
//! before it lays down anything: [`may_write`] says whether it is clear of the reads so far, and
//! [`earliest_write`] to which time it has to be pushed, so that no read that was answered is made
//! wrong behind its back. [`may_write_at`] and [`earliest_write_at`] ask at a seat, of a shared
//! cache or of any that is a [`Lookup`].
//!
//! Where the lease goes on to somebody else, [`summary`] tells what was read of a span, in as many
//! marks as are to be sent, and [`apply`] adds it to the cache of the new holder. [`summary_at`]
//! tells it at a seat of a shared cache, which goes on.
//!
//! A span that is sent is taken apart by its [`cuts`](Span::cuts), of which each [`Cut`] has a key
//! or is above all keys. A [`Gate`] is told when an Add of a shared cache is about to be published,
//! so that a test can hold it up; [`NoGate`] holds nobody up.
//!
//! The limits are [`LONGEST_KEY`], in bytes, [`LEAST_SIZE`] and [`MOST_SIZE`] of a page,
//! [`LEAST_MIN_PAGES`] and [`MOST_MIN_PAGES`], and [`LONGEST_RETENTION`], in nanoseconds.
//!
//! For who runs it, [`Cache::figures`] counts pages, their rotations, the end keys that they hold
//! and what these cost, and tells where the floor stands, as [`Figures`]. [`SharedCache::figures`]
//! tells these figures of what a seat was shown, as [`SeatFigures`].
//!
//! Contracts over this crate speak of keys, times, histories and seats by the definitions in
//! `specs/`, of which `Words` has those of the crates below.
//!
//! The rule is that of CockroachDB's `applyTimestampCache` (`pkg/kv/kvserver/replica_tscache.go`):
//! a write goes above each read of its keys, save those of its own transaction. A write that is
//! clear of what a lookup answers is clear of each read that was added.
//!
//! # Examples
//!
//! `scripts/test examples` runs each example of this crate as the body of a function that has the
//! runtime `rt` and its allocator `alloc`. These lines stand before all of them:
//!
//! ```
//! use std::alloc::Global;
//! use std::slice;
//! use std::test::Fail;
//! use timestamp_cache::*;
//!
//! fn at(wall: u64) -> Timestamp {
//!     Timestamp::new(wall, 0).unwrap_or(Timestamp::MAX)
//! }
//!
//! fn id(name: char) -> Uuid {
//!     Uuid::from_u128(u128::from(u32::from(name)))
//! }
//!
//! fn keys(alloc: Global, from: &str, to: &str) -> Result<Span, SpanFault> {
//!     Span::of(Key::new(alloc, from.as_bytes())?, Key::new(alloc, to.as_bytes())?)
//! }
//!
//! fn config() -> Result<Config, ConfigFault> {
//!     Config::new(1 << 10, 1 << 20, 2, 10_000_000_000, at(5))
//! }
//! ```
//!
//! A read of a span is added with its time and its transaction. Lookups of keys in the span then
//! answer it, and others answer the floor:
//!
//! ```
//! let mut cache = Cache::new(alloc, config()?)?;
//! let added = cache.add(&keys(alloc, "a", "c")?, Value::of(at(20), id('A')), at(20))?;
//! assert!(rt; added.kept && !added.rotated);
//! assert_eq!(rt; cache.get_max(&keys(alloc, "b", "")?), Value::of(at(20), id('A')));
//! assert_eq!(rt; cache.get_max(&keys(alloc, "c", "")?), Value::unowned(cache.low_water()));
//! ```
//!
//! Bytes that lie elsewhere need no span of their own, and no memory for a lookup:
//!
//! ```
//! let mut cache = Cache::new(alloc, config()?)?;
//! let ends = Ends { exclude_from: false, exclude_to: true };
//! cache.add_key(&KeyRef::new(b"a")?, Value::of(at(20), id('A')), at(20))?;
//! cache.add_between(b"m", Some(b"p"), ends, Value::of(at(21), id('B')), at(21))?;
//! assert_eq!(rt; cache.get_max_ref(&SpanRef::point(b"a")), Value::of(at(20), id('A')));
//! assert_eq!(rt; cache.get_max_between(b"b", None, ends).time(), at(21));
//! ```
//!
//! Several reads are added together or not at all. `next_all` and `next` leave the cache as it is,
//! and make the one after it, which shares its pages:
//!
//! ```
//! let mut cache = Cache::new(alloc, config()?)?;
//! let read = Mark { span: keys(alloc, "a", "c")?, value: Value::of(at(20), id('A')) };
//! cache.add_all(slice::from_ref(&read), at(20))?;
//! let (next, added) = cache.next(&keys(alloc, "x", "")?, Value::of(at(30), id('B')), at(30))?;
//! assert!(rt; added.kept);
//! assert_eq!(rt; cache.get_max(&keys(alloc, "x", "")?).time(), at(5));
//! assert_eq!(rt; next.get_max(&keys(alloc, "x", "")?).time(), at(30));
//! assert_eq!(rt; (cache.figures().nodes, next.figures().nodes), (2, 3));
//! ```
//!
//! Whoever knows that reads fit a page, as `fits_all` tells, is refused memory at most:
//!
//! ```
//! let mut cache = Cache::new(alloc, config()?)?;
//! let read = Mark { span: keys(alloc, "a", "c")?, value: Value::of(at(20), id('A')) };
//! let reads = slice::from_ref(&read);
//! if cache.fits_all(reads) {
//!     let (next, added) = cache.next_fitting(reads, at(20))?;
//!     assert_eq!(rt; (added.kept, cache.add_fitting(reads, at(20))?.kept), (true, true));
//!     assert_eq!(rt; cache.figures(), next.figures());
//! }
//! ```
//!
//! Each thread has a seat of a shared cache. A thread that goes on with the work of another one
//! first learns the front of that work:
//!
//! ```
//! let (cache, mut seats) = SharedCache::open(alloc, config()?, 2, u64::MAX)?;
//! let (mut one, mut two) = (seats.pop().ok_or("a seat")?, seats.pop().ok_or("a seat")?);
//! let key = keys(alloc, "a", "")?;
//! let receipt = cache.add(&rt, &mut one, &key, Value::of(at(20), id('A')), at(20))?;
//! assert_eq!(rt; receipt.place, 0);
//! assert_eq!(rt; cache.catch_up(&mut two, receipt.front), 1);
//! let answer = cache.get_max(&mut two, &key)?;
//! assert_eq!(rt; (answer.front, answer.value.time()), (1, at(20)));
//! ```
//!
//! An Add with a number of tries waits for nobody. A cache closes once it has all its seats:
//!
//! ```
//! let (cache, mut seats) = SharedCache::open(alloc, config()?, 1, u64::MAX)?;
//! let mut seat = seats.pop().ok_or("a seat")?;
//! let key = keys(alloc, "a", "")?;
//! cache.try_add(&mut seat, &key, Value::of(at(20), id('A')), at(20), 64)?;
//! let before = cache.snapshot(&mut seat)?;
//! cache.try_add(&mut seat, &key, Value::of(at(30), id('B')), at(30), 64)?;
//! assert_eq!(rt; before.cache.get_max(&key).time(), at(20));
//! seats.push(seat)?;
//! let Ok(closed) = cache.finish(seats) else { return Err("a seat is out")? };
//! assert_eq!(rt; (closed.adds, closed.cache.get_max(&key).time()), (2, at(30)));
//! ```
#![tactic(auto)]

mod clear;
mod hand_over;
pub mod laws;
mod lookups;
mod next;
mod summary_fault;
mod summary_reading;
mod summary_writing;
mod writes;

pub use clear::{earliest_clear_of, is_clear_of};
pub use hand_over::{ReadSummary, SeatSummary, apply, summary, summary_at};
pub use lookups::Lookup;
pub use next::next_time;
pub use summary_fault::SummaryFault;
pub use tsc_cache::{
    AddBetweenFault, Added, Cache, CacheFault, Config, ConfigFault, Figures, LEAST_MIN_PAGES,
    LONGEST_RETENTION, MOST_MIN_PAGES, Mark, TimestampCache,
};
pub use tsc_page_model::{LEAST_SIZE, MOST_SIZE};
pub use tsc_shared::{
    AddFault, Answer, Closed, Front, Gate, Gone, LowWater, NoGate, OpenFault, Receipt, Seat,
    SeatFigures, SharedCache, Snapshot, StillOut, TryAddFault,
};
pub use tsc_span::{Cut, Ends, Key, KeyRef, LONGEST_KEY, Span, SpanFault, SpanRef};
pub use tsc_time::{NoMemory, Timestamp, Value, ratchet};
pub use uuid::Uuid;
pub use writes::{earliest_write, earliest_write_at, may_write, may_write_at};
