//! One range of a multi-version store under a lease, whose transactions are serializable in the
//! order of their times.
//!
//! A [`Transaction`] reads spans of keys as of its time, and then commits its writes: at that time,
//! or where it is pushed, at a later one at which all that it read is still so. The [`Range`] keeps
//! the versions of each key, and remembers reads in a timestamp cache, so that no write comes to a
//! time at which it would change what was read.
//!
//! # Examples
//!
//! `scripts/test examples` runs each example of this crate as the body of a function that has the
//! runtime `rt` and its allocator `alloc`. These lines stand before all of them:
//!
//! ```
//! use mvcc_range::*;
//! use std::alloc::Global;
//! use std::test::Fail;
//! use timestamp_cache::{Config, Key, Span, SpanFault, Timestamp, Uuid};
//!
//! fn at(wall: u64) -> Timestamp {
//!     Timestamp::new(wall, 0).unwrap_or(Timestamp::MAX)
//! }
//!
//! fn keys(alloc: Global, from: &str, to: &str) -> Result<Span, SpanFault> {
//!     Span::of(Key::new(alloc, from.as_bytes())?, Key::new(alloc, to.as_bytes())?)
//! }
//!
//! fn put(alloc: Global, key: &str, value: &str) -> Result<Write, Fail> {
//!     let content = Some(Vec::from_slice(alloc, value.as_bytes())?);
//!     Ok(Write { key: Key::new(alloc, key.as_bytes())?, content })
//! }
//!
//! /// A transaction that reads at this time.
//! fn begin(alloc: Global, wall: u64, name: char) -> Transaction {
//!     Transaction::new(alloc, at(wall), Uuid::from_u128(u128::from(u32::from(name))))
//! }
//!
//! /// A range of the keys from `a` up to `z`.
//! fn new_range(alloc: Global) -> Result<Range, Fail> {
//!     let config = Config::new(1 << 10, 1 << 20, 2, 10_000_000_000, Timestamp::ZERO)?;
//!     Ok(Range::open(alloc, keys(alloc, "a", "z")?, config)?)
//! }
//! ```
//!
//! A write is pushed above a read of its key that was answered before:
//!
//! ```
//! let mut range = new_range(alloc)?;
//! let (mut reader, mut writer) = (begin(alloc, 20, 'A'), begin(alloc, 15, 'B'));
//! range.read(&mut reader, &keys(alloc, "k", "")?, at(20))?;
//! writer.write(put(alloc, "k", "one")?)?;
//! let outcome = range.commit(&writer, at(21))?;
//! assert_eq!(rt; Some(outcome), Timestamp::new(20, 1).map(|at| Outcome::Committed(at)));
//! ```
#![tactic(auto)]

mod fault;
pub mod laws;
mod range;
mod transaction;

pub use fault::RangeFault;
pub use mvcc_versions::{Read, Row, Write};
pub use range::{Outcome, Range, Reason};
pub use transaction::Transaction;
