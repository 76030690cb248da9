//! A range that is filled, and a clock.
use anyhow::{Result, ensure};
use mvcc_range::{Outcome, Range, Row, Transaction, Write};
use std::alloc::Global;
use timestamp_cache::{Config, Key, Span, Timestamp, Uuid};

/// How many keys one transaction fills.
const FILLED: u64 = 100;

/// How many bytes a value has.
const VALUE: [u8; 16] = [7; 16];

/// Multiplied by this, numbers go about all keys, far from one to the next.
const STRIDE: u64 = 1_696_631;

/// A range of `keys` keys, and the time that its clock shows.
#[derive(Drop)]
pub struct Store {
    alloc: Global,
    range: Range,
    keys: u64,
    clock: u64,
}

/// The key of a number.
fn key(alloc: Global, number: u64) -> Result<Key> {
    Ok(Key::new(alloc, &number.to_be_bytes())?)
}

/// A write of a key.
fn write(alloc: Global, number: u64) -> Result<Write> {
    let key = key(alloc, number)?;
    let content = Some(Vec::from_slice(alloc, &VALUE)?);
    Ok(Write { key, content })
}

/// Pages as CockroachDB has them.
fn config() -> Result<Config> {
    Ok(Config::new(131_072, 33_554_432, 2, 10_000_000_000, Timestamp::ZERO)?)
}

impl Store {
    /// A range whose keys have a version each.
    pub fn open(alloc: Global, keys: u64) -> Result<Store> {
        let mut store = Store {
            alloc,
            range: Range::open(alloc, Span::all(alloc), config()?)?,
            keys: keys.max(1),
            clock: 0,
        };
        for first in 0..keys.div_ceil(FILLED) {
            store.fill(first.saturating_mul(FILLED))?;
        }
        Ok(store)
    }

    /// Writes some keys in a row.
    fn fill(&mut self, first: u64) -> Result<()> {
        let mut transaction = self.begin();
        for number in first..first.saturating_add(FILLED).min(self.keys) {
            transaction.write(write(self.alloc, number)?)?;
        }
        ensure!(self.commit(&transaction)?, "not filled");
        Ok(())
    }

    /// The time of the clock, which goes on by a microsecond.
    fn now(&mut self) -> Timestamp {
        self.clock = self.clock.saturating_add(1);
        let wall = self.clock.saturating_mul(1000);
        Timestamp::new(wall, 0).unwrap_or(Timestamp::MAX)
    }

    /// A transaction begins.
    pub fn begin(&mut self) -> Transaction {
        let now = self.now();
        Transaction::new(self.alloc, now, Uuid::from_u128(u128::from(now.wall())))
    }

    /// Which key stands at a place in an order that goes about all keys.
    fn number(&self, place: u64) -> u64 {
        place.wrapping_mul(STRIDE) % self.keys.max(1)
    }

    /// The span of a key.
    pub fn point(&self, place: u64) -> Result<Span> {
        Ok(Span::point(key(self.alloc, self.number(place))?))
    }

    /// The span of `count` keys.
    pub fn keys(&self, place: u64, count: u64) -> Result<Span> {
        let first = self.number(place).min(self.keys.saturating_sub(count));
        let end = first.saturating_add(count);
        Ok(Span::of(key(self.alloc, first)?, key(self.alloc, end)?)?)
    }

    /// The rows of a span.
    pub fn read(&mut self, transaction: &mut Transaction, span: &Span) -> Result<Vec<Row>> {
        let now = self.now();
        Ok(self.range.read(transaction, span, now)?)
    }

    /// A transaction that has read four keys, and is to write four.
    pub fn prepared(&mut self, place: u64) -> Result<Transaction> {
        let mut transaction = self.begin();
        for i in 0..4 {
            let place = place.wrapping_add(i);
            let span = self.point(place)?;
            let rows = self.read(&mut transaction, &span)?;
            ensure!(rows.len() == 1, "a key has no row");
            let other = self.number(place.wrapping_add(1_000_003));
            transaction.write(write(self.alloc, other)?)?;
        }
        Ok(transaction)
    }

    /// Commits a transaction, and tells whether it did.
    pub fn commit(&mut self, transaction: &Transaction) -> Result<bool> {
        let now = self.now();
        match self.range.commit(transaction, now) {
            Ok(outcome) => Ok(has_committed(outcome)),
            Err(fault) => Err(fault.into()),
        }
    }
}

/// Whether a transaction committed.
fn has_committed(outcome: Outcome) -> bool {
    match outcome {
        Outcome::Committed(_) => true,
        Outcome::Restart(_) => false,
    }
}
