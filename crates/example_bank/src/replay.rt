//! Transactions, executed one after another.
use crate::accounts::{self, amount_of};
use anyhow::Result;
use mvcc_range::{Range, Read, Row, Transaction};
use std::alloc::Global;
use std::collections::BTreeMap;
use timestamp_cache::{Key, Timestamp, Uuid};

/// What the accounts have.
#[derive(Drop)]
pub struct Contents {
    alloc: Global,
    amounts: BTreeMap<Key, Vec<u8>>,
}

/// What a replay came to: whether each transaction read what stood there at its turn, and what all
/// of them leave.
#[derive(Drop)]
pub struct Replayed {
    pub serial: bool,
    pub left: Contents,
}

/// Executes the transactions of a log in the order of their times, those of one time in the order
/// of the log.
pub fn replay(alloc: Global, log: &[Transaction]) -> Result<Replayed> {
    let mut left = Contents {
        alloc,
        amounts: BTreeMap::new(alloc),
    };
    let mut serial = true;
    for turn in 0..log.len() {
        for (place, transaction) in log.iter().enumerate() {
            if turn_of(log, place, transaction.time()) == turn {
                serial = serial && left.has_all(transaction.reads());
                left.execute(transaction)?;
            }
        }
    }
    Ok(Replayed { serial, left })
}

/// How many transactions come before one in the serial order.
fn turn_of(log: &[Transaction], place: usize, time: Timestamp) -> usize {
    let mut turn: usize = 0;
    for (i, other) in log.iter().enumerate() {
        if other.time() < time || (other.time() == time && i < place) {
            turn = turn.saturating_add(1);
        }
    }
    turn
}

impl Contents {
    /// Whether each read is just what the accounts have.
    fn has_all(&self, reads: &[Read]) -> bool {
        reads.iter().all(|read| self.has(read))
    }

    /// Whether a read is just what the accounts have.
    fn has(&self, read: &Read) -> bool {
        let mut count: usize = 0;
        for (key, value) in &self.amounts {
            if read.span.covers(key.bytes()) {
                if !is_row(read.rows.get(count), key, value) {
                    return false;
                }
                count = count.saturating_add(1);
            }
        }
        count == read.rows.len()
    }

    fn execute(&mut self, transaction: &Transaction) -> Result<()> {
        for write in transaction.writes() {
            match &write.content {
                Some(value) => {
                    self.amounts.insert(write.key.try_copy()?, value.clone()?)?;
                }
                None => {
                    self.amounts.remove(&write.key);
                }
            }
        }
        Ok(())
    }

    /// Whether a range has this as of the last time of all.
    pub fn is_in(&self, range: Range) -> Result<bool> {
        let mut range = range;
        let last = Timestamp::MAX;
        let mut reader = Transaction::new(self.alloc, last, Uuid::from_u128(0));
        range.read(&mut reader, &accounts::all(self.alloc), last)?;
        Ok(self.has_all(reader.reads()))
    }

    /// What the accounts have together.
    pub fn sum(&self) -> i64 {
        let mut sum: i64 = 0;
        for value in self.amounts.values() {
            sum = sum.saturating_add(amount_of(value).unwrap_or(0));
        }
        sum
    }
}

/// Whether this is the row of a key with this value.
fn is_row(row: Option<&Row>, key: &Key, value: &Vec<u8>) -> bool {
    match row {
        Some(row) => row.key == *key && row.value.as_slice() == value.as_slice(),
        None => false,
    }
}
