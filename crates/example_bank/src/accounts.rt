//! The accounts: each teller's cash, four current accounts in two pairs, and those that tellers
//! open.
use anyhow::{Context, Result};
use mvcc_range::Row;
use std::alloc::Global;
use timestamp_cache::{Key, Span};

pub const TELLERS: usize = 4;

/// What a teller has in cash at first.
pub const CASH: i64 = 200;

/// What a current account has at first. A pair of them may not have less than nothing together.
pub const CURRENT: i64 = 100;

/// What all accounts have together.
pub const ALL: i64 = (CASH + CURRENT) * TELLERS as i64;

/// A teller's cash.
pub fn cash(alloc: Global, teller: usize) -> Result<Key> {
    named(alloc, b"cash/", teller)
}

/// A teller's current account.
pub fn current(alloc: Global, teller: usize) -> Result<Key> {
    named(alloc, b"current/", teller)
}

/// An account that tellers opened, by how many there were.
pub fn opened(alloc: Global, number: usize) -> Result<Key> {
    named(alloc, b"opened/", number)
}

/// The pair of current accounts that a teller's is one of.
pub fn pair(alloc: Global, teller: usize) -> Result<Span> {
    let first = teller - teller % 2;
    Ok(Span::of(
        current(alloc, first)?,
        current(alloc, first.saturating_add(2))?,
    )?)
}

/// All accounts that tellers opened.
pub fn all_opened(alloc: Global) -> Result<Span> {
    Ok(Span::of(Key::new(alloc, b"opened/")?, Key::new(alloc, b"opened0")?)?)
}

/// All accounts.
pub fn all(alloc: Global) -> Span {
    Span::all(alloc)
}

/// A kind of account and a digit.
fn named(alloc: Global, kind: &[u8], number: usize) -> Result<Key> {
    let mut name = Vec::from_slice(alloc, kind)?;
    name.push(b'0' + (number % 10) as u8)?;
    Ok(Key::new(alloc, &name)?)
}

/// What an account has.
pub fn amount_of(value: &[u8]) -> Result<i64> {
    let bytes: [u8; 8] = value.try_into().ok().context("no amount")?;
    Ok(i64::from_le_bytes(bytes))
}

/// What some accounts have together.
pub fn sum_of(rows: &[Row]) -> Result<i64> {
    let mut sum: i64 = 0;
    for row in rows {
        sum = sum.saturating_add(amount_of(row.value.as_slice())?);
    }
    Ok(sum)
}
