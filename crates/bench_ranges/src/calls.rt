//! Calls that are timed.
use crate::store::Store;
use anyhow::{Result, ensure};
use std::time::{Clock, Instant};
use timestamp_cache::Span;

/// How many rounds there are. That which took least counts, since what else the machine has to do
/// only adds to a round.
const ROUNDS: u64 = 9;

/// What is measured.
#[derive(Clone, Copy)]
pub enum Call {
    /// A read of a key.
    Read,
    /// A scan of 100 rows.
    Scan,
    /// A commit of a transaction that has read four keys and is to write four.
    Commit,
}

/// The nanoseconds of `calls` calls, in the round in which they took least.
pub fn measure(rt: &HostRuntime, store: &mut Store, call: Call, calls: u64) -> Result<u64> {
    let mut least = u64::MAX;
    for round in 0..ROUNDS {
        let first = round.wrapping_mul(calls.wrapping_mul(4));
        least = least.min(round_of(rt, store, call, first, calls)?);
    }
    Ok(least)
}

/// The nanoseconds of the calls of a round.
fn round_of(
    rt: &HostRuntime,
    store: &mut Store,
    call: Call,
    first: u64,
    calls: u64,
) -> Result<u64> {
    let mut took: u64 = 0;
    for i in 0..calls {
        let place = first.wrapping_add(i.wrapping_mul(4));
        took = took.saturating_add(one_of(rt, store, call, place)?);
    }
    Ok(took)
}

/// The nanoseconds of one call.
fn one_of(rt: &HostRuntime, store: &mut Store, call: Call, place: u64) -> Result<u64> {
    match call {
        Call::Read => {
            let span = store.point(place)?;
            read(rt, store, &span, 1)
        }
        Call::Scan => {
            let span = store.keys(place, 100)?;
            read(rt, store, &span, 100)
        }
        Call::Commit => commit(rt, store, place),
    }
}

/// The nanoseconds since a moment.
fn since(rt: &HostRuntime, start: Instant) -> Result<u64> {
    Ok(u64::try_from(start.elapsed(rt)?.as_nanos())?)
}

/// Reads a span of `count` rows, and gives the nanoseconds of the read.
fn read(rt: &HostRuntime, store: &mut Store, span: &Span, count: usize) -> Result<u64> {
    let mut transaction = store.begin();
    let start = Instant::now(rt)?;
    let rows = store.read(&mut transaction, span)?;
    let took = since(rt, start)?;
    ensure!(rows.len() == count, "a key has no row");
    Ok(took)
}

/// Commits a transaction, and gives the nanoseconds of the commit.
fn commit(rt: &HostRuntime, store: &mut Store, place: u64) -> Result<u64> {
    let transaction = store.prepared(place)?;
    let start = Instant::now(rt)?;
    let done = store.commit(&transaction)?;
    let took = since(rt, start)?;
    ensure!(done, "a transaction has to begin again");
    Ok(took)
}
