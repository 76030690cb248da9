//! `bench_ranges VERSIONS..` fills a range with `VERSIONS` keys, each with one version. Then it
//! reads single keys, scans 100 rows, and commits transactions that read four keys and write four.
//! It prints the nanoseconds of one such call, in that round of nine in which they took least.
//!
//! `bench_ranges` alone makes a short run and prints no times.
#![tactic(auto)]

mod calls;
mod store;

use crate::calls::{Call, measure};
use crate::store::Store;
use anyhow::Result;
use std::env;

/// How many versions the range of a short run has.
const FEW: u64 = 300;

/// How many calls of a kind a round makes.
const MANY_CALLS: u64 = 1000;

/// The number of calls in a short run.
const FEW_CALLS: u64 = 10;

/// What is measured.
const CALLS: [(&str, Call); 3] = [
    ("a read of a key", Call::Read),
    ("a scan of 100 rows", Call::Scan),
    ("a commit of 4 reads and 4 writes", Call::Commit),
];

/// Measures each call on a range of `versions` versions, and prints what one takes.
fn print_times(rt: &HostRuntime, versions: u64) -> Result<()> {
    let mut store = Store::open(rt.alloc(), versions)?;
    for (name, call) in CALLS {
        let least = measure(rt, &mut store, call, MANY_CALLS)?;
        println!(rt; "{versions} versions, {name}: {} ns", least / MANY_CALLS)?;
    }
    Ok(())
}

/// Makes each call a few times, and prints how often.
fn short_run(rt: &HostRuntime) -> Result<()> {
    let mut store = Store::open(rt.alloc(), FEW)?;
    for (name, call) in CALLS {
        measure(rt, &mut store, call, FEW_CALLS)?;
        println!(rt; "{FEW} versions, {name}: {FEW_CALLS} calls in a round")?;
    }
    Ok(())
}

fn main(rt: HostRuntime) -> Result<()> {
    let words: Vec<String> = env::args(&rt)?.collect(rt.alloc())?;
    if words.len() < 2 {
        return short_run(&rt);
    }
    // the program's name comes first
    for word in &words[1..] {
        print_times(&rt, word.parse()?)?;
    }
    Ok(())
}
