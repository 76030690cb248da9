//! `bench pages NODES..` fills a page with `NODES` nodes, from 64 to 1,048,576. Then it looks up
//! and adds single keys, ranges of 16 and of 1,000 nodes and the whole page, and adds keys to
//! copies of the page. First the keys have 8 bytes, and then 24 bytes, of which they share the
//! first 16. It prints how many operations it made in a turn and the nanoseconds of one, in that
//! turn of many in which they took least.
//!
//! `bench caches NODES..` does so with caches of 1, 4 and 17 such pages.
//!
//! `bench bytes NODES..` looks up and adds known keys of a cache of one page, with keys and an
//! owner that are given as bytes, and then adds them by a start and an end, and ranges of two
//! nodes.
//!
//! `bench forms NODES..` has 1, 2 and 4 threads call each form of the cache: one lock, 64 stripes,
//! two copies, and a cache a thread. It prints how many calls they made in a second, and then what
//! Adds of 4 and of 8 threads took: half of them, 99 of 100, and the longest. Then it prints how
//! many lookups of all keys one thread makes in a second over the stripes, and how many Adds at two
//! copies beside idle seats. Of nine rounds it prints the one in the middle, the least and the
//! greatest.
//!
//! `bench` alone makes a short run and prints no times.
#![tactic(auto)]

mod bytes;
mod caches;
mod calls;
mod figure;
mod forms;
mod keys;
mod pages;
mod shared;
mod striped;
mod subject;
mod turns;

use crate::bytes::{BYTES_OPERATIONS, measure_bytes};
use crate::caches::{CACHE_OPERATIONS, PAGES, measure_cache};
use crate::figure::{Reports, print_lines};
use crate::forms::{print_forms, short_run_forms};
use crate::pages::{PAGE_OPERATIONS, measure_page};
use anyhow::{Context, Result, bail, ensure};
use std::env;
use std::sync::Wait;
use std::thread::Threads;

/// How many nodes a page has at the least.
const SMALLEST: u32 = 64;

/// How many nodes a page has at the most.
const LARGEST: u32 = 1_048_576;

/// In how many turns of a round each operation is made at each of the spans of a measurement.
const TURNS: u32 = 25;

/// The turns on a cache whose lookups look into many pages.
const CACHE_TURNS: u32 = 5;

/// The turns with keys that are given as bytes.
const BYTES_TURNS: u32 = 225;

/// The kinds of keys, by how many bytes all of a kind share.
static KINDS: [(&str, u32); 2] = [("keys of 8 bytes", 0), ("keys of 24 bytes", 16)];

/// What is printed of a measurement that was given up.
const GIVEN_UP: &str = "no memory, or a call was refused, or what was measured can't be printed";

fn main(rt: HostRuntime) -> Result<()> {
    let words: Vec<String> = env::args(&rt)?.collect(rt.alloc())?;
    // the program's name comes before them
    run(&rt, &rt, &words[words.len().min(1)..])
}

/// Measures what the words say.
fn run<R: Threads + Wait + Sync>(host: &HostRuntime, rt: &R, words: &[String]) -> Result<()> {
    let Some((word, sizes)) = words.split_first() else {
        return short_run(host, rt).context(GIVEN_UP);
    };
    for size in sizes {
        let nodes = size.parse()?;
        ensure!(
            SMALLEST <= nodes && nodes <= LARGEST,
            "a page of {SMALLEST} to {LARGEST} nodes can be measured"
        );
        measure(host, rt, word, nodes)?;
    }
    Ok(())
}

/// Measures what a word says, and prints it.
fn measure<R: Threads + Wait + Sync>(
    host: &HostRuntime,
    rt: &R,
    word: &str,
    nodes: u32,
) -> Result<()> {
    let done = match word {
        "pages" => print_pages(host, nodes, TURNS, Reports::Each),
        "caches" => print_caches(host, nodes, CACHE_TURNS, Reports::Each),
        "bytes" => print_bytes(host, nodes),
        "forms" => print_forms(host, rt, nodes),
        _ => bail!("pages, caches, bytes or forms can be measured"),
    };
    done.context(GIVEN_UP)
}

/// Measures calls that are given bytes.
fn print_bytes(rt: &HostRuntime, nodes: u32) -> Option<()> {
    let least = measure_bytes(rt, nodes, BYTES_TURNS)?;
    let head = format!(in rt.alloc(); "here, {nodes} nodes").ok()?;
    print_lines(rt, &head, Reports::Time, &BYTES_OPERATIONS, &least)
}

/// Measures pages with each kind of keys.
fn print_pages(rt: &HostRuntime, nodes: u32, turns: u32, reports: Reports) -> Option<()> {
    for (kind, prefix) in &KINDS {
        let least = measure_page(rt, nodes, *prefix, turns)?;
        let head = format!(in rt.alloc(); "{nodes} nodes, {kind}").ok()?;
        print_lines(rt, &head, reports, &PAGE_OPERATIONS, &least)?;
    }
    Some(())
}

/// Measures caches of several pages.
fn print_caches(rt: &HostRuntime, nodes: u32, turns: u32, reports: Reports) -> Option<()> {
    for pages in PAGES {
        let least = measure_cache(rt, nodes, pages, turns)?;
        let head = format!(in rt.alloc(); "{pages} x {nodes} nodes").ok()?;
        print_lines(rt, &head, reports, &CACHE_OPERATIONS, &least)?;
    }
    Some(())
}

/// Makes each operation once at each place of a small page and of small caches, and prints no
/// times.
fn short_run<R: Threads + Wait + Sync>(host: &HostRuntime, rt: &R) -> Option<()> {
    print_pages(host, SMALLEST, 1, Reports::Count)?;
    print_caches(host, SMALLEST, 1, Reports::Count)?;
    short_run_forms(host, rt, SMALLEST)
}
