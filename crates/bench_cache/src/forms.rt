//! Each form of the cache, under the same calls of several threads.
use crate::caches::filled;
use crate::calls::{Measures, Row, Trial};
use crate::figure::{Rounds, Spread, Times};
use crate::keys::PLACES;
use crate::shared::{by_seats, gathered};
use crate::striped::by_stripes;
use std::sync::Wait;
use std::thread::{Threads, map_indices};
use tsc_span::Span;

/// A form of the cache.
#[derive(Clone, Copy)]
enum Form {
    /// A striped cache with one stripe.
    Lock,
    /// A striped cache.
    Stripes,
    /// A shared cache.
    Copies,
    /// A cache for each thread, as of a range of its own.
    Own,
}

/// The forms with their names.
static FORMS: [(&str, Form); 4] = [
    ("one lock", Form::Lock),
    ("64 stripes", Form::Stripes),
    ("two copies", Form::Copies),
    ("a cache a thread", Form::Own),
];

/// How many stripes a striped cache has.
const STRIPES: u32 = 64;

/// How many threads make calls whose rate is measured.
static THREADS: [u32; 3] = [1, 2, 4];

/// How many of 100 calls are lookups then.
static LOOKUPS: [u64; 4] = [100, 95, 50, 5];

/// Threads whose Adds are timed, each by itself. Half of the calls are Adds.
static CROWDS: [Row; 2] = [(4, 0, 50, 120), (8, 0, 50, 60)];

/// How many seats of a shared cache are idle beside one that adds.
static IDLE: [u32; 4] = [0, 1, 7, 63];

/// The rows of a short run.
static SHORT: [Row; 2] = [(1, 63, 50, 1), (4, 0, 50, 1)];

/// Prints how many calls threads make in a second to each form of the cache, and what their Adds
/// take.
pub fn print_forms<R: Threads + Wait + Sync>(host: &HostRuntime, rt: &R, nodes: u32) -> Option<()> {
    for threads in THREADS {
        for lookups in LOOKUPS {
            let trial = Trial::new(nodes, (threads, 0, lookups, 0), Measures::Rate);
            print_rates(host, rt, trial)?;
        }
    }
    for row in &CROWDS {
        for (name, form) in &FORMS {
            let trial = Trial::new(nodes, *row, Measures::EachAdd);
            let times = Times::of(measure(host, rt, *form, trial)?);
            print_adds(host, name, trial, &times)?;
        }
    }
    print_wide(host, rt, nodes)?;
    print_idle(host, rt, nodes)
}

/// Makes calls to each form in turns, with new caches in each round, and prints their rates.
fn print_rates<R: Threads + Wait + Sync>(host: &HostRuntime, rt: &R, trial: Trial) -> Option<()> {
    let mut lock: Rounds = [0; 9];
    let mut stripes: Rounds = [0; 9];
    let mut copies: Rounds = [0; 9];
    let mut own: Rounds = [0; 9];
    for round in 0..9 {
        lock[round] = rate(host, rt, Form::Lock, trial)?;
        stripes[round] = rate(host, rt, Form::Stripes, trial)?;
        copies[round] = rate(host, rt, Form::Copies, trial)?;
        own[round] = rate(host, rt, Form::Own, trial)?;
    }
    let (nodes, threads, lookups) = (trial.nodes, trial.seats, trial.lookups);
    for ((name, _), rounds) in FORMS.iter().zip([lock, stripes, copies, own]) {
        let spread = Spread::of(rounds);
        println!(host;
            "{nodes} nodes, {name}, {threads} threads, {lookups} lookups of 100: {spread} calls a second"
        ).ok()?;
    }
    Some(())
}

/// Prints how many lookups of all keys a thread makes in a second, each of them over all stripes.
fn print_wide<R: Threads + Wait + Sync>(host: &HostRuntime, rt: &R, nodes: u32) -> Option<()> {
    let trial = Trial::new(nodes, (1, 0, 100, 0), Measures::Rate);
    let wide = trial
        .keys()
        .spans(host.alloc(), PLACES, nodes.saturating_sub(1))?;
    let mut rounds: Rounds = [0; 9];
    for round in 0..9 {
        rounds[round] = sum(&by_stripes(host, rt, trial, &wide, STRIPES)?);
    }
    let spread = Spread::of(rounds);
    println!(host;
        "{nodes} nodes, {STRIPES} stripes, 1 thread: {spread} lookups of all keys a second"
    ).ok()
}

/// Prints how many Adds a seat of a shared cache makes in a second beside seats that nobody uses.
fn print_idle<R: Threads + Wait + Sync>(host: &HostRuntime, rt: &R, nodes: u32) -> Option<()> {
    for idle in IDLE {
        let trial = Trial::new(nodes, (1, idle, 0, 0), Measures::Rate);
        let mut rounds: Rounds = [0; 9];
        for round in 0..9 {
            rounds[round] = rate(host, rt, Form::Copies, trial)?;
        }
        let spread = Spread::of(rounds);
        println!(host;
            "{nodes} nodes, two copies, 1 thread and {idle} idle: {spread} Adds a second"
        ).ok()?;
    }
    Some(())
}

/// How many calls all threads together make in a second.
fn rate<R: Threads + Wait + Sync>(
    host: &HostRuntime,
    rt: &R,
    form: Form,
    trial: Trial,
) -> Option<u64> {
    Some(sum(&measure(host, rt, form, trial)?))
}

/// What some rates come to together.
fn sum(rates: &[u64]) -> u64 {
    let mut all: u64 = 0;
    for rate in rates {
        all = all.saturating_add(*rate);
    }
    all
}

/// What is measured of the calls of threads to a form of the cache.
fn measure<R: Threads + Wait + Sync>(
    host: &HostRuntime,
    rt: &R,
    form: Form,
    trial: Trial,
) -> Option<Vec<u64>> {
    let spans = trial.keys().spans(host.alloc(), PLACES, 0)?;
    match form {
        Form::Lock => by_stripes(host, rt, trial, &spans, 1),
        Form::Stripes => by_stripes(host, rt, trial, &spans, STRIPES),
        Form::Copies => by_seats(host, rt, trial, &spans),
        Form::Own => by_own(host, rt, trial, &spans),
    }
}

/// What is measured of the calls of threads, each to a cache of its own.
fn by_own<R: Threads + Wait + Sync>(
    host: &HostRuntime,
    rt: &R,
    trial: Trial,
    spans: &[Span],
) -> Option<Vec<u64>> {
    let reported = map_indices(
        rt,
        host.alloc(),
        trial.seats as usize,
        &|_| {
            let mut cache = filled(host.alloc(), trial.keys(), 1, false)?;
            trial.measure(host, &mut cache, spans, 0)
        },
    );
    gathered(host.alloc(), reported.ok()?)
}

/// Prints what Adds took of which each was timed by itself.
fn print_adds(host: &HostRuntime, name: &str, trial: Trial, times: &Times) -> Option<()> {
    let (nodes, threads, lookups) = (trial.nodes, trial.seats, trial.lookups);
    let (count, half, most, longest) = (
        times.count(),
        times.behind(500),
        times.behind(990),
        times.longest(),
    );
    println!(host;
        "{nodes} nodes, {name}, {threads} threads, {lookups} lookups of 100: of {count} Adds half took {half} ns, 99 of 100 {most} ns, the longest {longest} ns"
    ).ok()
}

/// Makes calls of each kind to each form, and prints how many Adds there were.
pub fn short_run_forms<R: Threads + Wait + Sync>(
    host: &HostRuntime,
    rt: &R,
    nodes: u32,
) -> Option<()> {
    for row in &SHORT {
        for (name, form) in &FORMS {
            let trial = Trial::new(nodes, *row, Measures::EachAdd);
            let adds = measure(host, rt, *form, trial)?.len();
            let threads = trial.seats;
            println!(host; "{nodes} nodes, {name}, {threads} threads: {adds} Adds").ok()?;
        }
    }
    Some(())
}
