//! How a store hands the lease of a range on: the former holder tells what it read, in a summary,
//! and the next one takes that over. It then pushes each write above the reads that the former
//! holder answered, though it answered none of them itself.
#![tactic(auto)]

ghost use Rattle.std.specs.Prelude.{◌≡◌, Some, IsOk, IfOk, OnOk, string_bytes, option_map};
ghost use Rattle.std.specs.List.{AllZip};
ghost use Rattle.timestamp_cache.specs.Words.{point};
ghost use Rattle.timestamp_cache.specs.HandOver.{Summarizes};
ghost use Rattle.example_hand_over.specs.FormerReads.{AnswersNoLess};
ghost use Rattle.example_hand_over.specs.Tables.{time_at, id_of, span_of};
ghost use Rattle.example_hand_over.specs.Texts.{time_text, is_owner, reader, reason_text, key_read_text, range_read_text, read_text, summary_text, wanted_text, pushed_text, write_text};
ghost use Rattle.example_hand_over.specs.Answered.{AnswersRead, AnswersAll, HasAll, IsPushed, IsClear};

mod lease;

use crate::lease::{Former, Next, open, read};
use anyhow::{Context, Result};
use std::alloc::{AllocError, Global};
use std::fmt;
use std::marker::Brand;
use timestamp_cache::{Cache, Config, Key, ReadSummary, Span, Timestamp, Uuid, Value, summary};

/// A read: whose, from which key, up to which other one where there is one, and when.
struct Read {
    name: char,
    from: &'static str,
    to: &'static str,
    wall: u64,
}

/// A write that is wanted: whose, of which key, and when.
struct Write {
    name: char,
    key: &'static str,
    wall: u64,
}

/// What the former holder answers, and what the next one is asked for.
#[derive(Clone, Copy)]
struct Tables {
    reads: &'static [Read],
    writes: &'static [Write],
}

/// What the former holder answers.
static READS: [Read; 3] = [
    Read {
        name: 'A',
        from: "k",
        to: "",
        wall: 20,
    },
    Read {
        name: 'B',
        from: "m",
        to: "p",
        wall: 25,
    },
    Read {
        name: 'C',
        from: "t",
        to: "",
        wall: 15,
    },
];

/// What the next holder is asked for: a write below a read, one above it, one at the time of an own
/// read, and one above all reads of its key.
static WRITES: [Write; 4] = [
    Write {
        name: 'D',
        key: "n",
        wall: 24,
    },
    Write {
        name: 'D',
        key: "n",
        wall: 26,
    },
    Write {
        name: 'A',
        key: "k",
        wall: 20,
    },
    Write {
        name: 'D',
        key: "t",
        wall: 16,
    },
];

/// The time of this wall time and no logical count, or the latest one where that is out of range.
fn at(wall: u64) -> Timestamp
    ensures { result ≡ time_at wall }
{
    Timestamp::new(wall, 0).unwrap_or(Timestamp::MAX)
}

/// A time as it is printed.
#[derive(Clone, Copy)]
struct Shown(Timestamp);

impl fmt::Display for Shown {
    ghost output = { λ shown. Some (time_text shown.0) };

    fn fmt<W: fmt::Write>(&self, f: &mut fmt::Formatter<W>) -> fmt::Result {
        let (wall, logical) = (self.0.wall(), self.0.logical());
        write!(f, "{wall}.{logical}")
    }
}

/// The id of a transaction.
fn id_of(name: char) -> Uuid
    ensures { result ≡ id_of name }
{
    Uuid::from_u128(u128::from(u32::from(name)))
}

/// The keys from one up to another, or the one alone where the other is empty.
fn span_of(alloc: Global, from: &str, to: &str) -> Result<Span>
    ensures { IfOk result (λ span. span_of from.now to.now ≡ Some span) }
{
    let start = Key::new(alloc, from.as_bytes())?;
    let end = Key::new(alloc, to.as_bytes())?;
    Ok(Span::of(start, end)?)
}

/// How the holders set their caches up: nothing is known of reads before some time.
fn config(low_water: Timestamp) -> Result<Config>
    ensures { IfOk result (λ config. config.low_water ≡ low_water) }
{
    Ok(Config::new(1 << 10, 1 << 20, 2, 10_000_000_000, low_water)?)
}

/// Whether an answer is a read by the transaction of this id.
fn is_by(answer: Value, id: Uuid) -> bool
    ensures { result ≡ is_owner answer.owner id }
{
    answer.owner() == Some(id)
}

/// The read whose transaction an answer names: the first one of that id.
fn reader(reads: &[Read], answer: Value) -> Option<&Read>
    ensures { option_map (λ read. read.now) result ≡ reader answer.owner reads.now }
{
    for read in reads {
        if is_by(answer, id_of(read.name)) {
            return Some(read);
        }
    }
    None
}

/// What a key was read by, as the cache answers.
fn because(alloc: Global, key: &str, answer: Value, reads: &[Read]) -> Result<String, AllocError>
    ensures { IfOk result (λ text. string_bytes text ≡ reason_text key.now answer
        (reader answer.owner reads.now)) }
{
    let time = Shown(answer.time());
    match reader(reads, answer) {
        Some(read) => {
            let name = read.name;
            format!(in alloc; "\"{key}\" was read at {time} by {name}")
        }
        None => format!(in alloc; "\"{key}\" may have been read up to {time}"),
    }
}

/// The line that tells of a read.
fn read_line(alloc: Global, read: &Read) -> Result<String, AllocError>
    ensures { IfOk result (λ text. string_bytes text ≡ read_text read.now) }
{
    if read.to.is_empty() {
        key_read_line(alloc, read)
    } else {
        range_read_line(alloc, read)
    }
}

/// The line that tells of a read of one key.
fn key_read_line(alloc: Global, read: &Read) -> Result<String, AllocError>
    ensures { IfOk result (λ text. string_bytes text ≡ key_read_text read.now) }
{
    let (name, from) = (read.name, read.from);
    let time = Shown(at(read.wall));
    format!(in alloc; "{name} read \"{from}\" at {time}")
}

/// The line that tells of a read from one key up to another.
fn range_read_line(alloc: Global, read: &Read) -> Result<String, AllocError>
    ensures { IfOk result (λ text. string_bytes text ≡ range_read_text read.now) }
{
    let (name, from, to) = (read.name, read.from, read.to);
    let time = Shown(at(read.wall));
    format!(in alloc; "{name} read \"{from}\" up to \"{to}\" at {time}")
}

/// The line that tells of a summary.
fn summary_line(
    alloc: Global,
    most: usize,
    floor: Timestamp,
    marks: usize,
) -> Result<String, AllocError>
    ensures { IfOk result (λ text. string_bytes text ≡ summary_text most floor marks) }
{
    let floor = Shown(floor);
    format!(in alloc; "handed on in at most {most} marks: a floor of {floor} and {marks} marks")
}

/// The line that tells of a write, and of one that is pushed also by what, as the cache answers.
fn write_line(
    alloc: Global,
    write: &Write,
    reported: Timestamp,
    answer: Value,
    reads: &[Read],
) -> Result<String, AllocError>
    ensures { IfOk result (λ text. string_bytes text ≡ write_text write.now reported answer
        reads.now) }
{
    if at(write.wall) < reported {
        let why = because(alloc, write.key, answer, reads)?;
        pushed(alloc, write, reported, &why)
    } else {
        as_wanted(alloc, write, reported)
    }
}

/// The line that tells of a write at the time that it wants.
fn as_wanted(alloc: Global, write: &Write, reported: Timestamp) -> Result<String, AllocError>
    ensures { IfOk result (λ text. string_bytes text ≡ wanted_text write.now reported) }
{
    let (name, key) = (write.name, write.key);
    let reported = Shown(reported);
    format!(in alloc; "{name} may write \"{key}\" at {reported}, as it wanted")
}

/// The line that tells of a write that is pushed to a later time.
fn pushed(alloc: Global, write: &Write, to: Timestamp, why: &str) -> Result<String, AllocError>
    ensures { IfOk result (λ text. string_bytes text ≡ pushed_text write.now to why.now) }
{
    let (from, to) = (Shown(at(write.wall)), Shown(to));
    let (name, key) = (write.name, write.key);
    format!(in alloc; "{name} wanted to write \"{key}\" at {from}, is pushed to {to}: {why}")
}

/// Prints a line, where there was memory for it.
fn print<R: Print>(rt: &R, line: Result<String, AllocError>) -> Result<()>
    ensures { IsOk result → IsOk line }
{
    let line = line?;
    println!(rt; "{line}")?;
    Ok(())
}

/// The former holder answers a read.
fn read_one(alloc: Global, cache: &mut Cache, row: &Read) -> Result<()>
    ensures { OnOk result (AnswersRead row.now cache.old cache.new) }
{
    let span = span_of(alloc, row.from, row.to)?;
    read(cache, &span, at(row.wall), id_of(row.name))?;
    Ok(())
}

/// The former holder answers its reads, one after another.
fn read_all<R: Print>(rt: &R, alloc: Global, cache: &mut Cache, reads: &[Read]) -> Result<()>
    ensures { OnOk result (AnswersAll cache.old reads.now cache.new) }
{
    for row in reads {
        read_one(alloc, cache, row)?;
        print(rt, read_line(alloc, row))?;
    }
    Ok(())
}

/// What the former holder tells of its range.
fn reported<R: Print>(
    rt: &R,
    alloc: Global,
    cache: &Cache,
    range: &Span,
    most: usize,
) -> Result<ReadSummary>
    ensures { IfOk result (λ reported. Summarizes cache.now range.now most reported) }
{
    let reported = summary(alloc, cache, range, most)?;
    let line = summary_line(alloc, most, reported.floor, reported.marks.len());
    print(rt, line)?;
    Ok(reported)
}

/// The next holder is asked for a write, and tells at which time that may be laid down.
fn ask<F: Former, R: Print>(
    rt: &R,
    alloc: Global,
    next: &Next<F>,
    write: &Write,
    reads: &[Read],
) -> Result<Timestamp>
    ensures { IfOk result (λ at. IsPushed F.cache F.range write.now at) }
{
    let span = span_of(alloc, write.key, "")?;
    ask_on(rt, alloc, next, write, &span, reads)
}

/// The next holder is asked for a write whose key has this span, and tells at which time that may
/// be laid down.
fn ask_on<F: Former, R: Print>(
    rt: &R,
    alloc: Global,
    next: &Next<F>,
    write: &Write,
    span: &Span,
    reads: &[Read],
) -> Result<Timestamp>
    requires { span.now ≡ point write.now.key.now }
    ensures { IfOk result (λ at. IsPushed F.cache F.range write.now at) }
{
    let reported = next.write(span, at(write.wall), id_of(write.name));
    let reported = reported.context("no time is late enough")?;
    print(
        rt,
        write_line(alloc, write, reported, next.answer(span), reads),
    )?;
    Ok(reported)
}

/// The next holder is asked for all writes, and tells at which times these may be laid down, in
/// their order.
fn ask_all<F: Former, R: Print>(
    rt: &R,
    alloc: Global,
    next: &Next<F>,
    tables: Tables,
) -> Result<Vec<Timestamp>>
    ensures { IfOk result (λ reported. AllZip (IsPushed F.cache F.range) tables.writes.now
        reported.items) }
{
    let mut all = Vec::new(alloc);
    for write in tables.writes {
        let reported = ask(rt, alloc, next, write, tables.reads)?;
        all.push(reported)?;
    }
    Ok(all)
}

/// The next holder, who has answered nothing, and takes over what the former one tells in at most
/// `most` marks.
fn next_of<F: Former, R: Print>(
    rt: &R,
    alloc: Global,
    cache: &Cache,
    range: &Span,
    most: usize,
) -> Result<Next<F>>
    requires cache { cache.now ≡ F.cache }
    requires range { range.now ≡ F.range }
    ensures { IfOk result (λ next. AnswersNoLess F.cache next.cache F.range) }
{
    let config = config(Timestamp::ZERO)?;
    let reported = reported(rt, alloc, cache, range, most)?;
    Next::<F>::take_over(alloc, config, &reported, at(30))
}

/// Hands the lease on, in at most `most` marks, to a holder that is then asked for all writes.
fn hand_on<F: Former, R: Print>(
    rt: &R,
    alloc: Global,
    cache: &Cache,
    range: &Span,
    most: usize,
    tables: Tables,
) -> Result<Vec<Timestamp>>
    requires cache { cache.now ≡ F.cache }
    requires range { range.now ≡ F.range }
    ensures { IfOk result (λ reported. AllZip (IsPushed F.cache F.range) tables.writes.now
        reported.items) }
{
    let next = next_of::<F, R>(rt, alloc, cache, range, most)?;
    ask_all(rt, alloc, &next, tables)
}

/// Hands the lease on twice, each time to another holder: first there is room for all that was
/// read, and then for two marks, so that the floor is the time of the latest read that wasn't told.
fn hand_on_twice<F: Former, R: Print>(
    rt: &R,
    alloc: Global,
    cache: &Cache,
    range: &Span,
    tables: Tables,
) -> Result<(Vec<Timestamp>, Vec<Timestamp>)>
    requires cache { cache.now ≡ F.cache }
    requires range { range.now ≡ F.range }
    ensures first { IfOk result (λ reported. AllZip (IsPushed F.cache F.range) tables.writes.now
        reported.0.items) }
    ensures second { IfOk result (λ reported. AllZip (IsPushed F.cache F.range) tables.writes.now
        reported.1.items) }
{
    let first = hand_on::<F, R>(rt, alloc, cache, range, 8, tables)?;
    let second = hand_on::<F, R>(rt, alloc, cache, range, 2, tables)?;
    Ok((first, second))
}

/// The former holder's cache, whose lease began at 10, once it has answered its reads.
fn former<R: Print>(rt: &R, alloc: Global, reads: &[Read]) -> Result<Cache>
    ensures { IfOk result (λ cache. HasAll cache reads.now) }
{
    let mut cache = open(alloc, config(at(10))?)?;
    read_all(rt, alloc, &mut cache, reads)?;
    Ok(cache)
}

/// The former holder answers its reads, and the lease of the range is handed on twice. The next
/// holders know of nothing but what they are told.
fn run<R: Print>(
    rt: &R,
    alloc: Global,
    range: &Span,
    tables: Tables,
) -> Result<(Vec<Timestamp>, Vec<Timestamp>)>
    ensures first { IfOk result (λ reported. AllZip (IsClear tables.reads.now range.now)
        tables.writes.now reported.0.items) }
    ensures second { IfOk result (λ reported. AllZip (IsClear tables.reads.now range.now)
        tables.writes.now reported.1.items) }
{
    let cache = former(rt, alloc, tables.reads)?;
    hand_on_twice::<Brand, R>(rt, alloc, &cache, range, tables)
}

/// A `main` can have no clause: `run` says what comes of the writes.
fn main(rt: HostRuntime) -> Result<()> {
    let tables = Tables {
        reads: &READS,
        writes: &WRITES,
    };
    let range = span_of(rt.alloc(), "a", "z")?;
    let _reported = run(&rt, rt.alloc(), &range, tables)?;
    Ok(())
}
