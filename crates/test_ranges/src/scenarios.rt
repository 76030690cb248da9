//! What transactions read and when they commit, row by row. Transactions are numbered in the
//! order in which they begin. A time is as `20.7`, with a logical count, and `20` is `20.0`.
//!
//! | Row | What is done, and answered |
//! |---|---|
//! | `begin 1 20` | A transaction of id 1 begins, at 20. |
//! | `read 1 a..c -> a=1 b=2`, `read 1 d` | It reads these rows from a up to c, or of d alone. |
//! | `put 1 a one`, `put 1 a` | It writes a key, and deletes it. |
//! | `commit 1 -> at 20.1` | It commits at this time. |
//! | `commit 1 -> changed 20.1`, `commit 1 -> no time` | It restarts, pushed there or nowhere. |
//! | `hand_on wide 9` | The range is handed on to a cache of wide pages, in 9 marks at most. |
//! | `collect 25` | What no read from 25 on can see is dropped. |
//!
//! A read or a commit before that time answers `too early`. What else is refused answers the
//! fault's message.
use anyhow::{Context, Result, bail, ensure};
use mvcc_range::{Outcome, Range, RangeFault, Reason, Transaction, Write};
use std::alloc::Global;
use std::fmt::InlineText;
use std::str;
use std::test::Fail;
use test_support::{at, words};
use timestamp_cache::{Config, Key, Span, Uuid};
use tsc_time::Timestamp;

/// What one transaction writes at first.
const FIRST: &str = "begin 9 10
put 0 a 1
put 0 c 3
put 0 b 2
commit 0 -> at 10.0";

const SCENARIOS: &str = "# rows are in order, as of a time, and a deletion is a version
begin 1 20
read 1 a..z -> a=1 b=2 c=3
read 1 aa..c -> b=2
read 1 d..z
put 1 b
commit 1 -> at 20.0
begin 2 9
read 2 a..z
begin 3 15
read 3 a..z -> a=1 b=2 c=3
put 3 b late
commit 3 -> changed 20.1
# who is pushed refreshes its reads, and restarts where these have changed
begin 1 20
begin 2 20
read 1 a..c -> a=1 b=2
read 2 a..c -> a=1 b=2
put 1 a one
put 2 b two
commit 1 -> at 20.1
commit 2 -> changed 20.2
# a new lease minds the reads of the old one, by marks and by a floor
begin 1 30
read 1 a..c -> a=1 b=2
hand_on wide 100
begin 2 20
put 2 c new
commit 2 -> at 20.0
hand_on wide 0
begin 3 20
put 3 c newer
commit 3 -> at 30.1
# a transaction sees its own writes, and the last of each key is committed
begin 1 20
put 1 b own
put 1 c
put 1 a first
put 1 a second
read 1 a..z -> a=second b=own
begin 2 30
read 2 b -> b=2
commit 1 -> at 30.1
# old versions go, and nobody reads or commits where they were
begin 1 20
put 1 b new
commit 1 -> at 20.0
begin 2 24
read 2 a..z -> a=1 b=new c=3
collect 25
collect 22
read 2 a..z -> too early
commit 2 -> too early
begin 3 25
read 3 a..z -> a=1 b=new c=3
# no time is free behind the last one
begin 1 9223372036854775807.2147483647
put 1 b last
begin 2 40
put 2 b new
commit 1 -> at 9223372036854775807.2147483647
commit 2 -> no time
# what is outside is refused, and what no page takes
begin 1 20
read 1 a..zz -> outside of the range
read 1 m-with-more-letters-than-a-narrow-page-takes
hand_on narrow 100 -> the span is too large for a page
hand_on wide 0
hand_on narrow 100
read 1 m-with-more-letters-than-a-narrow-page-takes -> the span is too large for a page
put 1 b new
commit 1 -> the span is too large for a page
put 1 z beside
commit 1 -> outside of the range";

/// A transaction is pushed by a later read, and one by what a new lease was told. A deletion is
/// committed, and versions are dropped. The pages are small, so that they rotate.
pub const SMALL: &str = "begin 1 10
put 0 a 1
put 0 b 2
put 0 d 4
commit 0 -> at 10.0
begin 2 20
read 1 a..g -> a=1 b=2 d=4
put 1 b 5
read 1 a..c -> a=1 b=5
begin 3 30
read 2 b..d -> b=2
commit 1 -> at 30.1
hand_on small 1
begin 4 25
put 3 c 9
commit 3 -> at 30.2
collect 30
begin 5 24
read 4 a..g -> too early
begin 6 40
read 5 a..g -> a=1 b=5 c=9 d=4
put 5 a
read 5 a..b
commit 5 -> at 40.0
begin 7 50
read 6 a..g -> b=5 c=9 d=4";

/// A text that takes no memory, so that no answer is lost for want of it.
pub type Text = InlineText<120>;

/// A range, and the transactions that have begun there.
pub type Scene = (Range, Vec<Transaction>);

pub fn open(alloc: Global, keys: &str, pages: &str) -> Result<Scene> {
    let range = Range::open(alloc, span(alloc, keys)?, config(pages)?)?;
    Ok((range, Vec::new(alloc)))
}

/// The configuration of a cache by its pages. Small ones rotate, and narrow ones take no long key.
pub fn config(pages: &str) -> Result<Config> {
    Ok(match pages {
        "small" => Config::new(128, 256, 1, 4, at(5, 0))?,
        "narrow" => Config::new(72, 72, 2, 1000, at(5, 0))?,
        _ => Config::new(4096, 4096, 2, 1000, at(5, 0))?,
    })
}

pub fn time(text: &str) -> Result<Timestamp> {
    let (wall, logical) = text.split_once('.').unwrap_or((text, "0"));
    Timestamp::new(wall.parse()?, logical.parse()?).context("no such time")
}

/// The span of `a..c`, or of `d` alone.
pub fn span(alloc: Global, keys: &str) -> Result<Span> {
    let (from, to) = keys.split_once("..").unwrap_or((keys, ""));
    let from = Key::new(alloc, from.as_bytes())?;
    Ok(Span::of(from, Key::new(alloc, to.as_bytes())?)?)
}

/// A transaction whose read is refused has none more than before.
fn read(range: &mut Range, reader: &mut Transaction, span: &Span) -> Result<Text, RangeFault> {
    let count = reader.reads().len();
    let mut answer = Text::new();
    match range.read(reader, span, at(30, 0)) {
        Err(_) if reader.reads().len() != count => answer = Text::of("a refused read is kept"),
        rows => for row in &rows? {
            let key = str::from_utf8(row.key.bytes()).unwrap_or("no text");
            let value = str::from_utf8(&row.value).unwrap_or("no text");
            answer = answer.and(format_args!("{key}={value} "), 120);
        }
    }
    Ok(answer)
}

/// The answer of a commit.
fn text_of(outcome: Outcome) -> Text {
    let (word, at) = match outcome {
        Outcome::Committed(at) => ("at", at),
        Outcome::Restart(reason) => match reason {
            Reason::Changed(at) => ("changed", at),
            Reason::NoTime => return Text::of("no time"),
        },
    };
    Text::of(format_args!("{word} {}.{}", at.wall(), at.logical()))
}

fn commit(range: &mut Range, writer: &Transaction) -> Result<Text, RangeFault> {
    match range.commit(writer, at(30, 0)) {
        Ok(outcome) => Ok(text_of(outcome)),
        Err(fault) => Err(fault),
    }
}

/// Makes a call.
pub fn answer((range, begun): &mut Scene, call: &str) -> Result<Text> {
    let (alloc, mut reported) = (*begun.allocator(), Ok(Text::new()));
    let [verb, first, second, third, more, ..] = words(call, ' ');
    match (verb, begun.get_mut(first.parse().unwrap_or(usize::MAX))) {
        ("", _) => {}
        _ if !more.is_empty() => bail!("too many words"),
        ("read", Some(reader)) => reported = read(range, reader, &span(alloc, second)?),
        ("commit", Some(writer)) => reported = commit(range, writer),
        ("put", Some(writer)) => {
            let content = Vec::from_slice(alloc, third.as_bytes())?;
            let content = (!third.is_empty()).then_some(content);
            let key = Key::new(alloc, second.as_bytes())?;
            writer.write(Write { key, content })?;
        }
        ("begin", _) => {
            let id = Uuid::from_bytes([first.parse()?; 16]);
            begun.push(Transaction::new(alloc, time(second)?, id))?;
        }
        ("hand_on", _) => range
            .hand_on(config(first)?, second.parse()?, at(30, 0))
            .map_err(RangeFault::from)?,
        ("collect", _) => range.collect_garbage(time(first)?),
        _ => bail!("no such call"),
    }
    match reported {
        Err(RangeFault::TooEarly) => Ok(Text::of("too early")),
        reported => Ok(reported?),
    }
}

/// Plays scenarios, each in a scene of its own behind some first rows. What stands behind a `#` is
/// a scenario's name. A call that is refused memory is made again.
pub fn play(alloc: Global, pages: &str, first: &str, scenarios: &str) -> Result<()> {
    for scenario in scenarios.split('#') {
        let name = scenario.lines().next().unwrap_or("");
        let mut scene = open(alloc, "a..z", pages).or_else(|_| open(alloc, "a..z", pages))?;
        for row in first.lines().chain(scenario.lines()) {
            let (call, wanted) = row.split_once(" -> ").unwrap_or((row, ""));
            let mut reported = answer(&mut scene, call).unwrap_or_else(Text::of);
            if reported.as_str().contains("memory") {
                reported = answer(&mut scene, call).unwrap_or_else(Text::of);
            }
            let reported = reported.as_str().trim_end();
            ensure!(reported == wanted, "{row}, behind:{name}: {reported}");
        }
    }
    Ok(())
}

#[test]
fn scenarios_go_as_said(rt: HostRuntime) -> Result<(), Fail> {
    Ok(play(rt.alloc(), "wide", FIRST, SCENARIOS)?)
}
