//! Plays rows of calls, in the language that the head of `bindings/rows.txt` tells.
//!
//! A row is a call, ` = `, and what it answers. A line without ` = ` begins a case. A call but
//! `open` that is refused memory is made once more, and then has to be answered. Before a call
//! `seat 1` names the seat that makes it.
use crate::rows::{
    Refusal, Reported, SpanBytes, name_of, of_config, owner, span, span_bytes, time, value,
};
use std::alloc::Global;
use std::fmt::Display;
use std::test::Fail;
use tsc_cache::{Added, Config, Figures, Mark};
use tsc_span::Span;
use tsc_time::{Timestamp, Value};
use uuid::Uuid;

/// A call, and once more where it is refused memory.
#[macro_export]
macro_rules! again_reported {
    ($call:expr) => {
        match $call {
            Err($crate::rows::Refusal::Memory) => $call,
            reported => reported,
        }
    };
}

/// What a case is played on.
pub trait Table {
    /// Whether cases that begin with this word are played.
    fn plays(&self, kind: &str) -> bool;
    /// The seat of this number makes the next call, if it names one.
    fn sit(&mut self, seat: &str) -> Reported<()>;

    fn open(&mut self, config: Config, limit: u64) -> Reported<()>;
    /// Adds a mark, whose span is also there by its bytes.
    fn add(&mut self, bytes: &SpanBytes, mark: &Mark, now: Timestamp) -> Reported<Added>;

    fn add_all(&mut self, marks: &[Mark], now: Timestamp) -> Reported<Added>;

    fn get(&mut self, bytes: &SpanBytes) -> Reported<Value>;

    fn low(&mut self) -> Reported<Timestamp>;

    fn figures(&mut self) -> Reported<Figures>;

    fn earliest(&mut self, spans: &[Span], at: Timestamp, by: Uuid) -> Reported<Option<Timestamp>>;

    fn may(&mut self, spans: &[Span], at: Timestamp, by: Uuid) -> Reported<bool>;
    /// A call of this table alone.
    fn call(&mut self, words: &[&str]) -> Reported<String>;
}

/// A text of at most a hundred bytes, in one growth, so that none is made good by a smaller one.
pub fn written<D: Display + Drop>(alloc: Global, text: D) -> Reported<String> {
    let mut reported = String::with_capacity(alloc, 100)?;
    reported.write_fmt(text)?;
    Ok(reported)
}

fn reported_time(alloc: Global, time: Timestamp) -> Reported<String> {
    written(alloc, format_args!("{}.{}", time.wall(), time.logical()))
}

pub fn reported_value(alloc: Global, value: Value) -> Reported<String> {
    let time = value.time();
    written(
        alloc,
        format_args!("{}.{} {}", time.wall(), time.logical(), name_of(value)),
    )
}

pub fn reported_added(alloc: Global, added: Added) -> Reported<String> {
    let (kept, rotated) = (u8::from(added.kept), u8::from(added.rotated));
    written(alloc, format_args!("{kept} {rotated} {}", added.evicted))
}

pub fn reported(alloc: Global, answer: &str) -> Reported<String> {
    Ok(String::from_str(alloc, answer)?)
}

fn config(first: &str, max: &str, pages: &str, retention: &str, low: &str) -> Reported<Config> {
    let (first, max, pages) = (first.parse()?, max.parse()?, pages.parse()?);
    Config::new(first, max, pages, retention.parse()?, time(low)?).map_err(of_config)
}

/// The configuration and the limit of Adds of the words behind `open`.
pub fn opening(row: &str) -> Reported<(Config, u64)> {
    let [first, max, pages, retention, low, limit, ..] = crate::words(row, ' ');
    Ok((config(first, max, pages, retention, low)?, limit.parse()?))
}

/// The marks of a batch.
pub fn marks(alloc: Global, words: &[&str]) -> Reported<Vec<Mark>> {
    let mut marks = Vec::new(alloc);
    for three in words.chunks(3) {
        let [text, at, by] = *three else {
            return Err(Refusal::NoRow)
        };
        let (span, value) = (span(alloc, text)?, value(at, by)?);
        marks.push(Mark { span, value })?;
    }
    Ok(marks)
}

fn spans(alloc: Global, texts: &[&str]) -> Reported<Vec<Span>> {
    let mut spans = Vec::new(alloc);
    for text in texts {
        spans.push(span(alloc, text)?)?;
    }
    Ok(spans)
}

/// What a call answers.
fn answer<T: Table>(alloc: Global, table: &mut T, words: &[&str]) -> Reported<String> {
    match *words {
        ["open", first, max, pages, retention, low, limit] => {
            let (config, limit) = (config(first, max, pages, retention, low)?, limit.parse()?);
            table.open(config, limit)?;
            reported(alloc, "done")
        }
        ["add", text, at, by, now] => {
            let (bytes, value, now) = (span_bytes(alloc, text)?, value(at, by)?, time(now)?);
            let span = bytes.span(alloc)?;
            let mark = Mark { span, value };
            reported_added(alloc, again_reported!(table.add(&bytes, &mark, now))?)
        }
        ["batch", now, ref words @ ..] => {
            let (marks, now) = (marks(alloc, words)?, time(now)?);
            reported_added(alloc, again_reported!(table.add_all(&marks, now))?)
        }
        ["get", text] => reported_value(alloc, table.get(&span_bytes(alloc, text)?)?),
        ["low"] => reported_time(alloc, table.low()?),
        ["figures"] => {
            let all = table.figures()?;
            let (pages, rotations, nodes) = (all.pages, all.rotations, all.nodes);
            written(
                alloc,
                format_args!("{pages} {rotations} {nodes} {}", all.bytes),
            )
        }
        ["may", at, by, ref texts @ ..] => {
            let may = table.may(&spans(alloc, texts)?, time(at)?, owner(by)?)?;
            reported(alloc, if may { "yes" } else { "no" })
        }
        ["earliest", at, by, ref texts @ ..] => {
            match table.earliest(&spans(alloc, texts)?, time(at)?, owner(by)?)? {
                Some(then) => reported_time(alloc, then),
                None => reported(alloc, "none"),
            }
        }
        _ => table.call(words),
    }
}

/// Plays a row, and says whether it holds.
fn holds<T: Table>(alloc: Global, table: &mut T, call: &str, wanted: &str) -> Reported<bool> {
    let mut words = Vec::with_capacity(alloc, call.split(' ').count())?;
    for word in call.split(' ') {
        words.push(word)?;
    }
    match answer(alloc, table, &words) {
        Ok(reported) => Ok(reported.as_str() == wanted),
        Err(Refusal::NoMemory) => Err(Refusal::NoMemory),
        Err(Refusal::NoThread) => Err(Refusal::NoThread),
        Err(Refusal::Memory) => is_there(alloc),
        Err(refusal) => Ok(refusal.name() == wanted),
    }
}

/// That a row does not hold whose call was refused memory twice, where memory is there.
fn is_there(alloc: Global) -> Reported<bool> {
    let _one: Vec<u8> = Vec::with_capacity(alloc, 1)?;
    Ok(false)
}

/// Plays all cases of a table of rows, and tells how many rows there were.
pub fn play<T: Table>(alloc: Global, table: &mut T, rows: &str) -> Result<u32, Fail> {
    let (mut count, mut is_played) = (0_u32, true);
    for row in rows.lines() {
        if row.is_empty() || row.starts_with('#') {
            continue;
        }
        let Some((call, wanted)) = row.split_once(" = ") else {
            is_played = table.plays(row.split(' ').next().unwrap_or(""));
            continue;
        };
        if !is_played {
            continue;
        }
        let named = call
            .strip_prefix("seat ")
            .and_then(|rest| rest.split_once(' '));
        let (seat, call) = named.unwrap_or(("", call));
        table.sit(seat)?;
        if !holds(alloc, table, call, wanted)? {
            return Err(Fail::new(format_args!("does not hold: {row}")));
        }
        count = count.saturating_add(1);
    }
    Ok(count)
}
