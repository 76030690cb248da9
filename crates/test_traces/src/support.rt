//! The bytes that texts of rows stand for, and streams over memory.

pub(crate) use crate::examples::example;
pub(crate) use crate::watch::Watch;
use std::alloc::AllocGlobal;
pub(crate) use std::alloc::{AllocError, Global};
use std::ops::Range;
use std::sync::Wait;
pub(crate) use std::test::Fail;
use std::thread::Threads;
pub(crate) use test_support::{all_hold, words};
pub(crate) use tsc_check::*;
pub(crate) use tsc_commands::*;
use tsc_stream::fault_injection::{FaultPlan, FaultyStream};
pub(crate) use tsc_stream::*;
pub(crate) use tsc_trace::*;

/// What a trace says before its lists: of usual pages, of those that are large enough for any span,
/// and of those that have room for short keys alone.
pub(crate) const HEAD: &str =
    r#""page_first":132,"page_max":132,"min_pages":2,"retention":10,"low_water":[5,0]"#;

pub(crate) const WIDE: &str =
    r#""page_first":132,"page_max":8256,"min_pages":2,"retention":10,"low_water":[5,0]"#;

pub(crate) const NARROW: &str =
    r#""page_first":66,"page_max":264,"min_pages":2,"retention":10,"low_water":[5,0]"#;

/// The words of a row, which stand between bars.
pub(crate) type Cells<'r> = [&'r str; 9];

pub(crate) type Holds = Result<bool, Fail>;

pub(crate) trait Runtime: AllocGlobal + Threads + Wait + Sync {}

impl<R: AllocGlobal + Threads + Wait + Sync> Runtime for R {}

/// The numbers of `M..N` or of `N`.
fn numbers(text: &str) -> Range<u32> {
    let (from, to) = text.split_once("..").unwrap_or(("0", text));
    from.parse().unwrap_or(0)..to.parse().unwrap_or(0)
}

/// A table in which a row that begins with `№M..N|` has become a row of each number from M to below
/// N, as its `№`.
pub(crate) fn numbered(alloc: Global, table: &str) -> Result<String, AllocError> {
    let mut rows = String::new(alloc);
    for row in table.lines() {
        let numbered = row.strip_prefix('№').and_then(|row| row.split_once('|'));
        let (times, row) = numbered.unwrap_or(("1", row));
        for number in numbers(times) {
            let number = format!(in alloc; "{number}")?;
            let row = row.replace(alloc, '№', number.as_str())?;
            writeln!(rows, "{row}")?;
        }
    }
    Ok(rows)
}

/// The bytes that a text stands for, or with `✂N` behind it the first N of them. Each `¦` ends a
/// part, which may name an example. A part that ends with `×N` comes N times. The sign `¶` is a
/// line feed, and `¹` and `²` are owners.
pub(crate) fn bytes_of(alloc: Global, text: &str) -> Result<Vec<u8>, AllocError> {
    let (text, length) = text.split_once('✂').unwrap_or((text, ""));
    let mut bytes = Vec::new(alloc);
    for part in text.split('¦') {
        let (piece, times) = part.split_once('×').unwrap_or((part, "1"));
        for _ in numbers(times) {
            for sign in example(piece).chars() {
                match sign {
                    '¶' => bytes.push(b'\n')?,
                    '¹' => bytes.extend_from_slice(b"11111111-1111-4111-8111-111111111111")?,
                    '²' => bytes.extend_from_slice(b"22222222-2222-4222-8222-222222222222")?,
                    _ => bytes.push((sign as u32 % 256) as u8)?,
                }
            }
        }
    }
    bytes.truncate(length.parse().unwrap_or(usize::MAX));
    Ok(bytes)
}

/// The bytes of a trace. Lists, which begin with `[[`, get a head.
pub(crate) fn trace_of(alloc: Global, head: &str, text: &str) -> Result<Vec<u8>, AllocError> {
    let text = example(text);
    if !text.starts_with("[[") {
        return bytes_of(alloc, text);
    }
    let whole = format!(in alloc; "{{{head},\"threads\":¦{text}¦}}")?;
    bytes_of(alloc, whole.as_str())
}

pub(crate) type Writer = Limited<FaultyStream<Vec<u8>>>;

/// A reader or a writer whose calls go as words say: how many bytes a call moves, and which call
/// fails, from 0, or whether calls are interrupted `in turn`.
pub(crate) fn stream<T>(inner: T, words: &str) -> Limited<FaultyStream<T>> {
    let (step, plan) = words.split_once(' ').unwrap_or(("65536", words));
    let plan = match plan {
        "in turn" => FaultPlan::InterruptedNowAndThen,
        call => call.parse().map_or(FaultPlan::Never, FaultPlan::FailsAt),
    };
    Limited::new(FaultyStream::new(inner, step.parse().unwrap_or(0), plan))
}
