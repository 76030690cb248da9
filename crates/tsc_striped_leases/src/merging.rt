//! Summaries of several stripes, told as one.
ghost use Rattle.std.specs.Prelude.{◌≡◌, ◌++◌, IfOk};
ghost use Rattle.tsc_striped_leases.specs.Merging.{merged, least_floor, last_time, floor_mark, ReportsNoLess};

use std::alloc::Global;
use timestamp_cache::ReadSummary;
use tsc_cache::Mark;
use tsc_span::Span;
use tsc_time::{NoMemory, Timestamp, Value};

/// Summaries of the parts of a span as one summary of the span. Its floor is the earliest of
/// theirs. What lies of the span in a stripe whose floor is later is told by a mark, at that floor
/// and without an owner. So it tells what all of them tell.
///
/// It has the marks of all of them, and one more for each such stripe. It takes the memory of a
/// list of all marks, and of a copy of the span.
///
/// ```
/// let (cache, mut dealer) = StripedCache::open(alloc, config()?, Vec::new(alloc), 1)?;
/// let mut seat = cache.deal(&mut dealer).ok_or("a seat")?;
/// cache.try_add(&mut seat, &keys(alloc, "b", "")?, Value::of(at(20), id('A')), at(20), 64)?;
/// let span = keys(alloc, "a", "z")?;
/// let parts = try_summary_in_stripes(alloc, &cache, &mut seat, &span, 8, 64)?;
/// let told = merged(alloc, &span, parts)?;
/// assert_eq!(rt; (told.floor, told.marks.len()), (at(5), 1));
/// ```
pub fn merged(alloc: Global, span: &Span, parts: Vec<ReadSummary>) -> Result<ReadSummary, NoMemory>
    ensures value { IfOk result (λ reported. reported ≡ merged span.now parts.items) }
    ensures no_less { IfOk result (λ reported. ReportsNoLess reported parts.items) }
{
    match all_as_one(alloc, span, parts) {
        Ok(reported) => Ok(reported),
        Err(_) => Err(NoMemory),
    }
}

/// The summary that [`merged`] tells.
fn all_as_one(alloc: Global, span: &Span, parts: Vec<ReadSummary>) -> Result<ReadSummary, NoMemory>
    ensures { IfOk result (λ reported. reported ≡ merged span.now parts.items) }
{
    let floor = earliest_floor(&parts);
    let mut marks = Vec::new(alloc);
    for part in parts {
        report_over(&mut marks, floor, part)?;
    }
    Ok(ReadSummary {
        span: span.try_copy()?,
        floor,
        marks,
    })
}

/// The earliest floor of some summaries.
fn earliest_floor(parts: &[ReadSummary]) -> Timestamp
    ensures { result ≡ least_floor last_time parts.now }
{
    let mut least = Timestamp::MAX;
    for part in parts {
        if part.floor < least {
            least = part.floor;
        }
    }
    least
}

/// Tells of one summary more, over a floor.
fn report_over(marks: &mut Vec<Mark>, floor: Timestamp, part: ReadSummary) -> Result<(), NoMemory>
    ensures { IfOk result (λ _. marks.new.items ≡
        marks.old.items ++ (floor_mark floor part ++ part.marks)) }
{
    let ReadSummary {
        span,
        floor: own,
        marks: its,
    } = part;
    if floor < own {
        let value = Value::unowned(own);
        marks.push(Mark { span, value })?;
    }
    for mark in its {
        marks.push(mark)?;
    }
    Ok(())
}
