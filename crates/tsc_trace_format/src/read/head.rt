//! The head of a trace, and the trace that a JSON value is.

ghost use Rattle.std.specs.Prelude.{◌≡◌, ◌≤◌, ◌^◌, map, length, nat_le, codes};
ghost use Rattle.std.specs.List.{sum_by};
ghost use Rattle.serde_json.specs.View.{view, members_view};
ghost use Rattle.tsc_trace_format.specs.Limits.{most_calls};
ghost use Rattle.tsc_trace_format.specs.Lists.{fits_trace};
ghost use Rattle.tsc_trace_format.specs.Reading.{Gives, Reports};
ghost use Rattle.tsc_trace_format.specs.Rows.{rows_view};
ghost use Rattle.tsc_trace_format.specs.TraceParts.{at_call};
ghost use Rattle.tsc_trace_format.specs.TraceText.{needed_as, number_below, page_sizes, page_numbers, head_times, numbers_in, lists_in, lists_of, head_of, config_in, threads_of, trace_of};

use super::TraceFault;
use super::call::{calls, time_in};
use super::json::{array, has_only, needed, number_32, number_64, object};
use super::part::{Refusal, SHAPE, at_call, both};
use crate::trace::{Call, Lists, MOST_CALLS, MOST_LISTS, Trace};
use serde_json::{Map, Value};
use std::alloc::Global;
use tsc_cache::Config;
use tsc_time::Timestamp;

/// The numbers of a head, which a [`Config`] may be made of.
#[derive(Clone, Copy, Debug, PartialEq, Eq)]
pub(crate) struct Numbers {
    page_first: u32,
    page_max: u32,
    min_pages: u32,
    retention: u64,
    low_water: Timestamp,
}

/// The number of 32 bits that a member is.
fn number_32_in(members: &Map<String, Value>, name: &str) -> Result<u32, Refusal>
    ensures { Gives (λ n. n) result
        (needed_as name.now (number_below (2 ^ 32)) (members_view members.now.entries)) }
{
    number_32(needed(members, name)?)
}

/// The number of 64 bits that a member is.
fn number_64_in(members: &Map<String, Value>, name: &str) -> Result<u64, Refusal>
    ensures { Gives (λ n. n) result
        (needed_as name.now (number_below (2 ^ 64)) (members_view members.now.entries)) }
{
    number_64(needed(members, name)?)
}

/// `page_first` and `page_max`.
fn page_sizes(members: &Map<String, Value>) -> Result<(u32, u32), Refusal>
    ensures { Gives (λ pair. pair) result (page_sizes (members_view members.now.entries)) }
{
    both(
        number_32_in(members, "page_first"),
        number_32_in(members, "page_max"),
    )
}

/// The two page sizes, and `min_pages`.
fn page_numbers(members: &Map<String, Value>) -> Result<((u32, u32), u32), Refusal>
    ensures { Gives (λ parts. parts) result (page_numbers (members_view members.now.entries)) }
{
    both(page_sizes(members), number_32_in(members, "min_pages"))
}

/// `retention` and `low_water`.
fn head_times(members: &Map<String, Value>) -> Result<(u64, Timestamp), Refusal>
    ensures { Gives (λ pair. pair) result (head_times (members_view members.now.entries)) }
{
    both(
        number_64_in(members, "retention"),
        time_in(members, "low_water"),
    )
}

/// The numbers of a head.
#[tactic(auto, unfolding(crate::specs::TraceText::numbers_in))]
fn head_numbers(members: &Map<String, Value>) -> Result<Numbers, Refusal>
    ensures { Gives (λ numbers. numbers) result (numbers_in (members_view members.now.entries)) }
{
    let (((page_first, page_max), min_pages), (retention, low_water)) = both(
        page_numbers(members),
        head_times(members),
    )?;
    Ok(Numbers {
        page_first,
        page_max,
        min_pages,
        retention,
        low_water,
    })
}

/// Lists of which each has to be one.
fn lists_among<'v>(alloc: Global, values: &'v [Value]) -> Result<Vec<&'v [Value]>, Refusal>
    ensures { Gives (λ lists. rows_view lists.items) result (lists_in (map view values.now)) }
{
    let mut lists = Vec::new(alloc);
    for value in values {
        lists.push(array(value)?)?;
    }
    Ok(lists)
}

/// The lists of what should be calls.
#[tactic(auto, unfolding(crate::specs::TraceText::lists_of))]
fn lists<'v>(alloc: Global, members: &'v Map<String, Value>) -> Result<Vec<&'v [Value]>, Refusal>
    ensures { Gives (λ lists. rows_view lists.items) result
        (needed_as (codes "threads") lists_of (members_view members.now.entries)) }
{
    lists_among(alloc, array(needed(members, "threads")?)?)
}

/// The numbers of a head and its lists.
#[tactic(auto, unfolding(crate::specs::TraceText::head_of))]
fn head<'v>(alloc: Global, value: &'v Value) -> Result<(Numbers, Vec<&'v [Value]>), Refusal>
    ensures { Gives (λ head. (head.0, rows_view head.1.items)) result (head_of (view value.now)) }
{
    let members = object(value)?;
    if !has_only(
        members,
        &[
            "page_first",
            "page_max",
            "min_pages",
            "retention",
            "low_water",
            "threads",
        ],
    ) {
        return Err(SHAPE);
    }
    both(head_numbers(members), lists(alloc, members))
}

/// The head of a trace, which counts as call 0.
fn head_at_0<'v>(alloc: Global, value: &'v Value) -> Result<(Numbers, Vec<&'v [Value]>), TraceFault>
    ensures { Reports (λ head. (head.0, rows_view head.1.items)) result
        (at_call 0 (head_of (view value.now))) }
{
    at_call(0, head(alloc, value))
}

/// The configuration of the numbers of a head.
#[tactic(auto, unfolding(crate::specs::TraceText::config_in))]
fn config(numbers: Numbers) -> Result<Config, TraceFault>
    ensures { Reports (λ config. config) result (config_in numbers) }
{
    Config::new(
        numbers.page_first,
        numbers.page_max,
        numbers.min_pages,
        numbers.retention,
        numbers.low_water,
    )
    .map_err(|_| TraceFault::Config)
}

/// Whether lists have no more calls than a trace may have.
fn has_few_calls(lists: &[&[Value]]) -> bool
    ensures { result ≡ nat_le (sum_by length (rows_view lists.now)) most_calls }
{
    let mut left = MOST_CALLS;
    for list in lists {
        if list.len() > left {
            return false;
        }
        left -= list.len();
    }
    true
}

/// Whether a trace may have these lists.
fn fits(lists: &[&[Value]]) -> bool
    ensures { result ≡ fits_trace (rows_view lists.now) }
{
    !lists.is_empty() && lists.len() <= MOST_LISTS && has_few_calls(lists)
}

/// The calls of lists, numbered from 1 on.
fn threads(alloc: Global, config: &Config, lists: &[&[Value]]) -> Result<Vec<Vec<Call>>, TraceFault>
    requires { sum_by length (rows_view lists.now) ≤ most_calls }
    ensures { Reports (λ threads. map (λ calls. calls.items) threads.items) result
        (threads_of config.now 1 (rows_view lists.now)) }
{
    let mut threads = Vec::new(alloc);
    let mut number = 1;
    for list in lists {
        threads.push(calls(alloc, config, number, list)?)?;
        number += list.len() as u64;
    }
    Ok(threads)
}

/// The trace that a JSON value is.
#[tactic(auto, unfolding(crate::specs::TraceText::trace_of))]
pub(super) fn trace(alloc: Global, value: &Value) -> Result<Trace, TraceFault>
    ensures { Reports (λ trace. trace) result (trace_of (view value.now)) }
{
    let (numbers, lists) = head_at_0(alloc, value)?;
    let config = config(numbers)?;
    if !fits(&lists) {
        return Err(TraceFault::Config);
    }
    let threads = Lists::of(threads(alloc, &config, &lists)?);
    Ok(Trace { config, threads })
}
