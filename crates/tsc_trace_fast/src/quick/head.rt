//! The head of a trace and its lists, and the trace that they make.

ghost use Rattle.std.specs.Prelude.{◌≡◌, map, Ok, IfSome, OnSome};
ghost use Rattle.std.specs.List.{list_all};
ghost use Rattle.serde_json.specs.Data.{Data, Members, object, put};
ghost use Rattle.tsc_trace_format.specs.Calls.{call_fits};
ghost use Rattle.tsc_trace_format.specs.TraceText.{call_of, trace_of};
ghost use Rattle.tsc_trace_fast.specs.Kept.{KeepsHead, list_of, call_list, threads_in, each_fits};
ghost use Rattle.tsc_trace_fast.specs.TokenReads.{Reads, Got};

use super::call::call;
use super::token::{next_name, number_32, number_64, open_array, open_object, time};
use json::Reader;
use std::alloc::Global;
use tsc_cache::Config;
use tsc_time::Timestamp;
use tsc_trace_format::{Call, Lists, Trace};

/// A list of calls.
fn calls(alloc: Global, reader: &mut Reader<'_>) -> Option<Vec<Call>>
    ensures { IfSome result (λ calls. Got 5 call_list reader.old calls.items reader.new) }
{
    open_array(reader)?;
    let mut calls = Vec::new(alloc);
    'calls: while !reader.take_end_array() {
        let call = call(alloc, reader)?;
        calls.push(call).ok()?;
    }
    Some(calls)
}

/// Lists of calls, however many.
fn lists(alloc: Global, reader: &mut Reader<'_>) -> Option<Vec<Vec<Call>>>
    ensures { IfSome result (λ lists. Got 6 (list_of call_list) reader.old
        (map (λ calls. calls.items) lists.items) reader.new) }
{
    open_array(reader)?;
    let mut lists = Vec::new(alloc);
    'lists: while !reader.take_end_array() {
        let list = calls(alloc, reader)?;
        lists.push(list).ok()?;
    }
    Some(lists)
}

/// The lists of a trace.
fn threads(alloc: Global, reader: &mut Reader<'_>) -> Option<Lists>
    ensures { IfSome result (λ threads. Got 6 threads_in reader.old threads reader.new) }
{
    let lists = lists(alloc, reader)?;
    Lists::new(lists)
}

/// Whether each of some calls fits the pages of a configuration.
fn list_fits(config: &Config, calls: &[Call]) -> bool
    ensures { result ≡ list_all (call_fits config.now) calls.now }
{
    for call in calls {
        if !call.fits(config) {
            return false;
        }
    }
    true
}

/// Whether each call of some lists fits the pages of a configuration.
fn all_fit(config: &Config, lists: &[Vec<Call>]) -> bool
    ensures { result ≡ each_fits config.now (map (λ calls. calls.items) lists.now) }
{
    for list in lists {
        if !list_fits(config, list) {
            return false;
        }
    }
    true
}

/// The members of a head that were read.
#[derive(Drop)]
pub(crate) struct HeadParts {
    page_first: Option<u32>,
    page_max: Option<u32>,
    min_pages: Option<u32>,
    retention: Option<u64>,
    low_water: Option<Timestamp>,
    threads: Option<Lists>,
}

impl HeadParts {
    /// Reads the member of this name. A name that was there before takes the later value.
    fn take(&mut self, alloc: Global, name: &str, reader: &mut Reader<'_>) -> Option<()>
        ensures { OnSome result ((d : Data) × Reads 6 reader.old d reader.new
            × ((found : Members) → KeepsHead found self.old →
            KeepsHead (put name.now d found) self.new)) }
    {
        match name {
            "page_first" => self.page_first = Some(number_32(reader)?),
            "page_max" => self.page_max = Some(number_32(reader)?),
            "min_pages" => self.min_pages = Some(number_32(reader)?),
            "retention" => self.retention = Some(number_64(reader)?),
            "low_water" => self.low_water = Some(time(reader)?),
            "threads" => self.threads = Some(threads(alloc, reader)?),
            _ => return None,
        }
        Some(())
    }

    /// The trace of the members, which takes the lists. Whether its calls fit is judged only here,
    /// since `page_max` may stand behind them.
    fn trace(&mut self) -> Option<Trace>
        ensures { IfSome result (λ trace. (found : Members) → KeepsHead found self.old →
            trace_of (object found) ≡ Ok trace) }
    {
        let config = Config::new(
            self.page_first?,
            self.page_max?,
            self.min_pages?,
            self.retention?,
            self.low_water?,
        )
        .ok()?;
        let threads = self.threads.take()?;
        if !all_fit(&config, threads.slice()) {
            return None;
        }
        Some(Trace { config, threads })
    }
}

/// The trace that an object is.
pub(super) fn trace(alloc: Global, reader: &mut Reader<'_>) -> Option<Trace>
    ensures { IfSome result (λ trace. Got 7 trace_of reader.old trace reader.new) }
{
    open_object(reader)?;
    let mut parts = HeadParts {
        page_first: None,
        page_max: None,
        min_pages: None,
        retention: None,
        low_water: None,
        threads: None,
    };
    while let Some(name) = next_name(reader)? {
        parts.take(alloc, name, reader)?;
    }
    parts.trace()
}
