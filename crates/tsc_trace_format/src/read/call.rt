//! The calls of a trace, and what they are made of.

ghost use Rattle.std.specs.Prelude.{◌≡◌, ◌+◌, ◌^◌, ◌<◌, map, length, option_map, Some, codes};
ghost use Rattle.serde_json.specs.View.{view, members_view};
ghost use Rattle.tsc_time.specs.ValueView.{owner_of};
ghost use Rattle.tsc_trace_format.specs.Reading.{Gives, Reports};
ghost use Rattle.tsc_trace_format.specs.TraceParts.{both, at_call};
ghost use Rattle.tsc_trace_format.specs.TraceText.{unsigned_of, needed_as, time_in_range, time_of, owner_in, owner_member, added_span, looked_up_span, span_and_time, owner_and_now, add_of, get_of, low_of, call_by_name, call_of, fitting_call, calls_of};

use super::TraceFault;
use super::batch::batch;
use super::json::{array, has_only, needed, object, optional, text, two, unsigned};
use super::part::{NUMBER, PartFault, Refusal, SHAPE, at_call, both};
use super::span::{added_span, looked_up_span};
use crate::trace::Call;
use serde_json::{Map, Value};
use std::alloc::Global;
use tsc_cache::Config;
use tsc_span::Span;
use tsc_time::Timestamp;
use uuid::Uuid;

/// A text that is no UUID.
const UUID: Refusal = Refusal::Fault(PartFault::Uuid);

/// A span of an Add that no page is large enough for.
const TOO_LARGE: Refusal = Refusal::Fault(PartFault::TooLarge);

/// Two unsigned integers.
fn two_numbers(first: &Value, second: &Value) -> Result<(u64, u64), Refusal>
    ensures { Gives (λ pair. pair) result
        (both (unsigned_of (view first.now)) (unsigned_of (view second.now))) }
{
    both(unsigned(first), unsigned(second))
}

/// The time of a wall time and a logical count.
#[tactic(auto, unfolding(crate::specs::TraceText::time_in_range))]
fn timestamp(wall: u64, logical: u64) -> Result<Timestamp, Refusal>
    ensures { Gives (λ time. time) result (time_in_range wall logical) }
{
    let logical = u32::try_from(logical).map_err(|_| NUMBER)?;
    Timestamp::new(wall, logical).ok_or(NUMBER)
}

/// A time: a list of its wall time and its logical count.
#[tactic(auto, unfolding(crate::specs::TraceText::time_of))]
pub(super) fn time(value: &Value) -> Result<Timestamp, Refusal>
    ensures { Gives (λ time. time) result (time_of (view value.now)) }
{
    let (wall, logical) = two(array(value)?)?;
    let (wall, logical) = two_numbers(wall, logical)?;
    timestamp(wall, logical)
}

/// The owner that a text names. The nil UUID stands for none.
#[tactic(auto, unfolding(crate::specs::TraceText::owner_in))]
fn owner_by_text(text: &str) -> Result<Uuid, Refusal>
    ensures { Gives (λ name. owner_of name) result (owner_in text.now) }
{
    match Uuid::parse_str(text) {
        Ok(uuid) => Ok(uuid),
        Err(_) => Err(UUID),
    }
}

/// The name of an owner. The nil UUID stands for none, as does null.
fn owner_name(value: &Value) -> Result<Uuid, Refusal>
    ensures { Gives (λ name. owner_of name) result (owner_member (Some (view value.now))) }
{
    if value.is_null() {
        return Ok(Uuid::nil());
    }
    owner_by_text(text(value)?)
}

/// The name of an owner, which may be left out.
#[tactic(auto, unfolding(crate::specs::TraceText::owner_member))]
pub(super) fn owner(value: Option<&Value>) -> Result<Uuid, Refusal>
    ensures { Gives (λ name. owner_of name) result
        (owner_member (option_map (λ value. view value.now) value.entry)) }
{
    match value {
        None => Ok(Uuid::nil()),
        Some(value) => owner_name(value),
    }
}

/// The span of an Add, by the members.
fn span_in(alloc: Global, members: &Map<String, Value>) -> Result<Span, Refusal>
    ensures { Gives (λ span. span) result
        (needed_as (codes "span") added_span (members_view members.now.entries)) }
{
    added_span(alloc, needed(members, "span")?)
}

/// The time that a member is.
pub(super) fn time_in(members: &Map<String, Value>, name: &str) -> Result<Timestamp, Refusal>
    ensures { Gives (λ time. time) result
        (needed_as name.now time_of (members_view members.now.entries)) }
{
    time(needed(members, name)?)
}

/// The span and the time of an Add, or of a mark of a batch.
pub(super) fn span_and_time(
    alloc: Global,
    members: &Map<String, Value>,
) -> Result<(Span, Timestamp), Refusal>
    ensures { Gives (λ parts. parts) result (span_and_time (members_view members.now.entries)) }
{
    both(span_in(alloc, members), time_in(members, "time"))
}

/// The owner and the moment of an Add.
fn owner_and_now(members: &Map<String, Value>) -> Result<(Uuid, Timestamp), Refusal>
    ensures { Gives (λ parts. (owner_of parts.0, parts.1)) result
        (owner_and_now (members_view members.now.entries)) }
{
    both(owner(optional(members, "owner")), time_in(members, "now"))
}

/// An Add, by its members.
#[tactic(auto, unfolding(crate::specs::TraceText::add_of))]
fn add(alloc: Global, members: &Map<String, Value>) -> Result<Call, Refusal>
    ensures { Gives (λ call. call) result (add_of (members_view members.now.entries)) }
{
    if !has_only(members, &["op", "span", "time", "owner", "now"]) {
        return Err(SHAPE);
    }
    let ((span, at), (owner, now)) = both(span_and_time(alloc, members), owner_and_now(members))?;
    let value = tsc_time::Value::of(at, owner);
    Ok(Call::Add { span, value, now })
}

/// A lookup, by its members.
#[tactic(auto, unfolding(crate::specs::TraceText::get_of))]
fn get(alloc: Global, members: &Map<String, Value>) -> Result<Call, Refusal>
    ensures { Gives (λ call. call) result (get_of (members_view members.now.entries)) }
{
    if !has_only(members, &["op", "span"]) {
        return Err(SHAPE);
    }
    let span = looked_up_span(alloc, needed(members, "span")?)?;
    Ok(Call::Get { span })
}

/// A call for the floor, which has no member beside its name.
#[tactic(auto, unfolding(crate::specs::TraceText::low_of))]
fn low(members: &Map<String, Value>) -> Result<Call, Refusal>
    ensures { Gives (λ call. call) result (low_of (members_view members.now.entries)) }
{
    if !has_only(members, &["op"]) {
        return Err(SHAPE);
    }
    Ok(Call::Low)
}

/// A call by the name of its operation.
#[tactic(auto, unfolding(crate::specs::TraceText::call_by_name))]
fn named_call(alloc: Global, name: &str, members: &Map<String, Value>) -> Result<Call, Refusal>
    ensures { Gives (λ call. call) result
        (call_by_name name.now (members_view members.now.entries)) }
{
    if name == "add" {
        return add(alloc, members);
    }
    if name == "batch" {
        return batch(alloc, members);
    }
    if name == "get" {
        return get(alloc, members);
    }
    if name == "low" {
        return low(members);
    }
    Err(SHAPE)
}

/// A call: an object whose member `op` names the operation.
#[tactic(auto, unfolding(crate::specs::TraceText::call_of))]
fn call(alloc: Global, value: &Value) -> Result<Call, Refusal>
    ensures { Gives (λ call. call) result (call_of (view value.now)) }
{
    let members = object(value)?;
    let name = text(needed(members, "op")?)?;
    named_call(alloc, name, members)
}

/// A call, all of which has to fit a page.
#[tactic(auto, unfolding(crate::specs::TraceText::fitting_call))]
fn fitting_call(alloc: Global, config: &Config, value: &Value) -> Result<Call, Refusal>
    ensures { Gives (λ call. call) result (fitting_call config.now (view value.now)) }
{
    let call = call(alloc, value)?;
    if !call.fits(config) {
        return Err(TOO_LARGE);
    }
    Ok(call)
}

/// The call with this number.
fn call_at(alloc: Global, config: &Config, number: u64, value: &Value) -> Result<Call, TraceFault>
    ensures { Reports (λ call. call) result
        (at_call number (fitting_call config.now (view value.now))) }
{
    at_call(number, fitting_call(alloc, config, value))
}

/// The calls of a list, of which the first has this number.
pub(super) fn calls(
    alloc: Global,
    config: &Config,
    first: u64,
    values: &[Value],
) -> Result<Vec<Call>, TraceFault>
    requires { first + length values.now < 2 ^ 64 }
    ensures { Reports (λ calls. calls.items) result
        (calls_of config.now first (map view values.now)) }
{
    let mut calls = Vec::new(alloc);
    let mut number = first;
    for value in values {
        calls.push(call_at(alloc, config, number, value)?)?;
        number += 1;
    }
    Ok(calls)
}
