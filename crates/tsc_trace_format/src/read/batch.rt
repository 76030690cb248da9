//! The batches of a trace: several marks that are added at one moment.

ghost use Rattle.std.specs.Prelude.{◌≡◌, map, codes};
ghost use Rattle.serde_json.specs.Find.{get_member};
ghost use Rattle.serde_json.specs.View.{view, members_view};
ghost use Rattle.tsc_time.specs.ValueView.{owner_of};
ghost use Rattle.tsc_trace_format.specs.Reading.{AddsMark, Gives};
ghost use Rattle.tsc_trace_format.specs.TraceParts.{both};
ghost use Rattle.tsc_trace_format.specs.TraceText.{batch_of, few_of, mark_of, mark_parts, marks_and_now, marks_in, marks_of, needed_as};

use super::call::{owner, span_and_time, time_in};
use super::json::{array, has_only, needed, object, optional};
use super::part::{Refusal, SHAPE, both};
use crate::trace::{Call, MOST_MARKS, Marks};
use serde_json::{Map, Value};
use std::alloc::Global;
use tsc_cache::Mark;
use tsc_span::Span;
use tsc_time::Timestamp;
use uuid::Uuid;

/// The span, the time and the owner of a mark.
fn parts_of_mark(
    alloc: Global,
    members: &Map<String, Value>,
) -> Result<((Span, Timestamp), Uuid), Refusal>
    ensures { Gives (λ parts. (parts.0, owner_of parts.1)) result
        (mark_parts (members_view members.now.entries)) }
{
    both(
        span_and_time(alloc, members),
        owner(optional(members, "owner")),
    )
}

/// A mark of a batch.
#[tactic(auto, unfolding(crate::specs::TraceText::mark_of))]
fn mark(alloc: Global, value: &Value) -> Result<Mark, Refusal>
    ensures { Gives (λ mark. mark) result (mark_of (view value.now)) }
{
    let members = object(value)?;
    if !has_only(members, &["span", "time", "owner"]) {
        return Err(SHAPE);
    }
    let ((span, at), owner) = parts_of_mark(alloc, members)?;
    let value = tsc_time::Value::of(at, owner);
    Ok(Mark { span, value })
}

/// Marks and one more, or why they are not read: the lesser refusal of both.
fn with_mark(
    marks: Result<Vec<Mark>, Refusal>,
    mark: Result<Mark, Refusal>,
) -> Result<Vec<Mark>, Refusal>
    ensures { AddsMark marks mark result }
{
    let (mut marks, mark) = both(marks, mark)?;
    marks.push(mark)?;
    Ok(marks)
}

/// The marks that these values are. All of them are read, also behind one that is none.
fn marks_among(alloc: Global, values: &[Value]) -> Result<Vec<Mark>, Refusal>
    ensures { Gives (λ marks. marks.items) result (marks_in (map view values.now)) }
{
    let mut marks = Ok(Vec::new(alloc));
    for value in values {
        marks = with_mark(marks, mark(alloc, value));
    }
    marks
}

/// The items of an array, where a batch may have as many marks.
#[tactic(auto, unfolding(crate::specs::TraceText::few_of))]
fn few(values: &[Value]) -> Result<&[Value], Refusal>
    ensures { Gives (λ values. map view values.now) result (few_of (map view values.now)) }
{
    if values.len() > MOST_MARKS {
        return Err(SHAPE);
    }
    Ok(values)
}

/// The marks of a batch: a list of them.
#[tactic(auto, unfolding(crate::specs::TraceText::marks_of))]
fn marks(alloc: Global, value: &Value) -> Result<Marks, Refusal>
    ensures { Gives (λ marks. marks) result (marks_of (view value.now)) }
{
    let values = few(array(value)?)?;
    let marks = marks_among(alloc, values)?;
    Ok(Marks::of(marks))
}

/// The marks of a batch, by the call's members.
fn marks_by_name(alloc: Global, members: &Map<String, Value>) -> Result<Marks, Refusal>
    ensures { Gives (λ marks. marks) result
        (needed_as (codes "marks") marks_of (members_view members.now.entries)) }
{
    marks(alloc, needed(members, "marks")?)
}

/// The marks and the moment of a batch.
fn marks_and_now(alloc: Global, members: &Map<String, Value>) -> Result<(Marks, Timestamp), Refusal>
    ensures { Gives (λ parts. parts) result (marks_and_now (members_view members.now.entries)) }
{
    both(marks_by_name(alloc, members), time_in(members, "now"))
}

/// A batch, by its members.
#[tactic(auto, unfolding(crate::specs::TraceText::batch_of))]
pub(super) fn batch(alloc: Global, members: &Map<String, Value>) -> Result<Call, Refusal>
    ensures { Gives (λ call. call) result (batch_of (members_view members.now.entries)) }
{
    if !has_only(members, &["op", "marks", "now"]) {
        return Err(SHAPE);
    }
    let (marks, now) = marks_and_now(alloc, members)?;
    Ok(Call::Batch { marks, now })
}
