//! The marks of a batch, and whom they name.

ghost use Rattle.std.specs.Prelude.{◌≡◌, Ok, IfSome, OnSome};
ghost use Rattle.serde_json.specs.Data.{Data, Members, object, put};
ghost use Rattle.tsc_time.specs.ValueView.{owner_of};
ghost use Rattle.tsc_trace_format.specs.TraceText.{owner_in, mark_of, marks_of};
ghost use Rattle.tsc_trace_fast.specs.Kept.{KeepsMark, owner_there, list_of};
ghost use Rattle.tsc_trace_fast.specs.TokenReads.{Reads, Got};

use super::span::added_span;
use super::token::{next_name, open_array, open_object, time};
use json::{Reader, Token};
use std::alloc::Global;
use tsc_cache::Mark;
use tsc_span::Span;
use tsc_time::{Timestamp, Value};
use tsc_trace_format::Marks;
use uuid::Uuid;

/// The owner that a text names. The nil UUID stands for none.
#[tactic(auto, unfolding(tsc_trace_format::specs::TraceText::owner_in))]
fn owner_by_text(text: &str) -> Option<Uuid>
    ensures { IfSome result (λ name. owner_in text.now ≡ Ok (owner_of name)) }
{
    Uuid::parse_str(text).ok()
}

/// The name of an owner. The nil UUID stands for none, as does null.
pub(super) fn owner(reader: &mut Reader<'_>) -> Option<Uuid>
    ensures { IfSome result (λ name. Got 0 owner_there reader.old (owner_of name) reader.new) }
{
    match reader.next()? {
        Token::String(text) => owner_by_text(text),
        Token::Null => Some(Uuid::nil()),
        _ => None,
    }
}

/// The members of a mark that were read.
#[derive(Drop)]
pub(crate) struct MarkParts {
    span: Option<Span>,
    time: Option<Timestamp>,
    owner: Option<Uuid>,
}

impl MarkParts {
    /// Reads the member of this name. A name that was there before takes the later value.
    fn take(&mut self, alloc: Global, name: &str, reader: &mut Reader<'_>) -> Option<()>
        ensures { OnSome result ((d : Data) × Reads 1 reader.old d reader.new
            × ((found : Members) → KeepsMark found self.old →
            KeepsMark (put name.now d found) self.new)) }
    {
        match name {
            "span" => self.span = Some(added_span(alloc, reader)?),
            "time" => self.time = Some(time(reader)?),
            "owner" => self.owner = Some(owner(reader)?),
            _ => return None,
        }
        Some(())
    }

    /// The mark that the members are.
    fn mark(self) -> Option<Mark>
        ensures { IfSome result (λ mark. (found : Members) → KeepsMark found self →
            mark_of (object found) ≡ Ok mark) }
    {
        let span = self.span?;
        let value = Value::of(self.time?, self.owner.unwrap_or(Uuid::nil()));
        Some(Mark { span, value })
    }
}

/// A mark.
fn mark(alloc: Global, reader: &mut Reader<'_>) -> Option<Mark>
    ensures { IfSome result (λ mark. Got 2 mark_of reader.old mark reader.new) }
{
    open_object(reader)?;
    let mut parts = MarkParts {
        span: None,
        time: None,
        owner: None,
    };
    while let Some(name) = next_name(reader)? {
        parts.take(alloc, name, reader)?;
    }
    parts.mark()
}

/// A list of marks, however many.
fn mark_list(alloc: Global, reader: &mut Reader<'_>) -> Option<Vec<Mark>>
    ensures { IfSome result (λ marks. Got 3 (list_of mark_of) reader.old marks.items reader.new) }
{
    open_array(reader)?;
    let mut marks = Vec::new(alloc);
    'marks: while !reader.take_end_array() {
        let mark = mark(alloc, reader)?;
        marks.push(mark).ok()?;
    }
    Some(marks)
}

/// The marks of a batch.
pub(super) fn marks(alloc: Global, reader: &mut Reader<'_>) -> Option<Marks>
    ensures { IfSome result (λ marks. Got 3 marks_of reader.old marks reader.new) }
{
    let marks = mark_list(alloc, reader)?;
    Marks::new(marks)
}
