//! The spans of calls and of marks.

ghost use Rattle.std.specs.Prelude.{◌≡◌, Ok, IfSome, OnSome};
ghost use Rattle.serde_json.specs.Data.{Data, Members, string, put};
ghost use Rattle.tsc_trace_format.specs.TraceText.{key_of, ends_of, excluded_of, form_in, span_form, added_span};
ghost use Rattle.tsc_trace_fast.specs.Kept.{KeepsSpan};
ghost use Rattle.tsc_trace_fast.specs.TokenReads.{Reads, Got};

use super::digits::bytes_of;
use super::token::{next_name, open_object, text};
use json::Reader;
use std::alloc::Global;
use tsc_span::{Ends, Key, Span};
use tsc_trace_format::SpanForm;

/// The key that hexadecimal digits are.
#[tactic(auto, unfolding(tsc_trace_format::specs::TraceText::key_of, tsc_trace_format::specs::TraceText::text_of))]
fn key_by_text(alloc: Global, digits: &str) -> Option<Key>
    ensures { IfSome result (λ key. key_of (string digits.now) ≡ Ok key) }
{
    let bytes = bytes_of(alloc, digits.as_bytes())?;
    Key::try_from(bytes).ok()
}

/// A key.
fn key(alloc: Global, reader: &mut Reader<'_>) -> Option<Key>
    ensures { IfSome result (λ key. Got 0 key_of reader.old key reader.new) }
{
    let digits = text(reader)?;
    key_by_text(alloc, digits)
}

/// Which ends a text of two brackets excludes.
#[tactic(auto, unfolding(tsc_trace_format::specs::TraceText::ends_of, tsc_trace_format::specs::TraceText::text_of))]
fn ends(reader: &mut Reader<'_>) -> Option<Ends>
    ensures { IfSome result (λ ends. Got 0 ends_of reader.old ends reader.new) }
{
    let brackets = text(reader)?;
    SpanForm::ends(brackets)
}

/// Whether a text of one bracket excludes the start.
#[tactic(auto, unfolding(tsc_trace_format::specs::TraceText::excluded_of, tsc_trace_format::specs::TraceText::text_of))]
fn excluded(reader: &mut Reader<'_>) -> Option<bool>
    ensures { IfSome result (λ excluded. Got 0 excluded_of reader.old excluded reader.new) }
{
    let bracket = text(reader)?;
    SpanForm::excluded(bracket)
}

/// The members of a span that were read.
#[derive(Drop)]
pub(crate) struct SpanParts {
    start: Option<Key>,
    end: Option<Key>,
    ends: Option<Ends>,
    onward: Option<bool>,
}

impl SpanParts {
    /// Reads the member of this name. A name that was there before takes the later value.
    fn take(&mut self, alloc: Global, name: &str, reader: &mut Reader<'_>) -> Option<()>
        ensures { OnSome result ((d : Data) × Reads 0 reader.old d reader.new
            × ((found : Members) → KeepsSpan found self.old →
            KeepsSpan (put name.now d found) self.new)) }
    {
        match name {
            "start" => self.start = Some(key(alloc, reader)?),
            "end" => self.end = Some(key(alloc, reader)?),
            "ends" => self.ends = Some(ends(reader)?),
            "onward" => self.onward = Some(excluded(reader)?),
            _ => return None,
        }
        Some(())
    }

    /// The form that the members are.
    fn form(self) -> Option<SpanForm>
        ensures { IfSome result (λ form. (found : Members) → KeepsSpan found self →
            form_in found ≡ Ok form) }
    {
        let start = self.start?;
        match (self.end, self.ends, self.onward) {
            (None, None, None) => Some(SpanForm::Start(start)),
            (Some(end), None, None) => Some(SpanForm::StartToEnd(start, end)),
            (Some(end), Some(ends), None) => Some(SpanForm::Range(start, end, ends)),
            (None, None, Some(excluded)) => Some(SpanForm::Onward(start, excluded)),
            _ => None,
        }
    }
}

/// The form of a span.
pub(super) fn span_form(alloc: Global, reader: &mut Reader<'_>) -> Option<SpanForm>
    ensures { IfSome result (λ form. Got 1 span_form reader.old form reader.new) }
{
    open_object(reader)?;
    let mut parts = SpanParts {
        start: None,
        end: None,
        ends: None,
        onward: None,
    };
    while let Some(name) = next_name(reader)? {
        parts.take(alloc, name, reader)?;
    }
    parts.form()
}

/// The span of a mark.
pub(super) fn added_span(alloc: Global, reader: &mut Reader<'_>) -> Option<Span>
    ensures { IfSome result (λ span. Got 1 added_span reader.old span reader.new) }
{
    let form = span_form(alloc, reader)?;
    form.added()
}
