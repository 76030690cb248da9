//! The spans of calls.

ghost use Rattle.std.specs.Prelude.{◌≡◌, option_map, ok_or, unwrap_or};
ghost use Rattle.std.specs.Result.{result_ok};
ghost use Rattle.hex.specs.Hex.{decode_of};
ghost use Rattle.serde_json.specs.View.{view};
ghost use Rattle.tsc_span.specs.Span.{nothing, start_to_end};
ghost use Rattle.tsc_trace_format.specs.Reading.{Gives};
ghost use Rattle.tsc_trace_format.specs.TraceParts.{both};
ghost use Rattle.tsc_trace_format.specs.declared.read.part.PartFault.TheVariants.{Hex};
ghost use Rattle.tsc_trace_format.specs.TraceText.{key_of, ends_in, ends_of, excluded_in, excluded_of, start_form, start_to_end_form, range_form, onward_form, form_of, span_form, span_of_form, added_span, looked_up_span};

use super::json::{has_only, needed, object, optional, text};
use super::part::{PartFault, Refusal, SHAPE, both};
use hex::FromHexError;
use serde_json::Value;
use std::alloc::Global;
use tsc_span::{Ends, Key, Span};

/// A text that is no hexadecimal digits in pairs.
const HEX: Refusal = Refusal::Fault(PartFault::Hex);

/// A key that is too long, or an inverted span of an Add.
const SPAN: Refusal = Refusal::Fault(PartFault::Span);

/// The forms in which a trace writes a span.
#[derive(Debug, Drop)]
pub enum SpanForm {
    /// A key alone.
    Start(Key),
    /// A start, and an end that is excluded. An empty end means the start alone.
    StartToEnd(Key, Key),
    /// A start and an end, and which of them are excluded.
    Range(Key, Key, Ends),
    /// A start, which may be excluded, and all keys after it.
    Onward(Key, bool),
}

impl SpanForm {
    /// Which ends two brackets exclude, as `[)` does the end alone. Another text gives none.
    #[tactic(auto, unfolding(crate::specs::TraceText::ends_in))]
    pub fn ends(brackets: &str) -> Option<Ends>
        ensures { result ≡ result_ok (ends_in brackets.now) }
    {
        let (exclude_from, exclude_to) = match brackets {
            "[]" => (false, false),
            "[)" => (false, true),
            "(]" => (true, false),
            "()" => (true, true),
            _ => return None,
        };
        Some(Ends {
            exclude_from,
            exclude_to,
        })
    }

    /// Whether a bracket excludes the start, as `(` does and `[` does not. Another text gives none.
    #[tactic(auto, unfolding(crate::specs::TraceText::excluded_in))]
    pub fn excluded(bracket: &str) -> Option<bool>
        ensures { result ≡ result_ok (excluded_in bracket.now) }
    {
        match bracket {
            "[" => Some(false),
            "(" => Some(true),
            _ => None,
        }
    }

    /// The span of an Add or of a mark. An inverted one gives none.
    #[tactic(auto, unfolding(crate::specs::TraceText::span_of_form))]
    pub fn added(self) -> Option<Span>
        ensures { result ≡ span_of_form self }
    {
        match self {
            SpanForm::Start(start) => Some(Span::point(start)),
            SpanForm::StartToEnd(start, end) => Span::of(start, end).ok(),
            SpanForm::Range(start, end, ends) => Span::range(start, end, ends).ok(),
            SpanForm::Onward(start, excluded) => Some(Span::onward(start, excluded)),
        }
    }

    /// The span of a lookup. An inverted one is the empty span.
    #[tactic(auto, unfolding(crate::specs::TraceText::span_of_form))]
    pub fn looked_up(self) -> Span
        ensures { result ≡ unwrap_or (span_of_form self) nothing }
    {
        match self {
            SpanForm::Start(start) => Span::point(start),
            SpanForm::StartToEnd(start, end) => from_start_to_end(start, end),
            SpanForm::Range(start, end, ends) => Span::for_lookup(start, end, ends),
            SpanForm::Onward(start, excluded) => Span::onward(start, excluded),
        }
    }
}

/// The bytes that hexadecimal digits stand for.
fn hex_bytes(alloc: Global, digits: &str) -> Result<Vec<u8>, Refusal>
    ensures { Gives (λ bytes. bytes.items) result (ok_or (result_ok (decode_of digits.now)) Hex) }
{
    match hex::decode(alloc, digits) {
        Ok(bytes) => Ok(bytes),
        Err(FromHexError::OutOfMemory) => Err(Refusal::Memory),
        Err(_) => Err(HEX),
    }
}

/// A key: its bytes as hexadecimal digits.
#[tactic(auto, unfolding(crate::specs::TraceText::key_of))]
fn key(alloc: Global, value: &Value) -> Result<Key, Refusal>
    ensures { Gives (λ key. key) result (key_of (view value.now)) }
{
    let digits = text(value)?;
    let bytes = hex_bytes(alloc, digits)?;
    Key::try_from(bytes).map_err(|_| SPAN)
}

/// Two keys.
fn two_keys(alloc: Global, first: &Value, second: &Value) -> Result<(Key, Key), Refusal>
    ensures { Gives (λ keys. keys) result
        (both (key_of (view first.now)) (key_of (view second.now))) }
{
    both(key(alloc, first), key(alloc, second))
}

/// Which ends a text of two brackets excludes.
#[tactic(auto, unfolding(crate::specs::TraceText::ends_of))]
fn ends(value: &Value) -> Result<Ends, Refusal>
    ensures { Gives (λ ends. ends) result (ends_of (view value.now)) }
{
    SpanForm::ends(text(value)?).ok_or(SHAPE)
}

/// Whether a text of one bracket excludes the start.
#[tactic(auto, unfolding(crate::specs::TraceText::excluded_of))]
fn excluded(value: &Value) -> Result<bool, Refusal>
    ensures { Gives (λ excluded. excluded) result (excluded_of (view value.now)) }
{
    SpanForm::excluded(text(value)?).ok_or(SHAPE)
}

/// Two keys and the brackets of both.
fn keys_and_ends(
    alloc: Global,
    start: &Value,
    end: &Value,
    brackets: &Value,
) -> Result<((Key, Key), Ends), Refusal>
    ensures { Gives (λ parts. parts) result
        (both (both (key_of (view start.now)) (key_of (view end.now)))
        (ends_of (view brackets.now))) }
{
    both(two_keys(alloc, start, end), ends(brackets))
}

/// A key and its bracket.
fn key_and_side(alloc: Global, start: &Value, bracket: &Value) -> Result<(Key, bool), Refusal>
    ensures { Gives (λ parts. parts) result
        (both (key_of (view start.now)) (excluded_of (view bracket.now))) }
{
    both(key(alloc, start), excluded(bracket))
}

/// The form of a span, by its start and by which of the other members are there.
#[tactic(auto, unfolding(crate::specs::TraceText::form_of, crate::specs::TraceText::start_form, crate::specs::TraceText::start_to_end_form, crate::specs::TraceText::range_form, crate::specs::TraceText::onward_form))]
fn form(
    alloc: Global,
    start: &Value,
    end: Option<&Value>,
    ends: Option<&Value>,
    onward: Option<&Value>,
) -> Result<SpanForm, Refusal>
    ensures { Gives (λ form. form) result (form_of (view start.now)
        (option_map (λ value. view value.now) end.entry)
        (option_map (λ value. view value.now) ends.entry)
        (option_map (λ value. view value.now) onward.entry)) }
{
    match (end, ends, onward) {
        (None, None, None) => Ok(SpanForm::Start(key(alloc, start)?)),
        (Some(end), None, None) => {
            let (start, end) = two_keys(alloc, start, end)?;
            Ok(SpanForm::StartToEnd(start, end))
        }
        (Some(end), Some(brackets), None) => {
            let ((start, end), ends) = keys_and_ends(alloc, start, end, brackets)?;
            Ok(SpanForm::Range(start, end, ends))
        }
        (None, None, Some(bracket)) => {
            let (start, excluded) = key_and_side(alloc, start, bracket)?;
            Ok(SpanForm::Onward(start, excluded))
        }
        _ => Err(SHAPE),
    }
}

/// The form of the span that a JSON value is.
#[tactic(auto, unfolding(crate::specs::TraceText::span_form))]
fn span_form(alloc: Global, value: &Value) -> Result<SpanForm, Refusal>
    ensures { Gives (λ form. form) result (span_form (view value.now)) }
{
    let members = object(value)?;
    if !has_only(members, &["start", "end", "ends", "onward"]) {
        return Err(SHAPE);
    }
    let start = needed(members, "start")?;
    let end = optional(members, "end");
    let ends = optional(members, "ends");
    let onward = optional(members, "onward");
    form(alloc, start, end, ends, onward)
}

/// The span of an Add. An inverted one is refused.
#[tactic(auto, unfolding(crate::specs::TraceText::added_span))]
pub(super) fn added_span(alloc: Global, value: &Value) -> Result<Span, Refusal>
    ensures { Gives (λ span. span) result (added_span (view value.now)) }
{
    span_form(alloc, value)?.added().ok_or(SPAN)
}

/// The span of a lookup. An inverted one is the empty span.
#[tactic(auto, unfolding(crate::specs::TraceText::looked_up_span))]
pub(super) fn looked_up_span(alloc: Global, value: &Value) -> Result<Span, Refusal>
    ensures { Gives (λ span. span) result (looked_up_span (view value.now)) }
{
    Ok(span_form(alloc, value)?.looked_up())
}

/// The keys from a start to an end, which is excluded, for a lookup. An empty end means the start
/// alone.
fn from_start_to_end(start: Key, end: Key) -> Span
    ensures { result ≡ unwrap_or (start_to_end start end) nothing }
{
    if end.bytes().is_empty() {
        return Span::point(start);
    }
    let ends = Ends {
        exclude_from: false,
        exclude_to: true,
    };
    Span::for_lookup(start, end, ends)
}
