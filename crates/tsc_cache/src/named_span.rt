//! The span that the bytes of an Add name.
ghost use Rattle.std.specs.Prelude.{◌≡◌, ◌≤◌, IfOk, IfErr, Ok as Named, Err as Refused, option_map, option_to_list};
ghost use Rattle.tsc_span.specs.Span.{span_cost, cost_of};
ghost use Rattle.tsc_cache.specs.AddSpans.{named, of_span_fault};

use tsc_span::{AddSpan, Ends, KeyRef, SpanFault};

/// The keys from a start to an end. Without an end there are all keys from the start on.
///
/// The call compares the two keys, takes no memory, and copies no key.
pub(crate) fn named_span<'a>(
    start: &'a [u8],
    end: Option<&'a [u8]>,
    ends: Ends,
) -> Result<AddSpan<'a>, SpanFault>
    ensures span { IfOk result
        (λ span. named start.now (option_map (λ k. k.now) end.entry) ends ≡ Named span) }
    ensures fault { IfErr result
        (λ fault. named start.now (option_map (λ k. k.now) end.entry) ends ≡
        Refused (of_span_fault fault)) }
{
    let from = KeyRef::new(start)?;
    let Some(end) = end else {
        return Ok(AddSpan::onward(from, ends.exclude_from));
    };
    let to = KeyRef::new(end)?;
    AddSpan::range(from, to, ends)
}

/// What a span costs on a page that has none of its keys, as [`cost`](tsc_span::Span::cost) says.
pub(crate) fn cost_of(span: &AddSpan<'_>) -> u32
    ensures { result ≡ span_cost span.now }
{
    let (first, second) = span.end_keys();
    end_cost(first) + end_cost(second)
}

/// What a key costs on a page, where there is one.
fn end_cost(key: Option<&KeyRef<'_>>) -> u32
    ensures value { result ≡ cost_of (option_to_list (option_map (λ k. k.now) key.entry)) }
    ensures most { result ≤ 4128 }
{
    match key {
        Some(key) => key.cost(),
        None => 0,
    }
}
