//! What lies of marks in a stripe: each is cut to the keys of the stripe.
ghost use Rattle.std.specs.Prelude.{◌≡◌, ◌≢◌, ◌++◌, ◌≤◌, IfOk, length, option_to_list, true};
ghost use Rattle.tsc_span.specs.Span.{is_below, start_cut, end_cut, greater_cut, smaller_cut, range};
ghost use Rattle.tsc_span.specs.Span.{between, last};
ghost use Rattle.tsc_span.specs.Cuts.{cut_of};
ghost use Rattle.tsc_span.specs.MadeSpan.{IsKey, IsMadeCut};
ghost use Rattle.tsc_stripe_table.specs.Stripes.{stripe_start, stripe_end, piece_of, mark_on, marks_in};

use std::alloc::Global;
use tsc_cache::Mark;
use tsc_span::{Cut, Ends, Key, Span, SpanFault};
use tsc_time::NoMemory;

/// Where a stripe starts.
fn start_of(bounds: &[Key], stripe: u32) -> Cut<'_>
    requires { stripe ≤ length bounds.now }
    ensures place { cut_of result ≡ stripe_start bounds.now stripe }
    ensures made { IsMadeCut (cut_of result) }
{
    if stripe == 0 {
        return Cut::Before(&[]);
    }
    Cut::Before(bounds[stripe as usize - 1].bytes())
}

/// Where a stripe stops.
fn end_of(bounds: &[Key], stripe: u32) -> Cut<'_>
    ensures place { cut_of result ≡ stripe_end bounds.now stripe }
    ensures made { IsMadeCut (cut_of result) }
{
    if stripe as usize >= bounds.len() {
        return Cut::Last;
    }
    Cut::Before(bounds[stripe as usize].bytes())
}

/// The upper one of two places.
fn greater<'a>(one: Cut<'a>, other: Cut<'a>) -> Cut<'a>
    requires { IsMadeCut (cut_of one) × IsMadeCut (cut_of other) }
    ensures place { cut_of result ≡ greater_cut (cut_of one.entry) (cut_of other.entry) }
    ensures made { IsMadeCut (cut_of result) }
{
    if one.is_below(other) { other } else { one }
}

/// The lower one of two places.
fn smaller<'a>(one: Cut<'a>, other: Cut<'a>) -> Cut<'a>
    requires { IsMadeCut (cut_of one) × IsMadeCut (cut_of other) }
    ensures place { cut_of result ≡ smaller_cut (cut_of one.entry) (cut_of other.entry) }
    ensures made { IsMadeCut (cut_of result) }
{
    if one.is_below(other) { one } else { other }
}

/// A key at one end of a span, which may be left out.
#[derive(Clone, Copy)]
struct SpanEnd<'k> {
    bytes: &'k [u8],
    excluded: bool,
}

/// The key at a place where a span starts.
fn start_at(place: Cut<'_>) -> SpanEnd<'_>
    requires made { IsMadeCut (cut_of place) }
    requires key { cut_of place ≢ last }
    ensures place { start_cut result.bytes.now result.excluded ≡ cut_of place.entry }
    ensures made { IsKey result.bytes.now }
{
    match place {
        Cut::Before(bytes) => SpanEnd {
            bytes,
            excluded: false,
        },
        Cut::After(bytes) => SpanEnd {
            bytes,
            excluded: true,
        },
        Cut::Last => unreachable!(),
    }
}

/// The key at a place where a span stops.
fn stop_at(place: Cut<'_>) -> SpanEnd<'_>
    requires made { IsMadeCut (cut_of place) }
    requires key { cut_of place ≢ last }
    ensures place { end_cut result.bytes.now result.excluded ≡ cut_of place.entry }
    ensures made { IsKey result.bytes.now }
{
    match place {
        Cut::Before(bytes) => SpanEnd {
            bytes,
            excluded: true,
        },
        Cut::After(bytes) => SpanEnd {
            bytes,
            excluded: false,
        },
        Cut::Last => unreachable!(),
    }
}

/// Why bytes that are those of a key were not copied: memory was refused.
fn of_key(fault: SpanFault) -> NoMemory
    requires { fault ≡ SpanFault.NoMemory }
{
    let _refused = fault;
    NoMemory
}

/// A copy of bytes that are those of a key.
fn key_of(alloc: Global, bytes: &[u8]) -> Result<Key, NoMemory>
    requires { IsKey bytes.now }
    ensures { IfOk result (λ key. key ≡ bytes.now) }
{
    match Key::new(alloc, bytes) {
        Ok(key) => Ok(key),
        Err(fault) => Err(of_key(fault)),
    }
}

/// The keys from one to another, where some place lies between the two ends.
fn range_between(from: Key, to: Key, ends: Ends) -> Span
    requires { is_below (start_cut from ends.exclude_from) (end_cut to ends.exclude_to) ≡ true }
    ensures { result ≡ between (start_cut from ends.exclude_from) (end_cut to ends.exclude_to) }
{
    Span::for_lookup(from, to, ends)
}

/// The span between two places, over keys of its own.
fn span_between(alloc: Global, from: Cut<'_>, to: Cut<'_>) -> Result<Span, NoMemory>
    requires below { is_below (cut_of from) (cut_of to) ≡ true }
    requires made { IsMadeCut (cut_of from) × IsMadeCut (cut_of to) }
    ensures { IfOk result (λ span. span ≡ between (cut_of from.entry) (cut_of to.entry)) }
{
    let start = start_at(from);
    let first = key_of(alloc, start.bytes)?;
    if let Cut::Last = to {
        return Ok(Span::onward(first, start.excluded));
    }
    let stop = stop_at(to);
    let end = key_of(alloc, stop.bytes)?;
    let ends = Ends {
        exclude_from: start.excluded,
        exclude_to: stop.excluded,
    };
    Ok(range_between(first, end, ends))
}

/// What lies of a mark in a stripe, if anything does.
pub(crate) fn piece_in(
    alloc: Global,
    bounds: &[Key],
    stripe: u32,
    mark: &Mark,
) -> Result<Option<Mark>, NoMemory>
    requires { stripe ≤ length bounds.now }
    ensures { IfOk result (λ piece. option_to_list piece
        ≡ mark_on (piece_of bounds.now stripe mark.now.span) mark.now) }
{
    let Some((from, to)) = mark.span.cuts() else {
        return Ok(None);
    };
    let start = greater(from, start_of(bounds, stripe));
    let stop = smaller(to, end_of(bounds, stripe));
    if !start.is_below(stop) {
        return Ok(None);
    }
    let span = span_between(alloc, start, stop)?;
    Ok(Some(Mark {
        span,
        value: mark.value,
    }))
}

/// A piece comes to others, if it is there.
fn push_piece(pieces: &mut Vec<Mark>, piece: Option<Mark>) -> Result<(), NoMemory>
    ensures { IfOk result (λ _. pieces.new.items ≡ pieces.old.items ++ option_to_list piece) }
{
    if let Some(piece) = piece {
        pieces.push(piece)?;
    }
    Ok(())
}

/// What lies of some marks in a stripe, one after another.
pub(crate) fn pieces_in(
    alloc: Global,
    bounds: &[Key],
    stripe: u32,
    marks: &[Mark],
) -> Result<Vec<Mark>, NoMemory>
    requires { stripe ≤ length bounds.now }
    ensures { IfOk result (λ pieces. pieces.items ≡ marks_in bounds.now stripe marks.now) }
{
    let mut pieces = Vec::new(alloc);
    for mark in marks {
        let piece = piece_in(alloc, bounds, stripe, mark)?;
        push_piece(&mut pieces, piece)?;
    }
    Ok(pieces)
}
