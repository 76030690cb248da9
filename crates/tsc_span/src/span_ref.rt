//! Spans for lookups, over keys that lie elsewhere and may be of any length.
ghost use Rattle.std.specs.Prelude.{◌≡◌, IfSome, true, option_map};
ghost use Rattle.tsc_span.specs.Span.{point, range_for_lookup, onward, start_cut, end_cut, is_below};
ghost use Rattle.tsc_span.specs.LookupSpan.{span_for_lookup};
ghost use Rattle.tsc_span.specs.Cuts.{cut_of, span_of_cuts};

use crate::{Cut, Ends};
use std::cmp::Ordering;
use std::marker::Model;

/// A span over keys that lie elsewhere, for lookups. It takes no memory, and copies no key.
///
/// The keys may be of any length. No Add has a key of more than 4096 bytes, but such a key still
/// stands at its place in the order of keys, and a span beside it overlaps what lies there.
#[derive(Debug, Drop)]
pub struct SpanRef<'a> {
    form: Form<'a>,
}

/// A single key is a form of its own, so whoever looks it up needs no cuts.
#[derive(Clone, Copy, Debug)]
enum Form<'a> {
    Nothing,
    Point(&'a [u8]),
    Between(Cut<'a>, Cut<'a>),
}

impl<'a> Model for SpanRef<'a> {
    ghost use Rattle.tsc_span.specs.Span.{SpanView};
    ghost use Rattle.tsc_span.specs.Form.{span_of, IsForm};

    ghost Value = { SpanView };

    ghost view = { λ s. span_of s.form };

    ghost invariant = { λ s. IsForm s.form };
}

impl<'a> SpanRef<'a> {
    /// The single key.
    pub fn point(key: &'a [u8]) -> SpanRef<'a>
        ensures { result ≡ point key.now }
    {
        SpanRef {
            form: Form::Point(key),
        }
    }

    /// The keys from one to another, where an inverted range is the empty span, as in
    /// [`Span::for_lookup`](crate::Span::for_lookup). It compares the two keys.
    pub fn for_lookup(from: &'a [u8], to: &'a [u8], ends: Ends) -> SpanRef<'a>
        ensures { result ≡ range_for_lookup from.now to.now ends.exclude_from ends.exclude_to }
    {
        match from.cmp(to) {
            Ordering::Greater => SpanRef {
                form: Form::Nothing,
            },
            Ordering::Equal if ends.exclude_from && ends.exclude_to => SpanRef {
                form: Form::Nothing,
            },
            Ordering::Equal => SpanRef::point(from),
            Ordering::Less => SpanRef {
                form: Form::Between(
                    start_cut(from, ends.exclude_from),
                    end_cut(to, ends.exclude_to),
                ),
            },
        }
    }

    /// All keys from one on, that key itself among them unless it is excluded. There is no end.
    pub fn onward(from: &'a [u8], exclude_from: bool) -> SpanRef<'a>
        ensures { result ≡ onward from.now exclude_from }
    {
        SpanRef {
            form: Form::Between(start_cut(from, exclude_from), Cut::Last),
        }
    }

    /// The keys from a start to an end, as [`for_lookup`](SpanRef::for_lookup) takes them. Without
    /// an end there are all keys from the start on, and whether the end is excluded makes no
    /// difference.
    pub fn between(start: &'a [u8], end: Option<&'a [u8]>, ends: Ends) -> SpanRef<'a>
        ensures { result ≡ span_for_lookup start.now (option_map (λ k. k.now) end.entry)
            ends.exclude_from ends.exclude_to }
    {
        match end {
            Some(end) => SpanRef::for_lookup(start, end, ends),
            None => SpanRef::onward(start, ends.exclude_from),
        }
    }

    /// The span between two cuts, or the empty one.
    pub(crate) fn of_cuts(cuts: Option<(Cut<'a>, Cut<'a>)>) -> SpanRef<'a>
        requires { IfSome cuts (λ cuts. is_below (cut_of cuts.0) (cut_of cuts.1) ≡ true) }
        ensures { result ≡ span_of_cuts cuts.entry }
    {
        let form = match cuts {
            Some((from, to)) => Form::Between(from, to),
            None => Form::Nothing,
        };
        SpanRef { form }
    }

    /// Where the span starts and where it stops, or `None` for the empty span.
    pub fn cuts(&self) -> Option<(Cut<'a>, Cut<'a>)>
        ensures value { span_of_cuts result ≡ self.now }
        ensures order { IfSome result (λ cuts. is_below (cut_of cuts.0) (cut_of cuts.1) ≡ true) }
    {
        match self.form {
            Form::Nothing => None,
            Form::Point(key) => Some((Cut::Before(key), Cut::After(key))),
            Form::Between(from, to) => Some((from, to)),
        }
    }

    /// The key of a span that was made as a [single one](SpanRef::point).
    pub fn key(&self) -> Option<&'a [u8]>
        ensures { IfSome result (λ key. self.now ≡ point key.now) }
    {
        match self.form {
            Form::Point(key) => Some(key),
            _ => None,
        }
    }
}

/// Where a span begins at a key.
pub(crate) fn start_cut(key: &[u8], excluded: bool) -> Cut<'_>
    ensures { cut_of result ≡ start_cut key.now excluded }
{
    if excluded {
        Cut::After(key)
    } else {
        Cut::Before(key)
    }
}

/// Where a span stops at a key.
pub(crate) fn end_cut(key: &[u8], excluded: bool) -> Cut<'_>
    ensures { cut_of result ≡ end_cut key.now excluded }
{
    if excluded {
        Cut::Before(key)
    } else {
        Cut::After(key)
    }
}
